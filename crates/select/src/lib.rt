// Select bytes and addresses of the wire.
#![tactic(auto)]

ghost use Rattle.std.specs.Prelude.{◌≡◌};
ghost use Rattle.select.specs.Select.{select_of, choose, address, first_of};

use bus::Space;

// What a select byte comes to: no Ack, or a leg of one of two kinds. An Option would need a second enum inside.
#[derive(Clone, Copy)]
pub enum Choice {
    NotAcked,
    Reading(Space),
    Writing(Space),
}

#[tactic(auto, using(parts::proofs::Picks::picks), unfolding(crate::specs::Select::select_of))]
fn select_of(x: u8) -> Choice
    ensures { result ≡ select_of x }
{
    match x {
        0xA6 => Choice::Writing(Space::User),
        0xA7 => Choice::Reading(Space::User),
        0xAE => Choice::Writing(Space::System),
        0xAF => Choice::Reading(Space::System),
        _ => Choice::NotAcked,
    }
}

// The choice of a select byte: none without VCC or while programming.
#[tactic(auto, using(parts::proofs::Picks::picks), unfolding(crate::specs::Select::choose))]
pub fn choose(vcc: bool, programming: bool, x: u8) -> Choice
    ensures { result ≡ choose vcc programming x }
{
    if programming | !vcc {
        return Choice::NotAcked;
    }
    select_of(x)
}

// The address of two bytes.
pub fn address(high: u8, low: u8) -> u16
    ensures { result ≡ address high low }
{
    u16::from_be_bytes([high, low])
}

// The first address of a write leg, from the counter and the page bytes.
pub fn first_of(counter: u16, count: u16) -> u16
    ensures { result ≡ first_of counter count }
{
    counter.wrapping_sub(count)
}
