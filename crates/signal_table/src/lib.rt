// The signals: the code of each, its highest value, and what they stand for.
#![tactic(auto)]

ghost use Rattle.std.specs.Prelude.{◌≡◌};
ghost use Rattle.signal_table.specs.Table.{signal_found, signal_in_range, signal_by};

#[derive(Clone, Copy)]
pub enum WireSignal {
    Start,
    // A byte sent.
    Send(u8),
    // A byte fetched, with the host's Ack or not.
    Fetch(bool),
    Stop,
    // VCC at a level.
    Vcc(bool),
    ProgrammingEnd,
}

// What the signal of a call is.
#[derive(Clone, Copy)]
pub enum Signal {
    Wire(WireSignal),
    // The field at a level.
    Field(bool),
    Frame,
    // The lone end-of-frame that opens the next slot of an inventory.
    EndOfFrame,
}

// What a code and a value stand for.
#[tactic(auto, using(parts::proofs::Picks::picks), unfolding(crate::specs::Table::signal_found, crate::specs::Table::signal_table, rule_list::specs::RuleList::first_says))]
fn signal_found(code: u32, value: u32) -> Option<Signal>
    ensures { result ≡ signal_found code value }
{
    match (code, value) {
        (1, 0..=1) => Some(Signal::Wire(WireSignal::Vcc(value == 1))),
        (2, 0..=1) => Some(Signal::Field(value == 1)),
        (3, 0) => Some(Signal::Wire(WireSignal::Start)),
        (4, 0..=255) => Some(Signal::Wire(WireSignal::Send(value as u8))),
        (5, 0..=1) => Some(Signal::Wire(WireSignal::Fetch(value == 1))),
        (6, 0) => Some(Signal::Wire(WireSignal::Stop)),
        (7, 0) => Some(Signal::Wire(WireSignal::ProgrammingEnd)),
        (8, 0) => Some(Signal::Frame),
        (9, 0) => Some(Signal::EndOfFrame),
        _ => None,
    }
}

pub fn signal_in_range(code: u32, value: u32) -> bool
    ensures { result ≡ signal_in_range code value }
{
    signal_found(code, value).is_some()
}

pub fn signal_by(code: u32, value: u32) -> Signal
    ensures { result ≡ signal_by code value }
{
    signal_found(code, value).unwrap_or(Signal::Frame)
}
