// Areas and their ends.
#![tactic(auto)]

ghost use Rattle.std.specs.Prelude.{◌≡◌, leb};
ghost use Rattle.register_table.specs.Passed.{pick};
ghost use Rattle.areas.specs.Ends.{last_block, last_byte, area_of_block, area_of_byte, rises, ends_in_range, later_largest, exceeds_before, end_accepted, end_allows};

use register_table::WriteRule;
use register_types::EndA;
use registers::Ends;

// ENDAi of the last area.
pub const LARGEST_END: u8 = 0x0F;

// The last block of the area that an end closes.
fn last_block(end: EndA) -> u16
    ensures { result ≡ last_block end }
{
    8 * (end.bits as u16) + 7
}

// The last byte of the area that an end closes.
fn last_byte(end: EndA) -> u16
    ensures { result ≡ last_byte end }
{
    32 * (end.bits as u16) + 31
}

// The first area whose last place is not before one; area 4 takes the rest.
#[tactic(auto, using(register_table::proofs::Passed::picks))]
fn first_reaching(at: u16, last1: u16, last2: u16, last3: u16) -> u8
    ensures { result ≡ pick (leb at last1) 1 (pick (leb at last2) 2 (pick (leb at last3) 3 4)) }
{
    if at <= last1 {
        1
    } else if at <= last2 {
        2
    } else if at <= last3 {
        3
    } else {
        4
    }
}

// The area that a block lies in.
#[tactic(auto, unfolding(crate::specs::Ends::area_of_block))]
pub fn area_of_block(e: Ends, block: u16) -> u8
    ensures { result ≡ area_of_block e block }
{
    first_reaching(
        block,
        last_block(e.end1),
        last_block(e.end2),
        last_block(e.end3),
    )
}

// The area that a byte of user memory lies in.
#[tactic(auto, unfolding(crate::specs::Ends::area_of_byte))]
pub fn area_of_byte(e: Ends, at: u16) -> u8
    ensures { result ≡ area_of_byte e at }
{
    first_reaching(at, last_byte(e.end1), last_byte(e.end2), last_byte(e.end3))
}

// Whether an end lies above the one before it; both may be the largest.
fn rises(lower: EndA, upper: EndA) -> bool
    ensures { result ≡ rises lower upper }
{
    (lower.bits < upper.bits) | ((lower.bits == LARGEST_END) & (upper.bits == LARGEST_END))
}

// Whether the ends rise, two equal only at 0Fh.
#[tactic(auto, unfolding(crate::specs::Ends::ends_in_range))]
pub fn ends_in_range(e: Ends) -> bool
    ensures { result ≡ ends_in_range e }
{
    (e.end1.bits <= LARGEST_END)
        & (e.end2.bits <= LARGEST_END)
        & (e.end3.bits <= LARGEST_END)
        & rises(e.end1, e.end2)
        & rises(e.end2, e.end3)
}

// Whether all ends after ENDAi are the largest.
#[tactic(auto, using(register_table::proofs::Passed::picks), unfolding(crate::specs::Ends::later_largest))]
fn later_largest(e: Ends, i: u8) -> bool
    ensures { result ≡ later_largest e i }
{
    match i {
        1 => (e.end2.bits == LARGEST_END) & (e.end3.bits == LARGEST_END),
        2 => e.end3.bits == LARGEST_END,
        3 => true,
        _ => false,
    }
}

// Whether x exceeds the end before ENDAi.
#[tactic(auto, using(register_table::proofs::Passed::picks), unfolding(crate::specs::Ends::exceeds_before))]
fn exceeds_before(e: Ends, i: u8, x: u8) -> bool
    ensures { result ≡ exceeds_before e i x }
{
    match i {
        1 => true,
        2 => e.end1.bits < x,
        _ => e.end2.bits < x,
    }
}

// Whether ENDAi, i from 1 to 3, may become x.
#[tactic(auto, unfolding(crate::specs::Ends::end_accepted))]
pub fn end_accepted(e: Ends, i: u8, x: u8) -> bool
    ensures { result ≡ end_accepted e i x }
{
    (x <= LARGEST_END) & later_largest(e, i) & (exceeds_before(e, i, x) | (x == LARGEST_END))
}

// Whether a byte may be written to the register at an address as far as the ends go.
#[tactic(auto, unfolding(crate::specs::Ends::end_allows))]
pub fn end_allows(e: Ends, at: u32, x: u8) -> bool
    ensures { result ≡ end_allows e at x }
{
    match register_table::row_of(at).rule {
        WriteRule::AreaEnd(i) => end_accepted(e, i, x),
        WriteRule::Plain | WriteRule::MailboxMode => true,
    }
}
