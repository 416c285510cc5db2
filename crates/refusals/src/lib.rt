// Which refusal, if any, a call gets.
#![tactic(auto)]

ghost use Rattle.std.specs.Prelude.{◌≡◌};
ghost use Rattle.refusals.specs.Call.{handed_in};
ghost use Rattle.refusals.specs.Refusals.{number, tag_in_range, fresh_rules, call_rules, later_rules, entry_rules, judgement};

use tag::Tag;

// Document 01's table of refusals, three of a rack, and two of the library for C.
#[derive(Clone, Copy)]
pub enum Refusal {
    MemoryLength,
    ReplyShort,
    SignalUnknown,
    OutOfRange,
    // The rack has no tag, or more than 16.
    RackSize,
    // The rack has no tag of the number that the call names.
    NoSuchTag,
    // Two tags of the rack have the same UID.
    EqualUids,
    // The state buffer has not a state's length.
    StateLength,
    // The UID has not its 8 bytes.
    UidLength,
}

impl Refusal {
    // Its number.
    pub fn number(self) -> u8
        ensures { result ≡ number self }
    {
        match self {
            Refusal::MemoryLength => 1,
            Refusal::ReplyShort => 2,
            Refusal::SignalUnknown => 3,
            Refusal::OutOfRange => 4,
            Refusal::RackSize => 5,
            Refusal::NoSuchTag => 6,
            Refusal::EqualUids => 7,
            Refusal::StateLength => 13,
            Refusal::UidLength => 14,
        }
    }
}

// ---- the tests
// Whether a tag and its memory are within the ranges.
pub fn in_range(t: Tag, m: &[u8]) -> bool
    ensures { result ≡ tag_in_range t m.now }
{
    let host = t.host;
    let bus = host.bus;
    ranges::in_range(t) & page::bus_in_range(bus, t.host.counter, t.core, t.host.session, m)
}

// ---- the order
// Of a fresh tag: 1.
pub fn fresh_refusal(m: &[u8]) -> Result<(), Refusal>
    ensures { result ≡ judgement (fresh_rules m.now) }
{
    if m.len() != tag::MEMORY_BYTES {
        return Err(Refusal::MemoryLength);
    }
    Ok(())
}

// Of a call, without its state: 1, 2, 3.
pub fn call_refusal(
    m: &[u8],
    out: &[u8],
    code: u32,
    value: u32,
    frame: &[u8],
) -> Result<(), Refusal>
    ensures { result ≡ judgement (call_rules m.now (handed_in out.now code value frame.now)) }
{
    if m.len() != tag::MEMORY_BYTES {
        return Err(Refusal::MemoryLength);
    }
    if out.len() < tag::REPLY_BYTES {
        return Err(Refusal::ReplyShort);
    }
    if !signal_table::signal_in_range(code, value) {
        return Err(Refusal::SignalUnknown);
    }
    Ok(())
}

// The rest: 4.
fn later_refusal(
    t: Tag,
    m: &[u8],
    out: &[u8],
    code: u32,
    value: u32,
    frame: &[u8],
) -> Result<(), Refusal>
    ensures { result ≡ judgement (later_rules t m.now (handed_in out.now code value frame.now)) }
{
    if !in_range(t, m) {
        return Err(Refusal::OutOfRange);
    }
    Ok(())
}

// Of a call: all of them.
pub fn entry_refusal(
    t: Tag,
    m: &[u8],
    out: &[u8],
    code: u32,
    value: u32,
    frame: &[u8],
) -> Result<(), Refusal>
    ensures { result ≡ judgement (entry_rules t m.now (handed_in out.now code value frame.now)) }
{
    call_refusal(m, out, code, value, frame)?;
    later_refusal(t, m, out, code, value, frame)
}
