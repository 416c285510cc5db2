// Judging a rack's call: sixteen tags by value, of which the first ones are the rack, their memories end to end in a lent buffer.
#![tactic(auto)]

ghost use Rattle.std.specs.Prelude.{◌≡◌, [], ◌*◌, ◌≤◌, min, length, take};
ghost use Rattle.keys.specs.Keys.{same_uid};
ghost use Rattle.tag.specs.Layout.{memory_bytes};
ghost use Rattle.refusals.specs.Call.{handed_in};
ghost use Rattle.refusals.specs.Refusals.{judgement};
ghost use Rattle.rack.specs.Rack.{rack_of, rack_call, devices_of, to_all};
ghost use Rattle.rack.specs.Rules.{most_tags, all_in_range, equal_uids, rack_rules};
ghost use Rattle.rack_judge.specs.Judge.{uid_among};

use keys::Uid;
use refusals::Refusal;
use tag::Tag;

// How many tags the rack has: as many as it is to have, and no more than sixteen.
pub fn tag_count(number: usize) -> usize
    ensures { result ≡ min number most_tags }
{
    number.min(16)
}

// Whether a signal goes to all tags: a field change, a frame or an end-of-frame.
pub fn to_all(code: u32) -> bool
    ensures { result ≡ to_all code }
{
    (code == 2) | (code == 8) | (code == 9)
}

// ---- the tags
// Whether each of the first n tags and its memory are within the ranges.
fn all_in_range(tags: [Tag; 16], n: usize, memory: &[u8]) -> bool
    requires { (n ≤ 16) × (n * memory_bytes ≤ length memory.now) }
    ensures { result ≡ all_in_range (devices_of (take n tags) memory.now) }
{
    let mut all = true;
    for i in 0..n {
        let at = i * tag::MEMORY_BYTES;
        let one = refusals::in_range(tags[i], &memory[at..at + tag::MEMORY_BYTES]);
        all &= one;
    }
    all
}

// Of a UID taken out of an array its length is known here alone.
fn same(one: Uid, other: Uid) -> bool
    ensures { result ≡ same_uid one other }
{
    one == other
}

// Whether one of the first n UIDs is u.
fn uid_among(uids: [Uid; 16], n: usize, u: Uid) -> bool
    requires { n ≤ 16 }
    ensures { result ≡ uid_among uids n u }
{
    let mut found = false;
    for i in 0..n {
        found |= same(uids[i], u);
    }
    found
}

// Whether two of the first n tags have the same UID. The UIDs are gathered, so that what is handed on is short.
fn equal_uids(tags: [Tag; 16], n: usize) -> bool
    requires { n ≤ 16 }
    ensures { result ≡ equal_uids (take n tags) }
{
    let none = Uid { bytes: [0; 8] };
    let mut uids = [none; 16];
    let mut found = false;
    for i in 0..n {
        let u = tags[i].uid;
        let one = uid_among(uids, i, u);
        found |= one;
        uids[i] = u;
    }
    found
}

// ---- the call
// Its refusal; no rule reads the frame.
pub fn rack_refusal(
    tags: [Tag; 16],
    number: usize,
    memory: &[u8],
    out: &[u8],
    code: u32,
    value: u32,
    to: usize,
) -> Result<(), Refusal>
    ensures { result ≡ judgement (rack_rules (rack_of (take number tags) memory.now) (rack_call (handed_in out.now code value []) to)) }
{
    let n = tag_count(number);
    if memory.len() != n * tag::MEMORY_BYTES {
        return Err(Refusal::MemoryLength);
    }
    if out.len() < tag::REPLY_BYTES {
        return Err(Refusal::ReplyShort);
    }
    if !signal_table::signal_in_range(code, value) {
        return Err(Refusal::SignalUnknown);
    }
    if !all_in_range(tags, n, memory) {
        return Err(Refusal::OutOfRange);
    }
    if n == 0 {
        return Err(Refusal::RackSize);
    }
    if !to_all(code) & (n <= to) {
        return Err(Refusal::NoSuchTag);
    }
    if equal_uids(tags, n) {
        return Err(Refusal::EqualUids);
    }
    Ok(())
}
