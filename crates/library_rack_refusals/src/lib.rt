// The refusals of the library's rack calls, over numbers and lent bytes.
#![tactic(auto)]

ghost use Rattle.std.specs.Prelude.{◌≡◌, [], ◌*◌, ◌≤◌, length};
ghost use Rattle.tag.specs.Layout.{memory_bytes};
ghost use Rattle.state.specs.Layout.{state_bytes};
ghost use Rattle.rack_states.specs.States.{tags_at, all_decode};
ghost use Rattle.refusals.specs.Call.{handed_in};
ghost use Rattle.refusals.specs.Refusals.{judgement};
ghost use Rattle.rack.specs.Rack.{devices_of};
ghost use Rattle.rack.specs.Rules.{all_in_range};
ghost use Rattle.library_rack_refusals.specs.Rules.{rack_bytes_rules};

use refusals::Refusal;

// Whether each of n states decodes to a tag.
fn all_decode(s: &[u8], n: usize) -> bool
    requires { n * state_bytes ≤ length s.now }
    ensures { result ≡ all_decode n s.now }
{
    let mut all = true;
    for i in 0..n {
        let at = i * state::STATE_BYTES;
        let one = state_judge::decodes(&s[at..at + state::STATE_BYTES]);
        all &= one;
    }
    all
}

// Whether each of n tags and its memory are within the ranges.
fn all_in_range(s: &[u8], m: &[u8], n: usize) -> bool
    requires { (n * state_bytes ≤ length s.now) × (n * memory_bytes ≤ length m.now) }
    ensures { result ≡ all_in_range (devices_of (tags_at n s.now) m.now) }
{
    let mut all = true;
    for i in 0..n {
        let at = i * state::STATE_BYTES;
        let from = i * tag::MEMORY_BYTES;
        // By the function that a rack's tags are taken by: it stays in one place.
        let tags = rack_states::decode_tags(&s[at..at + state::STATE_BYTES]);
        let one = refusals::in_range(tags[0], &m[from..from + tag::MEMORY_BYTES]);
        all &= one;
    }
    all
}

// Of a call, what is judged before the tags are taken from their states: 1, 2, 3, 13 and 4; of more than sixteen tags then 4 or 5.
pub fn rack_bytes_refusal(
    s: &[u8],
    m: &[u8],
    out: &[u8],
    number: u32,
    code: u32,
    value: u32,
) -> Result<(), Refusal>
    ensures { result ≡ judgement (rack_bytes_rules number s.now m.now (handed_in out.now code value [])) }
{
    let n = number as usize;
    if m.len() != n * tag::MEMORY_BYTES {
        return Err(Refusal::MemoryLength);
    }
    if out.len() < tag::REPLY_BYTES {
        return Err(Refusal::ReplyShort);
    }
    if !signal_table::signal_in_range(code, value) {
        return Err(Refusal::SignalUnknown);
    }
    if s.len() != n * state::STATE_BYTES {
        return Err(Refusal::StateLength);
    }
    if !all_decode(s, n) {
        return Err(Refusal::OutOfRange);
    }
    if n <= rack_states::MOST_TAGS {
        return Ok(());
    }
    if !all_in_range(s, m, n) {
        return Err(Refusal::OutOfRange);
    }
    Err(Refusal::RackSize)
}
