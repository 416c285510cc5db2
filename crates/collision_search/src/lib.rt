// The installer's search: the first slot in which two tags of a rack answer, by what its tags really do.
#![tactic(auto)]

ghost use Rattle.std.specs.Prelude.{◌≡◌, ◌≤◌, Ok, take, drop};
ghost use Rattle.refusals.specs.Refusals.{judgement};
ghost use Rattle.rack.specs.Rack.{rack_of};
ghost use Rattle.rack.specs.Step.{rack_entry};
ghost use Rattle.rack_search.specs.Search.{sends_frame, opens_sixteen, slot_count, search_result, look, search_rules, search_entry};
ghost use Rattle.rack_hear.specs.Hear.{heard_all};
ghost use Rattle.collision_search.specs.Slot.{sends_slot, hears_call};

use rack_walk::HeardRack;
use refusals::Refusal;
use tag::Tag;

// What is found, none or the slot, and the tags as it leaves them.
#[derive(Clone, Copy)]
pub struct SearchOutcome {
    pub tags: [Tag; 16],
    pub answer: Result<Option<u8>, Refusal>,
}

// ---- the slots
// Whether the frame is well-formed for sixteen slots, CRC right.
fn opens_sixteen(frame: &[u8]) -> bool
    ensures { result ≡ opens_sixteen frame.now }
{
    let flags = parts::byte_at(frame, 0);
    let wrong_length = (frame.len() < 4) | (270 < frame.len());
    let good = crc::is_good(frame);
    let malformed = inventory::is_malformed(frame);
    (flags / 0x04 % 2 == 1) & !wrong_length & good & !malformed & !(flags / 0x20 % 2 == 1)
}

fn slot_count(frame: &[u8]) -> u8
    ensures { result ≡ slot_count frame.now }
{
    if opens_sixteen(frame) {
        return 16;
    }
    1
}

// Opens a slot: every tag hears the frame, or from the second slot on an end-of-frame.
fn open_slot(
    tags: [Tag; 16],
    number: usize,
    memory: &mut [u8],
    out: &mut [u8],
    frame: &[u8],
    slot: u8,
) -> HeardRack
    ensures { heard_all result.heard result.tags memory.new out.new ≡ hears_call tags number memory.old (sends_slot slot out.old frame.now) }
{
    if slot == 0 {
        let heard = rack_hear::hear_start(number, 8, 0, 0);
        return rack_walk::hear_sixteen(tags, memory, out, frame, heard);
    }
    let heard = rack_hear::hear_start(number, 9, 0, 0);
    rack_walk::hear_sixteen(tags, memory, out, &frame[0..0], heard)
}

// ---- the search
// Looks into a number of slots. A slot's signal has reached every tag before its answers are looked at.
fn look_into(
    mut tags: [Tag; 16],
    number: usize,
    memory: &mut [u8],
    out: &mut [u8],
    frame: &[u8],
    slots: u8,
) -> SearchOutcome
    requires { (number ≤ 16) × (judgement (search_rules (rack_of (take number tags) memory.old) out.old) ≡ Ok tt) }
    ensures out_after { search_result result.answer (rack_of (take number result.tags) memory.new) out.new ≡ look rack_entry slots 0 (rack_of (take number tags) memory.old) (sends_frame out.old frame.now) }
    ensures tags_value { drop number result.tags ≡ drop number tags }
{
    let mut answer = Ok(None);
    'search: for slot in 0..slots {
        let opened = open_slot(tags, number, memory, out, frame, slot);
        tags = opened.tags;
        let heard = opened.heard;
        let answered = heard.answered;
        let mut seen = false;
        for i in 0..16 {
            if answered[i] {
                if seen {
                    answer = Ok(Some(slot));
                    break 'search;
                }
                seen = true;
            }
        }
    }
    SearchOutcome { answer, tags }
}

// Over the first `number` of sixteen tags, all of them where it is larger.
pub fn search(
    tags: [Tag; 16],
    number: usize,
    memory: &mut [u8],
    out: &mut [u8],
    frame: &[u8],
) -> SearchOutcome
    ensures out_after { search_result result.answer (rack_of (take number result.tags) memory.new) out.new ≡ search_entry (rack_of (take number tags) memory.old) out.old frame.now }
    ensures tags_value { drop number result.tags ≡ drop number tags }
{
    let judged = rack_judge::rack_refusal(tags, number, memory, out, 8, 0, 0);
    let n = rack_judge::tag_count(number);
    match judged {
        Err(why) => SearchOutcome {
            answer: Err(why),
            tags,
        },
        Ok(()) => look_into(tags, n, memory, out, frame, slot_count(frame)),
    }
}
