// One call of a rack: sixteen tags by value, of which the first ones are the rack, their memories end to end in a lent buffer.
#![tactic(auto)]

ghost use Rattle.std.specs.Prelude.{◌≡◌, take, drop};
ghost use Rattle.refusals.specs.Call.{handed_in};
ghost use Rattle.calls.specs.Calls.{call_answer};
ghost use Rattle.rack.specs.Rack.{rack_of, rack_call};
ghost use Rattle.rack.specs.Step.{numbers_from, rack_answer, rack_result, rack_entry};

use model::Answer;
use tag::Tag;

// The answer, which tags replied, and the tags.
#[derive(Clone, Copy)]
pub struct RackOutcome {
    pub answer: Answer,
    pub answered: [bool; 16],
    pub tags: [Tag; 16],
}

// The first tags are the rack, as many as `number`; all sixteen where it is larger. The others stay.
pub fn step(
    tags: [Tag; 16],
    number: usize,
    memory: &mut [u8],
    out: &mut [u8],
    code: u32,
    value: u32,
    frame: &[u8],
    to: usize,
) -> RackOutcome
    ensures memory_after { rack_result (rack_answer (call_answer result.answer out.new) (numbers_from 0 result.answered)) (rack_of (take number result.tags) memory.new) ≡ rack_entry (rack_of (take number tags) memory.old) (rack_call (handed_in out.old code value frame.now) to) }
    ensures tags_value { drop number result.tags ≡ drop number tags }
{
    let judged = rack_judge::rack_refusal(tags, number, memory, out, code, value, to);
    let n = rack_judge::tag_count(number);
    let start = rack_hear::hearing(judged, n, code, value, to);
    let o = rack_walk::hear_sixteen(tags, memory, out, frame, start);
    let heard = o.heard;
    let answer = heard.answer;
    let answered = heard.answered;
    let left = o.tags;
    RackOutcome {
        answer,
        answered,
        tags: left,
    }
}
