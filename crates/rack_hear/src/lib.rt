// A rack's call at one tag: whether the signal goes to it, what it does there, and what the rack answers so far.
#![tactic(auto)]

ghost use Rattle.std.specs.Prelude.{◌≡◌, ◌+◌, ◌<◌, ◌≤◌, length};
ghost use Rattle.model.specs.Step.{is_reply};
ghost use Rattle.parts.specs.Pick.{pick};
ghost use Rattle.tag.specs.Layout.{memory_bytes};
ghost use Rattle.rack_hear.specs.Hear.{no_reply_answer, hear_start, hear_refused, hearing_of, passed_by, noted_by, heard_tag, act_at, hear_of};

use model::Answer;
use refusals::Refusal;
use tag::Tag;

// The call, and the rack's answer so far.
#[derive(Clone, Copy)]
pub struct Heard {
    // How many tags the rack has; 0 where the call is refused, so that no tag hears it.
    pub number: usize,
    // Where the next tag's memory begins.
    pub at: usize,
    pub code: u32,
    pub value: u32,
    // The tag that a signal to one tag goes to.
    pub to: usize,
    // A tag has replied; the reply buffer holds its reply.
    pub replied: bool,
    // Which tags have.
    pub answered: [bool; 16],
    pub answer: Answer,
}

// What a tag leaves of it, and the tag.
#[derive(Clone, Copy)]
pub struct HeardTag {
    pub heard: Heard,
    pub tag: Tag,
}

// ---- what is carried from tag to tag
#[tactic(auto, unfolding(model::specs::Step::is_reply))]
fn is_reply(answer: Answer) -> bool
    ensures { result ≡ is_reply answer }
{
    matches!(answer, Answer::Reply(_))
}

// The answer of a rack of which no tag replied.
fn no_reply(code: u32) -> Answer
    ensures { result ≡ no_reply_answer code }
{
    if code == 2 {
        return Answer::Nothing;
    }
    Answer::Silence
}

// A call that is not refused, before the first tag.
pub fn hear_start(number: usize, code: u32, value: u32, to: usize) -> Heard
    ensures { result ≡ hear_start number code value to }
{
    Heard {
        number,
        at: 0,
        code,
        value,
        to,
        replied: false,
        answered: [false; 16],
        answer: no_reply(code),
    }
}

// One that is refused.
fn hear_refused(why: Refusal, code: u32, value: u32, to: usize) -> Heard
    ensures { result ≡ hear_refused why code value to }
{
    Heard {
        answer: Answer::Refused(why),
        ..hear_start(0, code, value, to)
    }
}

// What the tags of a rack hear of a call that was judged.
pub fn hearing(
    judged: Result<(), Refusal>,
    number: usize,
    code: u32,
    value: u32,
    to: usize,
) -> Heard
    ensures { result ≡ hearing_of judged number code value to }
{
    match judged {
        Err(why) => hear_refused(why, code, value, to),
        Ok(()) => hear_start(number, code, value, to),
    }
}

// A tag that the signal does not go to; its memory ends at a place.
fn passed(heard: Heard, end: usize) -> Heard
    ensures { result ≡ passed_by heard end }
{
    Heard { at: end, ..heard }
}

// The first reply stands.
fn first_reply(heard: Heard, answer: Answer) -> Answer
    ensures { result ≡ pick heard.replied heard.answer answer }
{
    if heard.replied {
        return heard.answer;
    }
    answer
}

// Tag i answered; its memory ends at a place.
fn noted(heard: Heard, i: usize, end: usize, answer: Answer) -> Heard
    requires { i < 16 }
    ensures { result ≡ noted_by heard i end answer }
{
    let replied = is_reply(answer);
    let mut answered = heard.answered;
    answered[i] = replied;
    Heard {
        at: end,
        replied: heard.replied | replied,
        answered,
        answer: first_reply(heard, answer),
        ..heard
    }
}

// ---- one tag
// Tag i acts on a signal that goes to it. Once a tag has replied, a later one's reply is put aside.
fn act_at(
    t: Tag,
    memory: &mut [u8],
    out: &mut [u8],
    frame: &[u8],
    i: usize,
    heard: Heard,
) -> HeardTag
    requires { (i < 16) × (heard.at + memory_bytes ≤ length memory.old) }
    ensures { heard_tag result memory.new out.new ≡ act_at t memory.old out.old frame.now i heard }
{
    let at = heard.at;
    let end = at + tag::MEMORY_BYTES;
    let signal = signal_table::signal_by(heard.code, heard.value);
    if heard.replied {
        let mut aside = [0; 643];
        let o = model::act(signal, t, &mut memory[at..end], &mut aside, frame);
        return HeardTag {
            heard: noted(heard, i, end, o.answer),
            tag: o.tag,
        };
    }
    let o = model::act(signal, t, &mut memory[at..end], out, frame);
    HeardTag {
        heard: noted(heard, i, end, o.answer),
        tag: o.tag,
    }
}

// Tag i. One that is not of the rack, or whose memory does not lie within what is lent, hears nothing.
pub fn hear_tag(
    t: Tag,
    memory: &mut [u8],
    out: &mut [u8],
    frame: &[u8],
    i: usize,
    heard: Heard,
) -> HeardTag
    ensures { heard_tag result memory.new out.new ≡ hear_of t memory.old out.old frame.now i heard }
{
    if (heard.number <= i)
        || (15 < i)
        || (memory.len() < heard.at)
        || (memory.len() - heard.at < tag::MEMORY_BYTES)
    {
        return HeardTag { heard, tag: t };
    }
    if rack_judge::to_all(heard.code) | (i == heard.to) {
        return act_at(t, memory, out, frame, i, heard);
    }
    HeardTag {
        heard: passed(heard, heard.at + tag::MEMORY_BYTES),
        tag: t,
    }
}
