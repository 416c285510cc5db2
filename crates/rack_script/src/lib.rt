// A rack's script: a line to a call, a search, a tag or a bad line, an answer to its text, and the step from line to line.
#![tactic(auto)]

ghost use Rattle.std.specs.Prelude.{◌≡◌, ℕ, ◌≤◌, List, length};
ghost use Rattle.std.proofs.lemmas.List.Edits.{sets};
ghost use Rattle.line_stream.specs.Step.{text_room, line_stored, stores_line};
ghost use Rattle.rack_reading.specs.Line.{rack_line_of, uid_of};
ghost use Rattle.rack_script.specs.Script.{rack_state, numbered, none_text, bad_answered, call_answered, search_answered, add_answered, name_answered, rack_program, rack_frame};

use model::Answer;
use rack_reading::RackReading;
use rack_start::RackBench;

// What a line leaves beside both lent buffers: its text has this length.
#[derive(Clone, Copy)]
pub struct RackLineOutcome {
    pub bench: RackBench,
    pub length: usize,
}

// A bad line prints ? and changes nothing but the number of lines.
fn bad_line(bench: RackBench, text: &mut [u8]) -> RackLineOutcome
    ensures { (m o : List ℕ) → line_stored (rack_state result.bench m o) result.length text.new ≡ stores_line (bad_answered (rack_state bench m o)) text.old }
{
    let number = bench.number.wrapping_add(1);
    let length = rack_printing::put_bad_line(text, number);
    RackLineOutcome {
        bench: RackBench { number, ..bench },
        length,
    }
}

// A line that leaves the bench so and has no answer.
fn none_line(bench: RackBench, reply: &[u8; 643], text: &mut [u8]) -> RackLineOutcome
    ensures { (m : List ℕ) → line_stored (rack_state result.bench m reply.now) result.length text.new ≡ stores_line (numbered (rack_state bench m reply.now) none_text) text.old }
{
    let number = bench.number.wrapping_add(1);
    let length = rack_printing::put_rack_line(text, number, Answer::Nothing, reply, [false; 16]);
    RackLineOutcome {
        bench: RackBench { number, ..bench },
        length,
    }
}

// A call.
fn call_line(
    bench: RackBench,
    m: &mut [u8],
    reply: &mut [u8; 643],
    code: u8,
    value: u16,
    frame: &[u8],
    text: &mut [u8],
) -> RackLineOutcome
    requires { length m.old ≡ 16384 }
    ensures { line_stored (rack_state result.bench m.new reply.new) result.length text.new ≡ stores_line (call_answered code value (rack_state bench m.old reply.old) frame.now) text.old }
{
    let tags = bench.tags;
    let end = rack_start::memory_length(bench);
    let o = rack_model::step(
        tags,
        bench.count,
        &mut m[..end],
        reply,
        code as u32,
        value as u32,
        frame,
        bench.to as usize,
    );
    let number = bench.number.wrapping_add(1);
    let answer = o.answer;
    let answered = o.answered;
    let length = rack_printing::put_rack_line(text, number, answer, reply, answered);
    let left = o.tags;
    RackLineOutcome {
        bench: RackBench {
            tags: left,
            begun: true,
            number,
            ..bench
        },
        length,
    }
}

// A search.
fn search_line(
    bench: RackBench,
    m: &mut [u8],
    reply: &mut [u8; 643],
    frame: &[u8],
    text: &mut [u8],
) -> RackLineOutcome
    requires { length m.old ≡ 16384 }
    ensures { line_stored (rack_state result.bench m.new reply.new) result.length text.new ≡ stores_line (search_answered (rack_state bench m.old reply.old) frame.now) text.old }
{
    let tags = bench.tags;
    let end = rack_start::memory_length(bench);
    let o = collision_search::search(tags, bench.count, &mut m[..end], reply, frame);
    let number = bench.number.wrapping_add(1);
    let answer = o.answer;
    let length = rack_printing::put_search_line(text, number, answer);
    let left = o.tags;
    RackLineOutcome {
        bench: RackBench {
            tags: left,
            begun: true,
            number,
            ..bench
        },
        length,
    }
}

// A tag to add: s has the digits of its UID.
fn add_line(
    bench: RackBench,
    m: &mut [u8; 16384],
    reply: &[u8; 643],
    s: &[u8],
    text: &mut [u8],
) -> RackLineOutcome
    ensures { line_stored (rack_state result.bench m.new reply.now) result.length text.new ≡ stores_line (add_answered (uid_of s.now) (rack_state bench m.old reply.now)) text.old }
{
    if !rack_start::takes_tag(bench) {
        return bad_line(bench, text);
    }
    let uid = rack_reading::uid_of(s);
    let next = rack_start::add(bench, m, uid);
    none_line(next, reply, text)
}

// The tag that later lines are for.
fn name_line(bench: RackBench, to: u8, reply: &[u8; 643], text: &mut [u8]) -> RackLineOutcome
    ensures { (m : List ℕ) → line_stored (rack_state result.bench m reply.now) result.length text.new ≡ stores_line (name_answered to (rack_state bench m reply.now)) text.old }
{
    let next = RackBench {
        to,
        begun: true,
        ..bench
    };
    none_line(next, reply, text)
}

// A line without its line feed. Its text stands in `text` from place 0 on, and its frame in `frame`. The caller lends
// room for a frame: an array of its own would be cleared for each line, and few lines have one.
pub fn line(
    bench: RackBench,
    m: &mut [u8; 16384],
    reply: &mut [u8; 643],
    frame: &mut [u8; 602],
    s: &[u8],
    text: &mut [u8],
) -> RackLineOutcome
    ensures text_after { line_stored (rack_state result.bench m.new reply.new) result.length text.new ≡ stores_line (rack_program (rack_state bench m.old reply.old) s.now) text.old }
    ensures length_le_text_room { result.length ≤ text_room }
    ensures frame_after { frame.new ≡ sets frame.old 0 (rack_frame (rack_line_of s.now)) }
{
    match rack_reading::read(s) {
        None => bad_line(bench, text),
        Some(RackReading::Signal { code, value }) => {
            call_line(bench, m, reply, code, value, &s[..0], text)
        }
        Some(RackReading::Frame) => {
            let n = frame_text::put_frame(&s[2..], frame);
            let whole = &frame[..];
            call_line(bench, m, reply, 8, 0, &whole[..n], text)
        }
        Some(RackReading::Add) => add_line(bench, m, reply, &s[2..], text),
        Some(RackReading::Name(to)) => name_line(bench, to, reply, text),
        Some(RackReading::Search) => {
            let n = frame_text::put_frame(&s[2..], frame);
            let whole = &frame[..];
            search_line(bench, m, reply, &whole[..n], text)
        }
    }
}
