// Bench scripts: a line to a call or a bad line, an answer to its text, and the step from line to line.
#![tactic(auto)]

ghost use Rattle.std.specs.Prelude.{◌≡◌, Bool, List, ℕ, ◌≤◌, length, take, IfSome, IfNone};
ghost use Rattle.std.proofs.lemmas.List.Edits.{sets};
ghost use Rattle.bench_start.specs.declared.Bench.{Bench};
ghost use Rattle.reading.specs.Line.{line_of};
ghost use Rattle.script.specs.Bench.{longest_text, line_buffers, put_line, rule_named, bench_call, bad_result, closed_frame, bench_of};

use bench_start::Bench;
use model::Answer;
use reading::Reading;
use refusals::Refusal;
use tag::Tag;

// What a line leaves beside both lent buffers: its text has this length.
#[derive(Clone, Copy)]
pub struct LineOutcome {
    pub bench: Bench,
    pub length: usize,
}

// The rule that gives the answer to a call, where it is asked for; 0 where not, or where no rule gives it.
fn rule_named(named: bool, t: Tag, m: &[u8], code: u8, value: u16, frame: &[u8]) -> u8
    ensures { result ≡ rule_named named t m.now code value frame.now }
{
    if named {
        return explanation::rule_of(t, m, code as u32, value as u32, frame);
    }
    0
}

// A call, and its answer's line: where rules are named, with the name of the one that gave it. It stays a call, so that
// `line` is small, and a bad line needs none of it.
#[inline(never)]
fn call(
    named: bool,
    bench: Bench,
    m: &mut [u8],
    reply: &mut [u8; 643],
    code: u8,
    value: u16,
    frame: &[u8],
    text: &mut [u8],
) -> LineOutcome
    ensures { line_buffers result.bench result.length m.new reply.new text.new ≡ put_line (bench_call named bench m.old reply.old code value frame.now) text.old }
{
    let t = bench.tag;
    let rule = rule_named(named, t, m, code, value, frame);
    let o = model::step(t, m, reply, code as u32, value as u32, frame);
    let answer = o.answer;
    let tag = o.tag;
    let number = bench_start::next_line(bench);
    let length = printing::put_line(text, number, answer, reply, rule);
    LineOutcome {
        bench: Bench { tag, number },
        length,
    }
}

// What a line's call hands over: its frame has this length.
#[derive(Clone, Copy)]
struct Arguments {
    code: u8,
    value: u16,
    length: usize,
}

// None: a bad line is no call.
fn arguments_of(s: &[u8], frame: &mut [u8; 602]) -> Option<Arguments>
    ensures bad { IfNone result ((named : Bool) (bench : Bench) (m o : List ℕ) → bad_result bench m o ≡ bench_of named bench m o s.now) }
    ensures good { IfSome result (λ a. (named : Bool) (bench : Bench) (m o : List ℕ) → bench_call named bench m o a.code a.value (take a.length frame.new) ≡ bench_of named bench m o s.now) }
    ensures length_in_bounds { IfSome result (λ a. a.length ≤ length frame.new) }
    ensures frame_after { frame.new ≡ sets frame.old 0 (closed_frame (line_of s.now)) }
{
    match reading::read(s) {
        None => None,
        Some(Reading::Signal { code, value }) => Some(Arguments {
            code,
            value,
            length: 0,
        }),
        Some(Reading::Frame) => Some(Arguments {
            code: 8,
            value: 0,
            length: frame_text::put_frame(&s[2..], frame),
        }),
    }
}

// A bad line is no call: it prints ? and changes nothing but the number of lines.
fn bad_line(bench: Bench, reply: &[u8; 643], text: &mut [u8]) -> LineOutcome
    ensures { (m : List ℕ) → line_buffers result.bench result.length m reply.now text.new ≡ put_line (bad_result bench m reply.now) text.old }
{
    let tag = bench.tag;
    let number = bench_start::next_line(bench);
    let answer = Answer::Refused(Refusal::SignalUnknown);
    let length = printing::put_line(text, number, answer, reply, 0);
    LineOutcome {
        bench: Bench { tag, number },
        length,
    }
}

// A line without its line feed. Its text stands in `text` from place 0 on, and its frame in `frame`; `named`: with the
// name of the rule that gave the answer. The caller lends room for a frame: an array of its own would be cleared for
// each line, and few lines have one. It goes into its callers: as a call it would copy the tag for each line.
#[inline(always)]
pub fn line(
    named: bool,
    bench: Bench,
    m: &mut [u8],
    reply: &mut [u8; 643],
    frame: &mut [u8; 602],
    s: &[u8],
    text: &mut [u8],
) -> LineOutcome
    ensures text_after { line_buffers result.bench result.length m.new reply.new text.new ≡ put_line (bench_of named bench m.old reply.old s.now) text.old }
    ensures length_le_longest_text { result.length ≤ longest_text }
    ensures frame_after { frame.new ≡ sets frame.old 0 (closed_frame (line_of s.now)) }
{
    match arguments_of(s, frame) {
        None => bad_line(bench, reply, text),
        Some(c) => {
            let whole = &frame[..];
            call(
                named,
                bench,
                m,
                reply,
                c.code,
                c.value,
                &whole[..c.length],
                text,
            )
        }
    }
}
