// Calls of the entry points, on any state, from a script on standard input; the file stdout has what document 01 gives.
// A line is a letter, and for some a tab and upper-case hex:
// C: a call, its code, its value (two bytes) and the frame; J, O: the length of the memory and of the reply buffer that calls hand in;
// M, T: memory and state from a place on (two bytes, then bytes);
// and, alone, N: the fresh tag; Z: the state; E: the CRC of all memory bytes and that of all reply bytes.
#![tactic(auto)]

use model::Answer;
use refusals::Refusal;
use std::io;
use std::io::{Read, Write};
use tag::Tag;

#[derive(Clone, Copy)]
struct EntryRun {
    tag: Tag,
    // How much of each buffer a call hands in.
    memory: usize,
    reply: usize,
    // Lines before this one.
    number: u64,
}

// More than a call needs of each, so that a call can hand in too much.
const MEMORY: usize = 1100;

const REPLY: usize = 700;

// A line's bytes: a place and the whole memory.
const LINE: usize = 1102;

// What a line prints: that it is none of these, a call's answer, the state, or the two CRCs.
#[derive(Clone, Copy)]
enum EntryPrint {
    Bad,
    Answer(Answer),
    State,
    Crcs,
}

// What a line leaves.
#[derive(Clone, Copy)]
struct EntryLineOutcome {
    run: EntryRun,
    said: EntryPrint,
}

fn begin() -> EntryRun {
    EntryRun {
        tag: Tag::fresh(example_lines::uid()),
        memory: tag::MEMORY_BYTES,
        reply: tag::REPLY_BYTES,
        number: 0,
    }
}

fn with_tag(run: EntryRun, t: Tag) -> EntryRun {
    EntryRun { tag: t, ..run }
}

fn says(run: EntryRun, said: EntryPrint) -> EntryLineOutcome {
    EntryLineOutcome { run, said }
}

// A line that is none of these.
fn bad(run: EntryRun) -> EntryLineOutcome {
    says(run, EntryPrint::Bad)
}

fn nothing(run: EntryRun) -> EntryLineOutcome {
    says(run, EntryPrint::Answer(Answer::Nothing))
}

// The fresh tag; a refusal leaves the tag that there was.
fn fresh(run: EntryRun, m: &mut [u8]) -> EntryLineOutcome {
    let size = run.memory;
    if m.len() < size {
        return bad(run);
    }
    let o = model::fresh(example_lines::uid(), &mut m[0..size]);
    let a = o.answer;
    match a {
        Answer::Refused(why) => says(run, EntryPrint::Answer(Answer::Refused(why))),
        _ => {
            let t = o.tag;
            nothing(with_tag(run, t))
        }
    }
}

// A call and its answer.
fn call(run: EntryRun, m: &mut [u8], out: &mut [u8], bytes: &[u8]) -> EntryLineOutcome {
    if bytes.len() < 3 {
        return bad(run);
    }
    let memory = run.memory;
    let reply = run.reply;
    if m.len() < memory {
        return bad(run);
    }
    if out.len() < reply {
        return bad(run);
    }
    let code = parts::byte_at(bytes, 0);
    let value = example_states::word_at(bytes, 1);
    let t = run.tag;
    let o = model::step(
        t,
        &mut m[0..memory],
        &mut out[0..reply],
        code as u32,
        value as u32,
        &bytes[3..],
    );
    let a = o.answer;
    let after = o.tag;
    says(with_tag(run, after), EntryPrint::Answer(a))
}

// How much of a buffer of `most` bytes calls hand in from here on.
fn lent(run: EntryRun, kind: u8, bytes: &[u8], most: usize) -> EntryLineOutcome {
    let size = example_states::word_at(bytes, 0) as usize;
    if bytes.len() != 2 {
        return bad(run);
    }
    if most < size {
        return bad(run);
    }
    if kind == b'J' {
        return nothing(EntryRun {
            memory: size,
            ..run
        });
    }
    nothing(EntryRun { reply: size, ..run })
}

fn memory(run: EntryRun, m: &mut [u8], bytes: &[u8]) -> EntryLineOutcome {
    if example_states::store(m, bytes) {
        return nothing(run);
    }
    bad(run)
}

fn patch(run: EntryRun, bytes: &[u8]) -> EntryLineOutcome {
    match example_states::patch(run.tag, bytes) {
        Some(t) => nothing(with_tag(run, t)),
        None => bad(run),
    }
}

// A letter with bytes.
fn given(run: EntryRun, kind: u8, m: &mut [u8], out: &mut [u8], bytes: &[u8]) -> EntryLineOutcome {
    match kind {
        b'C' => call(run, m, out, bytes),
        b'J' => lent(run, kind, bytes, MEMORY),
        b'O' => lent(run, kind, bytes, REPLY),
        b'M' => memory(run, m, bytes),
        b'T' => patch(run, bytes),
        _ => bad(run),
    }
}

// A letter alone.
fn alone(run: EntryRun, kind: u8, m: &mut [u8]) -> EntryLineOutcome {
    match kind {
        b'N' => fresh(run, m),
        b'Z' => says(run, EntryPrint::State),
        b'E' => says(run, EntryPrint::Crcs),
        _ => bad(run),
    }
}

// What a line does, and what it prints.
fn act(
    run: EntryRun,
    s: &[u8],
    m: &mut [u8],
    out: &mut [u8],
    bytes: &mut [u8],
) -> EntryLineOutcome {
    let kind = parts::byte_at(s, 0);
    if s.len() == 1 {
        return alone(run, kind, m);
    }
    if lines::has_bytes(s) {
        let n = lines::line_bytes(s, bytes);
        if bytes.len() < n {
            return bad(run);
        }
        return given(run, kind, m, out, &bytes[0..n]);
    }
    bad(run)
}

fn put_refusal(text: &mut [u8], at: usize, why: Refusal) -> usize {
    let number = text::put_mark(text, at, b'!');
    text::put_decimal(text, number, why.number() as u64)
}

fn put_answer(text: &mut [u8], at: usize, answer: Answer, out: &[u8]) -> usize {
    match answer {
        Answer::Refused(why) => put_refusal(text, at, why),
        Answer::Nothing => text::put_mark(text, at, b'-'),
        Answer::Ack => text::put_mark(text, at, b'A'),
        Answer::NoAck => text::put_mark(text, at, b'N'),
        Answer::Byte(x) => hexadecimal::put_byte(text, at, x),
        Answer::Silence => text::put_mark(text, at, b'.'),
        Answer::Reply(n) => hexadecimal::put_hex(text, at, out, n),
    }
}

fn put_crcs(text: &mut [u8], at: usize, m: &[u8], out: &[u8]) -> usize {
    let second = hexadecimal::put_word(text, at, crc::crc(m));
    hexadecimal::put_word(text, second, crc::crc(out))
}

fn put_said(text: &mut [u8], at: usize, said: EntryPrint, t: Tag, m: &[u8], out: &[u8]) -> usize {
    match said {
        EntryPrint::Bad => text::put_mark(text, at, b'?'),
        EntryPrint::Answer(a) => put_answer(text, at, a, out),
        EntryPrint::State => example_states::put_state(text, at, t),
        EntryPrint::Crcs => put_crcs(text, at, m, out),
    }
}

// A line: its number, a tab, its answer.
fn print<W: Write>(
    to: &mut W,
    number: u64,
    said: EntryPrint,
    t: Tag,
    m: &[u8],
    out: &[u8],
) -> io::Result<()> {
    let mut text = [0u8; example_lines::ANSWER];
    let answer = example_lines::put_number(&mut text, number);
    let feed = put_said(&mut text, answer, said, t, m, out);
    example_lines::write_line(to, &mut text, feed)
}

fn line<W: Write>(
    to: &mut W,
    run: EntryRun,
    s: &[u8],
    m: &mut [u8],
    out: &mut [u8],
    bytes: &mut [u8],
) -> io::Result<EntryRun> {
    let number = run.number.wrapping_add(1);
    let EntryLineOutcome { run, said } = act(run, s, m, out, bytes);
    print(to, number, said, run.tag, m, out)?;
    Ok(EntryRun { number, ..run })
}

// All lines of s, as far as they can be written. The place moves by a line at a time, and no iterator of std's has lines
// as the definition has them.
fn lines<W: Write>(
    to: &mut W,
    s: &[u8],
    m: &mut [u8],
    out: &mut [u8],
    bytes: &mut [u8],
) -> io::Result<()> {
    let mut r = begin();
    let mut at = 0;
    while at < s.len() {
        r = line(to, r, example_lines::line_at(s, at), m, out, bytes)?;
        at = example_lines::next_at(s, at);
    }
    Ok(())
}

// A script, read into a lent buffer: all of its lines.
fn script<R: Read, W: Write, E: Write>(
    from: &mut R,
    to: &mut W,
    err: &mut E,
    input: &mut [u8; example_lines::SCRIPT],
) {
    let n = example_lines::read_script(from, err, input);
    let mut m = [0u8; MEMORY];
    let mut out = [0u8; REPLY];
    let mut bytes = [0u8; LINE];
    if lines(to, &input[..n], &mut m, &mut out, &mut bytes).is_err() {
        example_lines::report(err);
    }
}

fn main(rt: HostRuntime) {
    let mut from = rt.stdin();
    let mut to = rt.stdout();
    let mut err = rt.stderr();
    let mut input = [0u8; example_lines::SCRIPT];
    script(&mut from, &mut to, &mut err, &mut input);
}
