// Verdicts on writes, of any tag, from a script on standard input; the file stdout has what documents 01 and 02 give, worked out by hand.
// A line is a letter, and for some a tab and upper-case hex:
// T, M: state and memory from a place on (two bytes, then bytes); alone, N: the fresh tag, all memory 0;
// W: data byte of a write leg: spoiled (00, 01), space (00 user, 01 system), first address, place in the leg (two bytes each), the byte;
// by radio, B: a block (two bytes); C: pointer and byte of command A1; P: password number of command B1.
// A line that begins with # says what is asked, and is printed as it is.
#![tactic(auto)]

use bus::Space;
use std::io;
use std::io::{Read, Write};
use tag::{Core, Tag};
use write_reasons::{DataByteAsked, WriteAsked, WriteReason};

#[derive(Clone, Copy)]
struct WriteRun {
    tag: Tag,
    // Lines before this one.
    number: u64,
}

// A line's bytes: a place and the whole memory.
const LINE: usize = 2 + tag::MEMORY_BYTES;

// What a line prints: that it is none of these, that it was done, itself, or a verdict.
#[derive(Clone, Copy)]
enum WritePrint {
    Bad,
    Done,
    Remark,
    Verdict(Result<(), WriteReason>),
}

// What a line leaves.
#[derive(Clone, Copy)]
struct WriteLineOutcome {
    tag: Tag,
    said: WritePrint,
}

fn says(t: Tag, said: WritePrint) -> WriteLineOutcome {
    WriteLineOutcome { tag: t, said }
}

fn done(taken: bool) -> WritePrint {
    if taken {
        return WritePrint::Done;
    }
    WritePrint::Bad
}

fn fresh(m: &mut [u8]) -> WriteLineOutcome {
    let zeros = [0u8; tag::MEMORY_BYTES];
    parts::put_bytes(m, 0, &zeros, 0, tag::MEMORY_BYTES);
    says(Tag::fresh(example_lines::uid()), WritePrint::Done)
}

fn patch(t: Tag, bytes: &[u8]) -> WriteLineOutcome {
    match example_states::patch(t, bytes) {
        Some(after) => says(after, WritePrint::Done),
        None => says(t, WritePrint::Bad),
    }
}

fn space_of(n: u8) -> Space {
    if n == 0 {
        return Space::User;
    }
    Space::System
}

// By the wire, with the I2C session open or not.
fn data_byte(session: bool, bytes: &[u8]) -> Option<WriteAsked> {
    let spoiled = parts::byte_at(bytes, 0);
    let space = parts::byte_at(bytes, 1);
    if (bytes.len() != 7) | (1 < spoiled) | (1 < space) {
        return None;
    }
    Some(WriteAsked::DataByte(DataByteAsked {
        session,
        spoiled: spoiled == 1,
        space: space_of(space),
        first: example_states::word_at(bytes, 2),
        k: example_states::word_at(bytes, 4),
        x: parts::byte_at(bytes, 6),
    }))
}

// By radio, with its session.
fn block(session: u8, bytes: &[u8]) -> Option<WriteAsked> {
    if bytes.len() != 2 {
        return None;
    }
    Some(WriteAsked::Block {
        session,
        block: example_states::word_at(bytes, 0),
    })
}

fn pointer(session: u8, bytes: &[u8]) -> Option<WriteAsked> {
    if bytes.len() != 2 {
        return None;
    }
    Some(WriteAsked::Pointer {
        session,
        pointer: parts::byte_at(bytes, 0),
        x: parts::byte_at(bytes, 1),
    })
}

fn password(session: u8, bytes: &[u8]) -> Option<WriteAsked> {
    if bytes.len() != 1 {
        return None;
    }
    Some(WriteAsked::PasswordOf {
        session,
        n: parts::byte_at(bytes, 0),
    })
}

// The write that a line asks about, if it asks about one, with the wire's session and the radio's.
fn asked(kind: u8, bytes: &[u8], wire: bool, radio: u8) -> Option<WriteAsked> {
    match kind {
        b'W' => data_byte(wire, bytes),
        b'B' => block(radio, bytes),
        b'C' => pointer(radio, bytes),
        b'P' => password(radio, bytes),
        _ => None,
    }
}

fn judged(c: Core, m: &[u8], asked: Option<WriteAsked>) -> WritePrint {
    match asked {
        None => WritePrint::Bad,
        Some(write) => WritePrint::Verdict(write_verdict::verdict(c, m, write)),
    }
}

// A letter with bytes.
fn given(t: Tag, kind: u8, m: &mut [u8], bytes: &[u8]) -> WriteLineOutcome {
    match kind {
        b'T' => patch(t, bytes),
        b'M' => says(t, done(example_states::store(m, bytes))),
        _ => {
            let a = asked(kind, bytes, t.host.session, t.air.session);
            says(t, judged(t.core, m, a))
        }
    }
}

// What a line does, and what it prints.
fn act(t: Tag, s: &[u8], m: &mut [u8], bytes: &mut [u8]) -> WriteLineOutcome {
    let kind = parts::byte_at(s, 0);
    if kind == b'#' {
        return says(t, WritePrint::Remark);
    }
    if (s.len() == 1) & (kind == b'N') {
        return fresh(m);
    }
    if lines::has_bytes(s) {
        let n = lines::line_bytes(s, bytes);
        if bytes.len() < n {
            return says(t, WritePrint::Bad);
        }
        return given(t, kind, m, &bytes[0..n]);
    }
    says(t, WritePrint::Bad)
}

fn put_line(text: &mut [u8], at: usize, s: &[u8]) -> usize {
    parts::put_bytes(text, at, s, 0, s.len());
    text::after(at, s.len())
}

fn put_said(text: &mut [u8], at: usize, said: WritePrint, s: &[u8]) -> usize {
    match said {
        WritePrint::Bad => text::put_mark(text, at, b'?'),
        WritePrint::Done => text::put_mark(text, at, b'-'),
        WritePrint::Remark => put_line(text, at, s),
        WritePrint::Verdict(verdict) => rule_names::put_verdict(text, at, verdict),
    }
}

// A line: its number, a tab, its answer.
fn print<W: Write>(to: &mut W, number: u64, said: WritePrint, s: &[u8]) -> io::Result<()> {
    let mut text = [0u8; example_lines::ANSWER];
    let answer = example_lines::put_number(&mut text, number);
    let feed = put_said(&mut text, answer, said, s);
    example_lines::write_line(to, &mut text, feed)
}

fn begin() -> WriteRun {
    WriteRun {
        tag: Tag::fresh(example_lines::uid()),
        number: 0,
    }
}

fn line<W: Write>(
    to: &mut W,
    run: WriteRun,
    s: &[u8],
    m: &mut [u8],
    bytes: &mut [u8],
) -> io::Result<WriteRun> {
    let number = run.number.wrapping_add(1);
    let WriteLineOutcome { tag, said } = act(run.tag, s, m, bytes);
    print(to, number, said, s)?;
    Ok(WriteRun { tag, number })
}

// All lines of s, as far as they can be written. The place moves by a line at a time, and no iterator of std's has lines
// as the definition has them.
fn lines<W: Write>(to: &mut W, s: &[u8], m: &mut [u8], bytes: &mut [u8]) -> io::Result<()> {
    let mut r = begin();
    let mut at = 0;
    while at < s.len() {
        r = line(to, r, example_lines::line_at(s, at), m, bytes)?;
        at = example_lines::next_at(s, at);
    }
    Ok(())
}

// A script, read into a lent buffer: all of its lines.
fn script<R: Read, W: Write, E: Write>(
    from: &mut R,
    to: &mut W,
    err: &mut E,
    input: &mut [u8; example_lines::SCRIPT],
) {
    let n = example_lines::read_script(from, err, input);
    let mut m = [0u8; tag::MEMORY_BYTES];
    let mut bytes = [0u8; LINE];
    if lines(to, &input[..n], &mut m, &mut bytes).is_err() {
        example_lines::report(err);
    }
}

fn main(rt: HostRuntime) {
    let mut from = rt.stdin();
    let mut to = rt.stdout();
    let mut err = rt.stderr();
    let mut input = [0u8; example_lines::SCRIPT];
    script(&mut from, &mut to, &mut err, &mut input);
}
