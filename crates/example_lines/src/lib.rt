// For the example program: a script from standard input, its lines, and the lines that answer them.
#![tactic(auto)]

ghost use Rattle.std.specs.Prelude.{◌≡◌, ◌+◌, ◌<◌, set, length, take, OnOk};
ghost use Rattle.std.specs.Io.KnownBytes.{Keeps, Appends, Consumes};
ghost use Rattle.console.specs.Written.{AppendsStart};
ghost use Rattle.text.specs.Place.{stored, text_at};
ghost use Rattle.example_lines.specs.Lines.{IsPrefixLen, example_uid, script_line, next_at, number_text, too_long_message, cannot_write_message};

use keys::Uid;
use std::io;
use std::io::{Error, ErrorKind, Read, Write};

// More bytes than a script has.
pub const SCRIPT: usize = 524288;

// More bytes than a line's answer has.
pub const ANSWER: usize = 1500;

// The UID of the tags.
pub fn uid() -> Uid
    ensures { result ≡ example_uid }
{
    Uid {
        bytes: [0x01, 0x02, 0x03, 0x04, 0x05, 0x24, 0x02, 0xE0],
    }
}

// Reads until the buffer is full, the input ends or a read fails, and gives how many bytes it put at its start.
fn read_full<R: Read>(from: &mut R, input: &mut [u8]) -> usize
    ensures within { IsPrefixLen result input.new }
    ensures taken { Consumes (R.remaining from.old) (R.remaining from.new) (take result input.new) }
{
    let mut done = 0;
    while done < input.len() {
        match console::read(from, &mut input[done..]) {
            Ok(0) => return done,
            Ok(n) => done += n,
            Err(_) => return done,
        }
    }
    done
}

// Reads a script, and gives its length. One that fills the buffer may go on: it is reported, and none of it is run.
pub fn read_script<R: Read, E: Write>(from: &mut R, err: &mut E, input: &mut [u8]) -> usize
    ensures within { IsPrefixLen result input.new }
    ensures taken { 0 < result → Consumes (R.remaining from.old) (R.remaining from.new) (take result input.new) }
    ensures whole { 0 < result → result < length input.new }
    ensures quiet { 0 < result → Keeps (E.contents err.old) (E.contents err.new) }
    ensures told { AppendsStart (E.contents err.old) (E.contents err.new) too_long_message }
{
    let n = read_full(from, input);
    if n == input.len() {
        let _ = console::write_all(err, b"the script is too long\n");
        return 0;
    }
    n
}

// The line that starts at a place, without its line feed.
pub fn line_at<'a>(s: &'a [u8], at: usize) -> &'a [u8]
    ensures { result.now ≡ script_line s.now at }
{
    if s.len() < at {
        return &s[0..0];
    }
    let end = lines::line_end(s, at);
    &s[at..end]
}

// The place of the line after the one that starts at a place, or the script's end.
pub fn next_at(s: &[u8], at: usize) -> usize
    ensures { result ≡ next_at s.now at }
{
    let end = lines::line_end(s, at);
    if end < s.len() {
        return end + 1;
    }
    s.len()
}

// Stores a line's number and a tab, and gives the place of its answer.
pub fn put_number(text: &mut [u8], number: u64) -> usize
    ensures { stored result text.new ≡ text_at text.old 0 (number_text number) }
{
    let tab = text::put_decimal(text, 0, number);
    text::put_mark(text, tab, b'\t')
}

// Writes a line's text, its line feed put at a place.
pub fn write_line<W: Write>(to: &mut W, text: &mut [u8], feed: usize) -> io::Result<()>
    ensures fed { text.new ≡ set text.old feed 10 }
    ensures written { OnOk result (Appends (W.contents to.old) (W.contents to.new) (take (feed + 1) text.new)) }
{
    let end = text::put_mark(text, feed, b'\n');
    if text.len() < end {
        return Err(Error::new(ErrorKind::WriteZero, "no room for a line feed"));
    }
    console::write_all(to, &text[..end])
}

// Tells that a line could not be written.
pub fn report<E: Write>(err: &mut E)
    ensures { AppendsStart (E.contents err.old) (E.contents err.new) cannot_write_message }
{
    let _ = console::write_all(err, b"cannot write the output\n");
}
