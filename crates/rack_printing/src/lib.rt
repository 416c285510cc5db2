// The text of a rack's answer.
#![tactic(auto)]

ghost use Rattle.std.specs.Prelude.{◌≡◌, [], ◌∷◌, ◌++◌, length};
ghost use Rattle.std.proofs.lemmas.List.Edits.{sets};
ghost use Rattle.parts.specs.Pick.{pick};
ghost use Rattle.text.specs.Decimal.{decimal};
ghost use Rattle.text.specs.Place.{stored, text_at};
ghost use Rattle.calls.specs.Calls.{call_answer};
ghost use Rattle.printing.specs.Text.{bad_text, line_text};
ghost use Rattle.rack.specs.Step.{numbers_from, rack_answer};
ghost use Rattle.rack_printing.specs.Text.{refused_text, said_text, report_text, rack_text, search_text};

use model::Answer;
use refusals::Refusal;

// Stores the mark of a refusal and its number at a place.
fn put_refused(text: &mut [u8], at: usize, refusal: Refusal) -> usize
    ensures { stored result text.new ≡ text_at text.old at (refused_text refusal) }
{
    let n = refusal.number();
    let digits = text::put_mark(text, at, b'!');
    text::put_decimal(text, digits, n as u64)
}

// Stores what a call is answered with at a place, without the report.
fn put_said(answer: Answer, out: &[u8], text: &mut [u8], at: usize) -> usize
    ensures { stored result text.new ≡ text_at text.old at (said_text answer out.now) }
{
    match answer {
        Answer::Refused(refusal) => put_refused(text, at, refusal),
        _ => printing::put_answer(answer, out, text, at),
    }
}

// Stores the number of a tag that answered behind its mark; of one that did not, nothing.
fn put_number(text: &mut [u8], at: usize, mark: u8, n: u64, answered: bool) -> usize
    ensures { stored result text.new ≡ text_at text.old at (pick answered (mark ∷ decimal n) []) }
{
    if answered {
        let digits = text::put_mark(text, at, mark);
        return text::put_decimal(text, digits, n);
    }
    at
}

// The mark before the next number: a comma behind a tag that answered.
fn next_mark(mark: u8, answered: bool) -> u8
    ensures { result ≡ pick answered 0x2C mark }
{
    if answered {
        return b',';
    }
    mark
}

// Stores the numbers of the tags that answered at a place: tag i did where flag i is set.
fn put_report(text: &mut [u8], at: usize, answered: [bool; 16]) -> usize
    ensures { stored result text.new ≡ text_at text.old at (report_text (numbers_from 0 answered)) }
{
    let mut to = at;
    let mut mark = 0x09;
    for i in 0..16 {
        let one = answered[i];
        to = put_number(text, to, mark, i as u64, one);
        mark = next_mark(mark, one);
    }
    to
}

// Stores what a search is answered with at a place.
fn put_found(text: &mut [u8], at: usize, answer: Result<Option<u8>, Refusal>) -> usize
    ensures { stored result text.new ≡ text_at text.old at (search_text answer) }
{
    match answer {
        Err(refusal) => put_refused(text, at, refusal),
        Ok(None) => text::put_mark(text, at, b'-'),
        Ok(Some(k)) => text::put_decimal(text, at, k as u64),
    }
}

// Stores a line's number and its tab from place 0 on.
fn put_head(text: &mut [u8], number: u64) -> usize
    ensures { stored result text.new ≡ text_at text.old 0 (decimal number ++ 0x09 ∷ []) }
{
    let tab = text::put_decimal(text, 0, number);
    text::put_mark(text, tab, 0x09)
}

// Stores the line of a call's answer: its number, a tab, the answer, the report, a line feed. Gives its length.
pub fn put_rack_line(
    text: &mut [u8],
    number: u64,
    said: Answer,
    out: &[u8; 643],
    answered: [bool; 16],
) -> usize
    ensures value { result ≡ length (line_text number (rack_text (rack_answer (call_answer said out.now) (numbers_from 0 answered)))) }
    ensures text_after { text.new ≡ sets text.old 0 (line_text number (rack_text (rack_answer (call_answer said out.now) (numbers_from 0 answered)))) }
{
    let answer = put_head(text, number);
    let report = put_said(said, out, text, answer);
    let end = put_report(text, report, answered);
    text::put_mark(text, end, 0x0A)
}

// Stores the line of a search's answer, and gives its length.
pub fn put_search_line(text: &mut [u8], number: u64, said: Result<Option<u8>, Refusal>) -> usize
    ensures value { result ≡ length (line_text number (search_text said)) }
    ensures text_after { text.new ≡ sets text.old 0 (line_text number (search_text said)) }
{
    let answer = put_head(text, number);
    let end = put_found(text, answer, said);
    text::put_mark(text, end, 0x0A)
}

// Stores the line of a bad line, and gives its length.
pub fn put_bad_line(text: &mut [u8], number: u64) -> usize
    ensures value { result ≡ length (line_text number bad_text) }
    ensures text_after { text.new ≡ sets text.old 0 (line_text number bad_text) }
{
    let answer = put_head(text, number);
    let end = text::put_mark(text, answer, b'?');
    text::put_mark(text, end, 0x0A)
}
