// The text of an answer.
#![tactic(auto)]

ghost use Rattle.std.specs.Prelude.{◌≡◌, ◌++◌, ◌-◌, length};
ghost use Rattle.std.proofs.lemmas.List.Edits.{sets};
ghost use Rattle.text.specs.Place.{stored, text_at};
ghost use Rattle.printing.specs.Text.{answer_text, name_field, line_text};

use model::Answer;

// How many bytes of a reply are printed: those before its CRC.
fn shown_bytes(n: usize) -> usize
    ensures { result ≡ n - 2 }
{
    n.saturating_sub(2)
}

// Stores the text of an answer at a place, and gives the place behind it.
pub fn put_answer(answer: Answer, out: &[u8], text: &mut [u8], at: usize) -> usize
    ensures { stored result text.new ≡ text_at text.old at (answer_text answer out.now) }
{
    match answer {
        Answer::Refused(_) => text::put_mark(text, at, b'?'),
        Answer::Nothing => text::put_mark(text, at, b'-'),
        Answer::Ack => text::put_mark(text, at, b'A'),
        Answer::NoAck => text::put_mark(text, at, b'N'),
        Answer::Byte(x) => hexadecimal::put_byte(text, at, x),
        Answer::Silence => text::put_mark(text, at, b'-'),
        Answer::Reply(n) => hexadecimal::put_hex(text, at, out, shown_bytes(n)),
    }
}

// Stores a tab and a rule's name at a place, and gives the place behind them. Rule 0 is none and has no field.
fn put_field(text: &mut [u8], at: usize, rule: u8) -> usize
    ensures { stored result text.new ≡ text_at text.old at (name_field rule) }
{
    if rule == 0 {
        return at;
    }
    let name = text::put_mark(text, at, 0x09);
    rule_names::put_name(text, name, rule)
}

// Stores a line: its number, a tab, an answer, the field of the rule that gave it, a line feed. Gives its length.
pub fn put_line(text: &mut [u8], number: u64, said: Answer, out: &[u8; 643], rule: u8) -> usize
    ensures value { result ≡ length (line_text number (answer_text said out.now ++ name_field rule)) }
    ensures text_after { text.new ≡ sets text.old 0 (line_text number (answer_text said out.now ++ name_field rule)) }
{
    let tab = text::put_decimal(text, 0, number);
    let answer = text::put_mark(text, tab, 0x09);
    let field = put_answer(said, out, text, answer);
    let end = put_field(text, field, rule);
    text::put_mark(text, end, 0x0A)
}
