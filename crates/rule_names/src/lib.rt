// The name of a rule, and the text of a verdict on a write.
#![tactic(auto)]

mod names;

ghost use Rattle.std.specs.Prelude.{◌≡◌};
ghost use Rattle.text.specs.Place.{stored, text_at};
ghost use Rattle.rule_names.specs.Text.{key_text, reason_text, verdict_text};

pub use names::put_name;
use write_reasons::WriteReason;

// Stores the number of the password whose session is needed, behind a space; a session without a number stores nothing.
fn put_key(text: &mut [u8], at: usize, key: Option<u8>) -> usize
    ensures { stored result text.new ≡ text_at text.old at (key_text key) }
{
    match key {
        None => at,
        Some(n) => {
            let number = text::put_mark(text, at, b' ');
            text::put_decimal(text, number, n as u64)
        }
    }
}

// Stores a reason at a place: its name, and of a session its password's number.
fn put_reason(text: &mut [u8], at: usize, reason: WriteReason) -> usize
    ensures { stored result text.new ≡ text_at text.old at (reason_text reason) }
{
    let end = names::put_name(text, at, reason.number());
    match reason {
        WriteReason::SessionNeeded(key) => put_key(text, end, key),
        _ => end,
    }
}

// Stores a verdict at a place.
pub fn put_verdict(text: &mut [u8], at: usize, verdict: Result<(), WriteReason>) -> usize
    ensures { stored result text.new ≡ text_at text.old at (verdict_text verdict) }
{
    match verdict {
        Ok(()) => names::put_part(text, at, b"allowed", 0, 7),
        Err(reason) => put_reason(text, at, reason),
    }
}
