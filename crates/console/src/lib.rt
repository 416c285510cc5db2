// What the programs' loops do with standard input and output: one read, and a write of all. A call that a signal
// interrupts is made again. What is promised of the bytes holds where the reader and the writer say which they have: of
// the system's streams no contract can say it. The number of calls only shows that a loop ends.
#![tactic(auto)]

ghost use Rattle.std.specs.Prelude.{◌≡◌, ◌≢◌, ◌<◌, false, length, take, IfOk, IsOk, OnOk, IfErr, OnErr};
ghost use Rattle.std.specs.IoError.{error_kind};
ghost use Rattle.std.specs.Io.{ReadsAtMost};
ghost use Rattle.std.specs.Io.KnownBytes.{Keeps, Appends, Consumes, IsAtEnd};
ghost use Rattle.console.specs.Written.{AppendsStart};

use std::io::{Error, ErrorKind, Read, Result, Write};

// Whether a call failed only because a signal interrupted it.
fn interrupted(e: Error) -> bool
    ensures { result ≡ false → error_kind e ≢ ErrorKind.Interrupted }
{
    e.kind() == ErrorKind::Interrupted
}

// Every call was interrupted.
fn gave_up(why: &str) -> Error
    ensures { error_kind result ≢ ErrorKind.Interrupted }
{
    Error::new(ErrorKind::TimedOut, why)
}

// Reads once: how many bytes it put at the start of input, 0 at the end, or why it failed.
pub fn read<R: Read>(from: &mut R, input: &mut [u8]) -> Result<usize>
    ensures moved { ReadsAtMost result input.new }
    ensures taken { IfOk result (λ n. Consumes (R.remaining from.old) (R.remaining from.new) (take n input.new)) }
    ensures end { IfOk result (λ n. n ≡ 0 → 0 < length input.old → IsAtEnd (R.remaining from.new)) }
    ensures failed { OnErr result (Keeps (R.remaining from.old) (R.remaining from.new)) }
    ensures retried { IfErr result (λ e. error_kind e ≢ ErrorKind.Interrupted) }
{
    for _ in 0..u64::MAX {
        match from.read(input) {
            Ok(n) => return Ok(n),
            Err(e) => {
                if !interrupted(e) {
                    return Err(e);
                }
            }
        }
    }
    Err(gave_up("every read was interrupted"))
}

// Writes all of s, or answers why it could not, and has then written some start of it: always all of nothing. A short
// write is finished.
pub fn write_all<W: Write>(to: &mut W, s: &[u8]) -> Result<()>
    ensures nothing { length s.now ≡ 0 → IsOk result }
    ensures all { OnOk result (Appends (W.contents to.old) (W.contents to.new) s.now) }
    ensures failed { OnErr result (AppendsStart (W.contents to.old) (W.contents to.new) s.now) }
    ensures retried { IfErr result (λ e. error_kind e ≢ ErrorKind.Interrupted) }
{
    let mut done = 0;
    let mut calls = u64::MAX;
    while (done < s.len()) & (0 < calls) {
        match to.write(&s[done..]) {
            Ok(0) => return Err(Error::new(ErrorKind::WriteZero, "a write took nothing")),
            Ok(n) => done += n,
            Err(e) => {
                if !interrupted(e) {
                    return Err(e);
                }
            }
        }
        calls -= 1;
    }
    if done == s.len() {
        return Ok(());
    }
    Err(gave_up("every write was interrupted"))
}
