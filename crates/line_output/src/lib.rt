// The run of a program that answers line by line: each line of the input answered on the output. It only moves bytes:
// what a line is and what answers it is the crate line_stream's. All that is to be written is written before more is
// read. specs/ has what a run comes to, with any reader and writer; proofs/ has the laws of a piece, a read and the end.
#![tactic(auto)]

ghost use Rattle.std.specs.Prelude.{◌≡◌, [], true, ◌<◌, ◌≤◌, ◌⊎◌, length, take, IfOk, OnOk, OnErr, IfSome, IfNone};
ghost use Rattle.std.specs.Io.KnownBytes.{Appends, Consumes, IsAtEnd};
ghost use Rattle.console.specs.Written.{AppendsStart};
ghost use Rattle.line_stream.specs.State.{state_of};
ghost use Rattle.line_stream.specs.Step.{text_room};
ghost use Rattle.line_stream.specs.Output.{texts_of, output_of};
ghost use Rattle.line_stream.specs.Flow.{flow_of, Reaches};
ghost use Rattle.line_output.specs.Answered.{last_line, output_from, AnswersRead, AnswersAll, Feeds};

use line_stream::{AnswersLines, Carried};
use std::io;
use std::io::{Read, Write};

// What could not be done.
#[derive(Clone, Copy)]
enum Failure {
    Read,
    Write,
}

// A piece of the input: step by step, and each step's texts are written before the next. Where one cannot be written, a
// start of the piece's texts is, and no more. Gives how many bytes of an unfinished line are kept.
fn piece<P: AnswersLines, W: Write>(
    to: &mut W,
    on: &mut Carried<'_, P::Bench, P::Memory>,
    kept: &mut [u8; 1201],
    have: usize,
    s: &[u8],
    out: &mut [u8],
) -> io::Result<usize>
    requires { text_room ≤ length out.old }
    ensures reached { IfOk result (λ n. Reaches true (state_of on.new) (take n kept.new) (flow_of P.program (state_of on.old) (take have kept.old) s.now)) }
    ensures said { OnOk result (Appends (W.contents to.old) (W.contents to.new) (flow_of P.program (state_of on.old) (take have kept.old) s.now).text) }
    ensures cut { OnErr result (AppendsStart (W.contents to.old) (W.contents to.new) (flow_of P.program (state_of on.old) (take have kept.old) s.now).text) }
{
    let mut have = have;
    let mut at = 0;
    // The place moves by what a step used.
    while at < s.len() {
        let t = line_stream::step::<P>(on, kept, have, &s[at..], out);
        console::write_all(to, &out[..t.wrote])?;
        have = t.have;
        at += t.used;
    }
    Ok(have)
}

// The end of the input: an unfinished line with a byte is answered.
fn finish<P: AnswersLines, W: Write>(
    to: &mut W,
    on: &mut Carried<'_, P::Bench, P::Memory>,
    kept: &mut [u8; 1201],
    have: usize,
    out: &mut [u8],
) -> io::Result<()>
    requires { text_room ≤ length out.old }
    ensures said { OnOk result (Appends (W.contents to.old) (W.contents to.new) (texts_of P.program (state_of on.old) (last_line (take have kept.old)))) }
    ensures cut { OnErr result (AppendsStart (W.contents to.old) (W.contents to.new) (texts_of P.program (state_of on.old) (last_line (take have kept.old)))) }
{
    let t = line_stream::end::<P>(on, kept, have, out);
    console::write_all(to, &out[..t.wrote])
}

// One read, and what it brought: how many bytes of an unfinished line are kept, or nothing at the end. A failed read is
// not the end of the input: an unfinished line is not answered.
fn turn<P: AnswersLines, R: Read, W: Write>(
    from: &mut R,
    to: &mut W,
    on: &mut Carried<'_, P::Bench, P::Memory>,
    kept: &mut [u8; 1201],
    have: usize,
    input: &mut [u8],
    out: &mut [u8],
) -> Result<Option<usize>, Failure>
    requires input_room { 0 < length input.old }
    requires out_room { text_room ≤ length out.old }
    ensures fed { IfOk result (λ o. IfSome o (λ n. Feeds (flow_of P.program (state_of on.old) (take have kept.old)) 1 (R.remaining from.old) (R.remaining from.new) (W.contents to.old) (W.contents to.new) (state_of on.new) (take n kept.new))) }
    ensures ended { IfOk result (λ o. IfNone o (Consumes (R.remaining from.old) (R.remaining from.new) [] × IsAtEnd (R.remaining from.new) × Appends (W.contents to.old) (W.contents to.new) (texts_of P.program (state_of on.old) (last_line (take have kept.old))))) }
    ensures failed { OnErr result (AnswersRead (output_from P.program (state_of on.old) (take have kept.old)) (R.remaining from.old) (R.remaining from.new) (W.contents to.old) (W.contents to.new)) }
{
    let n = match console::read(from, input) {
        Ok(n) => n,
        Err(_) => return Err(Failure::Read),
    };
    if n == 0 {
        return match finish::<P, W>(to, on, kept, have, out) {
            Ok(_) => Ok(None),
            Err(_) => Err(Failure::Write),
        };
    }
    match piece::<P, W>(to, on, kept, have, &input[..n], out) {
        Ok(have) => Ok(Some(have)),
        Err(_) => Err(Failure::Write),
    }
}

// All of the input. The number of reads only shows that the loop ends.
fn all<P: AnswersLines, R: Read, W: Write>(
    from: &mut R,
    to: &mut W,
    on: &mut Carried<'_, P::Bench, P::Memory>,
    kept: &mut [u8; 1201],
    input: &mut [u8],
    out: &mut [u8],
) -> Result<(), Failure>
    requires input_room { 0 < length input.old }
    requires out_room { text_room ≤ length out.old }
    ensures answered { AnswersRead (output_of P.program (state_of on.old)) (R.remaining from.old) (R.remaining from.new) (W.contents to.old) (W.contents to.new) }
    ensures whole { OnOk result (AnswersAll (output_of P.program (state_of on.old)) (R.remaining from.old) (R.remaining from.new) (W.contents to.old) (W.contents to.new)) }
{
    let mut have = 0;
    for _reads in 0..u64::MAX {
        match turn::<P, R, W>(from, to, on, kept, have, input, out)? {
            Some(n) => have = n,
            None => return Ok(()),
        }
    }
    Ok(())
}

// The whole run, over what goes from line to line. What cannot be done is told on `err`. It hands nothing back, so its
// clauses say of any run what holds where it stopped; that all is written where it did not is `all`'s to say.
pub fn run<P: AnswersLines, R: Read, W: Write, E: Write>(
    from: &mut R,
    to: &mut W,
    err: &mut E,
    on: &mut Carried<'_, P::Bench, P::Memory>,
    cannot_read: &[u8],
    cannot_write: &[u8],
)
    ensures answered { AnswersRead (output_of P.program (state_of on.old)) (R.remaining from.old) (R.remaining from.new) (W.contents to.old) (W.contents to.new) }
    ensures told { AppendsStart (E.contents err.old) (E.contents err.new) cannot_read.now ⊎ AppendsStart (E.contents err.old) (E.contents err.new) cannot_write.now }
{
    let mut kept = [0u8; 1201];
    let mut input = [0u8; 65536];
    let mut out = [0u8; 65536];
    let told = match all::<P, R, W>(from, to, on, &mut kept, &mut input, &mut out) {
        Ok(_) => return,
        Err(Failure::Read) => cannot_read,
        Err(Failure::Write) => cannot_write,
    };
    let _ = console::write_all(err, told);
}
