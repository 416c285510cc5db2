// The run of the program `rack_bench`: each line of standard input answered on standard output. The loop is the crate
// line_output's, what a line is and what answers it the crate rack_stream's.
#![tactic(auto)]

ghost use Rattle.std.specs.Prelude.{codes};
ghost use Rattle.line_output.specs.Answered.{AnswersRead};
ghost use Rattle.line_output.specs.Messages.{TellsStop};
ghost use Rattle.rack_stream.specs.Output.{rack_output};

use line_stream::Carried;
use rack_stream::RackLines;
use std::io::{Read, Write};

// The whole run, from standard input to standard output and error.
pub fn run<R: Read, W: Write, E: Write>(from: &mut R, to: &mut W, err: &mut E)
    ensures answered { AnswersRead rack_output (R.remaining from.old) (R.remaining from.new) (W.contents to.old) (W.contents to.new) }
    ensures told { TellsStop (codes "rack_bench") (E.contents err.old) (E.contents err.new) }
{
    let mut memory = [0u8; 16384];
    let mut reply = [0u8; 643];
    let bench = rack_start::start();
    let mut on = Carried {
        bench,
        memory: &mut memory,
        reply: &mut reply,
    };
    line_output::run::<RackLines, R, W, E>(
        from,
        to,
        err,
        &mut on,
        b"rack_bench: cannot read the input\n",
        b"rack_bench: cannot write the output\n",
    );
    let Carried {
        bench: _,
        memory: _,
        reply: _,
    } = on;
}
