// The run of both programs, `bench` and, with the names of rules, `explain`: each line of standard input answered on
// standard output. The loop is the crate line_output's, what a line is and what answers it the crate stream's.
#![tactic(auto)]

ghost use Rattle.std.specs.Prelude.{codes};
ghost use Rattle.parts.specs.Pick.{pick};
ghost use Rattle.line_output.specs.Answered.{AnswersRead};
ghost use Rattle.line_output.specs.Messages.{TellsStop};
ghost use Rattle.stream_claims.specs.Output.{bench_output, explain_output};

use line_stream::Carried;
use std::io::{Read, Write};
use stream::BenchLines;

// The whole run, from standard input to standard output and error. Which program it is is chosen once, so that the
// compiler leaves the names out of `bench`.
pub fn run<R: Read, W: Write, E: Write>(from: &mut R, to: &mut W, err: &mut E, named: bool)
    ensures answered { AnswersRead (pick named explain_output bench_output) (R.remaining from.old) (R.remaining from.new) (W.contents to.old) (W.contents to.new) }
    ensures told { TellsStop (pick named (codes "explain") (codes "bench")) (E.contents err.old) (E.contents err.new) }
{
    let mut memory = [0u8; 1024];
    let mut reply = [0u8; 643];
    let bench = bench_start::start(&mut memory);
    let mut on = Carried {
        bench,
        memory: &mut memory,
        reply: &mut reply,
    };
    if named {
        line_output::run::<BenchLines<true>, R, W, E>(
            from,
            to,
            err,
            &mut on,
            b"explain: cannot read the input\n",
            b"explain: cannot write the output\n",
        );
    } else {
        line_output::run::<BenchLines<false>, R, W, E>(
            from,
            to,
            err,
            &mut on,
            b"bench: cannot read the input\n",
            b"bench: cannot write the output\n",
        );
    }
    let Carried {
        bench: _,
        memory: _,
        reply: _,
    } = on;
}
