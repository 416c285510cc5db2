// The bench's lines out of pieces of any length: a step with a piece of the input, and the end of the input.
#![tactic(auto)]

ghost use Rattle.std.specs.Prelude.{◌≡◌, ◌≤◌, length, take};
ghost use Rattle.std.proofs.Common.{ap};
ghost use Rattle.script.specs.Bench.{LineResult};
ghost use Rattle.script.specs.Lines.{bench_state, bench_after};
ghost use Rattle.script.proofs.Tells.{line_tells};
ghost use Rattle.line_stream.specs.State.{state_of};
ghost use Rattle.line_stream.specs.Step.{line_answer, line_stored, stores_line, text_room, piece_by, end_of, stream_buffers, puts};
ghost use Rattle.stream.specs.Program.{bench_program};

use bench_start::Bench;
use line_stream::{AnswersLines, Carried, Stepped};
use script::LineOutcome;

// What a step leaves beside the lent buffers.
pub type StreamOutcome = line_stream::StreamOutcome<Bench>;

// A line, as a program that answers line by line stores it.
fn answer(
    named: bool,
    bench: Bench,
    m: &mut [u8; 1024],
    reply: &mut [u8; 643],
    frame: &mut [u8; 602],
    s: &[u8],
    text: &mut [u8],
) -> LineOutcome
    ensures text_after { line_stored (bench_state result.bench m.new reply.new) result.length text.new ≡ stores_line (bench_program named (bench_state bench m.old reply.old) s.now) text.old }
    ensures length_le_text_room { result.length ≤ text_room }
{
    script::line(named, bench, m, reply, frame, s, text)
}

// The bench as a program that answers line by line; NAMED: with the names of rules. It is a constant of the type, so that
// the compiler leaves the names out where they are not asked for.
pub struct BenchLines<const NAMED: bool>;

impl<const NAMED: bool> AnswersLines for BenchLines<NAMED> {
    type Bench = Bench;

    type Memory = [u8; 1024];

    ghost program = { bench_program NAMED };

    ghost tells = { λ state s. ap (λ (r : LineResult). line_answer (bench_after r) r.text) (line_tells NAMED state s) };

    fn line(
        on: &mut Carried<'_, Bench, [u8; 1024]>,
        frame: &mut [u8; 602],
        s: &[u8],
        text: &mut [u8],
    ) -> usize {
        let o = answer(NAMED, on.bench, on.memory, on.reply, frame, s, text);
        on.bench = o.bench;
        o.length
    }
}

// The program is chosen once for the whole piece.
fn step_by(
    named: bool,
    on: &mut Carried<'_, Bench, [u8; 1024]>,
    kept: &mut [u8; 1201],
    have: usize,
    s: &[u8],
    out: &mut [u8],
) -> Stepped
    ensures memory_lent { on.new.memory.ghost_name ≡ on.old.memory.ghost_name }
    ensures reply_lent { on.new.reply.ghost_name ≡ on.old.reply.ghost_name }
    ensures out_after { stream_buffers (state_of on.new) (take result.have kept.new) result.used result.wrote out.new ≡ puts (piece_by (bench_program named) (length out.old) (state_of on.old) (take have kept.old) s.now) out.old }
    ensures used_in_bounds { (result.used ≤ length s.now) × (result.wrote ≤ length out.old) }
{
    if named {
        line_stream::step::<BenchLines<true>>(on, kept, have, s, out)
    } else {
        line_stream::step::<BenchLines<false>>(on, kept, have, s, out)
    }
}

fn end_by(
    named: bool,
    on: &mut Carried<'_, Bench, [u8; 1024]>,
    kept: &mut [u8; 1201],
    have: usize,
    out: &mut [u8],
) -> Stepped
    ensures memory_lent { on.new.memory.ghost_name ≡ on.old.memory.ghost_name }
    ensures reply_lent { on.new.reply.ghost_name ≡ on.old.reply.ghost_name }
    ensures out_after { stream_buffers (state_of on.new) (take result.have kept.new) result.used result.wrote out.new ≡ puts (end_of (bench_program named) (length out.old) (state_of on.old) (take have kept.old)) out.old }
    ensures wrote_in_bounds { result.wrote ≤ length out.old }
{
    if named {
        line_stream::end::<BenchLines<true>>(on, kept, have, out)
    } else {
        line_stream::end::<BenchLines<false>>(on, kept, have, out)
    }
}

// A piece of the input, after an unfinished line: the first `have` bytes of `kept` (all, where it has fewer). What stands
// past them is neither read nor promised. The texts stand in `out` from place 0 on. It stops before a line feed where
// `out` has no room for 1,342 bytes more: the caller writes what stands there and calls again with the rest of the
// piece. `named`: with the names of rules.
pub fn step(
    named: bool,
    bench: Bench,
    m: &mut [u8; 1024],
    reply: &mut [u8; 643],
    kept: &mut [u8; 1201],
    have: usize,
    s: &[u8],
    out: &mut [u8],
) -> StreamOutcome
    ensures out_after { stream_buffers (bench_state result.bench m.new reply.new) (take result.have kept.new) result.used result.wrote out.new ≡ puts (piece_by (bench_program named) (length out.old) (bench_state bench m.old reply.old) (take have kept.old) s.now) out.old }
    ensures used_in_bounds { (result.used ≤ length s.now) × (result.wrote ≤ length out.old) }
{
    let mut on = Carried {
        bench,
        memory: m,
        reply,
    };
    let o = step_by(named, &mut on, kept, have, s, out);
    let Carried {
        bench,
        memory: _,
        reply: _,
    } = on;
    StreamOutcome {
        bench,
        have: o.have,
        used: o.used,
        wrote: o.wrote,
    }
}

// The end of the input: an unfinished line that has a byte gets its line feed.
pub fn end(
    named: bool,
    bench: Bench,
    m: &mut [u8; 1024],
    reply: &mut [u8; 643],
    kept: &mut [u8; 1201],
    have: usize,
    out: &mut [u8],
) -> StreamOutcome
    ensures out_after { stream_buffers (bench_state result.bench m.new reply.new) (take result.have kept.new) result.used result.wrote out.new ≡ puts (end_of (bench_program named) (length out.old) (bench_state bench m.old reply.old) (take have kept.old)) out.old }
    ensures wrote_in_bounds { result.wrote ≤ length out.old }
{
    let mut on = Carried {
        bench,
        memory: m,
        reply,
    };
    let o = end_by(named, &mut on, kept, have, out);
    let Carried {
        bench,
        memory: _,
        reply: _,
    } = on;
    StreamOutcome {
        bench,
        have: o.have,
        used: o.used,
        wrote: o.wrote,
    }
}
