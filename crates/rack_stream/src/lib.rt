// A rack's lines out of pieces of any length: a step with a piece of the input, and the end of the input.
#![tactic(auto)]

ghost use Rattle.std.specs.Prelude.{◌≡◌, ◌≤◌, length, take};
ghost use Rattle.line_stream.specs.Step.{piece_by, end_of, stream_buffers, puts};
ghost use Rattle.rack_script.specs.Script.{rack_state, rack_program};
ghost use Rattle.rack_script.proofs.Fits.{rack_tells};

use line_stream::{AnswersLines, Carried};
use rack_start::RackBench;

// What a step leaves beside the lent buffers.
pub type RackStreamOutcome = line_stream::StreamOutcome<RackBench>;

// The rack as a program that answers line by line.
pub struct RackLines;

impl AnswersLines for RackLines {
    type Bench = RackBench;

    type Memory = [u8; 16384];

    ghost program = { rack_program };

    ghost tells = { rack_tells };

    fn line(
        on: &mut Carried<'_, RackBench, [u8; 16384]>,
        frame: &mut [u8; 602],
        s: &[u8],
        text: &mut [u8],
    ) -> usize {
        let o = rack_script::line(on.bench, on.memory, on.reply, frame, s, text);
        on.bench = o.bench;
        o.length
    }
}

// A piece of the input, after an unfinished line: the first `have` bytes of `kept` (all, where it has fewer). What stands
// past them is neither read nor promised. The texts stand in `out` from place 0 on. It stops before a line feed where
// `out` has no room for 1,342 bytes more: the caller writes what stands there and calls again with the rest of the
// piece.
pub fn step(
    bench: RackBench,
    m: &mut [u8; 16384],
    reply: &mut [u8; 643],
    kept: &mut [u8; 1201],
    have: usize,
    s: &[u8],
    out: &mut [u8],
) -> RackStreamOutcome
    ensures out_after { stream_buffers (rack_state result.bench m.new reply.new) (take result.have kept.new) result.used result.wrote out.new ≡ puts (piece_by rack_program (length out.old) (rack_state bench m.old reply.old) (take have kept.old) s.now) out.old }
    ensures used_in_bounds { (result.used ≤ length s.now) × (result.wrote ≤ length out.old) }
{
    let mut on = Carried {
        bench,
        memory: m,
        reply,
    };
    let o = line_stream::step::<RackLines>(&mut on, kept, have, s, out);
    let Carried {
        bench,
        memory: _,
        reply: _,
    } = on;
    RackStreamOutcome {
        bench,
        have: o.have,
        used: o.used,
        wrote: o.wrote,
    }
}

// The end of the input: an unfinished line that has a byte gets its line feed.
pub fn end(
    bench: RackBench,
    m: &mut [u8; 16384],
    reply: &mut [u8; 643],
    kept: &mut [u8; 1201],
    have: usize,
    out: &mut [u8],
) -> RackStreamOutcome
    ensures out_after { stream_buffers (rack_state result.bench m.new reply.new) (take result.have kept.new) result.used result.wrote out.new ≡ puts (end_of rack_program (length out.old) (rack_state bench m.old reply.old) (take have kept.old)) out.old }
    ensures wrote_in_bounds { result.wrote ≤ length out.old }
{
    let mut on = Carried {
        bench,
        memory: m,
        reply,
    };
    let o = line_stream::end::<RackLines>(&mut on, kept, have, out);
    let Carried {
        bench,
        memory: _,
        reply: _,
    } = on;
    RackStreamOutcome {
        bench,
        have: o.have,
        used: o.used,
        wrote: o.wrote,
    }
}
