// A program that answers line by line, whatever it carries, with its input in pieces of any length: a step with a piece
// of the input, and the end of the input. specs/ states what that comes to, proofs/ has the laws and the claims.
#![tactic(auto)]

ghost use Rattle.std.specs.Prelude.{◌≡◌, ◌++◌, ◌≤◌, eqb, length, take};
ghost use Rattle.parts.specs.Pick.{pick};
ghost use Rattle.unfinished.specs.Kept.{kept_most};
ghost use Rattle.line_stream.specs.State.{LineState, state_of};
ghost use Rattle.line_stream.specs.Step.{LineProgram, line_stored, stores_line, text_room, piece_by, end_of, stream_buffers, puts};
ghost use Rattle.line_stream.specs.Claim.{TellsByKept};

// What goes from line to line: what is on the bench, and the memory and the reply buffer that are lent.
pub struct Carried<'a, B, M> {
    pub bench: B,
    pub memory: &'a mut M,
    pub reply: &'a mut [u8; 643],
}

// A program that answers line by line.
pub trait AnswersLines {
    type Bench: Copy;

    type Memory;

    ghost program: { LineProgram (LineState Self.Bench Self.Memory) };

    // A line without its line feed: gives the length of its text, which stands in `text` from place 0 on. The caller
    // lends room for a frame.
    fn line(
        on: &mut Carried<'_, Self::Bench, Self::Memory>,
        frame: &mut [u8; 602],
        s: &[u8],
        text: &mut [u8],
    ) -> usize
        ensures memory_lent { on.new.memory.ghost_name ≡ on.old.memory.ghost_name }
        ensures reply_lent { on.new.reply.ghost_name ≡ on.old.reply.ghost_name }
        ensures text_after { line_stored (state_of on.new) result text.new ≡ stores_line (program (state_of on.old) s.now) text.old }
        ensures length_le_text_room { result ≤ text_room };

    // What is kept of a line tells as much as the line.
    ghost tells: { TellsByKept program };
}

// What a step leaves beside what is lent: the unfinished line has `have` bytes.
#[derive(Clone, Copy)]
pub struct Stepped {
    pub have: usize,
    // Bytes of the piece that it used.
    pub used: usize,
    // Bytes of text that it wrote.
    pub wrote: usize,
}

// The line.
fn line_from<'a>(kept: &'a [u8], n: usize, s: &'a [u8]) -> &'a [u8]
    requires { n ≤ length kept.now }
    ensures { result.now ≡ pick (eqb n 0) s.now (take n kept.now) }
{
    if n == 0 {
        return s;
    }
    &kept[0..n]
}

// The unfinished line ends with the bytes s.
fn end_line<P: AnswersLines>(
    on: &mut Carried<'_, P::Bench, P::Memory>,
    kept: &mut [u8; 1201],
    have: usize,
    frame: &mut [u8; 602],
    s: &[u8],
    text: &mut [u8],
) -> usize
    requires { have ≤ kept_most }
    ensures memory_lent { on.new.memory.ghost_name ≡ on.old.memory.ghost_name }
    ensures reply_lent { on.new.reply.ghost_name ≡ on.old.reply.ghost_name }
    ensures text_after { line_stored (state_of on.new) result text.new ≡ stores_line (P.program (state_of on.old) (take have kept.old ++ s.now)) text.old }
    ensures length_le_text_room { result ≤ text_room }
{
    let n = unfinished::join(kept, have, s);
    P::line(on, frame, line_from(kept, n, s), text)
}

// A piece of the input, after an unfinished line: the first `have` bytes of `kept` (all, where it has fewer). What stands
// past them is neither read nor promised. The texts stand in `out` from place 0 on. It stops before a line feed where
// `out` has no room for 1,342 bytes more: the caller writes what stands there and calls again with the rest of the
// piece. `kept` and `have` are lent apart, as `step` and `end` of stream and rack_stream take them.
pub fn step<P: AnswersLines>(
    on: &mut Carried<'_, P::Bench, P::Memory>,
    kept: &mut [u8; 1201],
    have: usize,
    s: &[u8],
    out: &mut [u8],
) -> Stepped
    ensures memory_lent { on.new.memory.ghost_name ≡ on.old.memory.ghost_name }
    ensures reply_lent { on.new.reply.ghost_name ≡ on.old.reply.ghost_name }
    ensures out_after { stream_buffers (state_of on.new) (take result.have kept.new) result.used result.wrote out.new ≡ puts (piece_by P.program (length out.old) (state_of on.old) (take have kept.old) s.now) out.old }
    ensures used_in_bounds { (result.used ≤ length s.now) × (result.wrote ≤ length out.old) }
{
    let mut frame = [0u8; 602];
    let mut n = unfinished::kept_count(kept, have);
    let mut from = 0;
    let mut at = 0;
    let mut end = lines::line_end(s, 0);
    // The places move by a line.
    while (end < s.len()) & (1342 <= out.len() - at) {
        let text = end_line::<P>(on, kept, n, &mut frame, &s[from..end], &mut out[at..]);
        at += text;
        n = 0;
        from = end + 1;
        end = lines::line_end(s, from);
    }
    let rest = unfinished::hold(kept, n, &s[from..end]);
    Stepped {
        have: rest,
        used: end,
        wrote: at,
    }
}

// The end of the input: an unfinished line that has a byte gets its line feed.
pub fn end<P: AnswersLines>(
    on: &mut Carried<'_, P::Bench, P::Memory>,
    kept: &mut [u8; 1201],
    have: usize,
    out: &mut [u8],
) -> Stepped
    ensures memory_lent { on.new.memory.ghost_name ≡ on.old.memory.ghost_name }
    ensures reply_lent { on.new.reply.ghost_name ≡ on.old.reply.ghost_name }
    ensures out_after { stream_buffers (state_of on.new) (take result.have kept.new) result.used result.wrote out.new ≡ puts (end_of P.program (length out.old) (state_of on.old) (take have kept.old)) out.old }
    ensures wrote_in_bounds { result.wrote ≤ length out.old }
{
    let held = unfinished::kept_count(kept, have);
    if held == 0 {
        return Stepped {
            have: 0,
            used: 0,
            wrote: 0,
        };
    }
    let feed = [b'\n'];
    step::<P>(on, kept, held, &feed, out)
}

// What a step leaves, where the caller lends memory and reply buffer by themselves.
#[derive(Clone, Copy)]
pub struct StreamOutcome<B> {
    pub bench: B,
    pub have: usize,
    pub used: usize,
    pub wrote: usize,
}
