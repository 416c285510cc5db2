// The unfinished line: what is kept of it, and bytes added to it. A number past the end of what is kept is the end.
#![tactic(auto)]

ghost use Rattle.std.specs.Prelude.{◌≡◌, ◌++◌, ◌≤◌, min, eqb, length, take};
ghost use Rattle.parts.specs.Pick.{pick};
ghost use Rattle.unfinished.specs.Kept.{kept_most, keep, kept_count, kept_buffer};

// How many bytes are kept: a number past the end is the end.
pub fn kept_count(kept: &[u8], have: usize) -> usize
    ensures { result ≡ min have (length kept.now) }
{
    have.min(kept.len())
}

// Adds bytes to the unfinished line. Of a line that is too long 1,201 bytes are kept: it stays too long.
pub fn hold(kept: &mut [u8; 1201], have: usize, s: &[u8]) -> usize
    ensures kept_after { take result kept.new ≡ keep (take have kept.old ++ s.now) }
    ensures value { result ≡ kept_count have s.now }
    ensures kept_after_2 { kept.new ≡ kept_buffer kept.old have s.now }
{
    let at = kept_count(kept, have);
    let n = (1201 - at).min(s.len());
    parts::put_bytes(kept, at, s, 0, n);
    at + n
}

// The unfinished line ends with the bytes s: they are added to what is kept of it. Where nothing is kept they are the
// line, and nothing is copied.
pub fn join(kept: &mut [u8; 1201], have: usize, s: &[u8]) -> usize
    ensures kept_after { pick (eqb result 0) s.now (take result kept.new) ≡ pick (eqb have 0) s.now (keep (take have kept.old ++ s.now)) }
    ensures upper_bound { result ≤ kept_most }
    ensures value { result ≡ pick (eqb have 0) 0 (kept_count have s.now) }
    ensures kept_after_2 { kept.new ≡ pick (eqb have 0) kept.old (kept_buffer kept.old have s.now) }
{
    if have == 0 {
        return 0;
    }
    hold(kept, have, s)
}
