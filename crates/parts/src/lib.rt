// Total access to lent bytes: a byte past the end reads 0, and a store past the end changes nothing.
#![tactic(auto)]

ghost use Rattle.std.specs.Prelude.{◌≡◌, ◌+◌, ◌≤◌, leb, length, get_or, set};
ghost use Rattle.std.proofs.lemmas.List.Edits.{sets};
ghost use Rattle.parts.specs.Bytes.{bytes_at, copied};

// The byte at a place.
pub fn byte_at(s: &[u8], i: usize) -> u8
    ensures { result ≡ get_or s.now i 0 }
{
    s.get(i).copied().unwrap_or(0)
}

// Byte i of what starts at a place. No buffer reaches the last place, at which a sum past it stays.
pub fn byte_in(s: &[u8], at: usize, i: usize) -> u8
    ensures { result ≡ get_or s.now (at + i) 0 }
{
    byte_at(s, at.saturating_add(i))
}

// Stores a byte at a place. By `get_mut` it is not proved: where that gives none, it says nothing of the buffer.
pub fn put(m: &mut [u8], i: usize, x: u8)
    ensures { m.new ≡ set m.old i x }
{
    if i < m.len() {
        m[i] = x;
    }
}

// Stores a byte at place i of what starts at a place.
pub fn put_in(m: &mut [u8], at: usize, i: usize, x: u8)
    ensures { m.new ≡ set m.old (at + i) x }
{
    put(m, at.saturating_add(i), x);
}

// Whether n bytes from a place on lie within a length. The two are not added before they are known to fit.
fn within(length: usize, at: usize, n: usize) -> bool
    ensures { result ≡ leb (at + n) length }
{
    (at <= length) && (n <= length - at)
}

// A run that lies within both: no byte needs a test. `copy_from_slice` allows that both overlap, and would make the
// archives for C need memmove.
fn put_run(m: &mut [u8], at: usize, s: &[u8], from: usize, n: usize)
    requires { (at + n ≤ length m.old) × (from + n ≤ length s.now) }
    ensures { m.new ≡ sets m.old at (bytes_at s.now from n) }
{
    for i in 0..n {
        m[at + i] = s[from + i];
    }
}

// Any run, byte by byte.
fn put_each(m: &mut [u8], at: usize, s: &[u8], from: usize, n: usize)
    ensures { m.new ≡ sets m.old at (bytes_at s.now from n) }
{
    for i in 0..n {
        put_in(m, at, i, byte_in(s, from, i));
    }
}

// Stores n bytes of s, from a place of it on, at a place.
pub fn put_bytes(m: &mut [u8], at: usize, s: &[u8], from: usize, n: usize)
    ensures { m.new ≡ sets m.old at (bytes_at s.now from n) }
{
    if within(m.len(), at, n) & within(s.len(), from, n) {
        put_run(m, at, s, from, n);
    } else {
        put_each(m, at, s, from, n);
    }
}

// Copies n bytes within a buffer, the lowest first.
pub fn copy_bytes(m: &mut [u8], to: usize, from: usize, n: usize)
    ensures { m.new ≡ copied m.old to from n }
{
    for i in 0..n {
        let b = byte_in(m, from, i);
        put_in(m, to, i, b);
    }
}

// The eight bytes from a place on.
pub fn eight_at(s: &[u8], at: usize) -> [u8; 8]
    ensures { result ≡ bytes_at s.now at 8 }
{
    let mut bytes = [0; 8];
    put_bytes(&mut bytes, 0, s, at, 8);
    bytes
}
