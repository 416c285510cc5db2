// A line of a script: a letter alone, or a letter, a tab, and 0, 1 or bytes in hex.
#![tactic(auto)]

ghost use Rattle.std.specs.Prelude.{◌≡◌, ◌+◌, length, drop};
ghost use Rattle.std.proofs.lemmas.List.Edits.{sets};
ghost use Rattle.hexadecimal.specs.Hex.{hex_bytes};
ghost use Rattle.lines.specs.Line.{line_length, is_level, has_bytes};

// The place of the next line feed, or the end.
pub fn line_end(s: &[u8], from: usize) -> usize
    ensures { result ≡ from + line_length (drop from s.now) }
{
    let rest = &s[from.min(s.len())..];
    from + rest.iter().position(|x| *x == b'\n').unwrap_or(rest.len())
}

// Whether a line has 0 or 1 behind its tab.
pub fn is_level(s: &[u8]) -> bool
    ensures { result ≡ is_level s.now }
{
    let b = parts::byte_at(s, 2);
    (s.len() == 3) & (parts::byte_at(s, 1) == b'\t') & matches!(b, b'0' | b'1')
}

// Whether a line has bytes in hex behind its tab, one at least.
pub fn has_bytes(s: &[u8]) -> bool
    ensures { result ≡ has_bytes s.now }
{
    if s.len() < 4 {
        return false;
    }
    (s.len() % 2 == 0) & (s[1] == b'\t') & hexadecimal::all_hex(&s[2..])
}

// Stores the bytes that a line's digits behind its tab are, from place 0 on, and gives their number.
pub fn line_bytes(s: &[u8], out: &mut [u8]) -> usize
    ensures value { result ≡ length (hex_bytes (drop 2 s.now)) }
    ensures out_after { out.new ≡ sets out.old 0 (hex_bytes (drop 2 s.now)) }
{
    if s.len() < 2 {
        return 0;
    }
    hexadecimal::decode(&s[2..], out)
}
