// One character stored, and the place behind a text.
ghost use Rattle.std.specs.Prelude.{◌≡◌, [], ◌∷◌, ◌+◌, min};
ghost use Rattle.text.specs.Place.{last_place, stored, text_at};

// The place n bytes on; the last place is not passed.
pub fn after(at: usize, n: usize) -> usize
    ensures { result ≡ min (at + n) last_place }
{
    at.saturating_add(n)
}

// Stores a character at a place.
pub fn put_mark(text: &mut [u8], at: usize, x: u8) -> usize
    ensures { stored result text.new ≡ text_at text.old at (x ∷ []) }
{
    parts::put(text, at, x);
    after(at, 1)
}
