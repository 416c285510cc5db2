// What the example program does with a tag's bytes: the memory, and the state.
#![tactic(auto)]

ghost use Rattle.std.specs.Prelude.{◌≡◌};
ghost use Rattle.text.specs.Place.{stored, text_at};
ghost use Rattle.hexadecimal.specs.Hex.{hex_text};
ghost use Rattle.state.specs.Layout.{bytes_of};
ghost use Rattle.example_states.specs.Store.{word_at, store_result, store_of};
ghost use Rattle.example_states.specs.States.{patch_of};

use tag::Tag;

// Two bytes from a place on, high first.
pub fn word_at(s: &[u8], i: usize) -> u16
    ensures { result ≡ word_at s.now i }
{
    select::address(parts::byte_at(s, i), parts::byte_in(s, i, 1))
}

// Stores a line's bytes at the place that its first two name, and says whether they lie in the memory. Else none is.
pub fn store(m: &mut [u8], s: &[u8]) -> bool
    ensures { store_result result m.new ≡ store_of m.old s.now }
{
    if s.len() < 2 {
        return false;
    }
    let at = word_at(s, 0) as usize;
    if m.len() < at {
        return false;
    }
    if m.len() - at < s.len() - 2 {
        return false;
    }
    parts::put_bytes(m, at, s, 2, s.len() - 2);
    true
}

// Sets bytes of a tag's state from a line's bytes, of which the first two name the place; none where they are no state's.
pub fn patch(t: Tag, line: &[u8]) -> Option<Tag>
    ensures { result ≡ patch_of t line.now }
{
    let mut s = [0u8; state::STATE_BYTES];
    state_encode::encode(t, &mut s);
    if !store(&mut s, line) {
        return None;
    }
    if !state_judge::decodes(&s) {
        return None;
    }
    Some(state_decode::decode(&s))
}

// Stores the digits of the bytes of a tag's state.
pub fn put_state(text: &mut [u8], at: usize, t: Tag) -> usize
    ensures { stored result text.new ≡ text_at text.old at (hex_text (bytes_of t)) }
{
    let mut s = [0u8; state::STATE_BYTES];
    state_encode::encode(t, &mut s);
    hexadecimal::put_hex(text, at, &s, state::STATE_BYTES)
}
