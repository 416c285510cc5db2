// The tags of a rack and their states, end to end.
#![tactic(auto)]

ghost use Rattle.std.specs.Prelude.{◌≡◌, eqb, length};
ghost use Rattle.parts.specs.Pick.{pick};
ghost use Rattle.state.specs.Layout.{state_bytes, tag_of};
ghost use Rattle.rack_states.specs.States.{spare_tag, sixteen_at, stored_tags};

use keys::Uid;
use tag::Tag;

// How many tags a rack has at most.
pub const MOST_TAGS: usize = 16;

// Where no state is.
fn spare_tag() -> Tag
    ensures { result ≡ spare_tag }
{
    Tag::fresh(Uid { bytes: [0; 8] })
}

// The tag of a state.
fn decode_state(s: &[u8]) -> Tag
    ensures { result ≡ pick (eqb (length s.now) state_bytes) (tag_of s.now) spare_tag }
{
    // Known from here on, the length is not tested again at each byte.
    if s.len() != state::STATE_BYTES {
        return spare_tag();
    }
    state_decode::decode(s)
}

// The first sixteen tags whose states are whole, and spare ones to make them sixteen.
pub fn decode_tags(s: &[u8]) -> [Tag; MOST_TAGS]
    ensures { result ≡ sixteen_at s.now }
{
    let spare = spare_tag();
    let mut tags = [spare; MOST_TAGS];
    for i in 0..MOST_TAGS.min(s.len() / state::STATE_BYTES) {
        let at = i * state::STATE_BYTES;
        tags[i] = decode_state(&s[at..at + state::STATE_BYTES]);
    }
    tags
}

// Stores the states of those of sixteen tags for which there is room.
pub fn encode_tags(tags: [Tag; MOST_TAGS], s: &mut [u8])
    ensures { s.new ≡ stored_tags tags s.old }
{
    for i in 0..MOST_TAGS.min(s.len() / state::STATE_BYTES) {
        let at = i * state::STATE_BYTES;
        state_encode::encode(tags[i], &mut s[at..at + state::STATE_BYTES]);
    }
}
