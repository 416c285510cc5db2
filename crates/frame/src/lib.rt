// A frame's fields: flags, command, UID, parameters and the CRC's place.
#![tactic(auto)]

ghost use Rattle.std.specs.Prelude.{◌≡◌, ◌≤◌};
ghost use Rattle.frame.specs.Fields.{command, option_flag, uid_place, param_place, crc_place, own_uid, param};

use keys::Uid;

// The command byte.
pub fn command(f: &[u8]) -> u8
    ensures { result ≡ command f.now }
{
    parts::byte_at(f, 1)
}

// Whether the option flag is set.
pub fn option(f: &[u8]) -> bool
    ensures { result ≡ option_flag f.now }
{
    parts::byte_at(f, 0) / 0x40 % 2 == 1
}

// Where the UID stands.
#[tactic(auto, using(parts::proofs::Picks::picks), unfolding(crate::specs::Fields::uid_place))]
pub fn uid_place(f: &[u8]) -> usize
    ensures value { result ≡ uid_place f.now }
    ensures upper_bound { result ≤ 3 }
{
    if 0xA0 <= command(f) {
        return 3;
    }
    2
}

// Where the parameters stand.
#[tactic(auto, using(parts::proofs::Picks::picks), unfolding(crate::specs::Fields::param_place))]
pub fn param_place(f: &[u8]) -> usize
    ensures value { result ≡ param_place f.now }
    ensures upper_bound { result ≤ 11 }
{
    let at = uid_place(f);
    if parts::byte_at(f, 0) / 0x20 % 2 == 1 {
        return at + 8;
    }
    at
}

// Parameter byte i.
#[tactic(auto, unfolding(crate::specs::Fields::param))]
pub fn param(f: &[u8], i: usize) -> u8
    ensures { result ≡ param f.now i }
{
    parts::byte_in(f, param_place(f), i)
}

// Where the CRC stands.
pub fn crc_place(f: &[u8]) -> usize
    ensures { result ≡ crc_place f.now }
{
    if f.len() < 2 {
        return 0;
    }
    f.len() - 2
}

// Whether the frame's UID is the tag's.
#[tactic(auto, unfolding(crate::specs::Fields::own_uid))]
pub fn own_uid(f: &[u8], u: Uid) -> bool
    ensures { result ≡ own_uid f.now u }
{
    Uid::at(f, uid_place(f)) == u
}
