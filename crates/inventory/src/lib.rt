// Inventory of ISO/IEC 15693: which frames are well-formed, which tags they ask, and in which slot a tag answers.
#![tactic(auto)]

ghost use Rattle.std.specs.Prelude.{◌≡◌, ◌≤◌};
ghost use Rattle.inventory.specs.Inventory.{mask_length_place, mask_bits, is_malformed, bit_at, same_bits, afi_asks, is_matched, slot_number, own_slot, slots_after, answers_now, takes_part, inventory_silent};

use air::Air;
use keys::Uid;
use register_types::{Afi, RfMngt};

// ---- the frame
#[tactic(auto, using(parts::proofs::Picks::picks), unfolding(crate::specs::Inventory::mask_length_place))]
fn mask_length_place(f: &[u8]) -> usize
    ensures value { result ≡ mask_length_place f.now }
    ensures upper_bound { result ≤ 3 }
{
    if parts::byte_at(f, 0) / 0x10 % 2 == 1 {
        return 3;
    }
    2
}

#[tactic(auto, unfolding(crate::specs::Inventory::mask_bits))]
fn mask_bits(f: &[u8]) -> u8
    ensures { result ≡ mask_bits f.now }
{
    parts::byte_at(f, mask_length_place(f))
}

// Other command or length, flag 08, 40 or 80, mask over 64 bits, with sixteen slots over 60.
#[tactic(auto, unfolding(crate::specs::Inventory::is_malformed))]
pub fn is_malformed(f: &[u8]) -> bool
    ensures { result ≡ is_malformed f.now }
{
    let flags = parts::byte_at(f, 0);
    let c = frame::command(f);
    let at = mask_length_place(f);
    let n = mask_bits(f);
    let end = frame::crc_place(f);
    (c != 0x01)
        | (at + 1 + (n as usize + 7) / 8 != end)
        | (flags / 0x08 % 2 == 1)
        | (flags / 0x40 % 2 == 1)
        | (flags / 0x80 % 2 == 1)
        | (64 < n)
        | (!(flags / 0x20 % 2 == 1) & (60 < n))
}

// ---- the tags it asks
// Bit i of the bytes from a place on.
#[tactic(auto, unfolding(crate::specs::Inventory::bit_at))]
fn bit_at(s: &[u8], at: usize, i: usize) -> u8
    ensures value { result ≡ bit_at s.now at i }
    ensures upper_bound { result ≤ 1 }
{
    let x = parts::byte_in(s, at, i / 8);
    (x >> (i % 8)) % 2
}

fn same_bits(f: &[u8], at: usize, uid: &[u8], n: usize) -> bool
    ensures { result ≡ same_bits f.now at uid.now n }
{
    let mut same = true;
    for i in 0..n {
        same &= bit_at(f, at, i) == bit_at(uid, 0, i);
    }
    same
}

#[tactic(auto, using(parts::proofs::Picks::picks), unfolding(crate::specs::Inventory::afi_asks))]
fn afi_asks(asked: u8, own: Afi) -> bool
    ensures { result ≡ afi_asks asked own }
{
    if asked == 0 {
        return true;
    }
    if asked % 16 == 0 {
        return asked / 16 == own.bits / 16;
    }
    asked == own.bits
}

#[tactic(auto, unfolding(crate::specs::Inventory::is_matched))]
fn is_matched(f: &[u8], u: Uid, own: Afi) -> bool
    ensures { result ≡ is_matched f.now u own }
{
    let asked = afi_asks(parts::byte_at(f, 2), own);
    let at = mask_length_place(f);
    let n = mask_bits(f);
    let uid = u.bytes;
    let same = same_bits(f, at + 1, &uid, n as usize);
    (!(parts::byte_at(f, 0) / 0x10 % 2 == 1) | asked) & same
}

// ---- the slot
#[tactic(auto, unfolding(crate::specs::Inventory::slot_number))]
fn slot_number(uid: &[u8], n: usize) -> u8
    requires { n ≤ 255 }
    ensures value { result ≡ slot_number uid.now n }
    ensures upper_bound { result ≤ 15 }
{
    bit_at(uid, 0, n)
        + 2 * bit_at(uid, 0, n + 1)
        + 4 * bit_at(uid, 0, n + 2)
        + 8 * bit_at(uid, 0, n + 3)
}

#[tactic(auto, using(parts::proofs::Picks::picks), unfolding(crate::specs::Inventory::own_slot))]
fn own_slot(f: &[u8], u: Uid) -> u8
    ensures { result ≡ own_slot f.now u }
{
    if parts::byte_at(f, 0) / 0x20 % 2 == 1 {
        return 0;
    }
    let uid = u.bytes;
    slot_number(&uid, mask_bits(f) as usize)
}

// How many ends-of-frame a well-formed frame leaves to the tag's slot.
#[tactic(auto, using(parts::proofs::Picks::picks), unfolding(crate::specs::Inventory::slots_after))]
pub fn slots_after(f: &[u8], u: Uid, own: Afi) -> u8
    ensures { result ≡ slots_after f.now u own }
{
    if is_matched(f, u, own) {
        return own_slot(f, u);
    }
    0
}

// Whether a well-formed frame is answered at once.
#[tactic(auto, unfolding(crate::specs::Inventory::answers_now))]
pub fn answers_now(f: &[u8], u: Uid, own: Afi) -> bool
    ensures { result ≡ answers_now f.now u own }
{
    let slot = own_slot(f, u);
    is_matched(f, u, own) & (slot == 0)
}

// ---- the tag
// Whether it hears inventory frames and ends-of-frame.
#[tactic(auto, unfolding(crate::specs::Inventory::takes_part))]
pub fn takes_part(a: Air, dynamic: RfMngt, busy: bool) -> bool
    ensures { result ≡ takes_part a dynamic busy }
{
    let radio = a.radio;
    a.field
        & !(dynamic.bits / 2 % 2 == 1)
        & !air::is_quiet(radio)
        & !((dynamic.bits / 1 % 2 == 1) | busy)
}

// Whether an inventory frame past its CRC gets no answer.
#[tactic(auto, unfolding(crate::specs::Inventory::inventory_silent))]
pub fn inventory_silent(f: &[u8], a: Air, u: Uid, own: Afi, dynamic: RfMngt, busy: bool) -> bool
    ensures { result ≡ inventory_silent f.now a u own dynamic busy }
{
    let radio = a.radio;
    is_malformed(f)
        | air::is_quiet(radio)
        | ((dynamic.bits / 1 % 2 == 1) | busy)
        | !answers_now(f, u, own)
}
