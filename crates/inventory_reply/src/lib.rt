// What an inventory frame and an end-of-frame do.
#![tactic(auto)]

ghost use Rattle.std.specs.Prelude.{◌≡◌};
ghost use Rattle.reply.specs.Reply.{reply_result, put_reply};
ghost use Rattle.reply.specs.Outcome.{radio_result, finish};
ghost use Rattle.inventory_reply.specs.Answers.{inventory_reply, slots_left, is_heard, inventory_of, end_of_frame_of};

use air::Air;
use keys::Uid;
use register_types::{Dsfid, RfMngt};
use reply::{RadioOutcome, RadioSide};

// 00h, DSFID, UID.
fn put_reply(dsfid: Dsfid, u: Uid, out: &mut [u8]) -> usize
    ensures { reply_result (Some result) out.new ≡ put_reply (inventory_reply dsfid u) out.old }
{
    parts::put(out, 0, 0x00);
    parts::put(out, 1, dsfid.bits);
    let uid = u.bytes;
    parts::put_bytes(out, 2, &uid, 0, 8);
    reply::close(out, 10)
}

// The ends-of-frame left to the slot, and an answer now or silence.
fn leave_slots(v: RadioSide, u: Uid, n: u8, answers: bool, m: &[u8], out: &mut [u8]) -> RadioOutcome
    ensures { radio_result result m.now out.new ≡ finish (slots_left v u n answers m.now) out.old }
{
    let next = v.with_air(v.air.with_slots(n));
    if answers {
        return RadioOutcome {
            answer: Some(put_reply(v.core.registers.dsfid, u, out)),
            side: next,
        };
    }
    RadioOutcome {
        answer: None,
        side: next,
    }
}

// Whether the tag takes part and the frame is whole and well-formed. The CRC is computed only where it matters.
fn is_heard(f: &[u8], a: Air, dynamic: RfMngt, busy: bool) -> bool
    ensures { result ≡ is_heard f.now a dynamic busy }
{
    if !inventory::takes_part(a, dynamic, busy) {
        return false;
    }
    if (f.len() < 4) | (270 < f.len()) {
        return false;
    }
    if !crc::is_good(f) {
        return false;
    }
    !inventory::is_malformed(f)
}

// An inventory frame.
pub fn inventory(
    v: RadioSide,
    u: Uid,
    dynamic: RfMngt,
    busy: bool,
    m: &[u8],
    out: &mut [u8],
    f: &[u8],
) -> RadioOutcome
    ensures { radio_result result m.now out.new ≡ finish (inventory_of v u dynamic busy m.now f.now) out.old }
{
    if is_heard(f, v.air, dynamic, busy) {
        let own = v.core.registers.afi;
        let slots = inventory::slots_after(f, u, own);
        let answers = inventory::answers_now(f, u, own);
        return leave_slots(v, u, slots, answers, m, out);
    }
    RadioOutcome {
        answer: None,
        side: v,
    }
}

// An end-of-frame.
pub fn end_of_frame(
    v: RadioSide,
    u: Uid,
    dynamic: RfMngt,
    busy: bool,
    m: &[u8],
    out: &mut [u8],
) -> RadioOutcome
    ensures { radio_result result m.now out.new ≡ finish (end_of_frame_of v u dynamic busy m.now) out.old }
{
    if inventory::takes_part(v.air, dynamic, busy) {
        let slots = v.air.slots;
        return leave_slots(v, u, slots.saturating_sub(1), slots == 1, m, out);
    }
    RadioOutcome {
        answer: None,
        side: v,
    }
}
