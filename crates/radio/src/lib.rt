// The radio side: a frame or an end-of-frame in, its answer and what it changes out. A layer and no entry point: it refuses nothing.
#![tactic(auto)]

ghost use Rattle.std.specs.Prelude.{◌≡◌};
ghost use Rattle.reply.specs.Outcome.{radio_result, finish};
ghost use Rattle.radio.specs.Radio.{verdict_result, verdict_of, radio_of, next_slot_of};

use bus::OpenTransfer;
use judge::Verdict;
use keys::Uid;
use reply::{RadioOutcome, RadioSide};

// A frame without the inventory flag.
fn request(
    v: RadioSide,
    u: Uid,
    vcc: bool,
    transfer: Option<OpenTransfer>,
    programming: bool,
    m: &mut [u8],
    out: &mut [u8],
    f: &[u8],
) -> RadioOutcome
    ensures { radio_result result m.new out.new ≡ finish (verdict_result (verdict_of v u transfer programming f.now) v u vcc m.old f.now) out.old }
{
    let dynamic = v.core.registers.dynamic;
    let d = bus::counted_dynamic(transfer, dynamic);
    let open = bus::is_open_transfer(transfer);
    match judge::judge(f, v.air, u, d, open | programming) {
        Verdict::Silence => RadioOutcome {
            answer: None,
            side: v,
        },
        Verdict::Error(error) => reply::fail(v, out, error),
        Verdict::Request => serve::serve(request::fields(f, u), v, vcc, m, out, f),
    }
}

// A frame answered.
pub fn radio(
    v: RadioSide,
    u: Uid,
    vcc: bool,
    transfer: Option<OpenTransfer>,
    programming: bool,
    m: &mut [u8],
    out: &mut [u8],
    f: &[u8],
) -> RadioOutcome
    ensures { radio_result result m.new out.new ≡ finish (radio_of v u vcc transfer programming m.old f.now) out.old }
{
    if parts::byte_at(f, 0) / 0x04 % 2 == 1 {
        let d = bus::counted_dynamic(transfer, v.core.registers.dynamic);
        let open = bus::is_open_transfer(transfer);
        return inventory_reply::inventory(v, u, d, open | programming, m, out, f);
    }
    request(v, u, vcc, transfer, programming, m, out, f)
}

// An end-of-frame.
pub fn end_of_frame(
    v: RadioSide,
    u: Uid,
    transfer: Option<OpenTransfer>,
    programming: bool,
    m: &[u8],
    out: &mut [u8],
) -> RadioOutcome
    ensures { radio_result result m.now out.new ≡ finish (next_slot_of v u transfer programming m.now) out.old }
{
    let d = bus::counted_dynamic(transfer, v.core.registers.dynamic);
    let open = bus::is_open_transfer(transfer);
    inventory_reply::end_of_frame(v, u, d, open | programming, m, out)
}
