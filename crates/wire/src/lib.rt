// The wire side: one signal in, its answer and what it changes out. A layer and no entry point: it refuses nothing.
#![tactic(auto)]

ghost use Rattle.std.specs.Prelude.{◌≡◌};
ghost use Rattle.bus.specs.declared.Bus.TheVariants.{ReadLeg};
ghost use Rattle.signal.specs.declared.WireAnswer.TheVariants.{Nothing, Byte};
ghost use Rattle.signal.specs.Signal.{wire_result};
ghost use Rattle.wire.specs.Wire.{fetch_at, programmed, signal_of};

use bus::{Bus, OpenTransfer, Space};
use keys::Uid;
use signal::{WireAnswer, WireOutcome};
use signal_table::WireSignal;
use tag::{Host, WireSide};

// A fetch that gives no byte and moves nothing. A method of WireOutcome would say the same at more length.
fn no_byte(w: WireSide) -> WireOutcome
    ensures { result ≡ record { answer = Byte 0xFF; side = w } }
{
    WireOutcome {
        answer: WireAnswer::Byte(0xFF),
        side: w,
    }
}

// A byte fetched in a read leg.
#[tactic(auto, using(parts::proofs::Picks::picks), unfolding(crate::specs::Wire::fetch_at))]
fn fetch_read(
    kept: OpenTransfer,
    space: Space,
    over: bool,
    last: bool,
    w: WireSide,
    u: Uid,
    m: &[u8],
    ack: bool,
) -> WireOutcome
    ensures { wire_result result.answer result.side m.now ≡ fetch_at (ReadLeg kept space over last) w u m.now ack }
{
    if over {
        return no_byte(w);
    }
    let counter = w.host.counter;
    let x = fetch::fetched(space, w.core, w.host.session, u, m, counter);
    let reached = fetch::is_last(space, w.core.mailbox, counter);
    let after = bus::next_address(counter);
    let leg = Bus::ReadLeg {
        kept,
        space,
        over: !ack,
        last: last | reached,
    };
    WireOutcome {
        answer: WireAnswer::Byte(x),
        side: signal::with_line(w, after, leg),
    }
}

// A byte fetched.
#[tactic(auto, unfolding(crate::specs::Wire::fetch_at))]
fn fetch_at(b: Bus, w: WireSide, u: Uid, m: &[u8], ack: bool) -> WireOutcome
    ensures { wire_result result.answer result.side m.now ≡ fetch_at b w u m.now ack }
{
    match b {
        Bus::ReadLeg {
            kept,
            space,
            over,
            last,
        } => fetch_read(kept, space, over, last, w, u, m, ack),
        Bus::Idle
        | Bus::Started(_)
        | Bus::WriteLeg { .. }
        | Bus::LowAddress { .. }
        | Bus::DataLeg { .. } => no_byte(w),
    }
}

// Programming has ended.
fn end_programming(w: WireSide) -> WireSide
    ensures { result ≡ programmed w }
{
    WireSide {
        host: Host {
            programming: false,
            ..w.host
        },
        ..w
    }
}

fn nothing(w: WireSide) -> WireOutcome
    ensures { result ≡ record { answer = Nothing; side = w } }
{
    WireOutcome {
        answer: WireAnswer::Nothing,
        side: w,
    }
}

// One signal.
#[tactic(auto, unfolding(crate::specs::Wire::signal_of))]
pub fn step(w: WireSide, u: Uid, m: &mut [u8], signal: WireSignal) -> WireOutcome
    ensures { wire_result result.answer result.side m.new ≡ signal_of w u m.old signal }
{
    match signal {
        WireSignal::Start => nothing(signal::start(w, m)),
        WireSignal::Send(x) => send::send_at(w.host.bus, w, m, x),
        WireSignal::Fetch(ack) => fetch_at(w.host.bus, w, u, m, ack),
        WireSignal::Stop => nothing(signal::stop_at(w.host.bus, w, m)),
        WireSignal::Vcc(on) => nothing(w.vcc_at(on)),
        WireSignal::ProgrammingEnd => nothing(end_programming(w)),
    }
}
