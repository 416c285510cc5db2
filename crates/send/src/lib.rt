// A byte sent on the bus: the select, the address, and by `data_byte` the data bytes.
#![tactic(auto)]

ghost use Rattle.std.specs.Prelude.{◌≡◌, false};
ghost use Rattle.bus.specs.declared.Bus.TheVariants.{DataLeg};
ghost use Rattle.select.specs.Select.{choose, address};
ghost use Rattle.signal.specs.Signal.{wire_result, side_line};
ghost use Rattle.send.specs.Send.{select_by, send_at};

use bus::{Bus, OpenTransfer, Space};
use select::Choice;
use signal::{WireAnswer, WireOutcome};
use tag::WireSide;

// The first byte sent after a Start.
#[tactic(auto, unfolding(crate::specs::Send::select_by))]
fn select(kept: OpenTransfer, w: WireSide, m: &[u8], x: u8) -> WireOutcome
    ensures { wire_result result.answer result.side m.now ≡ select_by (choose w.host.vcc w.host.programming x) kept w m.now }
{
    match select::choose(w.host.vcc, w.host.programming, x) {
        Choice::NotAcked => WireOutcome {
            answer: WireAnswer::NoAck,
            side: signal::with_bus(w, Bus::Idle),
        },
        Choice::Reading(space) => WireOutcome {
            answer: WireAnswer::Ack,
            side: signal::with_bus(
                w,
                Bus::ReadLeg {
                    kept,
                    space,
                    over: false,
                    last: false,
                },
            ),
        },
        Choice::Writing(space) => WireOutcome {
            answer: WireAnswer::Ack,
            side: signal::with_bus(w, Bus::WriteLeg { kept, space }),
        },
    }
}

// The second byte of an address.
fn low_address(kept: OpenTransfer, space: Space, high: u8, w: WireSide, x: u8) -> WireSide
    ensures { result ≡ side_line (address high x) (DataLeg kept space 0 false) w }
{
    let leg = Bus::DataLeg {
        kept,
        space,
        count: 0,
        spoiled: false,
    };
    signal::with_line(w, select::address(high, x), leg)
}

// A byte sent.
#[tactic(auto, unfolding(crate::specs::Send::send_at))]
pub fn send_at(b: Bus, w: WireSide, m: &mut [u8], x: u8) -> WireOutcome
    ensures { wire_result result.answer result.side m.new ≡ send_at b w m.old x }
{
    match b {
        Bus::Idle | Bus::ReadLeg { .. } => data_byte::no_ack(w),
        Bus::Started(transfer) => select(bus::kept_of(transfer, w.core.registers.dynamic), w, m, x),
        Bus::WriteLeg { kept, space } => WireOutcome {
            answer: WireAnswer::Ack,
            side: signal::with_bus(
                w,
                Bus::LowAddress {
                    kept,
                    space,
                    high: x,
                },
            ),
        },
        Bus::LowAddress { kept, space, high } => WireOutcome {
            answer: WireAnswer::Ack,
            side: low_address(kept, space, high, w, x),
        },
        Bus::DataLeg {
            kept,
            space,
            count,
            spoiled,
        } => data_byte::send_data(kept, space, count, spoiled, w, m, x),
    }
}
