// A wire signal's answer, and the end of a leg: a Start and a Stop.
#![tactic(auto)]

ghost use Rattle.std.specs.Prelude.{◌≡◌};
ghost use Rattle.parts.specs.Pick.{pick};
ghost use Rattle.bus.specs.declared.Bus.TheVariants.{Started};
ghost use Rattle.bus.specs.Bus.{transfer_at};
ghost use Rattle.effect.specs.Effect.{leg_result};
ghost use Rattle.leg.specs.Leg.{stopped, started, last_fetched, settle};
ghost use Rattle.signal.specs.declared.WireAnswer.TheVariants.{Nothing};
ghost use Rattle.signal.specs.Signal.{wire_result, side_bus, side_line, write_due, start_at, start_of, stop_at};

use bus::{Bus, Space};
use tag::{Host, WireSide};

#[derive(Clone, Copy)]
pub enum WireAnswer {
    Nothing,
    Ack,
    NoAck,
    Byte(u8),
}

#[derive(Clone, Copy)]
pub struct WireOutcome {
    pub answer: WireAnswer,
    pub side: WireSide,
}

// The wire side with another bus, and with another counter too.
pub fn with_bus(w: WireSide, b: Bus) -> WireSide
    ensures { result ≡ side_bus b w }
{
    WireSide {
        host: w.host.with_bus(b),
        ..w
    }
}

pub fn with_line(w: WireSide, counter: u16, b: Bus) -> WireSide
    ensures { result ≡ side_line counter b w }
{
    WireSide {
        host: Host {
            counter,
            ..w.host.with_bus(b)
        },
        ..w
    }
}

// The end of a read leg.
#[tactic(auto, using(parts::proofs::Picks::picks))]
fn end_read(w: WireSide, last: bool) -> WireSide
    ensures { result ≡ pick last (last_fetched w) w }
{
    if last {
        return leg::last_fetched(w);
    }
    w
}

// The bus after a Start.
fn started(w: WireSide, b: Bus) -> WireSide
    ensures { result ≡ side_bus (Started (transfer_at b)) w }
{
    with_bus(w, Bus::Started(bus::transfer_at(b)))
}

// The Start after a write leg past its address; the bus is started already.
#[tactic(auto, using(parts::proofs::Picks::picks), unfolding(leg::specs::Leg::settle))]
fn start_write(w: WireSide, m: &mut [u8], space: Space, count: u16, spoiled: bool) -> WireSide
    ensures { leg_result result m.new ≡ settle started (write_due space count spoiled w.host.counter m.old) w m.old }
{
    if spoiled | (count == 0) {
        return w;
    }
    let first = select::first_of(w.host.counter, count);
    if leg::acts_at_start(space, first) {
        return leg::leg_written(space, w, m, first, count);
    }
    w
}

// A Start on a powered bus: the leg ends; of its writes only those to a dynamic register are done.
#[tactic(auto, using(crate::proofs::Settle::read_started), unfolding(crate::specs::Signal::start_at, crate::specs::Signal::due_of, leg::specs::Leg::settle))]
fn start_at(b: Bus, w: WireSide, m: &mut [u8]) -> WireSide
    ensures { wire_result Nothing result m.new ≡ start_at b w m.old }
{
    let next = started(w, b);
    match b {
        Bus::Idle | Bus::Started(_) | Bus::WriteLeg { .. } | Bus::LowAddress { .. } => next,
        Bus::ReadLeg { last, .. } => end_read(next, last),
        Bus::DataLeg {
            space,
            count,
            spoiled,
            ..
        } => start_write(next, m, space, count, spoiled),
    }
}

#[tactic(auto, using(parts::proofs::Picks::picks), unfolding(crate::specs::Signal::start_of))]
pub fn start(w: WireSide, m: &mut [u8]) -> WireSide
    ensures { wire_result Nothing result m.new ≡ start_of w m.old }
{
    if !w.host.vcc {
        return w;
    }
    start_at(w.host.bus, w, m)
}

// The Stop of a write leg past its address; the bus is idle already.
#[tactic(auto, using(parts::proofs::Picks::picks), unfolding(leg::specs::Leg::settle))]
fn stop_write(w: WireSide, m: &mut [u8], space: Space, count: u16, spoiled: bool) -> WireSide
    ensures { leg_result result m.new ≡ settle stopped (write_due space count spoiled w.host.counter m.old) w m.old }
{
    if spoiled | (count == 0) {
        return w;
    }
    let first = select::first_of(w.host.counter, count);
    leg::leg_written(space, w, m, first, count)
}

// A Stop: the leg ends, its writes done.
#[tactic(auto, using(crate::proofs::Settle::read_stopped), unfolding(crate::specs::Signal::stop_at, crate::specs::Signal::due_of, leg::specs::Leg::settle))]
pub fn stop_at(b: Bus, w: WireSide, m: &mut [u8]) -> WireSide
    ensures { wire_result Nothing result m.new ≡ stop_at b w m.old }
{
    let next = with_bus(w, Bus::Idle);
    match b {
        Bus::Idle | Bus::Started(_) | Bus::WriteLeg { .. } | Bus::LowAddress { .. } => next,
        Bus::ReadLeg { last, .. } => end_read(next, last),
        Bus::DataLeg {
            space,
            count,
            spoiled,
            ..
        } => stop_write(next, m, space, count, spoiled),
    }
}
