// Which rule explains a NoAck, an error or a silence, by its number. It is asked before the signal acts, and only reads.
#![tactic(auto)]

ghost use Rattle.std.specs.Prelude.{◌≡◌, Bool, true, false, not, ◌&&◌, List, ℕ};
ghost use Rattle.parts.specs.Pick.{pick};
ghost use Rattle.frame.specs.Fields.{inventory_flag};
ghost use Rattle.signal_table.specs.declared.WireSignal.TheVariants.{Send};
ghost use Rattle.signal_table.specs.declared.Signal.TheVariants.{Wire, Frame};
ghost use Rattle.row_rules.specs.RowErrors.{first_applying};
ghost use Rattle.explanation_rules.specs.Conditions.{is_select_byte};
ghost use Rattle.explanation_rules.specs.Explanation.{frame_errors, explained, explained_number, rule_at};
ghost use Rattle.explanation_rules.specs.Numbers.{write_number};

use bus::Bus;
use errors::RadioError;
use register_types::RfMngt;
use reply::RadioSide;
use signal_table::{Signal, WireSignal};
use tag::{Tag, WireSide};
use write_reasons::WriteReason;

// ---- a byte sent
fn write_number(verdict: Result<(), WriteReason>) -> u8
    ensures { result ≡ write_number verdict }
{
    match verdict {
        Ok(()) => 0,
        Err(reason) => reason.number(),
    }
}

// A byte that is no data byte.
fn other_byte(vcc: bool, idle: bool, reading: bool, started: bool, programming: bool, x: u8) -> u8
    ensures { result ≡ pick (not vcc) 16 (pick idle 17 (pick reading 18 (pick (started && not (is_select_byte x)) 19 (pick programming 20 0)))) }
{
    if !vcc {
        return 16;
    }
    if idle {
        return 17;
    }
    if reading {
        return 18;
    }
    let select = (x == 0xA6) | (x == 0xA7) | (x == 0xAE) | (x == 0xAF);
    if started & !select {
        return 19;
    }
    if programming {
        return 20;
    }
    0
}

fn sent_byte(t: Tag, m: &[u8], x: u8) -> u8
    ensures { (f : List ℕ) → result ≡ explained_number (explained t m.now (Wire (Send x)) f) }
{
    let host = t.host;
    let core = t.core;
    let bus = host.bus;
    let vcc = host.vcc;
    let programming = host.programming;
    match bus {
        Bus::Idle => other_byte(vcc, true, false, false, programming, x),
        Bus::Started(_) => other_byte(vcc, false, false, true, programming, x),
        Bus::ReadLeg {
            kept,
            space,
            over,
            last,
        } => other_byte(vcc, false, true, false, programming, x),
        Bus::WriteLeg { kept, space } => other_byte(vcc, false, false, false, programming, x),
        Bus::LowAddress { kept, space, high } => other_byte(
            vcc,
            false,
            false,
            false,
            programming,
            x,
        ),
        Bus::DataLeg {
            kept,
            space,
            count,
            spoiled,
        } => {
            let side = WireSide { host, core };
            let asked = data_byte::asked_of(side, space, count, spoiled, x);
            write_number(write_verdict::verdict(t.core, m, asked))
        }
    }
}

// ---- a frame
// The first error: the judge's, else the row's.
fn frame_error(
    v: RadioSide,
    dynamic: RfMngt,
    busy: bool,
    m: &[u8],
    f: &[u8],
) -> Result<(), RadioError>
    ensures { result ≡ first_applying dynamic busy v f.now (frame_errors f.now) }
{
    judge::first_error(f, dynamic, busy)?;
    row_errors::row_error(commands::command_of(frame::command(f)), v, m, f)
}

// A frame without the inventory flag.
fn request_rule(t: Tag, m: &[u8], f: &[u8]) -> u8
    ensures { inventory_flag f.now ≡ false → result ≡ explained_number (explained t m.now Frame f.now) }
{
    let air = t.air;
    let core = t.core;
    let host = t.host;
    let bus = host.bus;
    let transfer = bus::transfer_at(bus);
    let dynamic = bus::counted_dynamic(transfer, t.core.registers.dynamic);
    let busy = bus::is_open_transfer(transfer) | t.host.programming;
    let silent = silence::first_silence(f, air, t.uid, dynamic);
    if silent != 0 {
        return silent;
    }
    if judge::is_mute(f, t.uid) {
        return 32;
    }
    frame_error(RadioSide { air, core }, dynamic, busy, m, f)
        .err()
        .map_or(0, RadioError::number)
}

// One with it.
fn inventory_rule(t: Tag, f: &[u8]) -> u8
    ensures { inventory_flag f.now ≡ true → (m : List ℕ) → result ≡ explained_number (explained t m Frame f.now) }
{
    let air = t.air;
    let host = t.host;
    let bus = host.bus;
    let transfer = bus::transfer_at(bus);
    let dynamic = bus::counted_dynamic(transfer, t.core.registers.dynamic);
    let busy = bus::is_open_transfer(transfer) | t.host.programming;
    let silent = silence::first_of_reception(f, air, dynamic);
    if silent != 0 {
        return silent;
    }
    let own = t.core.registers.afi;
    if inventory::inventory_silent(f, air, t.uid, own, dynamic, busy) {
        return 25;
    }
    0
}

fn frame_rule(t: Tag, m: &[u8], f: &[u8]) -> u8
    ensures { result ≡ explained_number (explained t m.now Frame f.now) }
{
    if parts::byte_at(f, 0) / 0x04 % 2 == 1 {
        return inventory_rule(t, f);
    }
    request_rule(t, m, f)
}

// ---- every signal
fn wire_rule(t: Tag, m: &[u8], signal: WireSignal) -> u8
    ensures { (f : List ℕ) → result ≡ explained_number (explained t m.now (Wire signal) f) }
{
    match signal {
        WireSignal::Start => 0,
        WireSignal::Send(x) => sent_byte(t, m, x),
        WireSignal::Fetch(_) => 0,
        WireSignal::Stop => 0,
        WireSignal::Vcc(_) => 0,
        WireSignal::ProgrammingEnd => 0,
    }
}

// The number of the rule that explains the answer to a call, or 0 where there is nothing to explain, as st25dv_explain gives it.
pub fn rule_of(t: Tag, m: &[u8], code: u32, value: u32, frame: &[u8]) -> u8
    ensures { result ≡ rule_at t m.now code value frame.now }
{
    let signal = signal_table::signal_by(code, value);
    match signal {
        Signal::Wire(wire) => wire_rule(t, m, wire),
        Signal::Field(_) => 0,
        Signal::Frame => frame_rule(t, m, frame),
        Signal::EndOfFrame => 0,
    }
}
