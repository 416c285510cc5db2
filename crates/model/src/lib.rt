// The tag's two entry points: the fresh tag, and one call. Nothing here relies on a check by the caller.
#![tactic(auto)]

ghost use Rattle.std.specs.Prelude.{◌≡◌};
ghost use Rattle.air.specs.Radio.{field_at};
ghost use Rattle.signal_table.specs.declared.Signal.TheVariants.{Frame, EndOfFrame};
ghost use Rattle.tag.specs.Parts.{wire_side, with_wire, with_tag_air};
ghost use Rattle.wire.specs.Wire.{signal_of};
ghost use Rattle.model.specs.declared.Answer.TheVariants.{Refused, Nothing};
ghost use Rattle.refusals.specs.Call.{handed_in};
ghost use Rattle.model.specs.Step.{step_result_of, fresh_result, from_wire, from_radio, act_of, step_of, fresh_of};

use keys::Uid;
use refusals::Refusal;
use reply::RadioSide;
use signal_table::{Signal, WireSignal};
use tag::{Tag, WireSide};

#[derive(Clone, Copy)]
pub enum Answer {
    Refused(Refusal),
    Nothing,
    Ack,
    NoAck,
    Byte(u8),
    Silence,
    // A reply's length, CRC included; it stands in the reply buffer from place 0 on.
    Reply(usize),
}

#[derive(Clone, Copy)]
pub struct Outcome {
    pub answer: Answer,
    pub tag: Tag,
}

// ---- the answers
fn from_wire(answer: signal::WireAnswer) -> Answer
    ensures { result ≡ from_wire answer }
{
    match answer {
        signal::WireAnswer::Nothing => Answer::Nothing,
        signal::WireAnswer::Ack => Answer::Ack,
        signal::WireAnswer::NoAck => Answer::NoAck,
        signal::WireAnswer::Byte(x) => Answer::Byte(x),
    }
}

fn from_radio(answer: Option<usize>) -> Answer
    ensures { result ≡ from_radio answer }
{
    match answer {
        None => Answer::Silence,
        Some(n) => Answer::Reply(n),
    }
}

// ---- a signal that is not refused
fn by_wire(t: Tag, m: &mut [u8], signal: WireSignal) -> Outcome
    ensures { fresh_result result.answer result.tag m.new ≡ (let stepped = signal_of (wire_side t) t.uid m.old signal in fresh_result (from_wire stepped.answer) (with_wire stepped.side t) stepped.memory) }
{
    let before = WireSide {
        host: t.host,
        core: t.core,
    };
    let o = wire::step(before, t.uid, m, signal);
    Outcome {
        answer: from_wire(o.answer),
        tag: Tag {
            host: o.side.host,
            core: o.side.core,
            ..t
        },
    }
}

fn by_field(t: Tag, on: bool) -> Outcome
    ensures { result ≡ record { answer = Nothing; tag = with_tag_air (field_at on t.air) t } }
{
    Outcome {
        answer: Answer::Nothing,
        tag: Tag {
            air: t.air.field_at(on),
            ..t
        },
    }
}

fn by_frame(t: Tag, m: &mut [u8], out: &mut [u8], frame: &[u8]) -> Outcome
    ensures { step_result_of result m.new out.new ≡ act_of Frame t m.old out.old frame.now }
{
    let before = RadioSide {
        air: t.air,
        core: t.core,
    };
    let bus = t.host.bus;
    let transfer = bus::transfer_at(bus);
    let o = radio::radio(
        before,
        t.uid,
        t.host.vcc,
        transfer,
        t.host.programming,
        m,
        out,
        frame,
    );
    Outcome {
        answer: from_radio(o.answer),
        tag: Tag {
            air: o.side.air,
            core: o.side.core,
            ..t
        },
    }
}

fn by_end_of_frame(t: Tag, m: &[u8], out: &mut [u8], frame: &[u8]) -> Outcome
    ensures { step_result_of result m.now out.new ≡ act_of EndOfFrame t m.now out.old frame.now }
{
    let before = RadioSide {
        air: t.air,
        core: t.core,
    };
    let bus = t.host.bus;
    let transfer = bus::transfer_at(bus);
    let o = radio::end_of_frame(before, t.uid, transfer, t.host.programming, m, out);
    Outcome {
        answer: from_radio(o.answer),
        tag: Tag {
            air: o.side.air,
            core: o.side.core,
            ..t
        },
    }
}

pub fn act(signal: Signal, t: Tag, m: &mut [u8], out: &mut [u8], frame: &[u8]) -> Outcome
    ensures { step_result_of result m.new out.new ≡ act_of signal t m.old out.old frame.now }
{
    match signal {
        Signal::Wire(x) => by_wire(t, m, x),
        Signal::Field(on) => by_field(t, on),
        Signal::Frame => by_frame(t, m, out, frame),
        Signal::EndOfFrame => by_end_of_frame(t, m, out, frame),
    }
}

// ---- the entry points
fn refused(why: Refusal, t: Tag) -> Outcome
    ensures { result ≡ record { answer = Refused why; tag = t } }
{
    Outcome {
        answer: Answer::Refused(why),
        tag: t,
    }
}

// One call: a signal's code and value, and a frame.
pub fn step(t: Tag, m: &mut [u8], out: &mut [u8], code: u32, value: u32, frame: &[u8]) -> Outcome
    ensures { step_result_of result m.new out.new ≡ step_of t m.old (handed_in out.old code value frame.now) }
{
    match refusals::entry_refusal(t, m, out, code, value, frame) {
        Err(why) => refused(why, t),
        Ok(()) => act(signal_table::signal_by(code, value), t, m, out, frame),
    }
}

// The fresh tag; the memory is cleared.
pub fn fresh(u: Uid, m: &mut [u8]) -> Outcome
    ensures { fresh_result result.answer result.tag m.new ≡ fresh_of u m.old }
{
    let t = Tag::fresh(u);
    match refusals::fresh_refusal(m) {
        Err(why) => refused(why, t),
        Ok(()) => {
            m.fill(0);
            Outcome {
                answer: Answer::Nothing,
                tag: t,
            }
        }
    }
}
