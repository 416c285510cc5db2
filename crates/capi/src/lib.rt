// The tag for programs in C and Rust: functions over numbers and lent bytes. What a number can tell is judged here; docs/LIBRARY.md says what a caller owes.
#![tactic(auto)]

ghost use Rattle.std.specs.Prelude.{◌≡◌, ◌+◌, leb};
ghost use Rattle.parts.specs.Pick.{pick};
ghost use Rattle.tag.specs.Layout.{reply_bytes};
ghost use Rattle.crc.specs.Crc.{crc_of};
ghost use Rattle.refusals.specs.Call.{handed_in};
ghost use Rattle.replies_fit.specs.Claims.{reply_fits};
ghost use Rattle.capi.specs.Interface.{answer_number, call_result, step_call, fresh_call_result, fresh_call};

use keys::Uid;
use model::Answer;

// ---- the answers
// Of a reply's length. No reply is longer than the shortest buffer for it.
fn reply_number(n: usize) -> u32
    ensures { result ≡ pick (leb n reply_bytes) (0x1000 + n) 0 }
{
    if n <= tag::REPLY_BYTES {
        return 0x1000 + n as u32;
    }
    0
}

// Of an answer.
pub fn answer_number(answer: Answer) -> u32
    ensures { result ≡ pick (reply_fits answer) (answer_number answer) 0 }
{
    match answer {
        Answer::Refused(r) => r.number() as u32,
        Answer::Nothing => 0x100,
        Answer::Ack => 0x101,
        Answer::NoAck => 0x102,
        Answer::Byte(x) => 0x200 + x as u32,
        Answer::Silence => 0x103,
        Answer::Reply(n) => reply_number(n),
    }
}

// ---- the functions for C, which `capi_c` exports
// One call: the state's bytes, the memory, the reply buffer, a signal's code and value, and a frame.
pub fn st25dv_step(
    s: &mut [u8],
    m: &mut [u8],
    out: &mut [u8],
    code: u32,
    value: u32,
    frame: &[u8],
) -> u32
    ensures { call_result result s.new m.new out.new ≡ step_call s.old m.old (handed_in out.old code value frame.now) }
{
    match library_refusals::step_refusal(s, m, out, code, value, frame) {
        Err(why) => why.number() as u32,
        Ok(()) => {
            let t = state_decode::decode(s);
            let o = model::step(t, m, out, code, value, frame);
            next_state::keep(o, s);
            answer_number(o.answer)
        }
    }
}

// The fresh tag with a UID; the memory is cleared.
pub fn st25dv_fresh(uid: &[u8], m: &mut [u8], s: &mut [u8]) -> u32
    ensures { fresh_call_result result s.new m.new ≡ fresh_call uid.now m.old s.old }
{
    match library_refusals::fresh_call_refusal(uid, m, s) {
        Err(why) => why.number() as u32,
        Ok(()) => {
            let o = model::fresh(Uid::at(uid, 0), m);
            next_state::keep(o, s);
            answer_number(o.answer)
        }
    }
}

// The CRC of a list of bytes, for a program that forms frames.
pub fn st25dv_crc(s: &[u8]) -> u16
    ensures { result ≡ crc_of s.now }
{
    crc::crc(s)
}
