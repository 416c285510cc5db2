// The explanation of a call for programs in C and Rust, which `capi_explain_c` exports.
#![tactic(auto)]

ghost use Rattle.std.specs.Prelude.{◌≡◌};
ghost use Rattle.refusals.specs.Call.{handed_in};
ghost use Rattle.capi_explain.specs.Explain.{explain_of, explain_call};

use tag::Tag;

fn explain(t: Tag, m: &[u8], out: &[u8], code: u32, value: u32, frame: &[u8]) -> u32
    ensures { result ≡ explain_of t m.now (handed_in out.now code value frame.now) }
{
    match refusals::entry_refusal(t, m, out, code, value, frame) {
        Err(why) => why.number() as u32,
        Ok(()) => 0x100 + explanation::rule_of(t, m, code, value, frame) as u32,
    }
}

// Which rule explains the answer that `st25dv_step` would give to the same arguments. Nothing is changed.
pub fn st25dv_explain(s: &[u8], m: &[u8], out: &[u8], code: u32, value: u32, frame: &[u8]) -> u32
    ensures { result ≡ explain_call s.now m.now (handed_in out.now code value frame.now) }
{
    match library_refusals::step_refusal(s, m, out, code, value, frame) {
        Err(why) => why.number() as u32,
        Ok(()) => explain(state_decode::decode(s), m, out, code, value, frame),
    }
}
