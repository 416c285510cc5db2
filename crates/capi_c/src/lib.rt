// The functions of `capi` by their names in include/st25dv.h: the archive of the step, the fresh tag and the CRC for programs in C and Rust.
#![tactic(auto)]

ghost use Rattle.std.specs.Prelude.{◌≡◌};
ghost use Rattle.crc.specs.Crc.{crc_of};
ghost use Rattle.refusals.specs.Call.{handed_in};
ghost use Rattle.capi.specs.Interface.{call_result, step_call, fresh_call_result, fresh_call};

#[unsafe(no_mangle)]
pub extern "C" fn st25dv_step(
    s: &mut [u8],
    m: &mut [u8],
    out: &mut [u8],
    code: u32,
    value: u32,
    frame: &[u8],
) -> u32
    ensures { call_result result s.new m.new out.new ≡ step_call s.old m.old (handed_in out.old code value frame.now) }
{
    capi::st25dv_step(s, m, out, code, value, frame)
}

#[unsafe(no_mangle)]
pub extern "C" fn st25dv_fresh(uid: &[u8], m: &mut [u8], s: &mut [u8]) -> u32
    ensures { fresh_call_result result s.new m.new ≡ fresh_call uid.now m.old s.old }
{
    capi::st25dv_fresh(uid, m, s)
}

#[unsafe(no_mangle)]
pub extern "C" fn st25dv_crc(s: &[u8]) -> u16
    ensures { result ≡ crc_of s.now }
{
    capi::st25dv_crc(s)
}
