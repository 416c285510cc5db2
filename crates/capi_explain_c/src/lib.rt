// The function of `capi_explain` by its name in include/st25dv.h: the archive of the explanation for programs in C and Rust.
// It is an archive of its own: with a second caller of the decoding of a state and of the refusals the compiler would keep
// these apart from `st25dv_step`, which took twice the time then.
#![tactic(auto)]

ghost use Rattle.std.specs.Prelude.{◌≡◌};
ghost use Rattle.refusals.specs.Call.{handed_in};
ghost use Rattle.capi_explain.specs.Explain.{explain_call};

#[unsafe(no_mangle)]
pub extern "C" fn st25dv_explain(
    s: &[u8],
    m: &[u8],
    out: &[u8],
    code: u32,
    value: u32,
    frame: &[u8],
) -> u32
    ensures { result ≡ explain_call s.now m.now (handed_in out.now code value frame.now) }
{
    capi_explain::st25dv_explain(s, m, out, code, value, frame)
}
