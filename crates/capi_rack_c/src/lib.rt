// The functions of `capi_rack` by their names in include/st25dv.h: the archive of a rack's calls for programs in C and Rust.
#![tactic(auto)]

ghost use Rattle.std.specs.Prelude.{◌≡◌};
ghost use Rattle.refusals.specs.Call.{handed_in};
ghost use Rattle.rack.specs.Rack.{rack_call};
ghost use Rattle.capi.specs.Interface.{call_result};
ghost use Rattle.capi_rack.specs.RackInterface.{rack_call_result, rack_step_call, rack_search_call};

use capi_rack::RackNumbers;

#[unsafe(no_mangle)]
pub extern "C" fn st25dv_rack_step(
    s: &mut [u8],
    m: &mut [u8],
    out: &mut [u8],
    number: u32,
    to: u32,
    code: u32,
    value: u32,
    frame: &[u8],
) -> RackNumbers
    ensures { rack_call_result result.answer result.answered s.new m.new out.new ≡ rack_step_call number s.old m.old (rack_call (handed_in out.old code value frame.now) to) }
{
    capi_rack::st25dv_rack_step(s, m, out, number, to, code, value, frame)
}

#[unsafe(no_mangle)]
pub extern "C" fn st25dv_rack_search(
    s: &mut [u8],
    m: &mut [u8],
    out: &mut [u8],
    number: u32,
    frame: &[u8],
) -> u32
    ensures { call_result result s.new m.new out.new ≡ rack_search_call number s.old m.old out.old frame.now }
{
    capi_rack::st25dv_rack_search(s, m, out, number, frame)
}
