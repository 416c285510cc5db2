// Commands on the dynamic registers.
#![tactic(auto)]

ghost use Rattle.std.specs.Prelude.{◌≡◌};
ghost use Rattle.reply.specs.Outcome.{radio_result, finish};
ghost use Rattle.dynamic_config.specs.DynamicConfig.{read_dynamic_of, write_dynamic_of};

use errors::RadioError;
use reply::{RadioOutcome, RadioSide};

// AD.
pub fn read_dynamic(v: RadioSide, m: &[u8], out: &mut [u8], pointer: u8) -> RadioOutcome
    ensures { radio_result result m.now out.new ≡ finish (read_dynamic_of v m.now pointer) out.old }
{
    if pointer != dynamic::MB_CTRL_POINTER {
        return reply::fail(v, out, RadioError::NoSuchDynamicRegister);
    }
    let x = v.core.mailbox.control_byte();
    RadioOutcome {
        answer: Some(reply::byte(out, x)),
        side: v,
    }
}

// AE.
pub fn write_dynamic(
    v: RadioSide,
    m: &[u8],
    out: &mut [u8],
    vcc: bool,
    pointer: u8,
    x: u8,
) -> RadioOutcome
    ensures { radio_result result m.now out.new ≡ finish (write_dynamic_of v m.now vcc pointer x) out.old }
{
    if pointer != dynamic::MB_CTRL_POINTER {
        return reply::fail(v, out, RadioError::NoSuchDynamicRegister);
    }
    let mode = v.core.registers.mode;
    let next = v.with_mailbox(v.core.mailbox.control(x, mode, vcc));
    RadioOutcome {
        answer: Some(reply::done(out)),
        side: next,
    }
}
