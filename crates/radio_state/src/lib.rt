// Commands on the radio state.
#![tactic(auto)]

ghost use Rattle.std.specs.Prelude.{◌≡◌};
ghost use Rattle.reply.specs.Outcome.{radio_result, finish};
ghost use Rattle.radio_state.specs.RadioState.{stay_quiet_of, select_uid_of, reset_to_ready_of};

use reply::{RadioOutcome, RadioSide};

// 02: no answer.
pub fn stay_quiet(v: RadioSide, m: &[u8], out: &mut [u8]) -> RadioOutcome
    ensures { radio_result result m.now out.new ≡ finish (stay_quiet_of v m.now) out.old }
{
    let next = v.with_air(v.air.stay_quiet());
    RadioOutcome {
        answer: None,
        side: next,
    }
}

// 25; own: the frame's UID is the tag's.
pub fn select(v: RadioSide, m: &[u8], out: &mut [u8], own: bool) -> RadioOutcome
    ensures { radio_result result m.now out.new ≡ finish (select_uid_of v m.now own) out.old }
{
    if own {
        let next = v.with_air(v.air.select());
        return RadioOutcome {
            answer: Some(reply::done(out)),
            side: next,
        };
    }
    let next = v.with_air(v.air.deselect());
    RadioOutcome {
        answer: None,
        side: next,
    }
}

// 26.
pub fn reset(v: RadioSide, m: &[u8], out: &mut [u8]) -> RadioOutcome
    ensures { radio_result result m.now out.new ≡ finish (reset_to_ready_of v m.now) out.old }
{
    let next = v.with_air(v.air.reset());
    RadioOutcome {
        answer: Some(reply::done(out)),
        side: next,
    }
}
