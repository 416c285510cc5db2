// Commands on passwords.
#![tactic(auto)]

ghost use Rattle.std.specs.Prelude.{◌≡◌};
ghost use Rattle.reply.specs.Outcome.{radio_result, finish};
ghost use Rattle.password.specs.Password.{present_of, write_password_of};
ghost use Rattle.password.specs.Claims.{password_error};

use errors::RadioError;
use keys::Password;
use reply::{RadioOutcome, RadioSide};
use write_reasons::{WriteAsked, WriteReason};

// Radio passwords are 0 to 3.
const LAST: u8 = 3;

// B3; the password stands at a place of the frame.
pub fn present(
    v: RadioSide,
    m: &[u8],
    out: &mut [u8],
    n: u8,
    frame: &[u8],
    at: usize,
) -> RadioOutcome
    ensures { radio_result result m.now out.new ≡ finish (present_of v m.now n frame.now at) out.old }
{
    if LAST < n {
        return reply::fail(v, out, RadioError::NoSuchPassword);
    }
    let air = v.air;
    if v.core.passwords.radio(n) != Password::at(frame, at) {
        let closed = v.with_air(air.with_session(0));
        return reply::fail(closed, out, RadioError::WrongPassword);
    }
    let opened = v.with_air(air.with_session(n + 1));
    RadioOutcome {
        answer: Some(reply::done(out)),
        side: opened,
    }
}

// The error that B1 gives for a reason.
fn password_error(reason: WriteReason) -> RadioError
    ensures { result ≡ password_error reason }
{
    match reason {
        WriteReason::OutsideMap => RadioError::NoSuchPassword,
        _ => RadioError::PasswordSessionClosed,
    }
}

// B1; the password stands at a place of the frame.
pub fn write(v: RadioSide, m: &[u8], out: &mut [u8], n: u8, frame: &[u8], at: usize) -> RadioOutcome
    ensures { radio_result result m.now out.new ≡ finish (write_password_of v m.now n frame.now at) out.old }
{
    let asked = WriteAsked::PasswordOf {
        session: v.air.session,
        n,
    };
    let verdict = write_verdict::verdict(v.core, m, asked);
    match verdict {
        Ok(()) => {
            let passwords = v.core.passwords.with_radio(n, Password::at(frame, at));
            RadioOutcome {
                answer: Some(reply::done(out)),
                side: v.with_passwords(passwords),
            }
        }
        Err(reason) => reply::fail(v, out, password_error(reason)),
    }
}
