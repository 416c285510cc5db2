// A frame judged: silence, an error, or a request to serve.
#![tactic(auto)]

ghost use Rattle.std.specs.Prelude.{◌≡◌};
ghost use Rattle.judge.specs.Judge.{is_mute, error_of, shut_out, bad_flags, wrong_length, first_error, judge};

use air::Air;
use errors::RadioError;
use keys::Uid;
use register_types::RfMngt;

#[derive(Clone, Copy)]
pub enum Verdict {
    Silence,
    Error(RadioError),
    Request,
}

// Whether the frame is a Stay Quiet, or a Select of another UID.
#[tactic(auto, unfolding(crate::specs::Judge::is_mute))]
pub fn is_mute(f: &[u8], u: Uid) -> bool
    ensures { result ≡ is_mute f.now u }
{
    let c = frame::command(f);
    let own = frame::own_uid(f, u);
    (c == commands::STAY_QUIET) | ((c == commands::SELECT) & !own)
}

#[tactic(auto, using(parts::proofs::Picks::picks), unfolding(crate::specs::Judge::error_of))]
fn error_of(f: &[u8], u: Uid, error: RadioError) -> Verdict
    ensures { result ≡ error_of f.now u error }
{
    if is_mute(f, u) {
        return Verdict::Silence;
    }
    Verdict::Error(error)
}

// The verdict while shut out.
#[tactic(auto, using(parts::proofs::Picks::picks), unfolding(crate::specs::Judge::shut_out))]
pub fn shut_out(f: &[u8], a: Air, u: Uid, dynamic: RfMngt) -> Verdict
    ensures { result ≡ shut_out f.now a u dynamic }
{
    if silence::is_silent(f, a, u, dynamic) {
        return Verdict::Silence;
    }
    error_of(f, u, RadioError::ShutOut)
}

#[tactic(auto, unfolding(crate::specs::Judge::bad_flags))]
fn bad_flags(f: &[u8]) -> bool
    ensures { result ≡ bad_flags f.now }
{
    let flags = parts::byte_at(f, 0);
    let takes = commands::takes_option(frame::command(f));
    (flags / 0x08 % 2 == 1) | (flags / 0x80 % 2 == 1) | ((flags / 0x40 % 2 == 1) & !takes)
}

#[tactic(auto, unfolding(crate::specs::Judge::wrong_length))]
fn wrong_length(f: &[u8]) -> bool
    ensures { result ≡ wrong_length f.now }
{
    let takes = commands::param_bytes(frame::command(f), frame::param(f, 0), frame::param(f, 1));
    let at = frame::param_place(f);
    let end = frame::crc_place(f);
    at + takes != end
}

// The error of the first rule past the silence list that holds.
#[tactic(auto, using(parts::proofs::Picks::picks), unfolding(rule_list::specs::RuleList::first_says, crate::specs::Judge::error_holds, crate::specs::Judge::rule_error, crate::specs::Judge::error_rules, crate::specs::Judge::first_error))]
pub fn first_error(f: &[u8], dynamic: RfMngt, busy: bool) -> Result<(), RadioError>
    ensures { result ≡ first_error f.now dynamic busy }
{
    if (dynamic.bits / 1 % 2 == 1) | busy {
        return Err(RadioError::ShutOut);
    }
    if !commands::is_known(frame::command(f)) {
        return Err(RadioError::UnknownCommand);
    }
    if bad_flags(f) {
        return Err(RadioError::UnsupportedFlags);
    }
    if wrong_length(f) {
        return Err(RadioError::WrongLength);
    }
    Ok(())
}

// The verdict on a frame. Each function takes only what its rules read, so its parameters are no struct.
pub fn judge(f: &[u8], a: Air, u: Uid, dynamic: RfMngt, busy: bool) -> Verdict
    ensures { result ≡ judge f.now a u dynamic busy }
{
    if silence::is_silent(f, a, u, dynamic) {
        return Verdict::Silence;
    }
    match first_error(f, dynamic, busy) {
        Ok(()) => Verdict::Request,
        Err(error) => error_of(f, u, error),
    }
}
