// The refusals of the library's calls, over numbers and lent bytes.
#![tactic(auto)]

ghost use Rattle.std.specs.Prelude.{◌≡◌};
ghost use Rattle.refusals.specs.Call.{handed_in};
ghost use Rattle.refusals.specs.Refusals.{judgement};
ghost use Rattle.library_refusals.specs.Rules.{step_rules, fresh_call_rules};

use refusals::Refusal;

// Of a call: 1, 2, 3, 13, 4.
pub fn step_refusal(
    s: &[u8],
    m: &[u8],
    out: &[u8],
    code: u32,
    value: u32,
    frame: &[u8],
) -> Result<(), Refusal>
    ensures { result ≡ judgement (step_rules s.now m.now (handed_in out.now code value frame.now)) }
{
    refusals::call_refusal(m, out, code, value, frame)?;
    if s.len() != state::STATE_BYTES {
        return Err(Refusal::StateLength);
    }
    if !state_judge::decodes(s) {
        return Err(Refusal::OutOfRange);
    }
    Ok(())
}

// Of a fresh tag: 1, 13, 14.
pub fn fresh_call_refusal(uid: &[u8], m: &[u8], s: &[u8]) -> Result<(), Refusal>
    ensures { result ≡ judgement (fresh_call_rules uid.now m.now s.now) }
{
    refusals::fresh_refusal(m)?;
    if s.len() != state::STATE_BYTES {
        return Err(Refusal::StateLength);
    }
    if uid.len() != 8 {
        return Err(Refusal::UidLength);
    }
    Ok(())
}
