// The state's bytes after a call.
#![tactic(auto)]

ghost use Rattle.std.specs.Prelude.{◌≡◌};
ghost use Rattle.model.specs.Step.{is_refused};
ghost use Rattle.next_state.specs.After.{kept_state};

use model::{Answer, Outcome};

#[tactic(auto, unfolding(model::specs::Step::is_refused))]
fn is_refused(answer: Answer) -> bool
    ensures { result ≡ is_refused answer }
{
    matches!(answer, Answer::Refused(_))
}

// Stores the next state, unless the call was refused. A buffer of another length stays.
pub fn keep(outcome: Outcome, s: &mut [u8])
    ensures { s.new ≡ kept_state s.old outcome.answer outcome.tag }
{
    // Known from here on, the length is not tested again at each byte.
    if s.len() != state::STATE_BYTES {
        return;
    }
    if !is_refused(outcome.answer) {
        state_encode::encode(outcome.tag, s);
    }
}
