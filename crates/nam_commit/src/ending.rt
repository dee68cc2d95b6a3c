//! The ends of a commit: refused, or done once its guards are free.

ghost use Rattle.std.specs.Prelude.{◌≡◌, ◌<◌, ◌≤◌, length, ℕ, List};
ghost use Rattle.nam_protocol.specs.Commit.{refused, next_free};
ghost use Rattle.nam_commit.specs.Commits.{stepped_by, refusal_of};
ghost use Rattle.nam_commit.specs.Stands.{CommonStands};

use crate::records::tells_intent;
use crate::step::{Loss, Step};
use nam_protocol::TxnState;

/// The commit changes nothing. Where an intent is told, it is cleared first.
pub fn refused(state: &TxnState, loss: Loss) -> Step
    requires { CommonStands state.now }
    ensures { (words : List ℕ) → stepped_by state.now result words ≡ refused state.now (refusal_of loss) }
{
    if tells_intent(state) {
        Step::Clearing { loss }
    } else {
        Step::Refused { loss }
    }
}

/// Frees the next guard, from this record on, or ends. Where an intent is told, it is cleared first.
#[inline]
pub fn next_free(state: &TxnState, nth: u32) -> Step
    requires common { CommonStands state.now }
    ensures { (words : List ℕ) → stepped_by state.now result words ≡ next_free state.now nth }
{
    if nth as usize != state.records.len() {
        Step::Freeing { nth }
    } else if tells_intent(state) {
        Step::Ending
    } else {
        Step::Committed {
            number: state.last + 1,
        }
    }
}
