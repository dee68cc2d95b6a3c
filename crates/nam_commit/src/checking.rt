//! The slots of the written records.

ghost use Rattle.std.specs.Prelude.{◌≡◌, ◌<◌, ◌≤◌, length};
ghost use Rattle.nam_calls.specs.Ring.{slot_after};
ghost use Rattle.nam_protocol.specs.Commit.{on_slot, next_check, record_place};
ghost use Rattle.nam_commit.specs.Commits.{stepped_by};
ghost use Rattle.nam_commit.specs.Stands.{CommonStands, RecordStands};

use crate::records::{lock_at, place_at, tells_intent};
use crate::step::Step;
use nam_calls::{SlotEnd, SlotPoint};
use nam_protocol::TxnState;
use nam_verbs::Now;
use si_model::Value;

// Looks at the next slot. After the last an intent is told the counts, and else the first words are saved.
#[inline]
fn next_check(state: &TxnState, words: &mut Value) -> Step
    requires { CommonStands state.now }
    ensures { stepped_by state.now result words.new ≡ next_check state.now }
{
    if state.counts.len() != state.writes.len() {
        return Step::Checking {
            at: SlotPoint::CheckCount,
        };
    }
    if tells_intent(state) {
        Step::Counting { nth: 0 }
    } else {
        words.clear();
        Step::Saving { nth: 0 }
    }
}

/// The look at a slot after the word that its verb found.
#[inline]
pub fn slot_after(state: &mut TxnState, words: &mut Value, at: SlotPoint, found: u64) -> Step
    requires common { CommonStands state.old }
    requires more { length state.old.counts < length state.old.writes }
    requires record { RecordStands state.old (length state.old.counts) }
    ensures { stepped_by state.new result words.new
        ≡ on_slot state.old (slot_after (record_place state.old (length state.old.counts)) at found) }
{
    let nth = state.counts.len() as u32;
    match nam_ring::slot_after(place_at(state, nth), at, found) {
        Now::At(at) => Step::Checking { at },
        Now::Over(SlotEnd::Free { count }) => {
            state.counts.push(count);
            next_check(state, words)
        }
        Now::Over(SlotEnd::NotMoved { found, .. }) => Step::Returning {
            given: 0,
            full: lock_at(state, nth, found),
        },
    }
}
