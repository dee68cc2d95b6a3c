//! Each step: the verb that stands, and what follows the word that it found.

ghost use Rattle.std.specs.Prelude.{◌≡◌, ◌<◌, ◌≤◌, ◌+◌, length};
ghost use Rattle.nam_verbs.specs.VerbAt.{verb_by};
ghost use Rattle.nam_verbs.specs.Now.{verb_now};
ghost use Rattle.nam_protocol.specs.Commit.{commit_verb};
ghost use Rattle.nam_commit.specs.Commits.{now_of, stepped_by, commits_after};
ghost use Rattle.nam_commit.specs.Stands.{NowStands, IntentStands, point_address};

use crate::checking::slot_after;
use crate::ending::next_free;
use crate::listing::{list_after, list_verb, record_from, state_word};
use crate::locking::{lock_after, lock_verb, return_after, unlock_verb};
use crate::records::{count_at, header_at, new_header, own_stamp, place_at, value_at};
use crate::step::Step;
use crate::writing::{copy_after, install_after, next_count, words_after};
use nam_calls::IntentPhase;
use nam_protocol::TxnState;
use nam_record::install_verb;
use nam_ring::{copy_verb, slot_verb};
use nam_vector::publish_verb;
use nam_verbs::Verb;
use si_model::Value;

/// The verb that stands, and none where the commit is over.
#[inline]
pub fn step_verb(step: Step, words: &Value, intent_at: u64, state: &TxnState) -> Option<Verb>
    requires stands { NowStands state.now (now_of step words.now) }
    requires intent { IntentStands intent_at }
    ensures { result ≡ verb_now (λ at. verb_by (point_address state.now intent_at at) (commit_verb state.now at))
        (now_of step words.now) }
{
    let verb = match step {
        Step::Listing { at } => list_verb(state, intent_at, at),
        Step::Locking { at } => lock_verb(state, at),
        Step::Checking { at } => slot_verb(place_at(state, state.counts.len() as u32), &at),
        Step::Returning { given, .. } => unlock_verb(state, given),
        Step::Counting { nth } => Verb::Write {
            at: intent_at + (record_from(nth) + 2),
            word: count_at(state, nth),
        },
        Step::Deciding => Verb::Write {
            at: intent_at,
            word: state_word(state.records.len(), IntentPhase::Decided),
        },
        Step::Saving { nth } => nam_record::words_verb(place_at(state, nth), words),
        Step::Copying { nth, at } => copy_verb(
            place_at(state, nth),
            count_at(state, nth),
            header_at(state, nth),
            words,
            own_stamp(state),
            &at,
        ),
        Step::Installing { nth, at } => install_verb(
            place_at(state, nth),
            value_at(state, nth),
            count_at(state, nth),
            new_header(state, nth),
            &at,
        ),
        Step::Publishing => publish_verb(state.worker, state.last + 1),
        Step::Freeing { nth } => unlock_verb(state, nth),
        Step::Clearing { .. } | Step::Ending => Verb::Write {
            at: intent_at,
            word: 0,
        },
        Step::Refused { .. } | Step::Committed { .. } | Step::ReadOnly | Step::Spent => {
            return None;
        }
    };
    Some(verb)
}

/// Where the commit stands after the word that the verb found.
#[inline]
pub fn step_after(step: Step, words: &mut Value, state: &mut TxnState, found: u64) -> Step
    requires { NowStands state.old (now_of step words.old) }
    ensures { stepped_by state.new result words.new ≡ commits_after state.old (now_of step words.old) found }
{
    match step {
        Step::Listing { at } => list_after(state, at),
        Step::Locking { at } => lock_after(state, at, found),
        Step::Checking { at } => slot_after(state, words, at, found),
        Step::Returning { given, full } => return_after(state, given, full),
        Step::Counting { nth } => next_count(state, nth + 1),
        Step::Deciding => {
            words.clear();
            Step::Saving { nth: 0 }
        }
        Step::Saving { nth } => words_after(state, nth, words, found),
        Step::Copying { nth, at } => copy_after(state, nth, at),
        Step::Installing { nth, at } => install_after(state, nth, words, at),
        Step::Publishing => {
            let written = state.writes.len() as u32;
            next_free(state, written)
        }
        Step::Freeing { nth } => next_free(state, nth + 1),
        Step::Clearing { loss } => Step::Refused { loss },
        Step::Ending => Step::Committed {
            number: state.last + 1,
        },
        Step::Refused { .. } | Step::Committed { .. } | Step::ReadOnly | Step::Spent => step,
    }
}
