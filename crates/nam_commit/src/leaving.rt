//! How many verbs are to come of a commit at the most.

ghost use Rattle.std.specs.Prelude.{◌≡◌, ◌<◌, ◌≤◌, ◌+◌, ◌-◌, ◌*◌, length};
ghost use Rattle.nam_verbs.specs.Now.{left_now};
ghost use Rattle.nam_calls.specs.Lock.{lock_left};
ghost use Rattle.nam_protocol.specs.Commit.{places};
ghost use Rattle.nam_protocol.specs.Bound.{installs_most, written_from, publish_most, rest_from, of_intent};
ghost use Rattle.nam_protocol.specs.Bound.{listed_from, list_left, after_checks, after_locks, commit_left};
ghost use Rattle.nam_commit.specs.Commits.{now_of, list_of};
ghost use Rattle.nam_commit.specs.Stands.{CommonStands, AllPlaced, ListStands, NowStands, NowPlaced};
ghost use Rattle.nam_calls.specs.Fits.{LockFits};

use crate::records::{place_at, tells_intent};
use crate::step::{ListStep, Step};
use nam_calls::LockPoint;
use nam_protocol::TxnState;
use nam_record::{install_left, words_left};
use nam_ring::{copy_left, slot_left};
use si_model::Value;

// The copies and installs of the written records from the nth on.
#[tactic(auto, using(crate::proofs::LeftLemmas::one_written, crate::proofs::LeftLemmas::none_written))]
fn installs_from(state: &TxnState, from: u32) -> u64
    requires common { CommonStands state.now }
    requires placed { AllPlaced state.now }
    requires within { from ≤ length state.now.writes }
    ensures value { result ≡ installs_most (written_from state.now from) }
    ensures few { result ≤ 464 }
{
    let mut total = 0;
    for nth in from..state.writes.len() as u32 {
        total += 3 * place_at(state, nth).width as u64 + 5;
    }
    total
}

fn publish_most(state: &TxnState) -> u64
    requires common { CommonStands state.now }
    ensures value { result ≡ publish_most state.now }
    ensures few { result ≤ 17 }
{
    1 + (state.records.len() - state.writes.len()) as u64
}

fn rest_from(state: &TxnState, from: u32) -> u64
    requires common { CommonStands state.now }
    requires placed { AllPlaced state.now }
    requires within { from ≤ length state.now.writes }
    ensures value { result ≡ rest_from state.now from }
    ensures few { result ≤ 481 }
{
    installs_from(state, from) + publish_most(state)
}

// The row, the kind and the data of a record.
#[tactic(auto, using(crate::proofs::LeftLemmas::value_listed, crate::proofs::LeftLemmas::guard_listed))]
fn listed(state: &TxnState, nth: u32) -> u64
    requires placed { AllPlaced state.now }
    requires within { nth < length state.now.records }
    ensures value { listed_from state.now nth ≡ result + listed_from state.now (nth + 1) }
    ensures few { result ≤ 10 }
{
    if (nth as usize) < state.writes.len() {
        place_at(state, nth).width as u64 + 2
    } else {
        2
    }
}

// The same of the records from one on.
#[tactic(auto, using(crate::proofs::LeftLemmas::none_listed))]
fn listed_from(state: &TxnState, from: u32) -> u64
    requires common { CommonStands state.now }
    requires placed { AllPlaced state.now }
    requires within { from ≤ length state.now.records }
    ensures value { result ≡ listed_from state.now from }
    ensures few { result ≤ 160 }
{
    let mut total = 0;
    for nth in from..state.records.len() as u32 {
        total += listed(state, nth);
    }
    total
}

fn list_left(state: &TxnState, at: ListStep) -> u64
    requires common { CommonStands state.now }
    requires placed { AllPlaced state.now }
    requires at { ListStands state.now (list_of at) }
    ensures value { result ≡ list_left state.now (list_of at) }
    ensures few { result ≤ 170 }
{
    match at {
        ListStep::Row { nth } => listed_from(state, nth) + 2,
        ListStep::Kind { nth } => listed_from(state, nth) + 1,
        ListStep::Data { nth, word } => {
            (place_at(state, nth).width - word) as u64 + listed_from(state, nth + 1) + 2
        }
        ListStep::Number => 2,
        ListStep::State => 1,
    }
}

fn of_intent(state: &TxnState, n: u64) -> u64
    requires common { CommonStands state.now }
    ensures value { result ≡ of_intent state.now n }
    ensures few { result ≤ n }
{
    if tells_intent(state) { n } else { 0 }
}

fn after_checks(state: &TxnState) -> u64
    requires common { CommonStands state.now }
    requires placed { AllPlaced state.now }
    ensures value { result ≡ after_checks state.now }
    ensures few { result ≤ 498 }
{
    of_intent(state, state.writes.len() as u64 + 1) + rest_from(state, 0)
}

fn lock_left(state: &TxnState, at: LockPoint) -> u64
    requires common { CommonStands state.now }
    requires placed { AllPlaced state.now }
    requires at { LockFits (length state.now.records) state.now.held at }
    ensures value { result ≡ lock_left (places state.now) (after_locks state.now) state.now.held at }
    ensures few { result ≤ 600 }
{
    let rest = 2 * state.writes.len() as u64 + after_checks(state);
    let held = state.held.len() as u64;
    let records = state.records.len() as u64;
    match at {
        LockPoint::Peek => 2 * (records - held) + rest,
        LockPoint::Seize { .. } => 2 * (records - held) - 1 + rest,
        LockPoint::GiveBack { given, .. } => held - given as u64,
    }
}

/// A number of verbs that are to come at the most. After the end there are none.
#[tactic(auto, using(crate::proofs::LeftLemmas::slot_few, crate::proofs::LeftLemmas::copy_few, crate::proofs::LeftLemmas::install_few))]
pub fn step_left(step: Step, words: &Value, state: &TxnState) -> u64
    requires stands { NowStands state.now (now_of step words.now) }
    requires placed { NowPlaced state.now (now_of step words.now) }
    ensures { result ≡ left_now (commit_left state.now) (now_of step words.now) }
{
    let records = state.records.len() as u64;
    let writes = state.writes.len() as u64;
    match step {
        Step::Listing { at } => {
            list_left(state, at) + lock_left(state, LockPoint::Peek) + of_intent(state, 1)
        }
        Step::Locking { at } => lock_left(state, at) + of_intent(state, 1),
        Step::Checking { at } => {
            let others = writes - state.counts.len() as u64 - 1;
            slot_left(&at) + (2 * others + after_checks(state)) + of_intent(state, 1)
        }
        Step::Returning { given, .. } => records - given as u64 + of_intent(state, 1),
        Step::Counting { nth } => {
            writes - nth as u64 + 1 + rest_from(state, 0) + of_intent(state, 1)
        }
        Step::Deciding => 1 + rest_from(state, 0) + of_intent(state, 1),
        Step::Saving { nth } => {
            let place = place_at(state, nth);
            words_left(place, words)
                + (2 * place.width as u64 + 5)
                + rest_from(state, nth + 1)
                + of_intent(state, 1)
        }
        Step::Copying { nth, at } => {
            let place = place_at(state, nth);
            copy_left(place, &at)
                + (place.width as u64 + 2)
                + rest_from(state, nth + 1)
                + of_intent(state, 1)
        }
        Step::Installing { nth, at } => {
            install_left(place_at(state, nth), &at)
                + rest_from(state, nth + 1)
                + of_intent(state, 1)
        }
        Step::Publishing => publish_most(state) + of_intent(state, 1),
        Step::Freeing { nth } => records - nth as u64 + of_intent(state, 1),
        Step::Clearing { .. } | Step::Ending => 1,
        Step::Refused { .. } | Step::Committed { .. } | Step::ReadOnly | Step::Spent => 0,
    }
}
