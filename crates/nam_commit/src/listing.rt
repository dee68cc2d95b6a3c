//! The records in the worker's intent.

ghost use Rattle.std.specs.Prelude.{◌≡◌, ◌<◌, ◌≤◌, ◌+◌, length, ℕ, List};
ghost use Rattle.nam_verbs.specs.VerbAt.{verb_by};
ghost use Rattle.nam_calls.specs.Intent.{state_word, kind_word, record_from};
ghost use Rattle.nam_protocol.specs.Commit.{on_list, list_after, list_next, list_verb};
ghost use Rattle.nam_protocol.specs.Commit.{record_place, value_at};
ghost use Rattle.nam_calls.specs.Record.{word_in};
ghost use Rattle.nam_commit.specs.Commits.{stepped_by, list_of};
ghost use Rattle.nam_commit.specs.Stands.{CommonStands, WrittenStands, ListStands, IntentStands};
ghost use Rattle.nam_commit.specs.Stands.{intent_address};

use crate::records::{kind_at, place_at, value_at};
use crate::step::{ListStep, Step};
use nam_calls::{IntentKind, IntentPhase, LockPoint};
use nam_protocol::TxnState;
use nam_verbs::Verb;

/// The word of an intent's state.
pub fn state_word(records: usize, phase: IntentPhase) -> u64
    requires { records ≤ 16 }
    ensures { result ≡ state_word records phase }
{
    let phase = match phase {
        IntentPhase::Listed => 1,
        IntentPhase::Decided => 2,
    };
    4 * records as u64 + phase
}

fn kind_word(kind: IntentKind) -> u64
    ensures { result ≡ kind_word kind }
{
    match kind {
        IntentKind::Value => 0,
        IntentKind::Deletion => 1,
        IntentKind::Guard => 2,
    }
}

/// Where a record's words begin in an intent.
pub fn record_from(nth: u32) -> u64
    requires { nth < 16 }
    ensures value { result ≡ record_from nth }
    ensures few { result ≤ 167 }
{
    2 + nth as u64 * 11
}

// A data word of a record's next version, and 0 of a deletion.
fn data_word(state: &TxnState, nth: u32, word: u32) -> u64
    requires record { WrittenStands state.now nth }
    requires word { word < (record_place state.now nth).width }
    ensures { result ≡ word_in (value_at state.now nth) word }
{
    match value_at(state, nth) {
        None => 0,
        Some(value) => *value.at(word as usize),
    }
}

/// The write of a word of the intent.
pub fn list_verb(state: &TxnState, intent_at: u64, at: ListStep) -> Verb
    requires common { CommonStands state.now }
    requires intent { IntentStands intent_at }
    requires at { ListStands state.now (list_of at) }
    ensures { result ≡ verb_by (intent_address intent_at) (list_verb state.now (list_of at)) }
{
    match at {
        ListStep::Row { nth } => Verb::Write {
            at: intent_at + record_from(nth),
            word: place_at(state, nth).row as u64,
        },
        ListStep::Kind { nth } => Verb::Write {
            at: intent_at + (record_from(nth) + 1),
            word: kind_word(kind_at(state, nth)),
        },
        ListStep::Data { nth, word } => Verb::Write {
            at: intent_at + (record_from(nth) + 3 + word as u64),
            word: data_word(state, nth, word),
        },
        ListStep::Number => Verb::Write {
            at: intent_at + 1,
            word: state.last + 1,
        },
        ListStep::State => Verb::Write {
            at: intent_at,
            word: state_word(state.records.len(), IntentPhase::Listed),
        },
    }
}

// The record after this one, and after the last the number.
fn list_next(state: &TxnState, nth: u32) -> Step
    requires { nth < length state.now.records }
    ensures { (words : List ℕ) → stepped_by state.now result words ≡ on_list state.now (list_next state.now nth) }
{
    let at = if nth as usize + 1 == state.records.len() {
        ListStep::Number
    } else {
        ListStep::Row { nth: nth + 1 }
    };
    Step::Listing { at }
}

/// The listing after its write. After the last the locks are taken.
pub fn list_after(state: &TxnState, at: ListStep) -> Step
    requires at { ListStands state.now (list_of at) }
    ensures { (words : List ℕ) → stepped_by state.now result words
        ≡ on_list state.now (list_after state.now (list_of at)) }
{
    let at = match at {
        ListStep::Row { nth } => ListStep::Kind { nth },
        ListStep::Kind { nth } => match kind_at(state, nth) {
            IntentKind::Value => ListStep::Data { nth, word: 0 },
            IntentKind::Deletion | IntentKind::Guard => return list_next(state, nth),
        },
        ListStep::Data { nth, word } => {
            if word + 1 == place_at(state, nth).width {
                return list_next(state, nth);
            }
            ListStep::Data {
                nth,
                word: word + 1,
            }
        }
        ListStep::Number => ListStep::State,
        ListStep::State => {
            return Step::Locking {
                at: LockPoint::Peek,
            };
        }
    };
    Step::Listing { at }
}
