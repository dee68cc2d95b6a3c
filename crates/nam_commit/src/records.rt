//! The records of a commit, as its steps look them up.

ghost use Rattle.std.specs.Prelude.{◌≡◌, ◌<◌, ◌≤◌, ◌+◌, length, slice_index};
ghost use Rattle.nam_header.specs.Stamp.{FitsStamp};
ghost use Rattle.nam_protocol.specs.Commit.{record_place, value_at, kind_at, lock_at, own_stamp, new_header};
ghost use Rattle.nam_protocol.specs.Commit.{tells_intent, has_intents};
ghost use Rattle.nam_commit.specs.Stands.{CommonStands, WrittenStands};

use nam_calls::IntentKind;
use nam_catalog::Form;
use nam_header::{stamp_in, version_word};
use nam_layout::Place;
use nam_protocol::TxnState;
use si_model::{Lock, Stamp, Value};

/// The place of a record.
#[inline]
pub fn place_at(state: &TxnState, nth: u32) -> &Place
    requires { nth < length state.now.records }
    ensures { result.now ≡ record_place state.now nth }
{
    let record = state.records.at(nth as usize);
    &record.place
}

/// What a written record gets; a deletion has no value.
#[inline]
pub fn value_at(state: &TxnState, nth: u32) -> &Option<Value>
    requires { nth < length state.now.writes }
    ensures { result.now ≡ value_at state.now nth }
{
    let item = state.writes.at(nth as usize);
    &item.value
}

/// The header under which a record was locked.
#[inline]
pub fn header_at(state: &TxnState, nth: u32) -> u64
    requires { nth < length state.now.held }
    ensures { result ≡ slice_index state.now.held nth }
{
    *state.held.at(nth as usize)
}

/// The number of a written record's current version.
#[inline]
pub fn count_at(state: &TxnState, nth: u32) -> u64
    requires { nth < length state.now.counts }
    ensures { result ≡ slice_index state.now.counts nth }
{
    *state.counts.at(nth as usize)
}

/// A record with the stamp of the header that was found.
pub fn lock_at(state: &TxnState, nth: u32, word: u64) -> Lock
    requires { nth < length state.now.records }
    ensures { result ≡ lock_at state.now nth word }
{
    let record = state.records.at(nth as usize);
    Lock {
        table: record.key.table,
        key: record.key.key,
        stamp: stamp_in(record.place.form, word),
    }
}

/// The stamp of this commit.
#[inline]
pub fn own_stamp(state: &TxnState) -> Stamp
    requires { CommonStands state.now }
    ensures { result ≡ own_stamp state.now }
{
    Stamp {
        thread: state.worker,
        number: state.last + 1,
    }
}

/// The header of a written record's next version.
#[inline]
pub fn new_header(state: &TxnState, nth: u32) -> u64
    requires common { CommonStands state.now }
    requires record { WrittenStands state.now nth }
    ensures { result ≡ new_header state.now nth }
{
    version_word(
        place_at(state, nth).form,
        own_stamp(state),
        value_at(state, nth).is_none(),
    )
}

/// What the commit does with a record.
pub fn kind_at(state: &TxnState, nth: u32) -> IntentKind
    requires { nth < length state.now.records }
    ensures { result ≡ kind_at state.now nth }
{
    if (nth as usize) < state.writes.len() {
        match value_at(state, nth) {
            None => IntentKind::Deletion,
            Some(_) => IntentKind::Value,
        }
    } else {
        IntentKind::Guard
    }
}

/// Whether records of this form are told in an intent.
#[inline]
fn has_intents(form: Form) -> bool
    ensures { result ≡ has_intents form }
{
    match form {
        Form::Narrow | Form::Wide => false,
        Form::Held => true,
    }
}

/// Whether the commit tells its intent.
#[inline]
pub fn tells_intent(state: &TxnState) -> bool
    requires { CommonStands state.now }
    ensures { result ≡ tells_intent state.now }
{
    has_intents(place_at(state, 0).form)
}
