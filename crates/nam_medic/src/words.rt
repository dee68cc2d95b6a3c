//! The words of an intent, and the row that a word names.

ghost use Rattle.std.specs.Prelude.{◌≡◌, ◌<◌, ◌+◌, nat_lt, Some, None, if◌then◌else◌};
ghost use Rattle.nam_verbs.specs.declared.verb.Verb.TheVariants.{Read};
ghost use Rattle.nam_catalog.specs.declared.form.Form.TheVariants.{Held};
ghost use Rattle.nam_layout.specs.declared.field.Field.TheVariants.{Intent};
ghost use Rattle.nam_layout.specs.Address.{IsWorker, IsRow, address};
ghost use Rattle.nam_layout.specs.Rows.{rows_in};
ghost use Rattle.nam_layout.specs.Place.{place_at};
ghost use Rattle.nam_layout.specs.PlaceFits.{FitsPlace};
ghost use Rattle.nam_calls.specs.Intent.{record_from, state_in, state_of_records, kind_in};

use nam_calls::{IntentKind, IntentPhase, IntentState};
use nam_catalog::bounds::{INTENT_WORDS, MOST_KEYS, MOST_WIDTH};
use nam_layout::{Layout, Place};
use nam_verbs::Verb;

/// Where the words of a listed record begin in the intent.
pub fn record_from(nth: u32) -> u32
    requires { nth < MOST_KEYS }
    ensures { result ≡ record_from nth }
{
    2 + nth * (3 + MOST_WIDTH)
}

/// The read of a word of the worker's intent.
pub fn intent_read(layout: &Layout, worker: u32, nth: u32) -> Verb
    requires form { layout.now.form ≡ Held }
    requires worker { IsWorker layout.now worker }
    requires nth { nth < INTENT_WORDS }
    ensures { result ≡ Read (address layout.now (Intent worker nth)) }
{
    Verb::Read {
        at: layout.intent_at(worker) + nth as u64,
    }
}

// What a state says of so many records, where a commit can have as many.
fn state_of_records(records: u64, phase: IntentPhase) -> Option<IntentState>
    ensures { result ≡ state_of_records records phase }
{
    if records <= MOST_KEYS as u64 {
        Some(IntentState {
            records: records as u32,
            phase,
        })
    } else {
        None
    }
}

/// What the state of an intent says. No intent, and a word that no commit writes, says nothing.
pub fn state_in(word: u64) -> Option<IntentState>
    ensures { result ≡ state_in word }
{
    match word % 4 {
        1 => state_of_records(word / 4, IntentPhase::Listed),
        2 => state_of_records(word / 4, IntentPhase::Decided),
        _ => None,
    }
}

/// The kind of record that a word says, if any.
pub fn kind_in(word: u64) -> Option<IntentKind>
    ensures { result ≡ kind_in word }
{
    match word {
        0 => Some(IntentKind::Value),
        1 => Some(IntentKind::Deletion),
        2 => Some(IntentKind::Guard),
        _ => None,
    }
}

/// The row that a word names, and none where it names none.
pub fn row_in(layout: &Layout, word: u64) -> Option<u32>
    ensures { result ≡ (if nat_lt word (rows_in layout.now.tables) then Some word else None) }
{
    match layout.place_of_row(word) {
        Some(place) => Some(place.row),
        None => None,
    }
}

/// The place of a row.
pub fn place_at(layout: &Layout, row: u32) -> Place
    requires { IsRow layout.now row }
    ensures value { result ≡ place_at layout.now row }
    ensures fits { FitsPlace result }
{
    match layout.place_of_row(row as u64) {
        Some(place) => place,
        None => unreachable!(),
    }
}
