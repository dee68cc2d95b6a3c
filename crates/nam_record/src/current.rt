//! Reading the current version of a record.

ghost use Rattle.std.specs.Prelude.{◌≡◌, ◌<◌, ◌+◌};
ghost use Rattle.nam_verbs.specs.Verb.{address_of};
ghost use Rattle.nam_verbs.specs.VerbAt.{verb_by};
ghost use Rattle.nam_verbs.specs.Running.{verbs_left};
ghost use Rattle.nam_layout.specs.Place.{position_address, place_end};
ghost use Rattle.nam_layout.specs.PlaceFits.{FitsPlace};
ghost use Rattle.nam_calls.specs.Record.{current_begin, current_verb, current_after, current_left};
ghost use Rattle.nam_calls.specs.Fits.{CurrentFits};
ghost use Rattle.nam_record.specs.Current.{reading_current, running};

use nam_calls::{CurrentEnd, CurrentPoint};
use nam_header::{is_deleted, is_locked, same_stamp, sees};
use nam_layout::{Field, Place};
use nam_verbs::{Machine, Now, Verb};
use si_model::{Snapshot, Value};
use std::marker::Model;
use std::mem::replace;

/// Where the reading of a current version begins.
pub fn current_begin() -> CurrentPoint
    ensures { result ≡ current_begin }
{
    CurrentPoint::CurrentHead
}

/// The verb that stands at a point.
pub fn current_verb(place: &Place, at: &CurrentPoint) -> Verb
    requires fits { FitsPlace place.now }
    requires at { CurrentFits place.now at.now }
    ensures value { result ≡ verb_by (position_address place.now) (current_verb place.now at.now) }
    ensures within { address_of result < place_end place.now }
{
    let at = match at {
        CurrentPoint::CurrentHead | CurrentPoint::CurrentAgain { .. } => place.header_at,
        CurrentPoint::CurrentWords { got, .. } => place.word(got.len() as u32),
    };
    Verb::Read { at }
}

/// The reading after the word that its verb found.
pub fn current_after(
    place: &Place,
    seen: &Snapshot,
    at: CurrentPoint,
    found: u64,
) -> Now<CurrentPoint, CurrentEnd>
    requires fits { FitsPlace place.now }
    requires at { CurrentFits place.now at }
    ensures { result ≡ current_after place.now seen.now at found }
{
    match at {
        CurrentPoint::CurrentHead => {
            if !sees(place.form, seen, found) {
                Now::Over(CurrentEnd::GoOld)
            } else if is_deleted(place.form, found) {
                Now::Over(CurrentEnd::Found(None))
            } else {
                Now::At(CurrentPoint::CurrentWords {
                    header: found,
                    got: Value::new(),
                })
            }
        }
        CurrentPoint::CurrentWords { header, mut got } => {
            got.push(found);
            if got.len() == place.width as usize {
                Now::At(CurrentPoint::CurrentAgain { header, value: got })
            } else {
                Now::At(CurrentPoint::CurrentWords { header, got })
            }
        }
        CurrentPoint::CurrentAgain { header, value } => {
            // Under a lock, at either look, the words may be those of the next version.
            if !same_stamp(place.form, found, header) {
                Now::Over(CurrentEnd::GoOld)
            } else if is_locked(place.form, header) || is_locked(place.form, found) {
                Now::Over(CurrentEnd::Unsure { value, header })
            } else {
                Now::Over(CurrentEnd::Found(Some(value)))
            }
        }
    }
}

/// A number of verbs that are to come from a point at the most.
pub fn current_left(place: &Place, at: &CurrentPoint) -> u64
    requires fits { FitsPlace place.now }
    requires at { CurrentFits place.now at.now }
    ensures { result ≡ current_left place.now at.now }
{
    let width = place.width as u64;
    match at {
        CurrentPoint::CurrentHead => width + 2,
        CurrentPoint::CurrentWords { got, .. } => width - got.len() as u64 + 1,
        CurrentPoint::CurrentAgain { .. } => 1,
    }
}

/// The reading of a record's current version: its header, its data words, and its header again. The words are those of
/// one version where both headers bear its stamp and neither is locked.
#[derive(Debug, Drop)]
pub struct ReadCurrent {
    place: Place,
    seen: Snapshot,
    state: Now<CurrentPoint, CurrentEnd>,
}

impl Model for ReadCurrent {
    ghost use Rattle.nam_verbs.specs.Now.{FitsNow};
    ghost use Rattle.nam_layout.specs.PlaceFits.{FitsPlace};
    ghost use Rattle.nam_calls.specs.Fits.{CurrentFits};
    ghost use Rattle.nam_record.specs.Current.{CurrentReading};

    ghost Value = { CurrentReading };

    ghost view = { λ a. record { place = a.place; seen = a.seen; state = a.state } };

    ghost invariant = { λ a. FitsPlace a.place × FitsNow (CurrentFits a.place) a.state };
}

impl ReadCurrent {
    /// A reading under a snapshot, of at most two verbs more than there are data words.
    pub fn new(place: Place, seen: Snapshot) -> ReadCurrent
        requires { FitsPlace place }
        ensures begins { result ≡ reading_current place seen }
        ensures left { verbs_left (running result) ≡ place.width + 2 }
    {
        ReadCurrent {
            place,
            seen,
            state: Now::At(current_begin()),
        }
    }
}

impl Machine for ReadCurrent {
    ghost use Rattle.nam_record.specs.Current.{running};

    type Word = Field;

    type Point = CurrentPoint;

    type End = CurrentEnd;

    ghost running = { running };

    fn state(&self) -> &Now<CurrentPoint, CurrentEnd> {
        &self.state
    }

    fn verb_from(&self, at: &CurrentPoint) -> Verb {
        current_verb(&self.place, at)
    }

    fn left_from(&self, at: &CurrentPoint) -> u64 {
        current_left(&self.place, at)
    }

    fn take(&mut self, found: u64) {
        self.state = match replace(&mut self.state, Now::At(current_begin())) {
            Now::At(at) => current_after(&self.place, &self.seen, at, found),
            Now::Over(end) => Now::Over(end),
        };
    }

    fn end(&self) -> Option<CurrentEnd> {
        match &self.state {
            Now::At(_) => None,
            Now::Over(end) => Some(end.copy()),
        }
    }
}
