//! The search of a record's ring.

ghost use Rattle.std.specs.Prelude.{◌≡◌, ◌<◌, ◌*◌, ◌+◌, []};
ghost use Rattle.nam_verbs.specs.Verb.{address_of};
ghost use Rattle.nam_verbs.specs.VerbAt.{verb_by};
ghost use Rattle.nam_verbs.specs.Running.{verbs_left};
ghost use Rattle.nam_layout.specs.Place.{position_address, place_end};
ghost use Rattle.nam_layout.specs.PlaceFits.{FitsPlace};
ghost use Rattle.nam_calls.specs.declared.ring.RingPoint.TheVariants.{SlotWords, SlotAgain};
ghost use Rattle.nam_calls.specs.Fits.{RingFits};
ghost use Rattle.nam_calls.specs.Ring.{ring_begin, ring_verb, ring_after, ring_left};
ghost use Rattle.nam_calls.specs.Ring.{next_slot, slots_left};
ghost use Rattle.nam_ring.specs.Search.{searching, running};

use nam_calls::{RingPoint, SearchEnd};
use nam_header::{MARK, is_deleted, same_stamp, sees};
use nam_layout::{Field, Place};
use nam_verbs::{Machine, Now, Verb};
use si_model::{Snapshot, Value};
use std::marker::Model;
use std::mem::replace;

/// Where a search begins: at the first slot.
pub fn ring_begin() -> RingPoint
    ensures { result ≡ ring_begin }
{
    RingPoint::SlotHead { slot: 0 }
}

/// The verb that stands at a point.
pub fn ring_verb(place: &Place, at: &RingPoint) -> Verb
    requires fits { FitsPlace place.now }
    requires at { RingFits place.now at.now }
    ensures value { result ≡ verb_by (position_address place.now) (ring_verb place.now at.now) }
    ensures within { address_of result < place_end place.now }
{
    let at = match at {
        RingPoint::SlotHead { slot } | RingPoint::SlotAgain { slot, .. } => place.slot_header(
            *slot,
        ),
        RingPoint::SlotEnding { slot, .. } => place.slot_end(*slot),
        RingPoint::SlotWords { slot, got, .. } => place.slot_word(*slot, got.len() as u32),
    };
    Verb::Read { at }
}

fn next_slot(place: &Place, slot: u32) -> Now<RingPoint, SearchEnd>
    requires fits { FitsPlace place.now }
    requires slot { slot < place.now.ring }
    ensures { result ≡ next_slot place.now slot }
{
    if slot + 1 == place.ring {
        Now::Over(SearchEnd::NotThere)
    } else {
        Now::At(RingPoint::SlotHead { slot: slot + 1 })
    }
}

fn after_word(
    place: &Place,
    slot: u32,
    header: u64,
    mut got: Value,
    found: u64,
) -> Now<RingPoint, SearchEnd>
    requires fits { FitsPlace place.now }
    requires at { RingFits place.now (SlotWords slot header got) }
    ensures { result ≡ ring_after place.now [] (SlotWords slot header got) found }
{
    got.push(found);
    if got.len() == place.width as usize {
        Now::At(RingPoint::SlotAgain {
            slot,
            header,
            value: got,
        })
    } else {
        Now::At(RingPoint::SlotWords { slot, header, got })
    }
}

fn after_again(
    place: &Place,
    slot: u32,
    header: u64,
    value: Value,
    found: u64,
) -> Now<RingPoint, SearchEnd>
    requires fits { FitsPlace place.now }
    requires at { RingFits place.now (SlotAgain slot header value) }
    ensures { result ≡ ring_after place.now [] (SlotAgain slot header value) found }
{
    // Under another header the words may be those of a version that was copied here since.
    if !same_stamp(place.form, found, header) || found == MARK {
        next_slot(place, slot)
    } else if is_deleted(place.form, header) {
        Now::Over(SearchEnd::Found(None))
    } else {
        Now::Over(SearchEnd::Found(Some(value)))
    }
}

/// What follows the word that the verb of a point found.
pub fn ring_after(
    place: &Place,
    seen: &Snapshot,
    at: RingPoint,
    found: u64,
) -> Now<RingPoint, SearchEnd>
    requires fits { FitsPlace place.now }
    requires at { RingFits place.now at }
    ensures { result ≡ ring_after place.now seen.now at found }
{
    match at {
        RingPoint::SlotHead { slot } => {
            if found == MARK || !sees(place.form, seen, found) {
                next_slot(place, slot)
            } else {
                Now::At(RingPoint::SlotEnding {
                    slot,
                    header: found,
                })
            }
        }
        RingPoint::SlotEnding { slot, header } => {
            // A visible end is the stamp of a later version that the snapshot sees.
            if sees(place.form, seen, found) {
                next_slot(place, slot)
            } else {
                Now::At(RingPoint::SlotWords {
                    slot,
                    header,
                    got: Value::new(),
                })
            }
        }
        RingPoint::SlotWords { slot, header, got } => after_word(place, slot, header, got, found),
        RingPoint::SlotAgain {
            slot,
            header,
            value,
        } => after_again(place, slot, header, value, found),
    }
}

fn slots_left(place: &Place, slot: u32) -> u64
    requires fits { FitsPlace place.now }
    requires slot { slot < place.now.ring }
    ensures value { result ≡ slots_left place.now slot }
    ensures few { result < 1024 }
{
    (place.ring - slot - 1) as u64 * (place.width as u64 + 3)
}

/// A number of verbs that are to come from a point at the most.
pub fn ring_left(place: &Place, at: &RingPoint) -> u64
    requires fits { FitsPlace place.now }
    requires at { RingFits place.now at.now }
    ensures { result ≡ ring_left place.now at.now }
{
    let width = place.width as u64;
    match at {
        RingPoint::SlotHead { slot } => slots_left(place, *slot) + (width + 3),
        RingPoint::SlotEnding { slot, .. } => slots_left(place, *slot) + (width + 2),
        RingPoint::SlotWords { slot, got, .. } => {
            slots_left(place, *slot) + (width - got.len() as u64 + 1)
        }
        RingPoint::SlotAgain { slot, .. } => slots_left(place, *slot) + 1,
    }
}

/// The search of a record's ring for the version that a snapshot sees: slot after slot its header, its end, its data
/// words, and its header again.
#[derive(Debug, Drop)]
pub struct SearchRing {
    place: Place,
    seen: Snapshot,
    state: Now<RingPoint, SearchEnd>,
}

impl Model for SearchRing {
    ghost use Rattle.nam_verbs.specs.Now.{FitsNow};
    ghost use Rattle.nam_layout.specs.PlaceFits.{FitsPlace};
    ghost use Rattle.nam_calls.specs.Fits.{RingFits};
    ghost use Rattle.nam_ring.specs.Search.{Searching};

    ghost Value = { Searching };

    ghost view = { λ a. record { place = a.place; seen = a.seen; state = a.state } };

    ghost invariant = { λ a. FitsPlace a.place × FitsNow (RingFits a.place) a.state };
}

impl SearchRing {
    /// The search of a position's ring under a snapshot.
    pub fn new(place: Place, seen: Snapshot) -> SearchRing
        requires { FitsPlace place }
        ensures begins { result ≡ searching place seen }
        ensures left { verbs_left (running result) ≡ place.ring * (place.width + 3) }
    {
        SearchRing {
            place,
            seen,
            state: Now::At(ring_begin()),
        }
    }
}

impl Machine for SearchRing {
    ghost use Rattle.nam_ring.specs.Search.{running};

    type Word = Field;

    type Point = RingPoint;

    type End = SearchEnd;

    ghost running = { running };

    fn state(&self) -> &Now<RingPoint, SearchEnd> {
        &self.state
    }

    fn verb_from(&self, at: &RingPoint) -> Verb {
        ring_verb(&self.place, at)
    }

    fn left_from(&self, at: &RingPoint) -> u64 {
        ring_left(&self.place, at)
    }

    fn take(&mut self, found: u64) {
        self.state = match replace(&mut self.state, Now::At(ring_begin())) {
            Now::At(at) => ring_after(&self.place, &self.seen, at, found),
            Now::Over(end) => Now::Over(end),
        };
    }

    fn end(&self) -> Option<SearchEnd> {
        match &self.state {
            Now::At(_) => None,
            Now::Over(end) => Some(end.copy()),
        }
    }
}
