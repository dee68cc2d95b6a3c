//! The look at the slot that a record's next version needs.

ghost use Rattle.std.specs.Prelude.{◌≡◌, ◌<◌};
ghost use Rattle.nam_verbs.specs.Verb.{address_of};
ghost use Rattle.nam_verbs.specs.VerbAt.{verb_by};
ghost use Rattle.nam_verbs.specs.Running.{verbs_left};
ghost use Rattle.nam_layout.specs.Place.{position_address, place_end};
ghost use Rattle.nam_layout.specs.PlaceFits.{FitsPlace};
ghost use Rattle.nam_calls.specs.Ring.{slot_begin, slot_verb, slot_after, slot_left};
ghost use Rattle.nam_ring.specs.Check.{checking, running};

use nam_calls::{SlotEnd, SlotPoint};
use nam_header::is_moved;
use nam_layout::{Field, Place};
use nam_verbs::{Machine, Now, Verb};
use std::marker::Model;
use std::mem::replace;

/// Where a look begins: at the number of the current version.
pub fn slot_begin() -> SlotPoint
    ensures { result ≡ slot_begin }
{
    SlotPoint::CheckCount
}

/// The verb that stands at a point.
pub fn slot_verb(place: &Place, at: &SlotPoint) -> Verb
    requires { FitsPlace place.now }
    ensures value { result ≡ verb_by (position_address place.now) (slot_verb place.now at.now) }
    ensures within { address_of result < place_end place.now }
{
    let at = match at {
        SlotPoint::CheckCount => place.count_at,
        SlotPoint::CheckHead { count } => place.slot_header(place.slot_of(*count)),
    };
    Verb::Read { at }
}

/// What follows the word that the verb of a point found.
pub fn slot_after(place: &Place, at: SlotPoint, found: u64) -> Now<SlotPoint, SlotEnd>
    requires { FitsPlace place.now }
    ensures { result ≡ slot_after place.now at found }
{
    match at {
        SlotPoint::CheckCount => Now::At(SlotPoint::CheckHead { count: found }),
        SlotPoint::CheckHead { count } => {
            // A version that wasn't moved stands nowhere else.
            if is_moved(place.form, found) {
                Now::Over(SlotEnd::Free { count })
            } else {
                Now::Over(SlotEnd::NotMoved {
                    slot: place.slot_of(count),
                    found,
                })
            }
        }
    }
}

/// How many verbs are to come from a point.
pub fn slot_left(at: &SlotPoint) -> u64
    ensures { result ≡ slot_left at.now }
{
    match at {
        SlotPoint::CheckCount => 2,
        SlotPoint::CheckHead { .. } => 1,
    }
}

/// The look at the slot into which a record's current version goes: its number, and the header of its slot.
#[derive(Debug, Drop)]
pub struct CheckSlot {
    place: Place,
    state: Now<SlotPoint, SlotEnd>,
}

impl Model for CheckSlot {
    ghost use Rattle.nam_layout.specs.PlaceFits.{FitsPlace};
    ghost use Rattle.nam_ring.specs.Check.{Checking};

    ghost Value = { Checking };

    ghost view = { λ a. record { place = a.place; state = a.state } };

    ghost invariant = { λ a. FitsPlace a.place };
}

impl CheckSlot {
    /// The look at a position's slot, of two verbs.
    pub fn new(place: Place) -> CheckSlot
        requires { FitsPlace place }
        ensures begins { result ≡ checking place }
        ensures left { verbs_left (running result) ≡ 2 }
    {
        CheckSlot {
            place,
            state: Now::At(slot_begin()),
        }
    }
}

impl Machine for CheckSlot {
    ghost use Rattle.nam_ring.specs.Check.{running};

    type Word = Field;

    type Point = SlotPoint;

    type End = SlotEnd;

    ghost running = { running };

    fn state(&self) -> &Now<SlotPoint, SlotEnd> {
        &self.state
    }

    fn verb_from(&self, at: &SlotPoint) -> Verb {
        slot_verb(&self.place, at)
    }

    fn left_from(&self, at: &SlotPoint) -> u64 {
        slot_left(at)
    }

    fn take(&mut self, found: u64) {
        self.state = match replace(&mut self.state, Now::At(slot_begin())) {
            Now::At(at) => slot_after(&self.place, at, found),
            Now::Over(end) => Now::Over(end),
        };
    }

    fn end(&self) -> Option<SlotEnd> {
        self.state.end()
    }
}
