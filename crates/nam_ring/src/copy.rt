//! The copy of a record's current version into its slot.

ghost use Rattle.std.specs.Prelude.{◌≡◌, ◌<◌, ◌+◌, length};
ghost use Rattle.nam_verbs.specs.Verb.{address_of};
ghost use Rattle.nam_verbs.specs.VerbAt.{verb_by};
ghost use Rattle.nam_verbs.specs.Running.{verbs_left};
ghost use Rattle.nam_layout.specs.Place.{position_address, place_end};
ghost use Rattle.nam_layout.specs.PlaceFits.{FitsPlace};
ghost use Rattle.nam_header.specs.Stamp.{FitsStamp};
ghost use Rattle.nam_calls.specs.Fits.{CopyFits};
ghost use Rattle.nam_calls.specs.Ring.{copy_begin, copy_verb, copy_after, copy_left};
ghost use Rattle.nam_ring.specs.Copy.{copying, running};

use nam_calls::CopyPoint;
use nam_header::{MARK, stamp_word};
use nam_layout::{Field, Place};
use nam_verbs::{Machine, Now, Verb};
use si_model::{Stamp, Value};
use std::marker::Model;
use std::mem::replace;

/// Where a copy begins: at the mark.
pub fn copy_begin() -> CopyPoint
    ensures { result ≡ copy_begin }
{
    CopyPoint::CopyMark
}

/// The verb that stands at a point: `count` is the version's number, `header` its header without a lock, `old` its
/// words, and `ending` its successor's stamp.
pub fn copy_verb(
    place: &Place,
    count: u64,
    header: u64,
    old: &Value,
    ending: Stamp,
    at: &CopyPoint,
) -> Verb
    requires fits { FitsPlace place.now }
    requires old { length old.now ≡ place.now.width }
    requires ending { FitsStamp place.now.form ending }
    requires at { CopyFits place.now at.now }
    ensures value { result ≡ verb_by (position_address place.now)
        (copy_verb place.now count header old.now ending at.now) }
    ensures within { address_of result < place_end place.now }
{
    let slot = place.slot_of(count);
    match at {
        CopyPoint::CopyMark => Verb::Write {
            at: place.slot_header(slot),
            word: MARK,
        },
        CopyPoint::CopyEnding => Verb::Write {
            at: place.slot_end(slot),
            word: stamp_word(place.form, ending),
        },
        CopyPoint::CopyWord { nth } => Verb::Write {
            at: place.slot_word(slot, *nth),
            word: *old.at(*nth as usize),
        },
        CopyPoint::CopyHead => Verb::Write {
            at: place.slot_header(slot),
            word: header,
        },
    }
}

/// What follows the write of a point.
pub fn copy_after(place: &Place, at: CopyPoint) -> Now<CopyPoint, ()>
    requires fits { FitsPlace place.now }
    requires at { CopyFits place.now at }
    ensures { result ≡ copy_after place.now at }
{
    // The mark is first, so that no search takes a slot whose words change; the header is last, so that it stands over
    // whole words alone.
    match at {
        CopyPoint::CopyMark => Now::At(CopyPoint::CopyEnding),
        CopyPoint::CopyEnding => Now::At(CopyPoint::CopyWord { nth: 0 }),
        CopyPoint::CopyWord { nth } => {
            if nth + 1 == place.width {
                Now::At(CopyPoint::CopyHead)
            } else {
                Now::At(CopyPoint::CopyWord { nth: nth + 1 })
            }
        }
        CopyPoint::CopyHead => Now::Over(()),
    }
}

/// How many verbs are to come from a point.
pub fn copy_left(place: &Place, at: &CopyPoint) -> u64
    requires fits { FitsPlace place.now }
    requires at { CopyFits place.now at.now }
    ensures { result ≡ copy_left place.now at.now }
{
    let width = place.width as u64;
    match at {
        CopyPoint::CopyMark => width + 3,
        CopyPoint::CopyEnding => width + 2,
        CopyPoint::CopyWord { nth } => width - *nth as u64 + 1,
        CopyPoint::CopyHead => 1,
    }
}

/// The copy of a record's current version into the slot of its number: the mark, the end, the words, the header.
#[derive(Debug, Drop)]
pub struct CopyOld {
    place: Place,
    count: u64,
    header: u64,
    old: Value,
    ending: Stamp,
    state: Now<CopyPoint, ()>,
}

impl Model for CopyOld {
    ghost use Rattle.std.specs.Prelude.{◌≡◌, length};
    ghost use Rattle.nam_verbs.specs.Now.{FitsNow};
    ghost use Rattle.nam_layout.specs.PlaceFits.{FitsPlace};
    ghost use Rattle.nam_header.specs.Stamp.{FitsStamp};
    ghost use Rattle.nam_calls.specs.Fits.{CopyFits};
    ghost use Rattle.nam_ring.specs.Copy.{Copying};

    ghost Value = { Copying };

    ghost view = { λ a. record {
      place = a.place;
      count = a.count;
      header = a.header;
      old = a.old;
      ending = a.ending;
      state = a.state;
    } };

    ghost invariant = { λ a. FitsPlace a.place × (length a.old ≡ a.place.width) × FitsStamp a.place.form a.ending
        × FitsNow (CopyFits a.place) a.state };
}

impl CopyOld {
    /// The copy of a position's current version, which has this number, this header without a lock, and these words.
    /// Its successor has the stamp `end`.
    pub fn new(place: Place, count: u64, header: u64, old: Value, end: Stamp) -> CopyOld
        requires fits { FitsPlace place }
        requires old { length old ≡ place.width }
        requires stamp { FitsStamp place.form end }
        ensures begins { result ≡ copying place count header old end }
        ensures left { verbs_left (running result) ≡ place.width + 3 }
    {
        CopyOld {
            place,
            count,
            header,
            old,
            ending: end,
            state: Now::At(copy_begin()),
        }
    }
}

impl Machine for CopyOld {
    ghost use Rattle.nam_ring.specs.Copy.{running};

    type Word = Field;

    type Point = CopyPoint;

    type End = ();

    ghost running = { running };

    fn state(&self) -> &Now<CopyPoint, ()> {
        &self.state
    }

    fn verb_from(&self, at: &CopyPoint) -> Verb {
        copy_verb(
            &self.place,
            self.count,
            self.header,
            &self.old,
            self.ending,
            at,
        )
    }

    fn left_from(&self, at: &CopyPoint) -> u64 {
        copy_left(&self.place, at)
    }

    fn take(&mut self, _found: u64) {
        self.state = match replace(&mut self.state, Now::Over(())) {
            Now::At(at) => copy_after(&self.place, at),
            Now::Over(()) => Now::Over(()),
        };
    }

    fn end(&self) -> Option<()> {
        self.state.end()
    }
}
