//! Installing the next version of a record.

ghost use Rattle.std.specs.Prelude.{◌≡◌, ◌<◌, ◌+◌, MatchOption};
ghost use Rattle.nam_verbs.specs.Verb.{address_of};
ghost use Rattle.nam_verbs.specs.VerbAt.{verb_by};
ghost use Rattle.nam_verbs.specs.Running.{verbs_left};
ghost use Rattle.nam_layout.specs.Place.{position_address, place_end};
ghost use Rattle.nam_layout.specs.PlaceFits.{FitsPlace};
ghost use Rattle.nam_calls.specs.Record.{install_begin, word_in, install_verb, install_after, install_left};
ghost use Rattle.nam_calls.specs.Fits.{HasWidth, InstallFits};
ghost use Rattle.nam_record.specs.Install.{installing, running};

use nam_calls::InstallPoint;
use nam_layout::{Field, Place};
use nam_verbs::{Machine, Now, Verb};
use si_model::Value;
use std::marker::Model;
use std::mem::replace;

/// Where the install of a version begins. A deletion has no value, and leaves the data words as they are.
pub fn install_begin(value: &Option<Value>) -> InstallPoint
    ensures { result ≡ install_begin value.now }
{
    match value {
        None => InstallPoint::InstallCount,
        Some(_) => InstallPoint::InstallWord { nth: 0 },
    }
}

/// A word of the value, and 0 of a deletion.
fn word_in(place: &Place, value: &Option<Value>, nth: u32) -> u64
    requires value { HasWidth place.now.width value.now }
    requires nth { nth < place.now.width }
    ensures { result ≡ word_in value.now nth }
{
    match value {
        None => 0,
        Some(value) => *value.at(nth as usize),
    }
}

/// The verb that stands at a point, of the install of a version after that of number `count`.
pub fn install_verb(
    place: &Place,
    value: &Option<Value>,
    count: u64,
    header: u64,
    at: &InstallPoint,
) -> Verb
    requires fits { FitsPlace place.now }
    requires value { HasWidth place.now.width value.now }
    requires at { InstallFits place.now at.now }
    ensures value { result ≡ verb_by (position_address place.now)
        (install_verb place.now value.now count header at.now) }
    ensures within { address_of result < place_end place.now }
{
    match at {
        InstallPoint::InstallWord { nth } => Verb::Write {
            at: place.word(*nth),
            word: word_in(place, value, *nth),
        },
        InstallPoint::InstallCount => Verb::Write {
            at: place.count_at,
            word: count.wrapping_add(1),
        },
        InstallPoint::InstallHead => Verb::Write {
            at: place.header_at,
            word: header,
        },
    }
}

/// The install after its write.
pub fn install_after(place: &Place, at: InstallPoint) -> Now<InstallPoint, ()>
    requires fits { FitsPlace place.now }
    requires at { InstallFits place.now at }
    ensures { result ≡ install_after place.now at }
{
    // The header is last: until it is written its lock tells readers that the words may be of either version.
    match at {
        InstallPoint::InstallWord { nth } => {
            if nth + 1 == place.width {
                Now::At(InstallPoint::InstallCount)
            } else {
                Now::At(InstallPoint::InstallWord { nth: nth + 1 })
            }
        }
        InstallPoint::InstallCount => Now::At(InstallPoint::InstallHead),
        InstallPoint::InstallHead => Now::Over(()),
    }
}

/// How many verbs are to come from a point.
pub fn install_left(place: &Place, at: &InstallPoint) -> u64
    requires fits { FitsPlace place.now }
    requires at { InstallFits place.now at.now }
    ensures { result ≡ install_left place.now at.now }
{
    match at {
        InstallPoint::InstallWord { nth } => place.width as u64 - *nth as u64 + 2,
        InstallPoint::InstallCount => 2,
        InstallPoint::InstallHead => 1,
    }
}

/// The install of a version: its data words, which a deletion has not, then its number, and its header last.
#[derive(Debug, Drop)]
pub struct Install {
    place: Place,
    value: Option<Value>,
    count: u64,
    header: u64,
    state: Now<InstallPoint, ()>,
}

impl Model for Install {
    ghost use Rattle.nam_verbs.specs.Now.{FitsNow};
    ghost use Rattle.nam_layout.specs.PlaceFits.{FitsPlace};
    ghost use Rattle.nam_calls.specs.Fits.{HasWidth, InstallFits};
    ghost use Rattle.nam_record.specs.Install.{Installing};

    ghost Value = { Installing };

    ghost view = { λ a. record {
      place = a.place;
      value = a.value;
      count = a.count;
      header = a.header;
      state = a.state;
    } };

    ghost invariant = { λ a. FitsPlace a.place × HasWidth a.place.width a.value
        × FitsNow (InstallFits a.place) a.state };
}

impl Install {
    /// The install of a version, or of a deletion where there is no value, after the version of number `count`. It has
    /// a verb for each word of the value and two more.
    pub fn new(place: Place, value: Option<Value>, count: u64, header: u64) -> Install
        requires fits { FitsPlace place }
        requires value { HasWidth place.width value }
        ensures begins { result ≡ installing place value count header }
        ensures left { MatchOption value (verbs_left (running result) ≡ 2)
            (λ words. verbs_left (running result) ≡ place.width + 2) }
    {
        let begin = install_begin(&value);
        Install {
            place,
            value,
            count,
            header,
            state: Now::At(begin),
        }
    }
}

impl Machine for Install {
    ghost use Rattle.nam_record.specs.Install.{running};

    type Word = Field;

    type Point = InstallPoint;

    type End = ();

    ghost running = { running };

    fn state(&self) -> &Now<InstallPoint, ()> {
        &self.state
    }

    fn verb_from(&self, at: &InstallPoint) -> Verb {
        install_verb(&self.place, &self.value, self.count, self.header, at)
    }

    fn left_from(&self, at: &InstallPoint) -> u64 {
        install_left(&self.place, at)
    }

    fn take(&mut self, _found: u64) {
        self.state = match replace(&mut self.state, Now::Over(())) {
            Now::At(at) => install_after(&self.place, at),
            Now::Over(()) => Now::Over(()),
        };
    }

    fn end(&self) -> Option<()> {
        self.state.end()
    }
}
