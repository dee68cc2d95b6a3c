//! Looking once more at the header of a record.

ghost use Rattle.std.specs.Prelude.{◌≡◌, ◌<◌};
ghost use Rattle.nam_verbs.specs.Verb.{address_of};
ghost use Rattle.nam_verbs.specs.VerbAt.{verb_by};
ghost use Rattle.nam_verbs.specs.Running.{verbs_left};
ghost use Rattle.nam_layout.specs.Place.{position_address, place_end};
ghost use Rattle.nam_layout.specs.PlaceFits.{FitsPlace};
ghost use Rattle.nam_calls.specs.Record.{recheck_verb, recheck_end};
ghost use Rattle.nam_record.specs.Recheck.{rechecking, running};

use nam_header::same_stamp;
use nam_layout::{Field, Place};
use nam_verbs::{Machine, Now, Verb};
use std::marker::Model;

/// The one verb of a further look.
pub fn recheck_verb(place: &Place) -> Verb
    requires { FitsPlace place.now }
    ensures value { result ≡ verb_by (position_address place.now) (recheck_verb place.now) }
    ensures within { address_of result < place_end place.now }
{
    Verb::Read {
        at: place.header_at,
    }
}

/// Whether the word that was found bears the header's stamp.
pub fn recheck_end(place: &Place, header: u64, found: u64) -> bool
    ensures { result ≡ recheck_end place.now header found }
{
    same_stamp(place.form, found, header)
}

/// One more look at a record's header: whether it still bears that stamp.
#[derive(Debug, Drop)]
pub struct Recheck {
    place: Place,
    header: u64,
    state: Now<(), bool>,
}

impl Model for Recheck {
    ghost use Rattle.nam_layout.specs.PlaceFits.{FitsPlace};
    ghost use Rattle.nam_record.specs.Recheck.{Rechecking};

    ghost Value = { Rechecking };

    ghost view = { λ a. record { place = a.place; header = a.header; state = a.state } };

    ghost invariant = { λ a. FitsPlace a.place };
}

impl Recheck {
    /// A look at the record that bore `header`, of one verb.
    pub fn new(place: Place, header: u64) -> Recheck
        requires { FitsPlace place }
        ensures begins { result ≡ rechecking place header }
        ensures left { verbs_left (running result) ≡ 1 }
    {
        Recheck {
            place,
            header,
            state: Now::At(()),
        }
    }
}

impl Machine for Recheck {
    ghost use Rattle.nam_record.specs.Recheck.{running};

    type Word = Field;

    type Point = ();

    type End = bool;

    ghost running = { running };

    fn state(&self) -> &Now<(), bool> {
        &self.state
    }

    fn verb_from(&self, _at: &()) -> Verb {
        recheck_verb(&self.place)
    }

    fn left_from(&self, _at: &()) -> u64 {
        1
    }

    fn take(&mut self, found: u64) {
        self.state = Now::Over(recheck_end(&self.place, self.header, found));
    }

    fn end(&self) -> Option<bool> {
        self.state.end()
    }
}
