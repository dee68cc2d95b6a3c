//! The move as a machine.

ghost use Rattle.std.specs.Prelude.{◌≡◌, ◌+◌, ◌*◌};
ghost use Rattle.nam_verbs.specs.Running.{verbs_left};
ghost use Rattle.nam_layout.specs.PlaceFits.{FitsPlace, FitsCells};
ghost use Rattle.nam_mover.specs.Move.{moving, running, claimed_now};

use crate::place::{move_after, move_begin, move_claimed, move_left, move_verb};
use nam_calls::{MoveAnswer, MovePoint};
use nam_layout::{Cells, Field, Place};
use nam_verbs::{Machine, Now, Verb};
use si_model::Stamp;
use std::marker::Model;
use std::mem::replace;

/// The move of the version in the slot that a record's next version needs. A cell is claimed for it, its header, end
/// and words are read from the slot and written into the cell, and the slot's header is read again. Where that is the
/// same, the cell's tag says that it is full, and then the slot's header gets the moved flag; else the cell is given
/// back.
#[derive(Debug, Drop)]
pub struct Move {
    place: Place,
    cells: Cells,
    state: Now<MovePoint, MoveAnswer>,
}

impl Model for Move {
    ghost use Rattle.nam_verbs.specs.Now.{FitsNow};
    ghost use Rattle.nam_layout.specs.PlaceFits.{FitsPlace, FitsCells};
    ghost use Rattle.nam_calls.specs.Fits.{MoveFits};
    ghost use Rattle.nam_mover.specs.Move.{Moving};

    ghost Value = { Moving };

    ghost view = { λ a. record { place = a.place; cells = a.cells; state = a.state } };

    ghost invariant = { λ a. FitsPlace a.place × FitsCells a.cells × FitsNow (MoveFits a.place a.cells) a.state };
}

impl Move {
    /// The move of a position's old version into one of these cells.
    pub fn new(place: Place, cells: Cells) -> Move
        requires place { FitsPlace place }
        requires cells { FitsCells cells }
        ensures begins { result ≡ moving place cells }
        ensures left { verbs_left (running result) ≡ 2 * cells.cells + 2 * place.width + 9 }
    {
        Move {
            place,
            cells,
            state: Now::At(move_begin()),
        }
    }

    /// The stamp of the version for which a cell was claimed, from the exchange that claimed it to the call's end.
    pub fn claimed(&self) -> Option<Stamp>
        ensures { result ≡ claimed_now self.now }
    {
        match &self.state {
            Now::At(at) => move_claimed(&self.place, at),
            Now::Over(_) => None,
        }
    }
}

impl Machine for Move {
    ghost use Rattle.std.specs.Prelude.{◌≡◌, ◌<◌, IsSome};
    ghost use Rattle.nam_verbs.specs.Running.{next_verb, after_found, verbs_left};
    ghost use Rattle.nam_mover.specs.Move.{running};

    type Word = Field;

    type Point = MovePoint;

    type End = MoveAnswer;

    ghost running = { running };

    fn state(&self) -> &Now<MovePoint, MoveAnswer> {
        &self.state
    }

    fn verb_from(&self, place: &MovePoint) -> Verb {
        move_verb(&self.place, &self.cells, place)
    }

    fn left_from(&self, place: &MovePoint) -> u64 {
        move_left(&self.place, &self.cells, place)
    }

    fn take(&mut self, found: u64)
        requires { IsSome (next_verb (running self.old)) }
        ensures after { running self.new ≡ after_found (running self.old) found }
        ensures falls { verbs_left (running self.new) < verbs_left (running self.old) }
        ensures value { self.new ≡ record self.old { state = (after_found (running self.old) found).state } }
    {
        self.state = match replace(&mut self.state, Now::At(move_begin())) {
            Now::At(place) => move_after(&self.place, &self.cells, place, found),
            Now::Over(end) => Now::Over(end),
        };
    }

    fn end(&self) -> Option<MoveAnswer> {
        self.state.end()
    }
}
