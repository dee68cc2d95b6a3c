//! The filling of a claimed cell.

ghost use Rattle.std.specs.Prelude.{◌≡◌, ◌<◌, ◌≤◌, ◌+◌, length};
ghost use Rattle.nam_verbs.specs.Verb.{address_of};
ghost use Rattle.nam_verbs.specs.VerbAt.{verb_by};
ghost use Rattle.nam_verbs.specs.Running.{verbs_left};
ghost use Rattle.nam_layout.specs.Place.{cell_address, cells_end};
ghost use Rattle.nam_layout.specs.PlaceFits.{FitsCells};
ghost use Rattle.nam_calls.specs.Overflow.{fill_begin, fill_verb, fill_after, fill_left};
ghost use Rattle.nam_calls.specs.Fits.{FillFits};
ghost use Rattle.nam_overflow.specs.Fill.{filling, running};

use nam_calls::{FillPoint, Version};
use nam_catalog::bounds::MOST_WIDTH;
use nam_layout::{Cells, Field};
use nam_verbs::{Machine, Now, Verb};
use si_model::Value;
use std::marker::Model;
use std::mem::replace;

/// Where a filling begins: at the owner.
pub fn fill_begin() -> FillPoint
    ensures { result ≡ fill_begin }
{
    FillPoint::FillOwner
}

/// The verb that stands at a point: a write of the row that owns the cell, or of a word of the version.
pub fn fill_verb(cells: &Cells, cell: u32, owner: u32, version: &Version, at: &FillPoint) -> Verb
    requires fits { FitsCells cells.now }
    requires cell { cell < cells.now.cells }
    requires words { length version.now.value ≤ MOST_WIDTH }
    requires at { FillFits (length version.now.value) at.now }
    ensures value { result ≡ verb_by (cell_address cells.now) (fill_verb cells.now cell owner version.now at.now) }
    ensures within { address_of result < cells_end cells.now }
{
    match at {
        FillPoint::FillOwner => Verb::Write {
            at: cells.owner(cell),
            word: owner as u64,
        },
        FillPoint::FillBegin => Verb::Write {
            at: cells.begin(cell),
            word: version.begin,
        },
        FillPoint::FillEnding => Verb::Write {
            at: cells.end(cell),
            word: version.end,
        },
        FillPoint::FillWord { nth } => Verb::Write {
            at: cells.word(cell, *nth),
            word: *version.value.at(*nth as usize),
        },
    }
}

/// What follows the write of a point, where the version has so many words.
pub fn fill_after(width: u32, at: FillPoint) -> Now<FillPoint, ()>
    requires { FillFits width at }
    ensures { result ≡ fill_after width at }
{
    match at {
        FillPoint::FillOwner => Now::At(FillPoint::FillBegin),
        FillPoint::FillBegin => Now::At(FillPoint::FillEnding),
        FillPoint::FillEnding => Now::At(FillPoint::FillWord { nth: 0 }),
        FillPoint::FillWord { nth } => {
            if nth + 1 == width {
                Now::Over(())
            } else {
                Now::At(FillPoint::FillWord { nth: nth + 1 })
            }
        }
    }
}

/// How many verbs are to come from a point.
pub fn fill_left(width: u32, at: &FillPoint) -> u64
    requires { FillFits width at.now }
    ensures { result ≡ fill_left width at.now }
{
    let width = width as u64;
    match at {
        FillPoint::FillOwner => width + 3,
        FillPoint::FillBegin => width + 2,
        FillPoint::FillEnding => width + 1,
        FillPoint::FillWord { nth } => width - *nth as u64,
    }
}

/// The filling of a cell with a version of a row: its owner, begin, end and words are written, and nothing else. The
/// cell's tag says that it is being written until its claimer writes another.
#[derive(Debug, Drop)]
pub struct FillCell {
    cells: Cells,
    cell: u32,
    owner: u32,
    version: Version,
    state: Now<FillPoint, ()>,
}

impl Model for FillCell {
    ghost use Rattle.nam_overflow.specs.Fill.{Filling, FillingFits, filling_at};

    ghost Value = { Filling };

    ghost view = { λ a. filling_at a.cells a.cell a.owner a.version a.state };

    ghost invariant = { λ a. FillingFits a.cells a.cell a.version a.state };
}

impl FillCell {
    /// The filling of this cell of the bucket with a version of row `owner`: its header, the word of its successor's
    /// stamp, and its data words.
    pub fn new(cells: Cells, cell: u32, owner: u32, begin: u64, end: u64, words: Value) -> FillCell
        requires fits { FitsCells cells }
        requires cell { cell < cells.cells }
        requires least { 1 ≤ length words }
        requires most { length words ≤ MOST_WIDTH }
        ensures begins { result ≡ filling cells cell owner begin end words }
        ensures left { verbs_left (running result) ≡ length words + 3 }
    {
        FillCell {
            cells,
            cell,
            owner,
            version: Version {
                begin,
                end,
                value: words,
            },
            state: Now::At(fill_begin()),
        }
    }
}

impl Machine for FillCell {
    ghost use Rattle.nam_overflow.specs.Fill.{running};

    type Word = Field;

    type Point = FillPoint;

    type End = ();

    ghost running = { running };

    fn state(&self) -> &Now<FillPoint, ()> {
        &self.state
    }

    fn verb_from(&self, place: &FillPoint) -> Verb {
        fill_verb(&self.cells, self.cell, self.owner, &self.version, place)
    }

    fn left_from(&self, place: &FillPoint) -> u64 {
        fill_left(self.version.value.len() as u32, place)
    }

    fn take(&mut self, _found: u64) {
        self.state = match replace(&mut self.state, Now::At(fill_begin())) {
            Now::At(place) => fill_after(self.version.value.len() as u32, place),
            Now::Over(end) => Now::Over(end),
        };
    }

    fn end(&self) -> Option<()> {
        self.state.end()
    }
}
