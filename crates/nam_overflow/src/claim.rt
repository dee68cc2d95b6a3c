//! The claim of a free cell.

ghost use Rattle.std.specs.Prelude.{◌≡◌, ◌<◌, ◌*◌};
ghost use Rattle.nam_verbs.specs.Verb.{address_of};
ghost use Rattle.nam_verbs.specs.VerbAt.{verb_by};
ghost use Rattle.nam_verbs.specs.Running.{verbs_left};
ghost use Rattle.nam_layout.specs.Place.{cell_address, cells_end};
ghost use Rattle.nam_layout.specs.PlaceFits.{FitsCells};
ghost use Rattle.nam_calls.specs.Overflow.{claim_begin, claim_verb, claim_next, claim_after, claim_left};
ghost use Rattle.nam_calls.specs.Fits.{ClaimFits};
ghost use Rattle.nam_overflow.specs.Claim.{claiming, running};

use nam_calls::{ClaimEnd, ClaimPoint};
use nam_header::Tag;
use nam_layout::{Cells, Field};
use nam_verbs::{Machine, Now, Verb};
use std::marker::Model;
use std::mem::replace;

/// Where a claim begins: at the first cell.
pub fn claim_begin() -> ClaimPoint
    ensures { result ≡ claim_begin }
{
    ClaimPoint::ClaimLook { cell: 0 }
}

/// The verb that stands at a point.
pub fn claim_verb(cells: &Cells, at: &ClaimPoint) -> Verb
    requires fits { FitsCells cells.now }
    requires at { ClaimFits cells.now at.now }
    ensures value { result ≡ verb_by (cell_address cells.now) (claim_verb cells.now at.now) }
    ensures within { address_of result < cells_end cells.now }
{
    match at {
        ClaimPoint::ClaimLook { cell } => Verb::Read {
            at: cells.tag(*cell),
        },
        ClaimPoint::ClaimTake { cell, tag } => Verb::Exchange {
            at: cells.tag(*cell),
            expect: *tag,
            // Neither free nor full, so that others pass the cell until it is filled.
            word: Tag(*tag).written().0,
        },
    }
}

fn claim_next(cells: &Cells, cell: u32) -> Now<ClaimPoint, ClaimEnd>
    requires fits { FitsCells cells.now }
    requires cell { cell < cells.now.cells }
    ensures { result ≡ claim_next cells.now cell }
{
    if cell + 1 == cells.cells {
        Now::Over(ClaimEnd::NoRoom)
    } else {
        Now::At(ClaimPoint::ClaimLook { cell: cell + 1 })
    }
}

/// What follows the word that the verb of a point found.
pub fn claim_after(cells: &Cells, at: ClaimPoint, found: u64) -> Now<ClaimPoint, ClaimEnd>
    requires fits { FitsCells cells.now }
    requires at { ClaimFits cells.now at }
    ensures { result ≡ claim_after cells.now at found }
{
    match at {
        ClaimPoint::ClaimLook { cell } => {
            if Tag(found).is_free() {
                Now::At(ClaimPoint::ClaimTake { cell, tag: found })
            } else {
                claim_next(cells, cell)
            }
        }
        ClaimPoint::ClaimTake { cell, tag } => {
            if found == tag {
                Now::Over(ClaimEnd::Claimed {
                    cell,
                    tag: Tag(tag).written().0,
                })
            } else {
                claim_next(cells, cell)
            }
        }
    }
}

/// A number of verbs that are to come from a point at the most.
pub fn claim_left(cells: &Cells, at: &ClaimPoint) -> u64
    requires fits { FitsCells cells.now }
    requires at { ClaimFits cells.now at.now }
    ensures { result ≡ claim_left cells.now at.now }
{
    match at {
        ClaimPoint::ClaimLook { cell } => (cells.cells - *cell - 1) as u64 * 2 + 2,
        ClaimPoint::ClaimTake { cell, .. } => (cells.cells - *cell - 1) as u64 * 2 + 1,
    }
}

/// The claim of the first cell of a bucket that is free, and that no other takes before. It exchanges a free tag for
/// one of the same generation that says that the cell is being written.
#[derive(Debug, Drop)]
pub struct ClaimCell {
    cells: Cells,
    state: Now<ClaimPoint, ClaimEnd>,
}

impl Model for ClaimCell {
    ghost use Rattle.nam_verbs.specs.Now.{FitsNow};
    ghost use Rattle.nam_layout.specs.PlaceFits.{FitsCells};
    ghost use Rattle.nam_calls.specs.Fits.{ClaimFits};
    ghost use Rattle.nam_overflow.specs.Claim.{Claiming};

    ghost Value = { Claiming };

    ghost view = { λ a. record { cells = a.cells; state = a.state } };

    ghost invariant = { λ a. FitsCells a.cells × FitsNow (ClaimFits a.cells) a.state };
}

impl ClaimCell {
    /// A claim of one of these cells, of at most two verbs for each of them.
    pub fn new(cells: Cells) -> ClaimCell
        requires { FitsCells cells }
        ensures begins { result ≡ claiming cells }
        ensures left { verbs_left (running result) ≡ 2 * cells.cells }
    {
        ClaimCell {
            cells,
            state: Now::At(claim_begin()),
        }
    }
}

impl Machine for ClaimCell {
    ghost use Rattle.nam_overflow.specs.Claim.{running};

    type Word = Field;

    type Point = ClaimPoint;

    type End = ClaimEnd;

    ghost running = { running };

    fn state(&self) -> &Now<ClaimPoint, ClaimEnd> {
        &self.state
    }

    fn verb_from(&self, place: &ClaimPoint) -> Verb {
        claim_verb(&self.cells, place)
    }

    fn left_from(&self, place: &ClaimPoint) -> u64 {
        claim_left(&self.cells, place)
    }

    fn take(&mut self, found: u64) {
        self.state = match replace(&mut self.state, Now::At(claim_begin())) {
            Now::At(place) => claim_after(&self.cells, place, found),
            Now::Over(end) => Now::Over(end),
        };
    }

    fn end(&self) -> Option<ClaimEnd> {
        self.state.end()
    }
}
