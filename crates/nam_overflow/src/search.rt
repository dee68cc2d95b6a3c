//! The search of a bucket's cells.

ghost use Rattle.std.specs.Prelude.{◌≡◌, ◌<◌, ◌≤◌, ◌*◌, ◌+◌, [], ◌∷◌, ◌++◌, length, if◌then◌else◌, Some, None};
ghost use Rattle.nam_verbs.specs.declared.now.Now.TheVariants.{At};
ghost use Rattle.nam_verbs.specs.Verb.{address_of};
ghost use Rattle.nam_verbs.specs.VerbAt.{verb_by};
ghost use Rattle.nam_verbs.specs.Until.{until};
ghost use Rattle.nam_verbs.specs.Running.{verbs_left};
ghost use Rattle.nam_header.specs.Stamp.{is_deleted};
ghost use Rattle.nam_layout.specs.Place.{cell_address, cells_end};
ghost use Rattle.nam_layout.specs.PlaceFits.{FitsPlace, FitsCells};
ghost use Rattle.nam_calls.specs.declared.overflow.CellPoint.TheVariants.{CellWords, CellAgain};
ghost use Rattle.nam_calls.specs.declared.ring.SearchEnd.TheVariants.{Found};
ghost use Rattle.nam_calls.specs.Overflow.{cell_begin, cell_verb, next_cell, cell_after, cells_left, cell_left};
ghost use Rattle.nam_calls.specs.Fits.{CellFits};
ghost use Rattle.nam_overflow.specs.Search.{searching, running};

use nam_calls::{CellPoint, SearchEnd};
use nam_catalog::Form;
use nam_catalog::bounds::MOST_WIDTH;
use nam_header::{Tag, is_deleted, sees};
use nam_layout::{Cells, Field, Place};
use nam_verbs::{Machine, Now, Verb};
use si_model::{Snapshot, Value};
use std::marker::Model;
use std::mem::replace;

/// Where a search begins: at the first cell.
pub fn cell_begin() -> CellPoint
    ensures { result ≡ cell_begin }
{
    CellPoint::CellTag { cell: 0 }
}

/// The verb that stands at a point.
pub fn cell_verb(cells: &Cells, place: &Place, at: &CellPoint) -> Verb
    requires cells { FitsCells cells.now }
    requires place { FitsPlace place.now }
    requires at { CellFits cells.now place.now at.now }
    ensures value { result ≡ verb_by (cell_address cells.now) (cell_verb cells.now at.now) }
    ensures within { address_of result < cells_end cells.now }
{
    let at = match at {
        CellPoint::CellTag { cell } | CellPoint::CellAgain { cell, .. } => cells.tag(*cell),
        CellPoint::CellOwner { cell, .. } => cells.owner(*cell),
        CellPoint::CellBegin { cell, .. } => cells.begin(*cell),
        CellPoint::CellEnding { cell, .. } => cells.end(*cell),
        CellPoint::CellWords { cell, got, .. } => cells.word(*cell, got.len() as u32),
    };
    Verb::Read { at }
}

fn next_cell(cells: &Cells, cell: u32) -> Now<CellPoint, SearchEnd>
    requires fits { FitsCells cells.now }
    requires cell { cell < cells.now.cells }
    ensures { result ≡ next_cell cells.now cell }
{
    if cell + 1 == cells.cells {
        Now::Over(SearchEnd::NotThere)
    } else {
        Now::At(CellPoint::CellTag { cell: cell + 1 })
    }
}

// The cell is looked at further where its word passes, and else the next cell.
fn going(cells: &Cells, cell: u32, passes: bool, further: CellPoint) -> Now<CellPoint, SearchEnd>
    requires fits { FitsCells cells.now }
    requires cell { cell < cells.now.cells }
    ensures { result ≡ (if passes then At further else next_cell cells.now cell) }
{
    if passes {
        Now::At(further)
    } else {
        next_cell(cells, cell)
    }
}

// With one more of the cell's words, the next one follows, or the tag again.
fn one_more(width: u32, cell: u32, tag: u64, header: u64, got: Value, found: u64) -> CellPoint
    requires most { width ≤ MOST_WIDTH }
    requires got { length got < width }
    ensures { result ≡ until width (got ++ found ∷ []) (CellWords cell tag header) (CellAgain cell tag header) }
{
    let mut got = got;
    got.push(found);
    if got.len() == width as usize {
        CellPoint::CellAgain {
            cell,
            tag,
            header,
            value: got,
        }
    } else {
        CellPoint::CellWords {
            cell,
            tag,
            header,
            got,
        }
    }
}

// The value of a whole version, and none of a deletion.
fn value_of(form: Form, header: u64, value: Value) -> SearchEnd
    ensures { result ≡ Found (if is_deleted form header then None else Some value) }
{
    if is_deleted(form, header) {
        SearchEnd::Found(None)
    } else {
        SearchEnd::Found(Some(value))
    }
}

/// What follows the word that the verb of a point found.
pub fn cell_after(
    cells: &Cells,
    place: &Place,
    seen: &Snapshot,
    at: CellPoint,
    found: u64,
) -> Now<CellPoint, SearchEnd>
    requires cells { FitsCells cells.now }
    requires place { FitsPlace place.now }
    requires at { CellFits cells.now place.now at }
    ensures { result ≡ cell_after cells.now place.now seen.now at found }
{
    match at {
        CellPoint::CellTag { cell } => {
            let further = CellPoint::CellOwner { cell, tag: found };
            going(cells, cell, Tag(found).is_full(), further)
        }
        CellPoint::CellOwner { cell, tag } => {
            let further = CellPoint::CellBegin { cell, tag };
            going(cells, cell, found == place.row as u64, further)
        }
        CellPoint::CellBegin { cell, tag } => {
            let header = found;
            let further = CellPoint::CellEnding { cell, tag, header };
            going(cells, cell, sees(place.form, seen, found), further)
        }
        CellPoint::CellEnding { cell, tag, header } => {
            // A later version replaced this one within the snapshot.
            if sees(place.form, seen, found) {
                return next_cell(cells, cell);
            }
            let got = Value::new();
            Now::At(CellPoint::CellWords {
                cell,
                tag,
                header,
                got,
            })
        }
        CellPoint::CellWords {
            cell,
            tag,
            header,
            got,
        } => Now::At(one_more(place.width, cell, tag, header, got, found)),
        CellPoint::CellAgain {
            cell,
            tag,
            header,
            value,
        } => {
            // With another tag the cell was freed meanwhile, and the words may be of two versions.
            if found != tag {
                return next_cell(cells, cell);
            }
            Now::Over(value_of(place.form, header, value))
        }
    }
}

fn cells_left(cells: &Cells, place: &Place, cell: u32) -> u64
    requires place { FitsPlace place.now }
    requires cell { cell < cells.now.cells }
    ensures { result ≡ cells_left cells.now place.now cell }
{
    (cells.cells - cell - 1) as u64 * (place.width as u64 + 5)
}

/// A number of verbs that are to come from a point at the most.
pub fn cell_left(cells: &Cells, place: &Place, at: &CellPoint) -> u64
    requires cells { FitsCells cells.now }
    requires place { FitsPlace place.now }
    requires at { CellFits cells.now place.now at.now }
    ensures { result ≡ cell_left cells.now place.now at.now }
{
    let width = place.width as u64;
    match at {
        CellPoint::CellTag { cell } => cells_left(cells, place, *cell) + (width + 5),
        CellPoint::CellOwner { cell, .. } => cells_left(cells, place, *cell) + (width + 4),
        CellPoint::CellBegin { cell, .. } => cells_left(cells, place, *cell) + (width + 3),
        CellPoint::CellEnding { cell, .. } => cells_left(cells, place, *cell) + (width + 2),
        CellPoint::CellWords { cell, got, .. } => cells_left(cells, place, *cell)
            + (width - got.len() as u64 + 1),
        CellPoint::CellAgain { cell, .. } => cells_left(cells, place, *cell) + 1,
    }
}

/// The search of a bucket's cells for the version of a row that a snapshot sees: cell after cell, until one has it. A
/// cell has it where its tag says that it is full, it belongs to the row, the snapshot sees its header and not its
/// end, and the tag is the same after the words.
#[derive(Debug, Drop)]
pub struct SearchCells {
    cells: Cells,
    place: Place,
    seen: Snapshot,
    state: Now<CellPoint, SearchEnd>,
}

impl Model for SearchCells {
    ghost use Rattle.nam_verbs.specs.Now.{FitsNow};
    ghost use Rattle.nam_layout.specs.PlaceFits.{FitsPlace, FitsCells};
    ghost use Rattle.nam_calls.specs.Fits.{CellFits};
    ghost use Rattle.nam_overflow.specs.Search.{Searching};

    ghost Value = { Searching };

    ghost view = { λ a. record { cells = a.cells; place = a.place; seen = a.seen; state = a.state } };

    ghost invariant = { λ a. FitsCells a.cells × FitsPlace a.place × FitsNow (CellFits a.cells a.place) a.state };
}

impl SearchCells {
    /// A search of these cells, of at most `width + 5` verbs for each of them.
    pub fn new(cells: Cells, place: Place, seen: Snapshot) -> SearchCells
        requires cells { FitsCells cells }
        requires place { FitsPlace place }
        ensures begins { result ≡ searching cells place seen }
        ensures left { verbs_left (running result) ≡ cells.cells * (place.width + 5) }
    {
        SearchCells {
            cells,
            place,
            seen,
            state: Now::At(cell_begin()),
        }
    }
}

impl Machine for SearchCells {
    ghost use Rattle.nam_overflow.specs.Search.{running};

    type Word = Field;

    type Point = CellPoint;

    type End = SearchEnd;

    ghost running = { running };

    fn state(&self) -> &Now<CellPoint, SearchEnd> {
        &self.state
    }

    fn verb_from(&self, place: &CellPoint) -> Verb {
        cell_verb(&self.cells, &self.place, place)
    }

    fn left_from(&self, place: &CellPoint) -> u64 {
        cell_left(&self.cells, &self.place, place)
    }

    fn take(&mut self, found: u64) {
        self.state = match replace(&mut self.state, Now::At(cell_begin())) {
            Now::At(place) => cell_after(&self.cells, &self.place, &self.seen, place, found),
            Now::Over(end) => Now::Over(end),
        };
    }

    fn end(&self) -> Option<SearchEnd> {
        match &self.state {
            Now::At(_) => None,
            Now::Over(end) => Some(end.copy()),
        }
    }
}
