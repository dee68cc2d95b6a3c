//! The steps of the search of the bucket's cells.

ghost use Rattle.std.specs.Prelude.{◌≡◌, ◌<◌, length};
ghost use Rattle.nam_layout.specs.PlaceFits.{FitsPlace, FitsCells};
ghost use Rattle.nam_calls.specs.declared.overflow.CellPoint.TheVariants.{CellTag, CellOwner, CellBegin};
ghost use Rattle.nam_calls.specs.declared.overflow.CellPoint.TheVariants.{CellEnding, CellWords, CellAgain};
ghost use Rattle.nam_calls.specs.declared.reading.ReadPoint.TheVariants.{ReadCells};
ghost use Rattle.nam_calls.specs.Overflow.{next_cell};
ghost use Rattle.nam_calls.specs.Reading.{read_after, on_cells};
ghost use Rattle.nam_reader.specs.Registers.{state_of};

use crate::registers::{Registers, Step};
use nam_calls::Sight;
use nam_header::{Tag, is_deleted, sees};
use nam_layout::Cells;
use si_model::Snapshot;

impl Registers {
    #[inline]
    fn next_cell(&mut self, cells: &Cells)
        requires fits { FitsCells cells.now }
        requires cell { self.old.cell < cells.now.cells }
        ensures { state_of self.new ≡ on_cells (next_cell cells.now self.old.cell) }
    {
        if self.cell + 1 != cells.cells {
            self.cell += 1;
            self.step = Step::CellTag;
        } else {
            self.worker = 1;
            self.step = Step::Horizon;
        }
    }

    #[inline]
    pub(crate) fn cell_tag(&mut self, sight: &Sight, seen: &Snapshot, found: u64)
        requires fits { FitsCells sight.now.cells }
        requires cell { self.old.cell < sight.now.cells.cells }
        ensures { state_of self.new ≡ read_after sight.now seen.now (ReadCells (CellTag self.old.cell)) found }
    {
        if Tag(found).is_full() {
            self.tag = found;
            self.step = Step::CellOwner;
        } else {
            self.next_cell(&sight.cells);
        }
    }

    #[inline]
    pub(crate) fn cell_owner(&mut self, sight: &Sight, seen: &Snapshot, found: u64)
        requires fits { FitsCells sight.now.cells }
        requires cell { self.old.cell < sight.now.cells.cells }
        ensures { state_of self.new ≡ read_after sight.now seen.now
            (ReadCells (CellOwner self.old.cell self.old.tag)) found }
    {
        if found == sight.place.row as u64 {
            self.step = Step::CellBegin;
        } else {
            self.next_cell(&sight.cells);
        }
    }

    #[inline]
    pub(crate) fn cell_begin(&mut self, sight: &Sight, seen: &Snapshot, found: u64)
        requires fits { FitsCells sight.now.cells }
        requires cell { self.old.cell < sight.now.cells.cells }
        ensures { state_of self.new ≡ read_after sight.now seen.now
            (ReadCells (CellBegin self.old.cell self.old.tag)) found }
    {
        if sees(sight.place.form, seen, found) {
            self.older_header = found;
            self.step = Step::CellEnding;
        } else {
            self.next_cell(&sight.cells);
        }
    }

    #[inline]
    pub(crate) fn cell_ending(&mut self, sight: &Sight, seen: &Snapshot, found: u64)
        requires fits { FitsCells sight.now.cells }
        requires cell { self.old.cell < sight.now.cells.cells }
        ensures { state_of self.new ≡ read_after sight.now seen.now
            (ReadCells (CellEnding self.old.cell self.old.tag self.old.older_header)) found }
    {
        // A later version replaced this one within the snapshot.
        if sees(sight.place.form, seen, found) {
            self.next_cell(&sight.cells);
        } else {
            self.older.clear();
            self.step = Step::CellWords;
        }
    }

    #[inline]
    pub(crate) fn cell_words(&mut self, sight: &Sight, seen: &Snapshot, found: u64)
        requires fits { FitsPlace sight.now.place }
        requires words { length self.old.older < sight.now.place.width }
        ensures { state_of self.new ≡ read_after sight.now seen.now
            (ReadCells (CellWords self.old.cell self.old.tag self.old.older_header self.old.older)) found }
    {
        self.older.push(found);
        self.step = if self.older.len() == sight.place.width as usize {
            Step::CellAgain
        } else {
            Step::CellWords
        };
    }

    #[inline]
    pub(crate) fn cell_again(&mut self, sight: &Sight, seen: &Snapshot, found: u64)
        requires fits { FitsCells sight.now.cells }
        requires cell { self.old.cell < sight.now.cells.cells }
        ensures { state_of self.new ≡ read_after sight.now seen.now
            (ReadCells (CellAgain self.old.cell self.old.tag self.old.older_header self.old.older)) found }
    {
        // With another tag the cell was freed meanwhile, and the words may be of two versions.
        if found != self.tag {
            self.next_cell(&sight.cells);
        } else if is_deleted(sight.place.form, self.older_header) {
            self.step = Step::Absent;
        } else {
            self.step = Step::Older;
        }
    }
}
