//! Addresses of the words of a position, of a bucket's cells and of the horizon.

ghost use Rattle.std.specs.Prelude.{◌≡◌, ◌<◌, ◌≤◌, ◌*◌};
ghost use Rattle.nam_layout.specs.declared.field.Field.TheVariants.{Horizon, Word, SlotHeader, SlotEnd, SlotWord};
ghost use Rattle.nam_layout.specs.declared.field.Field.TheVariants.{Tag, Owner, Begin, End, CellWord};
ghost use Rattle.nam_layout.specs.Place.{position_address, cell_address, worker_address};
ghost use Rattle.nam_layout.specs.Place.{place_end, cells_end, slot_of};
ghost use Rattle.nam_layout.specs.PlaceFits.{FitsPlace, FitsCells};

use crate::field::{Cells, Place};
use nam_catalog::bounds::{CELL_WORDS, MOST_WIDTH};
use nam_catalog::slot_words;

impl Place {
    /// The slot of the version with this number.
    #[inline]
    pub fn slot_of(&self, count: u64) -> u32
        requires { FitsPlace self.now }
        ensures value { result ≡ slot_of self.now count }
        ensures within { result < self.now.ring }
    {
        (count % self.ring as u64) as u32
    }

    /// The address of a data word.
    #[inline]
    pub fn word(&self, nth: u32) -> u64
        requires fits { FitsPlace self.now }
        requires nth { nth < self.now.width }
        ensures value { result ≡ position_address self.now (Word self.now.row nth) }
        ensures within { result < place_end self.now }
    {
        self.words_at + nth as u64
    }

    /// The address of a slot's header.
    #[inline]
    pub fn slot_header(&self, slot: u32) -> u64
        requires fits { FitsPlace self.now }
        requires slot { slot < self.now.ring }
        ensures value { result ≡ position_address self.now (SlotHeader self.now.row slot) }
        ensures within { result < place_end self.now }
    {
        self.ring_at + slot as u64 * slot_words(self.width)
    }

    /// The address of a slot's end.
    #[inline]
    pub fn slot_end(&self, slot: u32) -> u64
        requires fits { FitsPlace self.now }
        requires slot { slot < self.now.ring }
        ensures value { result ≡ position_address self.now (SlotEnd self.now.row slot) }
        ensures within { result < place_end self.now }
    {
        self.slot_header(slot) + 1
    }

    /// The address of a slot's data word.
    #[inline]
    pub fn slot_word(&self, slot: u32, nth: u32) -> u64
        requires fits { FitsPlace self.now }
        requires slot { slot < self.now.ring }
        requires nth { nth < self.now.width }
        ensures value { result ≡ position_address self.now (SlotWord self.now.row slot nth) }
        ensures within { result < place_end self.now }
    {
        self.slot_header(slot) + 2 + nth as u64
    }
}

impl Cells {
    /// The address of a cell's tag.
    #[inline]
    pub fn tag(&self, cell: u32) -> u64
        requires fits { FitsCells self.now }
        requires cell { cell < self.now.cells }
        ensures value { result ≡ cell_address self.now (Tag self.now.bucket cell) }
        ensures within { result < cells_end self.now }
    {
        self.first + cell as u64 * CELL_WORDS
    }

    /// The address of the row that owns a cell.
    #[inline]
    pub fn owner(&self, cell: u32) -> u64
        requires fits { FitsCells self.now }
        requires cell { cell < self.now.cells }
        ensures value { result ≡ cell_address self.now (Owner self.now.bucket cell) }
        ensures within { result < cells_end self.now }
    {
        self.tag(cell) + 1
    }

    /// The address of a cell's header word.
    #[inline]
    pub fn begin(&self, cell: u32) -> u64
        requires fits { FitsCells self.now }
        requires cell { cell < self.now.cells }
        ensures value { result ≡ cell_address self.now (Begin self.now.bucket cell) }
        ensures within { result < cells_end self.now }
    {
        self.tag(cell) + 2
    }

    /// The address of a cell's end.
    #[inline]
    pub fn end(&self, cell: u32) -> u64
        requires fits { FitsCells self.now }
        requires cell { cell < self.now.cells }
        ensures value { result ≡ cell_address self.now (End self.now.bucket cell) }
        ensures within { result < cells_end self.now }
    {
        self.tag(cell) + 3
    }

    /// The address of a cell's data word.
    #[inline]
    pub fn word(&self, cell: u32, nth: u32) -> u64
        requires fits { FitsCells self.now }
        requires cell { cell < self.now.cells }
        requires nth { nth < MOST_WIDTH }
        ensures value { result ≡ cell_address self.now (CellWord self.now.bucket cell nth) }
        ensures within { result < cells_end self.now }
    {
        self.tag(cell) + 4 + nth as u64
    }
}

/// The address of a worker's entry of the horizon, in a store of so many workers.
#[inline]
pub fn horizon_at(workers: u32, worker: u32) -> u64
    requires least { 1 ≤ worker }
    requires most { worker ≤ workers }
    ensures value { result ≡ worker_address workers (Horizon worker) }
    ensures within { result < 2 * workers }
{
    workers as u64 + (worker as u64 - 1)
}
