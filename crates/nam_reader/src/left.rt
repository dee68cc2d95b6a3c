//! How many verbs are to come at the most.

ghost use Rattle.std.specs.Prelude.{◌≡◌, ◌<◌, ◌+◌, ◌*◌, ◌^◌};
ghost use Rattle.nam_verbs.specs.Now.{left_now};
ghost use Rattle.nam_layout.specs.PlaceFits.{FitsPlace};
ghost use Rattle.nam_calls.specs.Ring.{slots_left};
ghost use Rattle.nam_calls.specs.Overflow.{cells_left};
ghost use Rattle.nam_calls.specs.Reading.{ring_whole, old_versions_left, read_left};
ghost use Rattle.nam_calls.specs.Fits.{SightFits};
ghost use Rattle.nam_reader.specs.declared.registers.Search.TheVariants.{Plain};
ghost use Rattle.nam_reader.specs.Registers.{state_of, StepFits, after_search};

use crate::registers::{Registers, Search, Step};
use nam_calls::Sight;
use nam_layout::Place;

// A whole search of the ring.
fn ring_whole(place: &Place) -> u64
    requires { FitsPlace place.now }
    ensures value { result ≡ place.now.ring * (place.now.width + 3) }
    ensures few { result < 1024 }
{
    place.ring as u64 * (place.width as u64 + 3)
}

// The cells and the horizon.
fn after_plain(sight: &Sight) -> u64
    requires { SightFits sight.now }
    ensures value { result ≡ after_search sight.now Plain }
    ensures few { result < 2 ^ 33 }
{
    sight.cells.cells as u64 * (sight.place.width as u64 + 5) + sight.workers as u64
}

// The ring, the cells and the horizon.
fn old_versions_left(sight: &Sight) -> u64
    requires { SightFits sight.now }
    ensures value { result ≡ old_versions_left sight.now }
    ensures few { result < 2 ^ 34 }
{
    ring_whole(&sight.place) + after_plain(sight)
}

// The ring under a locked record, the header once more, and the old versions.
fn after_current(sight: &Sight) -> u64
    requires { SightFits sight.now }
    ensures value { result ≡ ring_whole sight.now + (1 + old_versions_left sight.now) }
    ensures few { result < 2 ^ 35 }
{
    ring_whole(&sight.place) + (1 + old_versions_left(sight))
}

fn after_search(sight: &Sight, search: Search) -> u64
    requires { SightFits sight.now }
    ensures value { result ≡ after_search sight.now search }
    ensures few { result < 2 ^ 35 }
{
    match search {
        Search::Locked => 1 + old_versions_left(sight),
        Search::Plain => after_plain(sight),
    }
}

fn slots_left(place: &Place, slot: u32) -> u64
    requires fits { FitsPlace place.now }
    requires slot { slot < place.now.ring }
    ensures value { result ≡ slots_left place.now slot }
    ensures few { result < 1024 }
{
    (place.ring - slot - 1) as u64 * (place.width as u64 + 3)
}

fn cells_left(sight: &Sight, cell: u32) -> u64
    requires fits { SightFits sight.now }
    requires cell { cell < sight.now.cells.cells }
    ensures value { result ≡ cells_left sight.now.cells sight.now.place cell }
    ensures few { result < 1024 }
{
    (sight.cells.cells - cell - 1) as u64 * (sight.place.width as u64 + 5)
}

impl Registers {
    // What is to come in the slots that are left, and after them.
    fn from_slot(&self, sight: &Sight) -> u64
        requires fits { SightFits sight.now }
        requires slot { self.now.slot < sight.now.place.ring }
        ensures value { result ≡ slots_left sight.now.place self.now.slot
            + after_search sight.now self.now.search }
        ensures few { result < 2 ^ 36 }
    {
        slots_left(&sight.place, self.slot) + after_search(sight, self.search)
    }

    // What is to come in the cells that are left, and at the horizon.
    fn from_cell(&self, sight: &Sight) -> u64
        requires fits { SightFits sight.now }
        requires cell { self.now.cell < sight.now.cells.cells }
        ensures value { result ≡ cells_left sight.now.cells sight.now.place self.now.cell + sight.now.workers }
        ensures few { result < 2 ^ 36 }
    {
        cells_left(sight, self.cell) + sight.workers as u64
    }

    /// A number of verbs that are to come at the most.
    #[tactic(auto, using(crate::proofs::SearchLemmas::left_searching))]
    pub(crate) fn left(&self, sight: &Sight) -> u64
        requires { StepFits sight.now self.now.step self.now }
        ensures value { result ≡ left_now (read_left sight.now) (state_of self.now) }
        ensures few { result < 2 ^ 37 }
    {
        let width = sight.place.width as u64;
        match self.step {
            Step::CurrentHead => width + 2 + after_current(sight),
            Step::CurrentWords => width - self.current.len() as u64 + 1 + after_current(sight),
            Step::CurrentAgain => 1 + after_current(sight),
            Step::SlotHead => width + 3 + self.from_slot(sight),
            Step::SlotEnding => width + 2 + self.from_slot(sight),
            Step::SlotWords => width - self.older.len() as u64 + 1 + self.from_slot(sight),
            Step::SlotAgain => 1 + self.from_slot(sight),
            Step::Recheck => 1 + old_versions_left(sight),
            Step::CellTag => width + 5 + self.from_cell(sight),
            Step::CellOwner => width + 4 + self.from_cell(sight),
            Step::CellBegin => width + 3 + self.from_cell(sight),
            Step::CellEnding => width + 2 + self.from_cell(sight),
            Step::CellWords => width - self.older.len() as u64 + 1 + self.from_cell(sight),
            Step::CellAgain => 1 + self.from_cell(sight),
            Step::Horizon => sight.workers as u64 + 1 - self.worker as u64,
            Step::Current | Step::Older | Step::Absent | Step::TooOld | Step::Astray => 0,
        }
    }
}
