//! Reading at a position, by eight steps.

ghost use Rattle.std.specs.Prelude.{◌≡◌, ◌<◌, ◌+◌, ◌*◌, length};
ghost use Rattle.nam_verbs.specs.Verb.{address_of};
ghost use Rattle.nam_verbs.specs.VerbAt.{verb_by};
ghost use Rattle.nam_layout.specs.RowLaw.{IsPosition};
ghost use Rattle.nam_layout.specs.PlaceFits.{FitsPlace};
ghost use Rattle.nam_calls.specs.Reading.{sight_of, read_begin, read_verb, read_after, read_left};
ghost use Rattle.nam_calls.specs.Reading.{on_current, on_unsure, on_ring, on_cells, on_horizon, cells_whole};
ghost use Rattle.nam_calls.specs.Fits.{SightFits, ReadFits};
ghost use Rattle.nam_scan.specs.Reading.{sight_address, sight_end};

use nam_calls::{
    CellPoint, CurrentEnd, CurrentPoint, OldEnd, ReadPoint, ReadingEnd, RingPoint, SearchEnd, Sight,
};
use nam_horizon::{old_after, old_begin, old_left, old_verb};
use nam_layout::{Layout, Place};
use nam_overflow::{cell_after, cell_begin, cell_left, cell_verb};
use nam_record::{
    current_after, current_begin, current_left, current_verb, recheck_end, recheck_verb,
};
use nam_ring::{ring_after, ring_begin, ring_left, ring_verb};
use nam_verbs::{Now, Verb};
use si_model::{Snapshot, Value};

/// Where a read of a table's position looks, in a store of so many workers.
pub fn sight_of(layout: &Layout, workers: u32, table: u32, position: u32) -> Sight
    requires workers { workers ≡ layout.now.workers }
    requires position { IsPosition layout.now.tables table position }
    ensures value { result ≡ sight_of layout.now table position }
    ensures fits { SightFits result }
{
    // A layout's total says that the shape is within its limits: it has a worker.
    let _words = layout.total();
    let place = layout.place(table, position);
    Sight {
        place,
        cells: layout.cells(layout.bucket_of(place.row)),
        workers,
    }
}

/// Where a read begins: at the current version.
pub fn read_begin() -> ReadPoint
    ensures { result ≡ read_begin }
{
    ReadPoint::ReadCurrent {
        at: current_begin(),
    }
}

/// The verb that stands at a point.
pub fn read_verb(sight: &Sight, at: &ReadPoint) -> Verb
    requires fits { SightFits sight.now }
    requires at { ReadFits sight.now at.now }
    ensures value { result ≡ verb_by (sight_address sight.now) (read_verb sight.now at.now) }
    ensures within { address_of result < sight_end sight.now }
{
    match at {
        ReadPoint::ReadCurrent { at } => current_verb(&sight.place, at),
        ReadPoint::ReadUnsure { at, .. } | ReadPoint::ReadRing { at } => ring_verb(
            &sight.place,
            at,
        ),
        ReadPoint::ReadRecheck { .. } => recheck_verb(&sight.place),
        ReadPoint::ReadCells { at } => cell_verb(&sight.cells, &sight.place, at),
        ReadPoint::ReadHorizon { worker } => old_verb(sight.workers, *worker),
    }
}

// A locked version is looked for in the ring, since its words may be those of the next one.
fn on_current(now: Now<CurrentPoint, CurrentEnd>) -> Now<ReadPoint, ReadingEnd>
    ensures { result ≡ on_current now }
{
    match now {
        Now::At(at) => Now::At(ReadPoint::ReadCurrent { at }),
        Now::Over(CurrentEnd::Found(value)) => Now::Over(ReadingEnd::Got(value)),
        Now::Over(CurrentEnd::Unsure { value, header }) => Now::At(ReadPoint::ReadUnsure {
            value,
            header,
            at: ring_begin(),
        }),
        Now::Over(CurrentEnd::GoOld) => Now::At(ReadPoint::ReadRing { at: ring_begin() }),
    }
}

// Where the ring has no version, the header says whether the words are still those of the one that was locked.
fn on_unsure(
    value: Value,
    header: u64,
    now: Now<RingPoint, SearchEnd>,
) -> Now<ReadPoint, ReadingEnd>
    ensures { result ≡ on_unsure value header now }
{
    match now {
        Now::At(at) => Now::At(ReadPoint::ReadUnsure { value, header, at }),
        Now::Over(SearchEnd::Found(old)) => Now::Over(ReadingEnd::Got(old)),
        Now::Over(SearchEnd::NotThere) => Now::At(ReadPoint::ReadRecheck { value, header }),
    }
}

fn on_ring(now: Now<RingPoint, SearchEnd>) -> Now<ReadPoint, ReadingEnd>
    ensures { result ≡ on_ring now }
{
    match now {
        Now::At(at) => Now::At(ReadPoint::ReadRing { at }),
        Now::Over(SearchEnd::Found(old)) => Now::Over(ReadingEnd::Got(old)),
        Now::Over(SearchEnd::NotThere) => Now::At(ReadPoint::ReadCells { at: cell_begin() }),
    }
}

fn on_cells(now: Now<CellPoint, SearchEnd>) -> Now<ReadPoint, ReadingEnd>
    ensures { result ≡ on_cells now }
{
    match now {
        Now::At(at) => Now::At(ReadPoint::ReadCells { at }),
        Now::Over(SearchEnd::Found(old)) => Now::Over(ReadingEnd::Got(old)),
        Now::Over(SearchEnd::NotThere) => Now::At(ReadPoint::ReadHorizon {
            worker: old_begin(),
        }),
    }
}

fn on_horizon(now: Now<u32, OldEnd>) -> Now<ReadPoint, ReadingEnd>
    ensures { result ≡ on_horizon now }
{
    match now {
        Now::At(worker) => Now::At(ReadPoint::ReadHorizon { worker }),
        Now::Over(
            OldEnd::TooOld {
                worker,
                entry,
                horizon,
            },
        ) => Now::Over(ReadingEnd::Passed {
            worker,
            entry,
            horizon,
        }),
        Now::Over(OldEnd::NotPassed) => Now::Over(ReadingEnd::Astray),
    }
}

/// What follows the word that the verb of a point found.
pub fn read_after(
    sight: &Sight,
    seen: &Snapshot,
    at: ReadPoint,
    found: u64,
) -> Now<ReadPoint, ReadingEnd>
    requires fits { SightFits sight.now }
    requires seen { length seen.now ≡ sight.now.workers }
    requires at { ReadFits sight.now at }
    ensures { result ≡ read_after sight.now seen.now at found }
{
    let place = &sight.place;
    match at {
        ReadPoint::ReadCurrent { at } => on_current(current_after(place, seen, at, found)),
        ReadPoint::ReadUnsure { value, header, at } => {
            on_unsure(value, header, ring_after(place, seen, at, found))
        }
        ReadPoint::ReadRecheck { value, header } => {
            if recheck_end(place, header, found) {
                Now::Over(ReadingEnd::Got(Some(value)))
            } else {
                Now::At(ReadPoint::ReadRing { at: ring_begin() })
            }
        }
        ReadPoint::ReadRing { at } => on_ring(ring_after(place, seen, at, found)),
        ReadPoint::ReadCells { at } => {
            on_cells(cell_after(&sight.cells, place, seen, at, found))
        }
        ReadPoint::ReadHorizon { worker } => {
            on_horizon(old_after(sight.workers, seen, worker, found))
        }
    }
}

// A whole search of the ring.
pub(crate) fn ring_whole(place: &Place) -> u64
    requires { FitsPlace place.now }
    ensures value { result ≡ place.now.ring * (place.now.width + 3) }
    ensures few { result < 1024 }
{
    place.ring as u64 * (place.width as u64 + 3)
}

// A whole search of the cells.
pub(crate) fn cells_whole(sight: &Sight) -> u64
    requires { SightFits sight.now }
    ensures value { result ≡ cells_whole sight.now }
    ensures few { result < 1024 }
{
    sight.cells.cells as u64 * (sight.place.width as u64 + 5)
}

/// A number of verbs that are to come from a point at the most.
pub fn read_left(sight: &Sight, at: &ReadPoint) -> u64
    requires fits { SightFits sight.now }
    requires at { ReadFits sight.now at.now }
    ensures { result ≡ read_left sight.now at.now }
{
    let place = &sight.place;
    let workers = sight.workers as u64;
    let ring = ring_whole(place);
    let cells = cells_whole(sight);
    match at {
        ReadPoint::ReadCurrent { at } => current_left(place, at)
            + ring
            + 1
            + ring
            + cells
            + workers,
        ReadPoint::ReadUnsure { at, .. } => ring_left(place, at) + 1 + ring + cells + workers,
        ReadPoint::ReadRecheck { .. } => 1 + ring + cells + workers,
        ReadPoint::ReadRing { at } => ring_left(place, at) + cells + workers,
        ReadPoint::ReadCells { at } => cell_left(&sight.cells, place, at) + workers,
        ReadPoint::ReadHorizon { worker } => old_left(sight.workers, *worker),
    }
}
