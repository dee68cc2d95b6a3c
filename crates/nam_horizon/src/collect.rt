//! The collection of a bucket.

ghost use Rattle.std.specs.Prelude.{◌≡◌, ◌<◌, ◌≤◌, ◌+◌, ◌*◌, length};
ghost use Rattle.nam_verbs.specs.Verb.{address_of};
ghost use Rattle.nam_verbs.specs.VerbAt.{verb_by};
ghost use Rattle.nam_verbs.specs.Running.{verbs_left};
ghost use Rattle.nam_layout.specs.Place.{cells_end, later};
ghost use Rattle.nam_layout.specs.PlaceFits.{FitsCells};
ghost use Rattle.nam_calls.specs.Horizon.{collect_begin, collect_verb, collect_after, collect_left};
ghost use Rattle.nam_calls.specs.Horizon.{entry_known, collect_next};
ghost use Rattle.nam_calls.specs.Fits.{CollectFits};
ghost use Rattle.nam_horizon.specs.Collect.{collect_address, collecting, running};

use nam_calls::CollectPoint;
use nam_header::{Tag, is_within, stamp_in};
use nam_layout::{Cells, Field, horizon_at};
use nam_verbs::{Machine, Now, Verb};
use si_model::Snapshot;
use std::marker::Model;
use std::mem::replace;

/// Where a collection begins: no entry of the horizon is known.
pub fn collect_begin() -> CollectPoint
    ensures { result ≡ collect_begin }
{
    CollectPoint::HorizonLook {
        known: Snapshot::new(),
    }
}

/// The verb that stands at a point.
pub fn collect_verb(cells: &Cells, workers: u32, seen: &Snapshot, at: &CollectPoint) -> Verb
    requires fits { FitsCells cells.now }
    requires seen { length seen.now ≡ workers }
    requires at { CollectFits cells.now workers at.now }
    ensures value { result ≡ verb_by (collect_address cells.now workers) (collect_verb cells.now seen.now at.now) }
    ensures within { address_of result < later (2 * workers) (cells_end cells.now) }
{
    match at {
        CollectPoint::HorizonLook { known } => Verb::Read {
            at: horizon_at(workers, known.len() as u32 + 1),
        },
        CollectPoint::HorizonRaise { known, found } => Verb::Exchange {
            at: horizon_at(workers, known.len() as u32 + 1),
            expect: *found,
            word: *seen.at(known.len()),
        },
        CollectPoint::CollectTag { cell, .. } => Verb::Read {
            at: cells.tag(*cell),
        },
        CollectPoint::CollectEnding { cell, .. } => Verb::Read {
            at: cells.end(*cell),
        },
        CollectPoint::CollectFree { cell, tag, .. } => Verb::Exchange {
            at: cells.tag(*cell),
            expect: *tag,
            word: Tag(*tag).freed().0,
        },
    }
}

fn entry_known(workers: u32, known: Snapshot) -> Now<CollectPoint, Snapshot>
    ensures { result ≡ entry_known workers known }
{
    if known.len() == workers as usize {
        Now::At(CollectPoint::CollectTag { known, cell: 0 })
    } else {
        Now::At(CollectPoint::HorizonLook { known })
    }
}

fn collect_next(cells: &Cells, known: Snapshot, cell: u32) -> Now<CollectPoint, Snapshot>
    requires fits { FitsCells cells.now }
    requires cell { cell < cells.now.cells }
    ensures { result ≡ collect_next cells.now known cell }
{
    if cell + 1 == cells.cells {
        Now::Over(known)
    } else {
        Now::At(CollectPoint::CollectTag {
            known,
            cell: cell + 1,
        })
    }
}

/// What follows the word that the verb of a point found.
pub fn collect_after(
    cells: &Cells,
    workers: u32,
    seen: &Snapshot,
    at: CollectPoint,
    found: u64,
) -> Now<CollectPoint, Snapshot>
    requires fits { FitsCells cells.now }
    requires workers { workers ≤ 16 }
    requires seen { length seen.now ≡ workers }
    requires at { CollectFits cells.now workers at }
    ensures { result ≡ collect_after cells.now workers seen.now at found }
{
    match at {
        CollectPoint::HorizonLook { mut known } => {
            if found < *seen.at(known.len()) {
                Now::At(CollectPoint::HorizonRaise { known, found })
            } else {
                known.push(found);
                entry_known(workers, known)
            }
        }
        CollectPoint::HorizonRaise {
            mut known,
            found: expected,
        } => {
            let entry = if found == expected {
                *seen.at(known.len())
            } else {
                found
            };
            known.push(entry);
            entry_known(workers, known)
        }
        CollectPoint::CollectTag { known, cell } => {
            if Tag(found).is_full() {
                Now::At(CollectPoint::CollectEnding {
                    known,
                    cell,
                    tag: found,
                })
            } else {
                collect_next(cells, known, cell)
            }
        }
        CollectPoint::CollectEnding { known, cell, tag } => {
            // Within what is known of the horizon, and not only within the own snapshot: a snapshot that another
            // worker has may still need the version.
            if is_within(stamp_in(cells.form, found), &known) && Tag(tag).has_next() {
                Now::At(CollectPoint::CollectFree { known, cell, tag })
            } else {
                collect_next(cells, known, cell)
            }
        }
        CollectPoint::CollectFree { known, cell, .. } => collect_next(cells, known, cell),
    }
}

/// A number of verbs that are to come from a point at the most.
pub fn collect_left(cells: &Cells, workers: u32, at: &CollectPoint) -> u64
    requires fits { FitsCells cells.now }
    requires at { CollectFits cells.now workers at.now }
    ensures { result ≡ collect_left cells.now workers at.now }
{
    let workers = workers as u64;
    let count = cells.cells as u64;
    match at {
        CollectPoint::HorizonLook { known } => 2 * (workers - known.len() as u64) + 3 * count,
        CollectPoint::HorizonRaise { known, .. } => {
            2 * (workers - known.len() as u64) - 1 + 3 * count
        }
        CollectPoint::CollectTag { cell, .. } => 3 * (count - *cell as u64 - 1) + 3,
        CollectPoint::CollectEnding { cell, .. } => 3 * (count - *cell as u64 - 1) + 2,
        CollectPoint::CollectFree { cell, .. } => 3 * (count - *cell as u64 - 1) + 1,
    }
}

/// The collection of a bucket: the horizon's entries are raised to a snapshot's, and then each full cell is set free
/// whose version ended within the horizon that is known.
#[derive(Debug, Drop)]
pub struct Collect {
    cells: Cells,
    workers: u32,
    seen: Snapshot,
    state: Now<CollectPoint, Snapshot>,
}

impl Model for Collect {
    ghost use Rattle.nam_horizon.specs.Collect.{Collecting, FitsCollecting};

    ghost Value = { Collecting };

    ghost view = { λ a. record { cells = a.cells; workers = a.workers; seen = a.seen; state = a.state } };

    ghost invariant = { λ a. FitsCollecting a.cells a.workers a.seen a.state };
}

impl Collect {
    /// The collection of a bucket's cells under a snapshot of so many workers' entries.
    pub fn new(cells: Cells, workers: u32, seen: Snapshot) -> Collect
        requires fits { FitsCells cells }
        requires least { 1 ≤ workers }
        requires most { workers ≤ 16 }
        requires seen { length seen ≡ workers }
        ensures begins { result ≡ collecting cells workers seen }
        ensures left { verbs_left (running result) ≡ 2 * workers + 3 * cells.cells }
    {
        Collect {
            cells,
            workers,
            seen,
            state: Now::At(collect_begin()),
        }
    }
}

impl Machine for Collect {
    ghost use Rattle.nam_horizon.specs.Collect.{running};

    type Word = Field;

    type Point = CollectPoint;

    type End = Snapshot;

    ghost running = { running };

    fn state(&self) -> &Now<CollectPoint, Snapshot> {
        &self.state
    }

    fn verb_from(&self, place: &CollectPoint) -> Verb {
        collect_verb(&self.cells, self.workers, &self.seen, place)
    }

    fn left_from(&self, place: &CollectPoint) -> u64 {
        collect_left(&self.cells, self.workers, place)
    }

    fn take(&mut self, found: u64) {
        self.state = match replace(&mut self.state, Now::At(collect_begin())) {
            Now::At(place) => collect_after(&self.cells, self.workers, &self.seen, place, found),
            Now::Over(end) => Now::Over(end),
        };
    }

    fn end(&self) -> Option<Snapshot> {
        match &self.state {
            Now::At(_) => None,
            Now::Over(known) => Some(known.copy()),
        }
    }
}
