//! Collections of buckets, in registers.

ghost use Rattle.std.specs.Prelude.{◌≡◌, ◌<◌, ◌≤◌, ◌+◌, ◌*◌, ◌↔◌, ℕ, List, length, IsTrue, IsSome, IfSome};
ghost use Rattle.nam_verbs.specs.declared.now.Now.TheVariants.{Over};
ghost use Rattle.nam_verbs.specs.Verb.{address_of};
ghost use Rattle.nam_verbs.specs.Now.{end_now};
ghost use Rattle.nam_verbs.specs.Running.{next_verb, after_found, verbs_left};
ghost use Rattle.nam_catalog.specs.declared.bounds.TheConstants.{MOST_WORKERS};
ghost use Rattle.nam_layout.specs.PlaceFits.{FitsCells};
ghost use Rattle.nam_upkeep.specs.Collector.{collection, running, resting};

use crate::cells::no_cells;
use crate::collect_registers::{CollectRegisters, CollectStep};
use nam_layout::Cells;
use nam_verbs::Verb;
use si_model::Snapshot;
use std::marker::Model;

/// Collections of buckets, one after another: the horizon's entries are raised to a snapshot's, and then each full cell
/// is set free whose version ended within the horizon that is known. The caller keeps the snapshot, and gives the same
/// one at each call.
#[derive(Debug, Drop)]
pub struct Collector {
    registers: CollectRegisters,
}

impl Model for Collector {
    ghost use Rattle.nam_upkeep.specs.Collector.{Collection, collection_of, HasTag, FitsCollection};

    ghost Value = { Collection };

    ghost view = { λ a. collection_of a.registers };

    ghost invariant = { λ a. FitsCollection a.registers × HasTag a.registers };
}

impl Collector {
    /// A collection that is over: no entry is known.
    pub fn new() -> Collector
        ensures { result ≡ resting }
    {
        Collector {
            registers: CollectRegisters {
                step: CollectStep::Over,
                cell: 0,
                tag_at: 0,
                tag: 0,
                found: 0,
                workers: 0,
                cells: no_cells(),
                known: Snapshot::new(),
            },
        }
    }

    /// Begins the collection of a bucket's cells in a store of so many workers.
    #[inline]
    pub fn begin(&mut self, cells: &Cells, workers: u32)
        requires cells { FitsCells cells.now }
        requires least { 1 ≤ workers }
        requires most { workers ≤ MOST_WORKERS }
        ensures begins { self.new ≡ collection cells.now workers }
        ensures left { (seen : List ℕ) → verbs_left (running seen self.new) ≡ 2 * workers + 3 * cells.now.cells }
    {
        self.registers.cells = *cells;
        self.registers.workers = workers;
        self.registers.cell = 0;
        self.registers.tag_at = cells.first;
        self.registers.known.clear();
        self.registers.step = CollectStep::Look;
    }

    /// The verb that stands under a snapshot of so many workers' entries, and none exactly where the collection is
    /// over.
    #[inline]
    pub fn verb(&self, seen: &Snapshot) -> Option<Verb>
        requires { length seen.now ≡ self.now.workers }
        ensures verb { result ≡ next_verb (running seen.now self.now) }
        ensures within { IfSome result (λ verb. address_of verb < (running seen.now self.now).reach) }
    {
        self.registers.verb(seen)
    }

    /// Goes on with the word that the verb found.
    #[inline]
    pub fn take(&mut self, seen: &Snapshot, found: u64)
        requires seen { length seen.now ≡ self.old.workers }
        requires stands { IsSome (next_verb (running seen.now self.old)) }
        ensures value { self.new ≡ record self.old { state = (after_found (running seen.now self.old) found).state } }
        ensures after { running seen.now self.new ≡ after_found (running seen.now self.old) found }
        ensures falls { verbs_left (running seen.now self.new) < verbs_left (running seen.now self.old) }
    {
        self.registers.take(seen, found);
    }

    /// A number of verbs that are to come at the most, whatever the snapshot. Each word that is taken lowers it.
    pub fn left(&self) -> u64
        ensures { (seen : List ℕ) → result ≡ verbs_left (running seen self.now) }
    {
        self.registers.left()
    }

    /// Whether the collection is over.
    #[inline]
    pub fn is_over(&self) -> bool
        ensures { IsTrue result ↔ IsSome (end_now self.now.state) }
    {
        matches!(self.registers.step, CollectStep::Over)
    }

    /// The entries of the horizon that a collection that is over knew.
    #[inline]
    pub fn known(&self) -> &Snapshot
        requires { IsSome (end_now self.now.state) }
        ensures { self.now.state ≡ Over result.now }
    {
        &self.registers.known
    }
}
