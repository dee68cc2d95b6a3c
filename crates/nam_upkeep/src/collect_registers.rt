//! The registers of a collection, and its steps.

ghost use Rattle.std.specs.Prelude.{◌≡◌, ◌<◌, ◌≤◌, ◌++◌, ◌∷◌, [], ℕ, List, length, IfSome};
ghost use Rattle.nam_verbs.specs.Verb.{address_of};
ghost use Rattle.nam_verbs.specs.Running.{next_verb, verbs_left};
ghost use Rattle.nam_catalog.specs.declared.bounds.TheConstants.{MOST_WORKERS};
ghost use Rattle.nam_layout.specs.PlaceFits.{FitsCells};
ghost use Rattle.nam_calls.specs.Horizon.{entry_known, collect_next};
ghost use Rattle.nam_upkeep.specs.Collector.{running, collection_of, collected_by, HasTag, FitsCollection};
ghost use Rattle.nam_upkeep.specs.declared.collect_registers.CollectStep.TheVariants as step;

use nam_catalog::bounds::CELL_WORDS;
use nam_header::{Tag, is_within, stamp_in};
use nam_layout::{Cells, horizon_at};
use nam_verbs::Verb;
use si_model::Snapshot;

/// Where a collection stands, or that it is over.
#[derive(Clone, Copy, Debug, PartialEq, Eq)]
pub enum CollectStep {
    Tag,
    Ending,
    Free,
    Look,
    Raise,
    Over,
}

/// What a collection has at hand. The tag of the cell stands at `tag_at`.
#[derive(Debug, Drop)]
pub struct CollectRegisters {
    pub step: CollectStep,
    pub cell: u32,
    pub tag_at: u64,
    pub tag: u64,
    pub found: u64,
    pub workers: u32,
    pub cells: Cells,
    pub known: Snapshot,
}

impl CollectRegisters {
    /// The verb that stands, and none where the collection is over.
    #[inline]
    pub fn verb(&self, seen: &Snapshot) -> Option<Verb>
        requires seen { length seen.now ≡ self.now.workers }
        requires fits { FitsCollection self.now }
        requires tag { HasTag self.now }
        ensures verb { result ≡ next_verb (running seen.now (collection_of self.now)) }
        ensures within { IfSome result
            (λ verb. address_of verb < (running seen.now (collection_of self.now)).reach) }
    {
        let verb = match self.step {
            CollectStep::Tag => Verb::Read { at: self.tag_at },
            CollectStep::Ending => Verb::Read {
                at: self.cells.end(self.cell),
            },
            CollectStep::Free => Verb::Exchange {
                at: self.tag_at,
                expect: self.tag,
                word: Tag(self.tag).freed().0,
            },
            CollectStep::Look => Verb::Read {
                at: horizon_at(self.workers, self.known.len() as u32 + 1),
            },
            CollectStep::Raise => Verb::Exchange {
                at: horizon_at(self.workers, self.known.len() as u32 + 1),
                expect: self.found,
                word: *seen.at(self.known.len()),
            },
            CollectStep::Over => return None,
        };
        Some(verb)
    }

    /// Goes on with the word that the verb found.
    #[inline]
    pub fn take(&mut self, seen: &Snapshot, found: u64)
        requires seen { length seen.now ≡ self.old.workers }
        requires fits { FitsCollection self.old }
        requires tag { HasTag self.old }
        ensures value { collection_of self.new ≡ collected_by seen.now self.old found }
        ensures tag { HasTag self.new }
    {
        match self.step {
            CollectStep::Tag => self.tag(found),
            CollectStep::Ending => self.ending(found),
            // Where the exchange was lost, another worker has set the cell free.
            CollectStep::Free => self.next_cell(),
            CollectStep::Look => self.look(seen, found),
            CollectStep::Raise => self.raise(seen, found),
            CollectStep::Over => {}
        }
    }

    #[inline]
    fn tag(&mut self, found: u64)
        requires step { self.old.step ≡ step.Tag }
        requires fits { FitsCollection self.old }
        requires tag { HasTag self.old }
        ensures value { (seen : List ℕ) → collection_of self.new ≡ collected_by seen self.old found }
        ensures tag { HasTag self.new }
    {
        if Tag(found).is_full() {
            self.tag = found;
            self.step = CollectStep::Ending;
        } else {
            self.next_cell();
        }
    }

    // Within what is known of the horizon, and not only within the own snapshot: a snapshot that another worker has
    // may still need the version.
    #[inline]
    fn ending(&mut self, found: u64)
        requires step { self.old.step ≡ step.Ending }
        requires fits { FitsCollection self.old }
        requires tag { HasTag self.old }
        ensures value { (seen : List ℕ) → collection_of self.new ≡ collected_by seen self.old found }
        ensures tag { HasTag self.new }
    {
        if is_within(stamp_in(self.cells.form, found), &self.known) && Tag(self.tag).has_next() {
            self.step = CollectStep::Free;
        } else {
            self.next_cell();
        }
    }

    // On to the next cell, if there is one.
    #[inline]
    fn next_cell(&mut self)
        requires fits { FitsCells self.old.cells }
        requires cell { self.old.cell < self.old.cells.cells }
        requires tag { HasTag self.old }
        ensures value { collection_of self.new ≡ record (collection_of self.old) {
          state = collect_next self.old.cells self.old.known self.old.cell;
        } }
        ensures tag { HasTag self.new }
    {
        if self.cell + 1 == self.cells.cells {
            self.step = CollectStep::Over;
        } else {
            self.cell += 1;
            self.tag_at += CELL_WORDS;
            self.step = CollectStep::Tag;
        }
    }

    #[inline]
    fn look(&mut self, seen: &Snapshot, found: u64)
        requires step { self.old.step ≡ step.Look }
        requires seen { length seen.now ≡ self.old.workers }
        requires fits { FitsCollection self.old }
        requires tag { HasTag self.old }
        ensures value { collection_of self.new ≡ collected_by seen.now self.old found }
        ensures tag { HasTag self.new }
    {
        if found < *seen.at(self.known.len()) {
            self.found = found;
            self.step = CollectStep::Raise;
        } else {
            self.know(found);
        }
    }

    #[inline]
    fn raise(&mut self, seen: &Snapshot, found: u64)
        requires step { self.old.step ≡ step.Raise }
        requires seen { length seen.now ≡ self.old.workers }
        requires fits { FitsCollection self.old }
        requires tag { HasTag self.old }
        ensures value { collection_of self.new ≡ collected_by seen.now self.old found }
        ensures tag { HasTag self.new }
    {
        if found == self.found {
            let entry = *seen.at(self.known.len());
            self.know(entry);
        } else {
            self.know(found);
        }
    }

    // One more entry is known. After the last the cells follow.
    #[inline]
    fn know(&mut self, entry: u64)
        requires workers { self.old.workers ≤ MOST_WORKERS }
        requires more { length self.old.known < self.old.workers }
        requires tag { HasTag self.old }
        ensures value { collection_of self.new ≡ record (collection_of self.old) {
          state = entry_known self.old.workers (self.old.known ++ entry ∷ []);
        } }
        ensures tag { HasTag self.new }
    {
        self.known.push(entry);
        if self.known.len() == self.workers as usize {
            self.cell = 0;
            self.tag_at = self.cells.first;
            self.step = CollectStep::Tag;
        } else {
            self.step = CollectStep::Look;
        }
    }

    /// A number of verbs that are to come at the most.
    pub fn left(&self) -> u64
        requires { FitsCollection self.now }
        ensures { (seen : List ℕ) → result ≡ verbs_left (running seen (collection_of self.now)) }
    {
        let cells = self.cells.cells as u64;
        match self.step {
            CollectStep::Tag => 3 * (cells - self.cell as u64 - 1) + 3,
            CollectStep::Ending => 3 * (cells - self.cell as u64 - 1) + 2,
            CollectStep::Free => 3 * (cells - self.cell as u64 - 1) + 1,
            CollectStep::Look => 2 * (self.workers as u64 - self.known.len() as u64) + 3 * cells,
            CollectStep::Raise => {
                2 * (self.workers as u64 - self.known.len() as u64) - 1 + 3 * cells
            }
            CollectStep::Over => 0,
        }
    }
}
