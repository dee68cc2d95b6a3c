//! The read as a machine.

ghost use Rattle.std.specs.Prelude.{◌≡◌, ℕ, ◌<◌, ◌≤◌, ◌^◌, List, length, Some, IsSome, IfSome};
ghost use Rattle.nam_verbs.specs.declared.now.Now.TheVariants.{Over};
ghost use Rattle.nam_verbs.specs.Verb.{address_of};
ghost use Rattle.nam_verbs.specs.Running.{next_verb, after_found, verbs_left};
ghost use Rattle.nam_catalog.specs.declared.bounds.TheConstants.{MOST_WORKERS};
ghost use Rattle.nam_calls.specs.declared.reading.ReadingEnd.TheVariants.{Got, Astray};
ghost use Rattle.nam_calls.specs.Fits.{SightFits};
ghost use Rattle.nam_reader.specs.declared.end.ReaderEnd.TheVariants.{Present};
ghost use Rattle.nam_reader.specs.Reading.{sight_end, sight_by, reading, running, ended};

use crate::end::ReaderEnd;
use crate::registers::{Registers, Step};
use nam_calls::Sight;
use nam_catalog::Form;
use nam_layout::{Cells, Place};
use nam_verbs::Verb;
use si_model::{Snapshot, Value};
use std::marker::Model;

/// The read of the version of a record that a snapshot sees. The caller does the verb that stands, and hands in the
/// word that it found, until the read has ended; then it may begin the next one.
#[derive(Debug, Drop)]
pub struct Reader {
    sight: Sight,
    registers: Registers,
}

impl Model for Reader {
    ghost use Rattle.nam_verbs.specs.Now.{FitsNow};
    ghost use Rattle.nam_reader.specs.Reading.{Reads, StandsIn};
    ghost use Rattle.nam_reader.specs.Registers.{state_of};

    ghost Value = { Reads };

    ghost view = { λ a. record { sight = a.sight; state = state_of a.registers } };

    ghost invariant = { λ a. FitsNow (StandsIn a.sight) (state_of a.registers) };
}

impl Reader {
    /// A reader that rests: no verb stands.
    pub fn new() -> Reader
        ensures { result.state ≡ Over Astray }
    {
        Reader {
            sight: Sight {
                place: Place::default(),
                cells: Cells {
                    bucket: 0,
                    first: 0,
                    cells: 0,
                    form: Form::Narrow,
                },
                workers: 0,
            },
            registers: Registers::new(),
        }
    }

    /// Begins the read at a position, with the cells of its bucket, in a store of so many workers. A read that is under
    /// way is forgotten.
    pub fn begin(&mut self, place: &Place, cells: &Cells, workers: u32)
        requires fits { SightFits (sight_by place.now cells.now workers) }
        requires workers { workers ≤ MOST_WORKERS }
        ensures { self.new ≡ reading (sight_by place.now cells.now workers) }
    {
        self.sight.place = *place;
        self.sight.cells = *cells;
        self.sight.workers = workers;
        self.registers.step = Step::CurrentHead;
    }

    /// The verb that stands, and none exactly where the read has ended. It is at a word of the position, of the cells
    /// or of the horizon.
    pub fn verb(&self) -> Option<Verb>
        ensures verb { (seen : List ℕ) → result ≡ next_verb (running seen self.now) }
        ensures within { IfSome result (λ verb. address_of verb < sight_end self.now.sight) }
    {
        self.registers.verb(&self.sight)
    }

    /// Goes on with the word that the verb found, under a snapshot with an entry for each worker.
    pub fn take(&mut self, seen: &Snapshot, found: u64)
        requires seen { length seen.now ≡ self.old.sight.workers }
        requires stands { IsSome (next_verb (running seen.now self.old)) }
        ensures sight { self.new.sight ≡ self.old.sight }
        ensures after { running seen.now self.new ≡ after_found (running seen.now self.old) found }
        ensures falls { verbs_left (running seen.now self.new) < verbs_left (running seen.now self.old) }
    {
        self.registers.take(&self.sight, seen, found);
    }

    /// A number of verbs that are to come at the most. After the end there are none.
    pub fn left(&self) -> u64
        ensures value { (seen : List ℕ) → result ≡ verbs_left (running seen self.now) }
        ensures few { result < 2 ^ 37 }
    {
        self.registers.left(&self.sight)
    }

    /// How the read ended, and none exactly where a verb stands.
    #[inline]
    pub fn end(&self) -> Option<ReaderEnd>
        ensures { result ≡ ended self.now.state }
    {
        let a = &self.registers;
        match a.step {
            Step::Current | Step::Older => Some(ReaderEnd::Present),
            Step::Absent => Some(ReaderEnd::Absent),
            Step::TooOld => Some(ReaderEnd::TooOld {
                worker: a.worker,
                entry: a.entry,
                horizon: a.horizon,
            }),
            Step::Astray => Some(ReaderEnd::Astray),
            _ => None,
        }
    }

    /// The value that the snapshot sees, where it is present.
    #[inline]
    pub fn value(&self) -> &Value
        requires present { ended self.now.state ≡ Some Present }
        ensures { self.now.state ≡ Over (Got (Some result.now)) }
    {
        match self.registers.step {
            Step::Older => &self.registers.older,
            _ => &self.registers.current,
        }
    }
}
