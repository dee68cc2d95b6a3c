//! Showing that a snapshot is too old.

ghost use Rattle.std.specs.Prelude.{◌≡◌, ◌<◌, ◌≤◌, ◌*◌, length};
ghost use Rattle.nam_verbs.specs.Verb.{address_of};
ghost use Rattle.nam_verbs.specs.VerbAt.{verb_by};
ghost use Rattle.nam_verbs.specs.Running.{verbs_left};
ghost use Rattle.nam_layout.specs.Place.{worker_address};
ghost use Rattle.nam_calls.specs.Fits.{IsOf};
ghost use Rattle.nam_calls.specs.Horizon.{old_begin, old_verb, old_after, old_left};
ghost use Rattle.nam_horizon.specs.Old.{showing, running};

use nam_calls::OldEnd;
use nam_layout::{Field, horizon_at};
use nam_verbs::{Machine, Now, Verb};
use si_model::Snapshot;
use std::marker::Model;
use std::mem::replace;

/// Where it begins: at the first worker.
pub fn old_begin() -> u32
    ensures { result ≡ old_begin }
{
    1
}

/// The verb that stands at a worker.
pub fn old_verb(workers: u32, worker: u32) -> Verb
    requires { IsOf workers worker }
    ensures value { result ≡ verb_by (worker_address workers) (old_verb worker) }
    ensures within { address_of result < 2 * workers }
{
    Verb::Read {
        at: horizon_at(workers, worker),
    }
}

/// What follows the word that this verb found.
pub fn old_after(workers: u32, seen: &Snapshot, worker: u32, found: u64) -> Now<u32, OldEnd>
    requires seen { length seen.now ≡ workers }
    requires worker { IsOf workers worker }
    ensures { result ≡ old_after workers seen.now worker found }
{
    let entry = *seen.at(worker as usize - 1);
    if entry < found {
        Now::Over(OldEnd::TooOld {
            worker,
            entry,
            horizon: found,
        })
    } else if worker == workers {
        Now::Over(OldEnd::NotPassed)
    } else {
        Now::At(worker + 1)
    }
}

/// A number of verbs that are to come from a worker on at the most.
pub fn old_left(workers: u32, worker: u32) -> u64
    requires { IsOf workers worker }
    ensures { result ≡ old_left workers worker }
{
    workers as u64 + 1 - worker as u64
}

/// Whether the horizon has passed a snapshot: its entries are read one after another, up to one above the snapshot's.
#[derive(Debug, Drop)]
pub struct ShowOld {
    workers: u32,
    seen: Snapshot,
    state: Now<u32, OldEnd>,
}

impl Model for ShowOld {
    ghost use Rattle.std.specs.Prelude.{◌≡◌, length};
    ghost use Rattle.nam_verbs.specs.Now.{FitsNow};
    ghost use Rattle.nam_calls.specs.Fits.{IsOf};
    ghost use Rattle.nam_horizon.specs.Old.{Showing};

    ghost Value = { Showing };

    ghost view = { λ a. record { workers = a.workers; seen = a.seen; state = a.state } };

    ghost invariant = { λ a. (length a.seen ≡ a.workers) × FitsNow (IsOf a.workers) a.state };
}

impl ShowOld {
    /// For a snapshot of so many workers' entries.
    pub fn new(workers: u32, seen: Snapshot) -> ShowOld
        requires least { 1 ≤ workers }
        requires most { workers ≤ 16 }
        requires seen { length seen ≡ workers }
        ensures begins { result ≡ showing workers seen }
        ensures left { verbs_left (running result) ≡ workers }
    {
        ShowOld {
            workers,
            seen,
            state: Now::At(old_begin()),
        }
    }
}

impl Machine for ShowOld {
    ghost use Rattle.nam_horizon.specs.Old.{running};

    type Word = Field;

    type Point = u32;

    type End = OldEnd;

    ghost running = { running };

    fn state(&self) -> &Now<u32, OldEnd> {
        &self.state
    }

    fn verb_from(&self, worker: &u32) -> Verb {
        old_verb(self.workers, *worker)
    }

    fn left_from(&self, worker: &u32) -> u64 {
        old_left(self.workers, *worker)
    }

    fn take(&mut self, found: u64) {
        self.state = match replace(&mut self.state, Now::At(old_begin())) {
            Now::At(worker) => old_after(self.workers, &self.seen, worker, found),
            Now::Over(end) => Now::Over(end),
        };
    }

    fn end(&self) -> Option<OldEnd> {
        self.state.end()
    }
}
