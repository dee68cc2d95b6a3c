//! Publishing a commit number.

ghost use Rattle.std.specs.Prelude.{◌≡◌, ◌≤◌};
ghost use Rattle.nam_verbs.specs.VerbAt.{verb_by};
ghost use Rattle.nam_verbs.specs.Running.{verbs_left};
ghost use Rattle.nam_layout.specs.Place.{worker_address};
ghost use Rattle.nam_vector.specs.Publish.{publishing, publish_verb, running};

use nam_layout::Field;
use nam_verbs::{Machine, Now, Verb};
use std::marker::Model;

/// The write of a worker's own entry. Workers count from 1.
pub fn publish_verb(worker: u32, number: u64) -> Verb
    requires { 1 ≤ worker }
    ensures { result ≡ verb_by (worker_address worker) (publish_verb worker number) }
{
    Verb::Write {
        at: worker as u64 - 1,
        word: number,
    }
}

/// The publication of a worker's commit number, which is one write of its own entry.
#[derive(Debug, Drop)]
pub struct Publish {
    worker: u32,
    number: u64,
    state: Now<(), ()>,
}

impl Model for Publish {
    ghost use Rattle.std.specs.Prelude.{◌≤◌};
    ghost use Rattle.nam_vector.specs.Publish.{Publishing};

    ghost Value = { Publishing };

    ghost view = { λ a. record { worker = a.worker; number = a.number; state = a.state } };

    ghost invariant = { λ a. 1 ≤ a.worker };
}

impl Publish {
    /// The publication of `number` by `worker`.
    pub fn new(worker: u32, number: u64) -> Publish
        requires least { 1 ≤ worker }
        requires most { worker ≤ 16 }
        ensures begins { result ≡ publishing worker number }
        ensures left { verbs_left (running result) ≡ 1 }
    {
        Publish {
            worker,
            number,
            state: Now::At(()),
        }
    }
}

impl Machine for Publish {
    ghost use Rattle.nam_vector.specs.Publish.{running};

    type Word = Field;

    type Point = ();

    type End = ();

    ghost running = { running };

    fn state(&self) -> &Now<(), ()> {
        &self.state
    }

    fn verb_from(&self, _place: &()) -> Verb {
        publish_verb(self.worker, self.number)
    }

    fn left_from(&self, _place: &()) -> u64 {
        1
    }

    fn take(&mut self, _found: u64) {
        self.state = Now::Over(());
    }

    fn end(&self) -> Option<()> {
        self.state.end()
    }
}
