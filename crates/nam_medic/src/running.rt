//! The medic as a machine.

ghost use Rattle.std.specs.Prelude.{◌≡◌, ◌<◌, IsSome};
ghost use Rattle.nam_verbs.specs.Now.{end_now, FitsNow};
ghost use Rattle.nam_verbs.specs.declared.now.Now.TheVariants.{At};
ghost use Rattle.nam_verbs.specs.Running.{after_found};
ghost use Rattle.nam_catalog.specs.declared.form.Form.TheVariants.{Held};
ghost use Rattle.nam_layout.specs.Address.{IsWorker};
ghost use Rattle.nam_calls.specs.Medic.{medic_begin};
ghost use Rattle.nam_calls.specs.MedicFits.{MedicFits};
ghost use Rattle.nam_calls.specs.MedicLeft.{medic_most};
ghost use Rattle.nam_medic.specs.Medic.{running, Serves};

use crate::after::medic_after;
use crate::left::medic_left;
use crate::verb::{medic_begin, medic_verb};
use nam_calls::MedicPoint;
use nam_layout::Layout;
use nam_verbs::{Now, Verb};
use si_model::Finish;
use std::marker::Model;
use std::mem::replace;

/// The medic of a stopped worker. It finishes the worker's attempt from the words alone: it undoes a commit that is
/// only listed, and rolls a decided one on. It borrows no layout, and is given the same one with each word.
#[derive(Debug, Drop)]
pub struct Medic {
    worker: u32,
    state: Now<MedicPoint, Finish>,
    verb: Option<Verb>,
    left: u64,
}

impl Model for Medic {
    ghost use Rattle.nam_medic.specs.Medic.{Finishing};

    ghost Value = { Finishing };

    ghost view = { λ a. record { worker = a.worker; state = a.state; verb = a.verb; left = a.left } };
}

// The medic where it stands.
fn standing(layout: &Layout, worker: u32, state: Now<MedicPoint, Finish>) -> Medic
    requires form { layout.now.form ≡ Held }
    requires worker { IsWorker layout.now worker }
    requires fits { FitsNow (MedicFits layout.now) state }
    ensures worker { result.worker ≡ worker }
    ensures state { result.state ≡ state }
    ensures serves { Serves layout.now result }
{
    let (verb, left) = match &state {
        Now::At(at) => (Some(medic_verb(layout, worker, at)), medic_left(layout, at)),
        Now::Over(_) => (None, 0),
    };
    Medic {
        worker,
        state,
        verb,
        left,
    }
}

impl Medic {
    /// The medic of a worker of a store that has intents. Its verbs to come are no more than its greatest number.
    pub fn new(layout: &Layout, worker: u32) -> Medic
        requires form { layout.now.form ≡ Held }
        requires worker { IsWorker layout.now worker }
        ensures worker { result.worker ≡ worker }
        ensures begins { result.state ≡ At medic_begin }
        ensures left { result.left ≡ medic_most }
        ensures serves { Serves layout.now result }
    {
        standing(layout, worker, Now::At(medic_begin()))
    }

    /// The verb that stands, and none exactly where the medic has ended.
    // Sessions rarely have a medic, whose code stays out of their client's way.
    #[inline(never)]
    pub fn verb(&self) -> Option<Verb>
        ensures { result ≡ self.now.verb }
    {
        self.verb
    }

    /// Goes on with the word that the verb found.
    #[inline(never)]
    pub fn take(&mut self, layout: &Layout, found: u64)
        requires serves { Serves layout.now self.old }
        requires stands { IsSome self.old.verb }
        ensures after { running layout.now self.new ≡ after_found (running layout.now self.old) found }
        ensures falls { self.new.left < self.old.left }
        ensures worker { self.new.worker ≡ self.old.worker }
        ensures serves { Serves layout.now self.new }
    {
        // A layout's total says that the shape is within its limits.
        let _words = layout.total();
        let state = match replace(&mut self.state, Now::Over(Finish::Clean)) {
            Now::At(at) => medic_after(layout, self.worker, at, found),
            Now::Over(end) => Now::Over(end),
        };
        *self = standing(layout, self.worker, state);
    }

    /// A number of verbs that are to come at the most. Each word that is taken lowers it.
    pub fn left(&self) -> u64
        ensures { result ≡ self.now.left }
    {
        self.left
    }

    /// How the medic ended, and none exactly where a verb stands.
    pub fn end(&self) -> Option<Finish>
        ensures { result ≡ end_now self.now.state }
    {
        self.state.end()
    }
}
