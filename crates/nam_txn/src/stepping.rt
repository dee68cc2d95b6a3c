//! The verb that stands, what follows the word that it finds, and how many are to come.

ghost use Rattle.std.specs.Prelude.{◌≡◌, ◌<◌, ◌*◌, ◌^◌, if◌then◌else◌};
ghost use Rattle.si_model.specs.Operations.{op_claims};
ghost use Rattle.nam_catalog.specs.declared.shape.Shape.{Shape};
ghost use Rattle.nam_txn.specs.Txn.{stepped_of, value_of, next_verb, verbs_left, after_of};
ghost use Rattle.nam_calls.specs.Reading.{read_left};
ghost use Rattle.nam_txn.specs.Txn.{Runs, IsTxnOf, Holds, Keeps, StepHolds, point_of};
ghost use Rattle.nam_txn.specs.declared.step.Step.TheVariants as step;

use crate::registers::Registers;
use crate::step::Step;
use nam_layout::Layout;
use nam_verbs::Verb;

impl Registers {
    /// The verb that stands, and none exactly where no call runs.
    #[inline]
    pub fn verb(&self) -> Option<Verb>
        requires { Holds self.now }
        ensures { (shape : Shape) → IsTxnOf shape (value_of self.now)
            → result ≡ next_verb shape (value_of self.now) }
    {
        match self.step {
            Step::Finding => Some(Verb::Read {
                at: self.walk.key_at(),
            }),
            Step::Reading => self.reader.verb(),
            Step::KeyLook => Some(Verb::Read {
                at: self.walk.key_at(),
            }),
            Step::KeyTake => Some(Verb::Exchange {
                at: self.walk.key_at(),
                expect: 0,
                word: self.walk.path.key + 1,
            }),
            Step::Committing => self.committer.verb(&self.state),
            Step::Resting | Step::Answered => None,
        }
    }

    /// Goes on with the word that the verb found.
    #[inline]
    pub fn take(&mut self, layout: &Layout, found: u64)
        requires holds { Holds self.old }
        requires of { IsTxnOf layout.now (value_of self.old) }
        requires runs { Runs (value_of self.old).call }
        ensures after { stepped_of self.new ≡ after_of layout.now self.old.state (value_of self.old).call found }
        ensures keeps { Keeps layout.now self.new }
    {
        match self.step {
            Step::Finding => self.take_find(layout, found),
            Step::Reading => self.take_read(layout, found),
            Step::KeyLook => self.look_key(layout, found),
            Step::KeyTake => self.take_key(layout, found),
            Step::Committing => self.take_commit(layout, found),
            Step::Resting | Step::Answered => {}
        }
    }

    /// How many verbs are to come at the most. Where no call runs there are none.
    pub fn left(&self) -> u64
        requires { Holds self.now }
        ensures { (shape : Shape) → IsTxnOf shape (value_of self.now)
            → result ≡ verbs_left shape (value_of self.now) }
    {
        let path = &self.walk.path;
        match self.step {
            Step::Finding => {
                (path.capacity - self.walk.passed) as u64
                    + (self.read_most as u64 + self.claim_most())
            }
            Step::Reading => self.read_left() + self.claim_most(),
            Step::KeyLook => 2 * (path.capacity - self.walk.passed - 1) as u64 + 2,
            Step::KeyTake => 2 * (path.capacity - self.walk.passed - 1) as u64 + 1,
            Step::Committing => self.committer.left(&self.state),
            Step::Resting | Step::Answered => 0,
        }
    }

    // What is to come of the read that is under way, which is no more than a whole one takes.
    fn read_left(&self) -> u64
        requires { StepHolds step.Reading self.now }
        ensures value { result ≡ read_left self.now.reader.sight (point_of self.now.reader.state) }
        ensures few { result < 2 ^ 32 }
    {
        self.reader.left().min(self.read_most as u64)
    }

    // The claim of a position, where the operation needs one.
    fn claim_most(&self) -> u64
        ensures value { result ≡ (if op_claims self.now.op then 2 * self.now.walk.path.capacity else 0) }
        ensures few { result < 2 ^ 33 }
    {
        if self.op.key_claimed().is_some() {
            2 * self.walk.path.capacity as u64
        } else {
            0
        }
    }
}
