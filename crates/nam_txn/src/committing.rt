//! A commit is asked, and goes on.

ghost use Rattle.std.specs.Prelude.{◌≡◌, Some, IsNone};
ghost use Rattle.nam_verbs.specs.Now.{end_now};
ghost use Rattle.nam_protocol.specs.Commit.{ask_commit};
ghost use Rattle.nam_protocol.specs.TxnFits.{StateFits};
ghost use Rattle.nam_commit.specs.Commits.{committed, CommitsFit, commits_after};
ghost use Rattle.nam_txn.specs.Walk.{IsWalk};
ghost use Rattle.nam_txn.specs.Txn.{stepped_of, Keeps};
ghost use Rattle.nam_txn.specs.declared.step.Step.TheVariants as step;

use crate::registers::Registers;
use crate::step::Step;
use nam_layout::Layout;

impl Registers {
    /// Asks for the commit.
    pub fn ask_commit(&mut self, layout: &Layout)
        requires walk { IsWalk self.old.walk }
        requires fits { StateFits layout.now self.old.state }
        ensures value { stepped_of self.new ≡ ask_commit layout.now self.old.state }
        ensures keeps { Keeps layout.now self.new }
    {
        self.committer.ask(layout, &mut self.state);
        self.step = Step::Committing;
        self.settle(layout);
    }

    /// A word of the commit was found.
    #[inline]
    pub fn take_commit(&mut self, layout: &Layout, found: u64)
        requires step { self.old.step ≡ step.Committing }
        requires walk { IsWalk self.old.walk }
        requires fit { CommitsFit layout.now self.old.state self.old.committer }
        requires stands { IsNone (end_now self.old.committer.state) }
        ensures value { stepped_of self.new ≡ commits_after self.old.state self.old.committer.state found }
        ensures keeps { Keeps layout.now self.new }
    {
        self.committer.take(&mut self.state, found);
        self.settle(layout);
    }

    // A commit that is over is answered.
    #[inline]
    fn settle(&mut self, layout: &Layout)
        requires step { self.old.step ≡ step.Committing }
        requires walk { IsWalk self.old.walk }
        requires fit { CommitsFit layout.now self.old.state self.old.committer }
        ensures value { stepped_of self.new ≡ committed self.old.state self.old.committer }
        ensures keeps { Keeps layout.now self.new }
    {
        if self.committer.is_over() {
            self.end_commit(layout);
        }
    }

    #[inline(never)]
    fn end_commit(&mut self, layout: &Layout)
        requires step { self.old.step ≡ step.Committing }
        requires walk { IsWalk self.old.walk }
        requires fit { CommitsFit layout.now self.old.state self.old.committer }
        ensures value { stepped_of self.new ≡ committed self.old.state self.old.committer }
        ensures keeps { Keeps layout.now self.new }
    {
        match self.committer.answer() {
            Some(answer) => self.end(answer),
            None => {}
        }
    }
}
