//! Commits.

ghost use Rattle.std.specs.Prelude.{◌≡◌, ◌<◌, ◌≤◌, is_some, IfSome, IsNone};
ghost use Rattle.nam_verbs.specs.Now.{end_now};
ghost use Rattle.nam_verbs.specs.Verb.{address_of};
ghost use Rattle.nam_catalog.specs.declared.shape.Shape.{Shape};
ghost use Rattle.nam_catalog.specs.Words.{words_of};
ghost use Rattle.nam_catalog.specs.declared.form.Form.TheVariants.{Held};
ghost use Rattle.nam_layout.specs.declared.field.Field.TheVariants.{Intent};
ghost use Rattle.nam_layout.specs.Address.{IsWorker, address};
ghost use Rattle.nam_protocol.specs.Commit.{ask_commit};
ghost use Rattle.nam_commit.specs.Stands.{IntentStands};
ghost use Rattle.nam_protocol.specs.TxnFits.{StateFits, commit_bound};
ghost use Rattle.nam_commit.specs.Commits.{committed, resting, CommitsFit, CommitsStand, commits_verb, commits_after};
ghost use Rattle.nam_commit.specs.Commits.{commits_left, has_published, number_of};

use crate::asking::begin;
use crate::leaving::step_left;
use crate::step::{Loss, Step};
use crate::stepping::{step_after, step_verb};
use nam_catalog::Form;
use nam_layout::Layout;
use nam_protocol::{TxnAnswer, TxnState};
use nam_verbs::Verb;
use si_model::Value;
use std::marker::Model;

/// The commit of the transaction that it is given with each call: it is asked for the verb that stands and given the
/// word that this verb found, until the commit is over.
#[derive(Debug, Drop)]
pub struct Committer {
    step: Step,
    intent_at: u64,
    words: Value,
}

impl Model for Committer {
    ghost use Rattle.nam_commit.specs.Commits.{Commits, commits_at, now_of};
    ghost use Rattle.nam_commit.specs.Stands.{IntentStands};

    ghost Value = { Commits };

    ghost view = { λ a. commits_at a.intent_at (now_of a.step a.words) };

    ghost invariant = { λ a. IntentStands a.intent_at };
}

// Where a worker's intent begins, in the form that has intents.
fn intent_at(layout: &Layout, worker: u32) -> u64
    requires { IsWorker layout.now worker }
    ensures value { layout.now.form ≡ Held → result ≡ address layout.now (Intent worker 0) }
    ensures stands { IntentStands result }
{
    match layout.form() {
        Form::Narrow | Form::Wide => 0,
        Form::Held => layout.intent_at(worker),
    }
}

impl Committer {
    /// No commit: it is over, as one that had nothing to commit.
    pub fn new() -> Committer
        ensures { result ≡ resting }
    {
        Committer {
            step: Step::ReadOnly,
            intent_at: 0,
            words: Value::new(),
        }
    }

    /// Begins the commit of a transaction in the store of this layout. It is over at once where nothing is written, or
    /// where the worker has no number left.
    #[inline(never)]
    pub fn ask(&mut self, layout: &Layout, state: &mut TxnState)
        requires { StateFits layout.now state.old }
        ensures asked { committed state.new self.new ≡ ask_commit layout.now state.old }
        ensures fit { CommitsFit layout.now state.new self.new }
        ensures left { commits_left state.new self.new ≤ commit_bound layout.now state.old }
    {
        // A layout's total says that the shape is within its limits.
        let _words = layout.total();
        self.intent_at = intent_at(layout, state.worker);
        self.step = begin(layout, state);
    }

    /// The verb that stands, and none exactly where the commit is over. It is at a word of the store.
    #[inline]
    pub fn verb(&self, state: &TxnState) -> Option<Verb>
        requires { CommitsStand state.now self.now }
        ensures verb { (shape : Shape) → CommitsFit shape state.now self.now
            → result ≡ commits_verb shape state.now self.now }
        ensures within { (shape : Shape) → CommitsFit shape state.now self.now
            → IfSome result (λ verb. address_of verb < words_of shape) }
    {
        step_verb(self.step, &self.words, self.intent_at, state)
    }

    /// Goes on with the word that the verb found.
    #[inline]
    pub fn take(&mut self, state: &mut TxnState, found: u64)
        requires fit { CommitsStand state.old self.old }
        requires stands { IsNone (end_now self.old.state) }
        ensures after { committed state.new self.new ≡ commits_after state.old self.old.state found }
        ensures fit { (shape : Shape) → CommitsFit shape state.old self.old → CommitsFit shape state.new self.new }
        ensures falls { commits_left state.new self.new < commits_left state.old self.old }
    {
        self.step = step_after(self.step, &mut self.words, state, found);
    }

    /// A number of verbs that are to come at the most. After the end there are none.
    #[inline(never)]
    pub fn left(&self, state: &TxnState) -> u64
        requires { CommitsStand state.now self.now }
        ensures { result ≡ commits_left state.now self.now }
    {
        step_left(self.step, &self.words, state)
    }

    /// Whether the commit is over: no verb stands.
    #[inline]
    pub fn is_over(&self) -> bool
        ensures { result ≡ is_some (end_now self.now.state) }
    {
        match self.step {
            Step::Refused { .. } | Step::Committed { .. } | Step::ReadOnly | Step::Spent => true,
            _ => false,
        }
    }

    /// Whether the commit that runs has published: only guards' headers, or the intent's end, are to be written.
    #[inline]
    pub fn has_published(&self) -> bool
        ensures { result ≡ has_published self.now.state }
    {
        matches!(self.step, Step::Freeing { .. } | Step::Ending)
    }

    /// The number under which the commit is done, and none where it is not over or was over without a commit.
    #[inline]
    pub fn number(&self) -> Option<u64>
        ensures { result ≡ number_of self.now.state }
    {
        match self.step {
            Step::Committed { number } => Some(number),
            _ => None,
        }
    }

    /// How the commit was over, and none exactly where a verb stands.
    #[inline(never)]
    pub fn answer(&self) -> Option<TxnAnswer>
        ensures { result ≡ end_now self.now.state }
    {
        match self.step {
            Step::Refused { loss } => Some(match loss {
                Loss::Locked { lock } => TxnAnswer::Locked(lock),
                Loss::Newer { lock } => TxnAnswer::Newer(lock),
                Loss::Full { lock } => TxnAnswer::Full(lock),
            }),
            Step::Committed { number } => Some(TxnAnswer::Committed { number }),
            Step::ReadOnly => Some(TxnAnswer::ReadOnly),
            Step::Spent => Some(TxnAnswer::Spent),
            _ => None,
        }
    }
}
