//! Transactions.

ghost use Rattle.std.specs.Prelude.{◌≡◌, ◌<◌, ◌≤◌, ◌+◌, ◌↔◌, [], length, slice_index, Some, None, IsTrue, IfSome, true};
ghost use Rattle.std.specs.Prelude.{if◌then◌else◌};
ghost use Rattle.si_model.specs.Rows.{key_at, writes_key};
ghost use Rattle.si_model.specs.Evaluation.{unwritten};
ghost use Rattle.nam_verbs.specs.Verb.{address_of};
ghost use Rattle.nam_catalog.specs.declared.shape.Shape.{Shape};
ghost use Rattle.nam_catalog.specs.Words.{words_of};
ghost use Rattle.nam_protocol.specs.Commit.{lock_at};
ghost use Rattle.nam_protocol.specs.Operations.{own_value};
ghost use Rattle.nam_protocol.specs.Txn.{new_txn};
ghost use Rattle.nam_protocol.specs.TxnCalls.{txn_ask};
ghost use Rattle.nam_protocol.specs.TxnFits.{TxnCallFits, txn_call_bound};
ghost use Rattle.nam_txn.specs.Txn.{has_published, is_committing};
ghost use Rattle.nam_txn.specs.Txn.{IsAt, IsTxnOf, CanBegin, Runs, Rests, next_verb, verbs_left, after_of, answer_in};

use crate::keys::place_written;
use crate::registers::Registers;
use crate::step::Step;
use nam_header::stamp_in;
use nam_layout::Layout;
use nam_protocol::{Record, TxnAnswer, TxnCall};
use nam_verbs::Verb;
use si_model::{Item, Key, Lock, Snapshot, Value, copy_value};
use std::marker::Model;

/// A transaction of a worker on a snapshot, and the call that runs or was answered last. A call is asked; then the
/// caller does the verb that stands and hands in the word that it found, until the call is answered.
#[derive(Debug, Drop)]
pub struct Txn {
    registers: Registers,
}

impl Model for Txn {
    ghost use Rattle.nam_txn.specs.Txn.{Transacting, value_of, Holds};

    ghost Value = { Transacting };

    ghost view = { λ a. value_of a.registers };

    ghost invariant = { λ a. Holds a.registers };
}

impl Txn {
    /// A new transaction of a worker whose last commit number is `last`, on a snapshot.
    pub fn new(worker: u32, last: u64, seen: Snapshot) -> Txn
        ensures state { result.state ≡ new_txn worker last seen }
        ensures call { result.call ≡ None }
        ensures of { (shape : Shape) → CanBegin shape worker last seen → IsTxnOf shape result }
    {
        Txn {
            registers: Registers::new(worker, last, seen),
        }
    }

    /// Begins a new transaction of a worker in its place. The one that stood is forgotten.
    pub fn restart(&mut self, worker: u32, last: u64, seen: &Snapshot)
        ensures state { self.new.state ≡ new_txn worker last seen.now }
        ensures call { self.new.call ≡ None }
        ensures of { (shape : Shape) → CanBegin shape worker last seen.now → IsTxnOf shape self.new }
    {
        self.registers.restart(worker, last, seen);
    }

    /// Asks a call, where none runs and no locks are held. It may be answered at once.
    pub fn ask(&mut self, layout: &Layout, call: &TxnCall)
        requires of { IsTxnOf layout.now self.old }
        requires rests { Rests self.old.call }
        requires unlocked { self.old.state.held ≡ [] }
        requires fits { TxnCallFits layout.now self.old.state call.now }
        ensures asked { IsAt self.new (txn_ask layout.now self.old.state call.now) }
        ensures of { IsTxnOf layout.now self.new }
        ensures left { verbs_left layout.now self.new ≤ txn_call_bound layout.now self.old.state call.now }
    {
        self.registers.ask(layout, call);
    }

    /// The verb that stands, and none exactly where no call runs. It is at a word of the store.
    #[inline]
    pub fn verb(&self) -> Option<Verb>
        ensures verb { (shape : Shape) → IsTxnOf shape self.now → result ≡ next_verb shape self.now }
        ensures within { (shape : Shape) → IsTxnOf shape self.now
            → IfSome result (λ verb. address_of verb < words_of shape) }
    {
        self.registers.verb()
    }

    /// Goes on with the word that the verb found.
    #[inline]
    pub fn take(&mut self, layout: &Layout, found: u64)
        requires of { IsTxnOf layout.now self.old }
        requires runs { Runs self.old.call }
        ensures after { IsAt self.new (after_of layout.now self.old.state self.old.call found) }
        ensures of { IsTxnOf layout.now self.new }
        ensures falls { verbs_left layout.now self.new < verbs_left layout.now self.old }
    {
        self.registers.take(layout, found);
    }

    /// How many verbs are to come at the most before the answer. Where no call runs there are none.
    pub fn left(&self) -> u64
        ensures { (shape : Shape) → IsTxnOf shape self.now → result ≡ verbs_left shape self.now }
    {
        self.registers.left()
    }

    /// Whether a call runs: a verb stands.
    #[inline]
    pub fn is_busy(&self) -> bool
        ensures { IsTrue result ↔ Runs self.now.call }
    {
        match self.registers.step {
            Step::Resting | Step::Answered => false,
            _ => true,
        }
    }

    /// Whether a commit runs.
    #[inline]
    pub fn is_committing(&self) -> bool
        ensures { result ≡ is_committing self.now.call }
    {
        matches!(self.registers.step, Step::Committing)
    }

    /// Whether a commit runs that has published: only guards' headers, or the intent's end, are to be written.
    #[inline]
    pub fn has_published(&self) -> bool
        ensures { result ≡ has_published self.now.call }
    {
        self.is_committing() && self.registers.committer.has_published()
    }

    /// The number of the commit that runs.
    pub fn number(&self) -> u64
        requires { is_committing self.now.call ≡ true }
        ensures { result ≡ self.now.state.last + 1 }
    {
        self.registers.state.last + 1
    }

    /// The answer to the last call, and none exactly where a call runs or none was asked since the begin.
    #[inline]
    pub fn answered(&self) -> Option<&TxnAnswer>
        ensures some { IfSome result (λ answer. answer_in self.now.call ≡ Some answer.now) }
        ensures none { result ≡ None → answer_in self.now.call ≡ None }
    {
        match self.registers.step {
            Step::Answered => Some(&self.registers.answer),
            _ => None,
        }
    }

    /// The same answer, copied.
    pub fn answer(&self) -> Option<TxnAnswer>
        ensures { result ≡ answer_in self.now.call }
    {
        match self.registers.step {
            Step::Answered => Some(self.registers.answer.copy()),
            _ => None,
        }
    }

    /// How many locks the commit has taken.
    #[inline]
    pub fn held_len(&self) -> u32
        ensures { result ≡ length self.now.state.held }
    {
        self.registers.state.held.len() as u32
    }

    /// A lock that the commit has taken, counted from 0.
    pub fn lock(&self, nth: u32) -> Lock
        requires { nth < length self.now.state.held }
        ensures { result ≡ lock_at self.now.state nth (slice_index self.now.state.held nth) }
    {
        let state = &self.registers.state;
        let record = match state.records.as_slice().get(nth as usize) {
            Some(record) => *record,
            None => Record::default(),
        };
        Lock {
            table: record.key.table,
            key: record.key.key,
            stamp: stamp_in(record.place.form, *state.held.at(nth as usize)),
        }
    }

    /// What the last call has read.
    #[inline]
    pub fn read(&self) -> Option<&Item>
        ensures some { IfSome result (λ item. self.now.state.read ≡ Some item.now) }
        ensures none { result ≡ None → self.now.state.read ≡ None }
    {
        self.registers.state.read.as_ref()
    }

    /// Forgets what the last call has read. No call runs.
    #[inline]
    pub fn forget_read(&mut self)
        requires { Rests self.old.call }
        ensures value { self.new ≡ record self.old { state = record self.old.state { read = None } } }
        ensures of { (shape : Shape) → IsTxnOf shape self.old → IsTxnOf shape self.new }
    {
        self.registers.state.read = None;
    }

    /// The write set: each key once, in the order of first writes, with its last value.
    #[inline]
    pub fn writes(&self) -> &[Item]
        ensures { result.now ≡ self.now.state.writes }
    {
        self.registers.state.writes.as_slice()
    }

    /// The snapshot.
    #[inline]
    pub fn seen(&self) -> &Snapshot
        ensures { result.now ≡ self.now.state.seen }
    {
        &self.registers.state.seen
    }

    /// How many keys the write set has.
    #[inline]
    pub fn written(&self) -> u32
        ensures { result ≡ length self.now.state.writes }
    {
        self.registers.state.writes.len() as u32
    }

    /// How many keys are guarded and not written: the claimed ones that the write set has not.
    pub fn guarded(&self) -> u32
        ensures { (shape : Shape) → IsTxnOf shape self.now
            → result ≡ length (unwritten self.now.state.writes self.now.state.guards) }
    {
        let state = &self.registers.state;
        (state.claims.len() as u32).saturating_sub(state.writes.len() as u32)
    }

    /// What the write set has of a key, and none where it does not write the key.
    pub fn own(&self, table: u32, key: u64) -> Option<Option<Value>>
        ensures { result ≡ (if writes_key self.now.state.writes (key_at table key)
            then Some (own_value self.now.state.writes (key_at table key)) else None) }
    {
        let writes = &self.registers.state.writes;
        match place_written(writes.as_slice(), Key { table, key }) {
            Some(place) => Some(copy_value(&writes.at(place).value)),
            None => None,
        }
    }
}
