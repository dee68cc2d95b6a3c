//! One attempt of the serial run.

ghost use Rattle.std.specs.Prelude.{◌≡◌, ◌+◌, ◌-◌, ◌^◌, ◌<◌, ◌≤◌, [], ◌∷◌, length};
ghost use Rattle.std.specs.Prelude.{slice_index, OnOk};
ghost use Rattle.std.specs.List.{AllByRecursion};
ghost use Rattle.si_model.specs.Committed.{rows_held};
ghost use Rattle.si_model.specs.Evaluation.{evaluation_of, reads_of, OpFits, AreWide};
ghost use Rattle.namdb.specs.Serial.{outcome_of, attempt_with, log_with};
ghost use Rattle.namdb.specs.Store.{Attempts, AttemptsBy};

use crate::evaluate::evaluate;
use crate::store::Store;
use lists::List;
use nam_vector::take_snapshot;
use si_model::{Attempt, Evaluated, Event, Items, Key, Lock, Log, Op, Outcome, Snapshot};
use std::alloc::{AllocError, Global};

/// Whose attempt it is, at which transaction, and on how many entries of the history.
#[derive(Clone, Copy)]
pub struct Turn {
    pub worker: u32,
    pub txn: u32,
    pub prefix: u64,
    /// The last number of the worker, and the greatest that there is.
    pub last: u64,
    pub greatest: u64,
}

/// Lists a first attempt with its items and its snapshot.
fn list_attempt(
    log: &mut Log,
    turn: Turn,
    outcome: Outcome,
    reads: Items,
    locks: List<Lock>,
    writes: Items,
    seen: Snapshot,
) -> Result<(), AllocError>
    requires reads { length reads < 2 ^ 32 }
    requires locks { length locks < 2 ^ 32 }
    requires writes { length writes < 2 ^ 32 }
    ensures { OnOk result (
        let attempt = attempt_with turn.txn turn.prefix outcome reads locks writes in
        log.new ≡ log_with log.old (Event.Tried attempt) reads locks writes seen) }
{
    let attempt = Attempt {
        txn: turn.txn,
        nth: 1,
        prefix: Some(turn.prefix),
        reads: reads.len() as u32,
        locks: locks.len() as u32,
        writes: writes.len() as u32,
        outcome,
    };
    log.events.push(Event::Tried(attempt))?;
    log.reads.append(reads)?;
    log.locks.append(locks)?;
    log.writes.append(writes)?;
    log.snaps.push(seen)
}

/// What a transaction did whose operations all passed.
#[derive(Drop)]
struct Effects {
    reads: Items,
    writes: Items,
    guards: List<Key>,
}

/// Ends an attempt whose operations were all done: it reads only, or has no number left, or commits.
fn end_done(
    alloc: Global,
    store: &mut Store,
    log: &mut Log,
    turn: Turn,
    effects: Effects,
    seen: Snapshot,
) -> Result<(), AllocError>
    requires worker { (1 ≤ turn.worker) × (turn.worker ≤ 16) }
    requires entry { turn.worker ≤ length store.old.vector }
    requires number { turn.last ≤ turn.greatest }
    requires prefix { turn.prefix ≡ length store.old.history }
    requires few_reads { length effects.reads < 2 ^ 32 }
    requires few_keys { length effects.writes + length effects.guards < 2 ^ 32 }
    ensures { OnOk result (
        let e = Evaluated.Done effects.reads effects.writes effects.guards in
        let outcome = outcome_of turn.greatest turn.last e in
        Attempts turn.worker turn.txn e outcome seen store.old store.new log.old log.new) }
{
    let Effects {
        reads,
        writes,
        guards,
    } = effects;
    let none = List::new(alloc);
    let nothing = List::new(alloc);
    if writes.is_empty() {
        return list_attempt(log, turn, Outcome::ReadOnly, reads, none, nothing, seen);
    }
    if turn.last == turn.greatest {
        return list_attempt(log, turn, Outcome::Spent, reads, none, nothing, seen);
    }
    let number = turn.last + 1;
    let locks = store.locks(alloc, writes.as_slice(), guards.as_slice())?;
    store.commit(alloc, turn.worker, number, turn.txn, writes.as_slice())?;
    list_attempt(
        log,
        turn,
        Outcome::Commit { number },
        reads,
        locks,
        writes,
        seen,
    )
}

/// What is the same for all attempts of a run.
#[derive(Drop)]
pub struct Plan {
    pub workers: u32,
    pub greatest: u64,
    pub widths: Vec<u32>,
}

/// A worker's one attempt at a transaction: a snapshot, the evaluation on the committed rows, and the commit.
pub fn attempt(
    alloc: Global,
    plan: &Plan,
    store: &mut Store,
    log: &mut Log,
    worker: u32,
    txn: u32,
    ops: &[Op],
) -> Result<(), AllocError>
    requires worker { (1 ≤ worker) × (worker ≤ plan.now.workers) × (plan.now.workers ≤ 16) }
    requires vector { length store.old.vector ≡ plan.now.workers }
    requires number { slice_index store.old.vector (worker - 1) ≤ plan.now.greatest }
    requires fit { AllByRecursion (OpFits plan.now.widths.items) ops.now }
    requires wide { AreWide plan.now.widths.items (rows_held store.old.rows) }
    requires short { length ops.now < 2 ^ 32 }
    requires few { length (reads_of (evaluation_of plan.now.widths.items (rows_held store.old.rows) ops.now)) < 2 ^ 32 }
    ensures { OnOk result (AttemptsBy plan.now worker txn ops.now store.old store.new log.old log.new) }
{
    let seen = take_snapshot(&mut store.vector, plan.workers);
    let turn = Turn {
        worker,
        txn,
        prefix: store.history.len() as u64,
        last: *seen.at(worker as usize - 1),
        greatest: plan.greatest,
    };
    match evaluate(alloc, plan.widths.as_slice(), &store.rows, ops)? {
        Evaluated::Declined { op, reads } => {
            let none = List::new(alloc);
            let nothing = List::new(alloc);
            list_attempt(
                log,
                turn,
                Outcome::Declined { op },
                reads,
                none,
                nothing,
                seen,
            )
        }
        Evaluated::Done {
            reads,
            writes,
            guards,
        } => {
            let effects = Effects {
                reads,
                writes,
                guards,
            };
            end_done(alloc, store, log, turn, effects, seen)
        }
    }
}
