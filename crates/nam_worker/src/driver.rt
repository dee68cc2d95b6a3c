//! The retry policy as a value.

ghost use Rattle.std.specs.Prelude.{◌≡◌, ◌↔◌, ◌≤◌, length, slice_get, IsNone, is_some, not};
ghost use Rattle.nam_protocol.specs.declared.client.Answer.TheVariants.{Txn};
ghost use Rattle.nam_protocol.specs.declared.client.Call.TheVariants.{Tidy};
ghost use Rattle.nam_protocol.specs.Driver.{new_driver, call_of, op_call, key_number, place_call, driver_next};
ghost use Rattle.nam_protocol.specs.Driver.{driver_take};
ghost use Rattle.nam_worker.specs.Answering.{AnswersNext, AreJobs};
ghost use Rattle.nam_worker.specs.Driving.{point_of};

use crate::driving::{Registers, Step, take, take_end};
use lists::ShortList;
use nam_protocol::{Answer, Call, Job, TxnAnswer, TxnCall};
use si_model::{Key, Op, Policy};
use std::marker::Model;

/// The retry policy as a value: what is to be asked next for a worker's jobs.
///
/// A job begins, asks its operations in order, and commits. It is tried again, up to the policy's tries in all, where it
/// ended by again, locked, newer, old or full; every other end ends it. Where the policy tidies, each written key is
/// tidied after a commit, and after a full that leaves a try the key that was full: a tidying, and where its bucket has
/// no room a collection of the bucket and the tidying once more.
#[derive(Debug, Drop)]
pub struct Driver {
    registers: Registers,
}

impl Model for Driver {
    ghost use Rattle.nam_protocol.specs.declared.session.DriverState.{DriverState};
    ghost use Rattle.nam_protocol.specs.RoomLaw.{DriverCounts};
    ghost use Rattle.nam_worker.specs.Driving.{driver_of};

    ghost Value = { DriverState };

    ghost view = { λ d. driver_of d.registers };

    ghost invariant = { λ d. DriverCounts (driver_of d.registers) };
}

/// The call of an operation.
fn call_of(op: &Op) -> Call
    ensures { result ≡ call_of op.now }
{
    match op {
        Op::Get { table, key } => Call::Txn(TxnCall::Get {
            table: *table,
            key: *key,
        }),
        Op::Put { table, key, value } => Call::Txn(TxnCall::Put {
            table: *table,
            key: *key,
            value: value.copy(),
        }),
        Op::Add {
            table,
            key,
            field,
            up,
            by,
        } => Call::Txn(TxnCall::Add {
            table: *table,
            key: *key,
            field: *field,
            up: *up,
            by: *by,
        }),
        Op::Del { table, key } => Call::Txn(TxnCall::Del {
            table: *table,
            key: *key,
        }),
        Op::Need {
            table,
            key,
            field,
            least,
        } => Call::Txn(TxnCall::Need {
            table: *table,
            key: *key,
            field: *field,
            least: *least,
        }),
        Op::Guard { table, key } => Call::Txn(TxnCall::Guard {
            table: *table,
            key: *key,
        }),
        Op::Scan { table, low, high } => Call::Scan {
            table: *table,
            low: *low,
            high: *high,
        },
    }
}

/// The call of the nth operation, or the commit after the last.
fn op_call(ops: &[Op], nth: u32) -> Call
    ensures { result ≡ op_call (slice_get ops.now nth) }
{
    match ops.get(nth as usize) {
        Some(op) => call_of(op),
        None => Call::Txn(TxnCall::Commit),
    }
}

/// The tidying of the nth of keys.
fn tidy_call(keys: &[Key], nth: u32) -> Call
    ensures { result ≡ Tidy (key_number keys.now nth).table (key_number keys.now nth).key }
{
    let key = keys.get(nth as usize).copied().unwrap_or_default();
    Call::Tidy {
        table: key.table,
        key: key.key,
    }
}

/// The call that a driver of this job stands at.
fn call_at(a: &Registers, job: &Job) -> Call
    ensures { result ≡ place_call job.now a.now.nth (point_of a.now.step a.now.keys) }
{
    match a.step {
        Step::Begin => Call::Begin {
            txn: job.txn,
            nth: a.nth,
        },
        Step::Ask { nth } => op_call(job.ops.as_slice(), nth),
        Step::Tidy { nth, .. } => tidy_call(a.keys.as_slice(), nth),
        Step::Collect { bucket, .. } => Call::Collect { bucket },
    }
}

impl Driver {
    /// The policy before the first job, which is tried at least once.
    pub fn new(policy: Policy) -> Driver
        requires { 1 ≤ policy.tries }
        ensures { result ≡ new_driver policy }
    {
        Driver {
            registers: Registers {
                policy,
                job: 0,
                nth: 1,
                step: Step::Begin,
                keys: ShortList::new(),
            },
        }
    }

    /// The policy that it follows.
    pub fn policy(&self) -> Policy
        ensures { result ≡ self.now.policy }
    {
        self.registers.policy
    }

    /// Whether all jobs are through.
    pub fn is_through(&self, jobs: &[Job]) -> bool
        ensures { result ≡ not (is_some (driver_next jobs.now self.now)) }
    {
        self.registers.job as usize >= jobs.len()
    }

    /// The next call of the policy. None exactly where all jobs are through.
    pub fn next(&self, jobs: &[Job]) -> Option<Call>
        ensures call { result ≡ driver_next jobs.now self.now }
        ensures through { IsNone result ↔ (length jobs.now ≤ self.now.job) }
    {
        let job = jobs.get(self.registers.job as usize)?;
        Some(call_at(&self.registers, job))
    }

    #[tactic(auto, using(crate::proofs::DriverLemmas::counts_taken))]
    /// Takes the answer to the next call. The jobs are the same at each call of this driver.
    pub fn take(&mut self, jobs: &[Job], answer: &Answer)
        requires asked { AnswersNext (driver_next jobs.now self.old) answer.now }
        requires jobs { AreJobs jobs.now }
        ensures { self.new ≡ driver_take jobs.now self.old answer.now }
    {
        take(&mut self.registers, jobs, answer);
    }

    /// Takes the answer of the open transaction to the next call: as `take` does, without a copy of it.
    pub fn take_txn(&mut self, jobs: &[Job], end: &TxnAnswer)
        requires asked { AnswersNext (driver_next jobs.now self.old) (Txn end.now) }
        requires jobs { AreJobs jobs.now }
        ensures { self.new ≡ driver_take jobs.now self.old (Txn end.now) }
    {
        take_end(&mut self.registers, jobs, end);
    }
}
