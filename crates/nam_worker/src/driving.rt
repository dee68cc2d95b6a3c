//! What a driver has at hand, and what it does with an answer.

ghost use Rattle.std.specs.Prelude.{◌≡◌, ◌≤◌, ◌<◌, ◌+◌, ◌^◌, true, slice_get};
ghost use Rattle.std.specs.List.{AllByRecursion};
ghost use Rattle.nam_protocol.specs.declared.client.Answer.TheVariants.{Txn};
ghost use Rattle.nam_protocol.specs.AttemptLaw.{has_passed};
ghost use Rattle.nam_protocol.specs.Driver.{next_job, next_try, retried, tidying, on_full, on_commit};
ghost use Rattle.nam_protocol.specs.Driver.{on_txn, on_begin, on_ask, on_tidy, keys_of_job, driver_next, driver_take};
ghost use Rattle.nam_protocol.specs.RoomLaw.{DriverCounts, TidyCounts};
ghost use Rattle.nam_worker.specs.Answering.{AnswersNext, AreJobs, IsJob, goes_on};
ghost use Rattle.nam_worker.specs.Driving.{driver_of};

use crate::keys::written_keys;
use lists::ShortList;
use nam_protocol::{Answer, Job, TxnAnswer};
use si_model::{Key, Lock, Policy};

/// What is to be asked next of a try. Operations and keys are counted from 0.
#[derive(Clone, Copy, Debug, PartialEq, Eq)]
pub enum Step {
    /// Its begin.
    Begin,
    /// An operation, or the commit after the last.
    Ask { nth: u32 },
    /// The tidying of a key: once more, after a collection, or for the first time. After the last key the job is tried
    /// again, or has ended.
    Tidy { nth: u32, again: bool, retry: bool },
    /// The collection of a bucket that had no room for the key.
    Collect { bucket: u32, nth: u32, retry: bool },
}

/// A driver's registers. The keys that are tidied stay where they are from key to key.
#[derive(Debug, Drop)]
pub struct Registers {
    pub policy: Policy,
    pub job: u32,
    pub nth: u32,
    pub step: Step,
    pub keys: ShortList<Key, 16>,
}

fn next_job(a: &mut Registers)
    requires { a.old.job + 1 < 2 ^ 32 }
    ensures { driver_of a.new ≡ next_job (driver_of a.old) }
{
    a.job += 1;
    a.nth = 1;
    a.step = Step::Begin;
}

fn next_try(a: &mut Registers)
    requires { a.old.nth < a.old.policy.tries }
    ensures { driver_of a.new ≡ next_try (driver_of a.old) }
{
    prove!(a.nth < a.policy.tries);
    a.nth += 1;
    a.step = Step::Begin;
}

/// The job is tried again, up to so many tries in all.
fn retried(a: &mut Registers)
    requires jobs { a.old.job + 1 < 2 ^ 32 }
    requires tries { a.old.nth ≤ a.old.policy.tries }
    ensures { driver_of a.new ≡ retried (driver_of a.old) }
{
    if a.nth == a.policy.tries {
        next_job(a);
    } else {
        next_try(a);
    }
}

/// The keys from the nth on are tidied; then the job is tried again or has ended.
fn tidying(a: &mut Registers, nth: u32, retry: bool)
    requires jobs { a.old.job + 1 < 2 ^ 32 }
    requires tries { retry ≡ true → a.old.nth < a.old.policy.tries }
    ensures { driver_of a.new ≡ tidying (driver_of a.old) a.old.keys nth retry }
{
    if nth as usize == a.keys.len() {
        if retry {
            next_try(a);
        } else {
            next_job(a);
        }
    } else {
        a.step = Step::Tidy {
            nth,
            again: false,
            retry,
        };
    }
}

/// Where a try is left, the key that was full is tidied before it.
fn on_full(a: &mut Registers, lock: &Lock)
    requires jobs { a.old.job + 1 < 2 ^ 32 }
    requires tries { a.old.nth ≤ a.old.policy.tries }
    ensures { driver_of a.new ≡ on_full (driver_of a.old) lock.now }
{
    if a.nth == a.policy.tries || !a.policy.tidy {
        retried(a);
    } else {
        a.keys.clear();
        a.keys.push(lock.key());
        tidying(a, 0, true);
    }
}

/// The keys that the nth job writes.
fn keys_of_job(jobs: &[Job], nth: u32) -> ShortList<Key, 16>
    requires { AllByRecursion IsJob jobs.now }
    ensures { result ≡ keys_of_job (slice_get jobs.now nth) }
{
    match jobs.get(nth as usize) {
        Some(job) => written_keys(job.ops.as_slice()).unwrap_or(ShortList::new()),
        None => ShortList::new(),
    }
}

/// After a commit each written key is tidied.
fn on_commit(a: &mut Registers, jobs: &[Job])
    requires jobs { a.old.job + 1 < 2 ^ 32 }
    requires few { AllByRecursion IsJob jobs.now }
    ensures { driver_of a.new ≡ on_commit jobs.now (driver_of a.old) }
{
    if a.policy.tidy {
        a.keys = keys_of_job(jobs, a.job);
        tidying(a, 0, false);
    } else {
        next_job(a);
    }
}

/// What follows the answer of the nth operation, or of the commit.
fn on_txn(a: &mut Registers, jobs: &[Job], nth: u32, end: &TxnAnswer)
    requires jobs { a.old.job + 1 < 2 ^ 32 }
    requires tries { a.old.nth ≤ a.old.policy.tries }
    requires few { AllByRecursion IsJob jobs.now }
    requires more { has_passed end.now ≡ true → nth + 1 < 2 ^ 32 }
    ensures { driver_of a.new ≡ on_txn jobs.now (driver_of a.old) nth end.now }
{
    match end {
        TxnAnswer::Value(_) | TxnAnswer::Written | TxnAnswer::Added(_) | TxnAnswer::Met => {
            a.step = Step::Ask { nth: nth + 1 };
        }
        TxnAnswer::Committed { .. } => on_commit(a, jobs),
        TxnAnswer::ReadOnly
        | TxnAnswer::NoSpace { .. }
        | TxnAnswer::Declined
        | TxnAnswer::Spent
        | TxnAnswer::Astray => next_job(a),
        TxnAnswer::TooOld { .. } | TxnAnswer::Locked(_) | TxnAnswer::Newer(_) => retried(a),
        TxnAnswer::Full(lock) => on_full(a, lock),
    }
}

/// What follows the begin's answer.
fn on_begin(a: &mut Registers, answer: &Answer)
    requires jobs { a.old.job + 1 < 2 ^ 32 }
    requires tries { a.old.nth ≤ a.old.policy.tries }
    ensures { driver_of a.new ≡ on_begin (driver_of a.old) answer.now }
{
    match answer {
        Answer::Begun { .. } => a.step = Step::Ask { nth: 0 },
        _ => retried(a),
    }
}

/// What follows the answer of the nth operation, or of the commit.
fn on_ask(a: &mut Registers, jobs: &[Job], nth: u32, answer: &Answer)
    requires jobs { a.old.job + 1 < 2 ^ 32 }
    requires tries { a.old.nth ≤ a.old.policy.tries }
    requires few { AllByRecursion IsJob jobs.now }
    requires more { goes_on answer.now ≡ true → nth + 1 < 2 ^ 32 }
    ensures { driver_of a.new ≡ on_ask jobs.now (driver_of a.old) nth answer.now }
{
    match answer {
        Answer::Txn(end) => on_txn(a, jobs, nth, end),
        _ => a.step = Step::Ask { nth: nth + 1 },
    }
}

/// What follows the tidying of the nth key. A bucket without room is collected once for a key.
fn on_tidy(a: &mut Registers, nth: u32, again: bool, retry: bool, answer: &Answer)
    requires jobs { a.old.job + 1 < 2 ^ 32 }
    requires counts { TidyCounts a.old.policy.tries a.old.nth a.old.keys nth retry }
    ensures { driver_of a.new ≡ on_tidy (driver_of a.old) a.old.keys nth again retry answer.now }
{
    match answer {
        Answer::NoRoom { bucket } if !again => {
            a.step = Step::Collect {
                bucket: *bucket,
                nth,
                retry,
            };
        }
        _ => {
            // There are at most 16 keys.
            let _keys = a.keys.len();
            tidying(a, nth + 1, retry)
        }
    }
}

#[tactic(auto, using(crate::proofs::DriverLemmas::job_follows, crate::proofs::DriverLemmas::more_follow))]
/// Takes the answer to the next call.
pub fn take(a: &mut Registers, jobs: &[Job], answer: &Answer)
    requires counts { DriverCounts (driver_of a.old) }
    requires asked { AnswersNext (driver_next jobs.now (driver_of a.old)) answer.now }
    requires jobs { AreJobs jobs.now }
    ensures { driver_of a.new ≡ driver_take jobs.now (driver_of a.old) answer.now }
{
    match a.step {
        Step::Begin => on_begin(a, answer),
        Step::Ask { nth } => on_ask(a, jobs, nth, answer),
        Step::Tidy { nth, again, retry } => on_tidy(a, nth, again, retry, answer),
        Step::Collect { nth, retry, .. } => {
            a.step = Step::Tidy {
                nth,
                again: true,
                retry,
            };
        }
    }
}

/// Takes the answer of the transaction to the next call.
#[tactic(auto, using(crate::proofs::DriverLemmas::job_follows, crate::proofs::DriverLemmas::more_follow))]
pub fn take_end(a: &mut Registers, jobs: &[Job], end: &TxnAnswer)
    requires counts { DriverCounts (driver_of a.old) }
    requires asked { AnswersNext (driver_next jobs.now (driver_of a.old)) (Txn end.now) }
    requires jobs { AreJobs jobs.now }
    ensures { driver_of a.new ≡ driver_take jobs.now (driver_of a.old) (Txn end.now) }
{
    match a.step {
        Step::Ask { nth } => on_txn(a, jobs, nth, end),
        _ => take_other(a, jobs, end),
    }
}

// The same where no operation or commit was asked.
#[inline(never)]
fn take_other(a: &mut Registers, jobs: &[Job], end: &TxnAnswer)
    requires counts { DriverCounts (driver_of a.old) }
    requires asked { AnswersNext (driver_next jobs.now (driver_of a.old)) (Txn end.now) }
    requires jobs { AreJobs jobs.now }
    ensures { driver_of a.new ≡ driver_take jobs.now (driver_of a.old) (Txn end.now) }
{
    take(a, jobs, &Answer::Txn(end.copy()));
}
