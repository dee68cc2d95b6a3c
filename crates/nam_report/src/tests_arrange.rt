ghost use Rattle.std.specs.Prelude.{◌≡◌, ◌+◌, ◌<◌, ◌≤◌, ◌^◌, [], ◌∷◌, length, replicate, Some, None, IfOk};
ghost use Rattle.std.specs.List.{AllByRecursion};
ghost use Rattle.si_model.specs.declared.log.Outcome.TheVariants.{Again, ReadOnly};
ghost use Rattle.nam_report.specs.ArrangedExamples.{AreReady, IsSized, attempt, commit, item, log};
ghost use Rattle.nam_report.specs.ArrangedExamples.{first_committer_logs, write_skew_logs, again_logs, cause_logs};
ghost use Rattle.nam_report.specs.ArrangedExamples.{guard_logs, unordered_logs, tied_logs};

use crate::arrange;
use lists::List;
use si_model::{Attempt, Event, Item, Lock, Log, Op, Outcome, Snapshot, Stamp, Value};
use std::alloc::{AllocError, Global};
use std::fmt::Write;
use std::test::Fail;

fn attempt(txn: u32, nth: u32, prefix: Option<u64>, writes: u32, outcome: Outcome) -> Event
    ensures { result ≡ attempt txn nth prefix writes outcome }
{
    Event::Tried(Attempt {
        txn,
        nth,
        prefix,
        reads: 0,
        locks: 0,
        writes,
        outcome,
    })
}

fn commit(txn: u32, nth: u32, prefix: u64, number: u64) -> Event
    ensures { result ≡ commit txn nth prefix number }
{
    attempt(txn, nth, Some(prefix), 1, Outcome::Commit { number })
}

fn value(word: u64) -> Value
    ensures { result ≡ word ∷ [] }
{
    let mut value = Value::new();
    value.push(word);
    value
}

fn item(key: u64, word: u64) -> Item
    ensures { result ≡ item key word }
{
    Item {
        table: 0,
        key,
        value: Some(value(word)),
    }
}

fn snapshot(numbers: &[u64]) -> Snapshot
    requires { length numbers.now < 4 }
    ensures { result ≡ numbers.now }
{
    let mut snapshot = Snapshot::new();
    for number in numbers {
        snapshot.push(*number);
    }
    snapshot
}

fn log(alloc: Global, events: Vec<Event>, writes: Vec<Item>, snaps: Vec<Snapshot>) -> Log
    ensures { result ≡ log events.items writes.items snaps.items }
{
    Log {
        events: List::from_vec(events),
        reads: List::new(alloc),
        locks: List::new(alloc),
        writes: List::from_vec(writes),
        snaps: List::from_vec(snaps),
    }
}

fn get(key: u64) -> Op {
    Op::Get { table: 0, key }
}

fn put(key: u64, word: u64) -> Op {
    Op::Put {
        table: 0,
        key,
        value: value(word),
    }
}

fn add(key: u64, up: bool, by: u64) -> Op {
    Op::Add {
        table: 0,
        key,
        field: 1,
        up,
        by,
    }
}

fn need(key: u64, least: u64) -> Op {
    Op::Need {
        table: 0,
        key,
        field: 1,
        least,
    }
}

/// The log of a worker that commits one key.
fn one_commit(
    alloc: Global,
    txn: u32,
    prefix: u64,
    write: Item,
    seen: Snapshot,
) -> Result<Log, AllocError>
    ensures { IfOk result (λ l. l ≡ log (commit txn 1 prefix 1 ∷ []) (write ∷ []) (seen ∷ [])) }
{
    let events = vec![in alloc; commit(txn, 1, prefix, 1)]?;
    let writes = vec![in alloc; write]?;
    let snaps = vec![in alloc; seen]?;
    Ok(log(alloc, events, writes, snaps))
}

/// The log of a worker whose first snapshot is taken again.
fn read_again(
    alloc: Global,
    txn: u32,
    found: u32,
    prefix: u64,
    seen: Snapshot,
) -> Result<Log, AllocError>
    ensures { IfOk result (λ l.
        let again = attempt txn 1 None 0 (Again found 0 1) in
        l ≡ log (again ∷ attempt txn 2 (Some prefix) 0 ReadOnly ∷ []) [] (seen ∷ [])) }
{
    let again = Outcome::Again {
        worker: found,
        first: 0,
        second: 1,
    };
    let first = attempt(txn, 1, None, 0, again);
    let second = attempt(txn, 2, Some(prefix), 0, Outcome::ReadOnly);
    let events = vec![in alloc; first, second]?;
    let snaps = vec![in alloc; seen]?;
    Ok(log(alloc, events, Vec::new(alloc), snaps))
}

fn first_committer_jobs(alloc: Global) -> Result<Vec<Vec<Op>>, AllocError> {
    let first = vec![in alloc; add(0, true, 5)]?;
    let second = vec![in alloc; add(0, true, 7)]?;
    Ok(vec![in alloc; first, second]?)
}

fn first_committer_logs(alloc: Global) -> Result<Vec<Log>, AllocError>
    ensures { IfOk result (λ logs. logs.items ≡ first_committer_logs) }
{
    let first = one_commit(alloc, 1, 0, item(0, 105), snapshot(&[0, 0]))?;
    let stamp = Stamp {
        thread: 1,
        number: 1,
    };
    let newer = Outcome::Newer(Lock {
        table: 0,
        key: 0,
        stamp,
    });
    let events = vec![in alloc; attempt(2, 1, Some(0), 0, newer), commit(2, 2, 1, 1)]?;
    let writes = vec![in alloc; item(0, 112)]?;
    let snaps = vec![in alloc; snapshot(&[0, 0]), snapshot(&[1, 0])]?;
    let second = log(alloc, events, writes, snaps);
    Ok(vec![in alloc; first, second]?)
}

fn write_skew_jobs(alloc: Global) -> Result<Vec<Vec<Op>>, AllocError> {
    let first = vec![in alloc; need(0, 60), need(1, 60), add(0, false, 60)]?;
    let second = vec![in alloc; need(0, 60), need(1, 60), add(1, false, 60)]?;
    Ok(vec![in alloc; first, second]?)
}

fn write_skew_logs(alloc: Global) -> Result<Vec<Log>, AllocError>
    ensures { IfOk result (λ logs. logs.items ≡ write_skew_logs) }
{
    let first = one_commit(alloc, 1, 0, item(0, 0), snapshot(&[0, 0]))?;
    let second = one_commit(alloc, 2, 0, item(1, 0), snapshot(&[0, 0]))?;
    Ok(vec![in alloc; first, second]?)
}

fn again_jobs(alloc: Global) -> Result<Vec<Vec<Op>>, AllocError> {
    let first = vec![in alloc; get(0)]?;
    let second = vec![in alloc; add(0, true, 1)]?;
    Ok(vec![in alloc; first, second]?)
}

fn again_logs(alloc: Global) -> Result<Vec<Log>, AllocError>
    ensures { IfOk result (λ logs. logs.items ≡ again_logs) }
{
    let first = read_again(alloc, 1, 2, 1, snapshot(&[0, 1]))?;
    let second = one_commit(alloc, 2, 0, item(0, 101), snapshot(&[0, 0]))?;
    Ok(vec![in alloc; first, second]?)
}

fn cause_jobs(alloc: Global) -> Result<Vec<Vec<Op>>, AllocError> {
    let first = vec![in alloc; add(0, true, 1)]?;
    let second = vec![in alloc; get(0), put(1, 9)]?;
    let third = vec![in alloc; get(0), get(1)]?;
    Ok(vec![in alloc; first, second, third]?)
}

fn cause_logs(alloc: Global) -> Result<Vec<Log>, AllocError>
    ensures { IfOk result (λ logs. logs.items ≡ cause_logs) }
{
    let first = one_commit(alloc, 1, 0, item(0, 101), snapshot(&[0, 0, 0]))?;
    let second = one_commit(alloc, 2, 1, item(1, 9), snapshot(&[1, 0, 0]))?;
    let third = read_again(alloc, 3, 1, 2, snapshot(&[1, 1, 0]))?;
    Ok(vec![in alloc; first, second, third]?)
}

fn guard_jobs(alloc: Global) -> Result<Vec<Vec<Op>>, AllocError> {
    let first = vec![in alloc; Op::Guard { table: 0, key: 0 }, put(1, 1)]?;
    let second = vec![in alloc; put(0, 9)]?;
    Ok(vec![in alloc; first, second]?)
}

fn guard_logs(alloc: Global) -> Result<Vec<Log>, AllocError>
    ensures { IfOk result (λ logs. logs.items ≡ guard_logs) }
{
    let first = one_commit(alloc, 2, 0, item(0, 9), snapshot(&[0, 0]))?;
    let second = one_commit(alloc, 1, 0, item(1, 1), snapshot(&[0, 0]))?;
    Ok(vec![in alloc; first, second]?)
}

fn unordered_logs(alloc: Global) -> Result<Vec<Log>, AllocError>
    ensures { IfOk result (λ logs. logs.items ≡ unordered_logs) }
{
    let first = one_commit(alloc, 1, 2, item(0, 1), snapshot(&[0, 2]))?;
    let second = one_commit(alloc, 1, 1, item(1, 1), snapshot(&[1, 0]))?;
    Ok(vec![in alloc; first, second]?)
}

fn tied_logs(alloc: Global) -> Result<Vec<Log>, AllocError>
    ensures { IfOk result (λ logs. logs.items ≡ tied_logs) }
{
    let events = vec![in alloc; commit(2, 1, 0, 1), commit(1, 1, 0, 1)]?;
    let writes = vec![in alloc; item(5, 1), item(3, 1)]?;
    let snaps = vec![in alloc; snapshot(&[0]), snapshot(&[0])]?;
    Ok(vec![in alloc; log(alloc, events, writes, snaps)]?)
}

/// The order of a history, each entry by worker, number, prefix, transaction and the keys that it writes.
fn order_of(alloc: Global, jobs: &[Vec<Op>], logs: &[Log]) -> Result<String, AllocError>
    requires { AreReady logs.now }
{
    let history = arrange(alloc, &[], jobs, logs, 0)?;
    let mut text = String::new(alloc);
    for line in history.as_slice() {
        write!(
            text,
            "{} {} {} {}",
            line.worker, line.number, line.prefix, line.txn
        )?;
        for item in line.writes.as_slice() {
            write!(text, " {}", item.key)?;
        }
        text.push(',')?;
    }
    Ok(text)
}

fn first_committer_order(alloc: Global) -> Result<String, AllocError> {
    let jobs = first_committer_jobs(alloc)?;
    let logs = first_committer_logs(alloc)?;
    order_of(alloc, jobs.as_slice(), logs.as_slice())
}

fn write_skew_order(alloc: Global) -> Result<String, AllocError> {
    let jobs = write_skew_jobs(alloc)?;
    let logs = write_skew_logs(alloc)?;
    order_of(alloc, jobs.as_slice(), logs.as_slice())
}

fn again_order(alloc: Global) -> Result<String, AllocError> {
    let jobs = again_jobs(alloc)?;
    let logs = again_logs(alloc)?;
    order_of(alloc, jobs.as_slice(), logs.as_slice())
}

fn cause_order(alloc: Global) -> Result<String, AllocError> {
    let jobs = cause_jobs(alloc)?;
    let logs = cause_logs(alloc)?;
    order_of(alloc, jobs.as_slice(), logs.as_slice())
}

fn guard_order(alloc: Global) -> Result<String, AllocError> {
    let jobs = guard_jobs(alloc)?;
    let logs = guard_logs(alloc)?;
    order_of(alloc, jobs.as_slice(), logs.as_slice())
}

fn unordered_order(alloc: Global) -> Result<String, AllocError> {
    let jobs = sized_jobs(alloc)?;
    let logs = unordered_logs(alloc)?;
    order_of(alloc, jobs.as_slice(), logs.as_slice())
}

fn tied_order(alloc: Global) -> Result<String, AllocError> {
    let jobs = sized_jobs(alloc)?;
    let logs = tied_logs(alloc)?;
    order_of(alloc, jobs.as_slice(), logs.as_slice())
}

/// A snapshot of the loaded state.
fn zeros(workers: u64) -> Snapshot
    requires { workers ≤ 16 }
    ensures { result ≡ replicate workers 0 }
{
    let mut snapshot = Snapshot::new();
    for _worker in 0..workers {
        snapshot.push(0);
    }
    snapshot
}

/// The log of one of so many workers. Each commit writes a key of its own.
fn sized_log(alloc: Global, workers: u64, first_key: u64, commits: u64) -> Result<Log, AllocError>
    requires workers { workers ≤ 16 }
    requires keys { first_key + commits < 2 ^ 64 }
    ensures { IfOk result (IsSized workers commits) }
{
    let mut events = List::new(alloc);
    let mut writes = List::new(alloc);
    let mut snaps = List::new(alloc);
    for place in 0..commits {
        events.push(commit(1, 1, 0, place + 1))?;
        writes.push(item(first_key + place, place))?;
        snaps.push(zeros(workers))?;
    }
    Ok(Log {
        events,
        reads: List::new(alloc),
        locks: List::new(alloc),
        writes,
        snaps,
    })
}

fn sized_logs(alloc: Global, workers: u64, commits: u64) -> Result<Vec<Log>, AllocError>
    requires workers { workers ≤ 16 }
    requires commits { commits ≤ 4096 }
    ensures long { IfOk result (λ logs. length logs.items ≡ workers) }
    ensures sized { IfOk result (λ logs. AllByRecursion (IsSized workers commits) logs.items) }
{
    let mut logs = Vec::new(alloc);
    for worker in 0..workers {
        logs.push(sized_log(alloc, workers, worker * 4096, commits)?)?;
    }
    Ok(logs)
}

/// The length of a history, and its first and its last entry by worker and number.
fn ends_of(alloc: Global, jobs: &[Vec<Op>], logs: &[Log]) -> Result<String, AllocError>
    requires { AreReady logs.now }
{
    let history = arrange(alloc, &[], jobs, logs, 0)?;
    let mut text = String::new(alloc);
    write!(text, "{}", history.len())?;
    if let Some(first) = history.first() {
        write!(text, " {} {}", first.worker, first.number)?;
    }
    if let Some(last) = history.last() {
        write!(text, " {} {}", last.worker, last.number)?;
    }
    Ok(text)
}

fn sized_jobs(alloc: Global) -> Result<Vec<Vec<Op>>, AllocError> {
    let job = vec![in alloc; put(0, 0)]?;
    Ok(vec![in alloc; job]?)
}

fn sized_ends(alloc: Global, workers: u64, commits: u64) -> Result<String, AllocError>
    requires workers { workers ≤ 16 }
    requires commits { commits ≤ 4096 }
{
    let jobs = sized_jobs(alloc)?;
    let logs = sized_logs(alloc, workers, commits)?;
    ends_of(alloc, jobs.as_slice(), logs.as_slice())
}

#[test]
fn orders_of_worked_examples(rt: HostRuntime) -> Result<(), Fail> {
    let alloc = rt.alloc();
    assert_eq!(rt;
        first_committer_order(alloc)?.as_str(),
        "1 1 0 1 0,2 1 1 2 0,"
    );
    assert_eq!(rt; write_skew_order(alloc)?.as_str(), "1 1 0 1 0,2 1 0 2 1,");
    assert_eq!(rt; again_order(alloc)?.as_str(), "2 1 0 2 0,");
    assert_eq!(rt; cause_order(alloc)?.as_str(), "1 1 0 1 0,2 1 1 2 1,");
    assert_eq!(rt; guard_order(alloc)?.as_str(), "2 1 0 1 1,1 1 0 2 0,");
    Ok(())
}

/// The first snapshot by count has what the second lacks, so neither comes before the other.
#[test]
fn order_by_unordered_snapshots(rt: HostRuntime) -> Result<(), Fail> {
    let order = unordered_order(rt.alloc())?;
    assert_eq!(rt; order.as_str(), "1 1 2 1 0,2 1 1 1 1,");
    Ok(())
}

/// Two commits of one number keep their order, and the transaction of one is beyond the jobs.
#[test]
fn order_of_tied_commits(rt: HostRuntime) -> Result<(), Fail> {
    let order = tied_order(rt.alloc())?;
    assert_eq!(rt; order.as_str(), "1 1 0 2 5,1 1 0 1 3,");
    Ok(())
}

#[test]
fn order_of_many_commits(rt: HostRuntime) -> Result<(), Fail> {
    let ends = sized_ends(rt.alloc(), 16, 512)?;
    assert_eq!(rt; ends.as_str(), "8192 1 1 16 512");
    Ok(())
}
