//! Histories of the worked rows, and what makes them illegal.

ghost use Rattle.std.specs.Prelude.{◌≡◌, ◌^◌, ◌<◌, length, All, IsTrue};
ghost use Rattle.si_model.specs.Evaluation.{OpFits};

use super::{add, all_fit, all_wide, item, put, row, value};
use crate::{CommitLine, Item, Op, Row, is_legal};
use lists::List;
use std::alloc::{AllocError, Global};

fn fits(widths: &[u32], job: &Vec<Op>) -> bool
    ensures { IsTrue result → All (OpFits widths.now) job.now.items }
{
    all_fit(widths, job.as_slice())
}

fn is_short(job: &Vec<Op>) -> bool
    ensures { IsTrue result → length job.now.items < 2 ^ 32 }
{
    job.len() < 100
}

fn all_jobs_fit(widths: &[u32], jobs: &[Vec<Op>]) -> bool
    ensures { IsTrue result → All (λ job. All (OpFits widths.now) job.items) jobs.now }
{
    jobs.iter().all(|job| fits(widths, job))
}

fn all_are_short(jobs: &[Vec<Op>]) -> bool
    ensures { IsTrue result → All (λ job. length job.items < 2 ^ 32) jobs.now }
{
    jobs.iter().all(|job| is_short(job))
}

/// Is the history legal, over a table of width 1 that the jobs and rows fit?
fn legal(
    alloc: Global,
    rows: &[Row],
    jobs: &[Vec<Op>],
    history: &[CommitLine],
) -> Result<bool, AllocError> {
    let widths = [1];
    if all_jobs_fit(&widths, jobs) && all_are_short(jobs) && all_wide(&widths, rows) {
        return is_legal(alloc, &widths, rows, jobs, history);
    }
    Ok(false)
}

/// The entry of a commit that wrote one word.
fn line(
    alloc: Global,
    worker: u32,
    prefix: u64,
    txn: u32,
    (key, word): (u64, u64),
) -> Result<CommitLine, AllocError> {
    Ok(CommitLine {
        worker,
        number: 1,
        prefix,
        txn,
        writes: List::from_vec(vec![in alloc; item(key, Some(value(&[word])))]?),
    })
}

#[test]
fn first_committer_wins(rt: HostRuntime) -> Result<(), AllocError> {
    let alloc = rt.alloc();
    let rows = [row(0, 0, &[100])];
    let jobs = [
        vec![in alloc; add(0, true, 5)]?,
        vec![in alloc; add(0, true, 7)]?,
    ];
    let first = line(alloc, 1, 0, 1, (0, 105))?;
    let second = line(alloc, 2, 1, 2, (0, 112))?;
    let overtaken = line(alloc, 2, 0, 2, (0, 107))?;
    assert!(rt; legal(alloc, &rows, &jobs, &[first, second])?);
    let first = line(alloc, 1, 0, 1, (0, 105))?;
    assert!(rt; !legal(alloc, &rows, &jobs, &[first, overtaken])?);
    let first = line(alloc, 1, 0, 1, (0, 105))?;
    let second = line(alloc, 2, 1, 2, (0, 112))?;
    assert!(rt; !legal(alloc, &rows, &jobs, &[second, first])?);
    Ok(())
}

#[test]
fn write_skew_is_legal(rt: HostRuntime) -> Result<(), AllocError> {
    let alloc = rt.alloc();
    let rows = [row(0, 0, &[60]), row(0, 1, &[60])];
    let jobs = [
        vec![in alloc; Op::Get { table: 0, key: 1 }, add(0, false, 60)]?,
        vec![in alloc; Op::Get { table: 0, key: 0 }, add(1, false, 60)]?,
    ];
    let first = line(alloc, 1, 0, 1, (0, 0))?;
    let second = line(alloc, 2, 0, 2, (1, 0))?;
    assert!(rt; legal(alloc, &rows, &jobs, &[first, second])?);
    Ok(())
}

#[test]
fn snapshot_again_and_cause_without_effect_are_legal(rt: HostRuntime) -> Result<(), AllocError> {
    let alloc = rt.alloc();
    let rows = [row(0, 0, &[100]), row(0, 1, &[0])];
    let read = Op::Get { table: 0, key: 0 };
    let jobs = [
        vec![in alloc; add(0, true, 1)]?,
        vec![in alloc; read, put(1, 9)]?,
    ];
    let first = line(alloc, 1, 0, 1, (0, 101))?;
    assert!(rt; legal(alloc, &rows, &jobs, &[first])?);
    let first = line(alloc, 1, 0, 1, (0, 101))?;
    let second = line(alloc, 2, 1, 2, (1, 9))?;
    assert!(rt; legal(alloc, &rows, &jobs, &[first, second])?);
    Ok(())
}

/// A guarded key may not have been written since.
#[test]
fn guards_order_a_history(rt: HostRuntime) -> Result<(), AllocError> {
    let alloc = rt.alloc();
    let rows = [row(0, 0, &[60]), row(0, 1, &[60])];
    let guard = Op::Guard { table: 0, key: 0 };
    let jobs = [
        vec![in alloc; guard, put(1, 1)]?,
        vec![in alloc; put(0, 9)]?,
    ];
    let guarding = line(alloc, 2, 0, 1, (1, 1))?;
    let writing = line(alloc, 1, 0, 2, (0, 9))?;
    assert!(rt; legal(alloc, &rows, &jobs, &[guarding, writing])?);
    let guarding = line(alloc, 2, 0, 1, (1, 1))?;
    let writing = line(alloc, 1, 0, 2, (0, 9))?;
    assert!(rt; !legal(alloc, &rows, &jobs, &[writing, guarding])?);
    Ok(())
}

/// A transaction that there isn't, a prefix that is not before the entry, and an empty write set.
#[test]
fn entries_out_of_range_are_illegal(rt: HostRuntime) -> Result<(), AllocError> {
    let alloc = rt.alloc();
    let rows = [row(0, 0, &[100])];
    let jobs = [
        vec![in alloc; add(0, true, 5)]?,
        vec![in alloc; Op::Get { table: 0, key: 0 }]?,
    ];
    let no_transaction = line(alloc, 1, 0, 0, (0, 105))?;
    assert!(rt; !legal(alloc, &rows, &jobs, &[no_transaction])?);
    let no_transaction = line(alloc, 1, 0, 3, (0, 105))?;
    assert!(rt; !legal(alloc, &rows, &jobs, &[no_transaction])?);
    let own_prefix = line(alloc, 1, 1, 1, (0, 105))?;
    assert!(rt; !legal(alloc, &rows, &jobs, &[own_prefix])?);
    let nothing: Vec<Item> = Vec::new(alloc);
    let only_reads = CommitLine {
        worker: 1,
        number: 1,
        prefix: 0,
        txn: 2,
        writes: List::from_vec(nothing),
    };
    assert!(rt; !legal(alloc, &rows, &jobs, &[only_reads])?);
    assert!(rt; legal(alloc, &rows, &jobs, &[])?);
    Ok(())
}
