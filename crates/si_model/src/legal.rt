//! Legal histories: first committer wins.

ghost use Rattle.std.specs.Prelude.{◌≡◌, ◌^◌, ◌<◌, ◌≤◌, ◌-◌, [], length, map, take, not};
ghost use Rattle.std.specs.Prelude.{All, IfOk, IfSome, Decides, Some, None, slice_index_or};
ghost use Rattle.std.specs.List.{list_all, AllByRecursion};
ghost use Rattle.si_model.specs.Rows.{rows_of, writes_key};
ghost use Rattle.si_model.specs.Evaluation.{evaluation_of, OpFits, AreWide};
ghost use Rattle.si_model.specs.EvaluationLaws.{IsWide};
ghost use Rattle.si_model.specs.State.{state_at};
ghost use Rattle.si_model.specs.History.{none_writes, MayFollow, IsLegal};
ghost use Rattle.si_model.specs.Gives.{Gives};

use crate::committed::committed_at;
use crate::evaluated::Evaluated;
use crate::evaluation::eval_on;
use crate::keys::keys_of;
use crate::op::Op;
use crate::report::CommitLine;
use crate::row::{Item, Key, Row};
use std::alloc::{AllocError, Global};

/// Do the two write sets have the same items in the same order?
fn are_same(a: &[Item], b: &[Item]) -> bool
    ensures { Decides result (a.now ≡ b.now) }
{
    a == b
}

/// Does the write set write the key?
fn is_written(writes: &[Item], key: Key) -> bool
    ensures { result ≡ writes_key writes.now key }
{
    writes.iter().any(|item| item.key() == key)
}

/// Does the write set write none of the keys?
fn writes_none(writes: &[Item], keys: &[Key]) -> bool
    ensures { result ≡ list_all (λ key. not (writes_key writes.now key)) keys.now }
{
    keys.iter().all(|key| !is_written(writes, *key))
}

/// Does no entry write one of the keys?
fn none_writes(keys: &[Key], entries: &[CommitLine]) -> bool
    ensures { result ≡ none_writes keys.now entries.now }
{
    entries
        .iter()
        .all(|entry| writes_none(entry.writes.as_slice(), keys))
}

/// The operations of transaction `txn`, counted from 1.
fn job_of(jobs: &[Vec<Op>], txn: u32) -> Option<&[Op]>
    ensures found { IfSome result (λ ops.
        (1 ≤ txn) × (txn ≤ length jobs.now)
        × (ops.now ≡ slice_index_or (map (λ job. job.items) jobs.now) (txn - 1) [])) }
    ensures missing { result ≡ None → (1 ≤ txn) × (txn ≤ length jobs.now) → ⊥ }
{
    let place = txn.checked_sub(1)?;
    let job = jobs.get(place as usize)?;
    Some(job.as_slice())
}

/// What the operations do on the state after the first entries.
fn evaluated_at(
    alloc: Global,
    widths: &[u32],
    rows: &[Row],
    ops: &[Op],
    done: &[CommitLine],
    prefix: usize,
) -> Result<Evaluated, AllocError>
    requires fits { All (OpFits widths.now) ops.now }
    requires short { length ops.now < 2 ^ 32 }
    requires wide { AreWide widths.now (rows_of rows.now) }
    requires written { AllByRecursion (λ e. AllByRecursion (IsWide widths.now) e.writes) done.now }
    requires prefix { prefix ≤ length done.now }
    ensures { IfOk result (λ e.
        e ≡ evaluation_of widths.now (state_at (rows_of rows.now) (take prefix done.now)) ops.now) }
{
    let seen = committed_at(alloc, rows, done, prefix)?;
    eval_on(alloc, widths, ops, &seen)
}

/// Did the evaluation give this write set, and did no entry since write a key that it wrote or guarded?
fn gives(
    alloc: Global,
    evaluated: &Evaluated,
    writes: &[Item],
    since: &[CommitLine],
) -> Result<bool, AllocError>
    ensures { IfOk result (λ gives. Decides gives (Gives evaluated.now writes.now since.now)) }
{
    let Evaluated::Done {
        writes: made,
        guards,
        ..
    } = evaluated
    else {
        return Ok(false);
    };
    if writes.is_empty() || !are_same(made.as_slice(), writes) {
        return Ok(false);
    }
    let keys = keys_of(alloc, writes, guards.as_slice())?;
    Ok(none_writes(keys.as_slice(), since))
}

/// May the entry follow those that are done?
fn may_follow(
    alloc: Global,
    widths: &[u32],
    rows: &[Row],
    jobs: &[Vec<Op>],
    done: &[CommitLine],
    entry: &CommitLine,
) -> Result<bool, AllocError>
    requires fits { All (λ job. All (OpFits widths.now) job.items) jobs.now }
    requires short { All (λ job. length job.items < 2 ^ 32) jobs.now }
    requires wide { AreWide widths.now (rows_of rows.now) }
    requires written { AllByRecursion (λ e. AllByRecursion (IsWide widths.now) e.writes) done.now }
    ensures { IfOk result (λ may.
        let jobs = map (λ job. job.items) jobs.now in
        Decides may (MayFollow widths.now (rows_of rows.now) jobs done.now entry.now)) }
{
    let Some(ops) = job_of(jobs, entry.txn) else {
        return Ok(false);
    };
    if entry.prefix > done.len() as u64 {
        return Ok(false);
    }
    let prefix = entry.prefix as usize;
    let evaluated = evaluated_at(alloc, widths, rows, ops, done, prefix)?;
    let since = &done[prefix..];
    gives(alloc, &evaluated, entry.writes.as_slice(), since)
}

/// Is each entry a commit that may follow those before it: does it evaluate its transaction on the state at its
/// prefix, which is before it, and has no entry between written a key that it writes or guards? First committer
/// wins (Berenson and others 1995). Transaction x has the operations at place x - 1 of `jobs`; a number out of
/// range gives false. Each entry's state is built anew.
pub fn is_legal(
    alloc: Global,
    widths: &[u32],
    rows: &[Row],
    jobs: &[Vec<Op>],
    history: &[CommitLine],
) -> Result<bool, AllocError>
    requires fits { All (λ job. All (OpFits widths.now) job.items) jobs.now }
    requires short { All (λ job. length job.items < 2 ^ 32) jobs.now }
    requires wide { AreWide widths.now (rows_of rows.now) }
    ensures { IfOk result (λ legal.
        let jobs = map (λ job. job.items) jobs.now in
        Decides legal (IsLegal widths.now (rows_of rows.now) jobs history.now)) }
{
    for (place, entry) in history.iter().enumerate() {
        if !may_follow(alloc, widths, rows, jobs, &history[..place], entry)? {
            return Ok(false);
        }
    }
    Ok(true)
}
