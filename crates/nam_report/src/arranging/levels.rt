//! The levels of commits, found by search in the snapshots of the logs.

ghost use Rattle.std.specs.Prelude.{◌≡◌, ◌<◌, ◌-◌, ◌^◌, ◌++◌, min, true, slice_index, OnOk, IfOk, IsPermutation};
ghost use Rattle.std.specs.List.Sorted.{IsNonDecreasingBy};
ghost use Rattle.si_model.specs.Lists.{Pairwise};
ghost use Rattle.si_model.specs.History.{stamp_at};
ghost use Rattle.si_model.specs.Snapshots.{contains, sum_above};
ghost use Rattle.si_model.specs.Arranged.{level_from};
ghost use Rattle.nam_report.specs.Lines.{snaps_in_logs, referents, IsAtMost, AreSearchable, IsFirstWith};

use si_model::{Log, Snapshot};
use std::alloc::{AllocError, Global};

/// The snapshots in which the levels of commits are found, those of fewer commits first.
#[derive(Drop)]
pub struct Levels<'a> {
    pub snapshots: Vec<&'a Snapshot>,
    /// No entry of a snapshot is less than that of the one before it, so those that contain a commit are the tail.
    pub are_chained: bool,
    pub start: u64,
    /// The level of the commits that no snapshot contains.
    pub top: u64,
}

/// How many commits the snapshot contains, or the greatest number where they are more.
fn sum_above(snapshot: &Snapshot, start: u64) -> u64
    ensures { result ≡ min (sum_above start snapshot.now) (2 ^ 64 - 1) }
{
    let mut sum: u64 = 0;
    for number in snapshot.as_slice() {
        sum = sum.saturating_add(number.saturating_sub(start));
    }
    sum
}

/// The number at a place, and 0 where the snapshot has none.
fn entry_at(snapshot: &Snapshot, place: usize) -> u64
    ensures { result ≡ slice_index snapshot.now place }
{
    snapshot.as_slice().get(place).copied().unwrap_or(0)
}

fn contains(snapshot: &Snapshot, worker: u32, number: u64) -> bool
    ensures { result ≡ contains snapshot.now (stamp_at worker number) }
{
    worker > 0 && number <= entry_at(snapshot, worker as usize - 1)
}

fn is_at_most(snapshot: &Snapshot, next: &Snapshot) -> bool
    ensures { result ≡ true → IsAtMost snapshot.now next.now }
{
    for (place, number) in snapshot.as_slice().iter().enumerate() {
        if *number > entry_at(next, place) {
            return false;
        }
    }
    true
}

/// Is each snapshot at most the next one in every entry.
fn are_chained(snapshots: &[&Snapshot]) -> bool
    ensures { result ≡ true → Pairwise IsAtMost (referents snapshots.now) }
{
    for place in 1..snapshots.len() {
        if !is_at_most(snapshots[place - 1], snapshots[place]) {
            return false;
        }
    }
    true
}

/// Appends references to the snapshots of one log.
fn add_snapshots<'a>(
    found: &mut Vec<&'a Snapshot>,
    snapshots: &'a [Snapshot],
) -> Result<(), AllocError>
    ensures { OnOk result (referents found.new.items ≡ referents found.old.items ++ snapshots.now) }
{
    for snapshot in snapshots {
        found.push(snapshot)?;
    }
    Ok(())
}

/// References to the snapshots that the logs list, those of fewer commits first.
fn snapshots_of(alloc: Global, logs: &[Log], start: u64) -> Result<Vec<&Snapshot>, AllocError>
    ensures same { IfOk result (λ found. IsPermutation (snaps_in_logs logs.now) (referents found.items)) }
    ensures rise { IfOk result (λ found.
        IsNonDecreasingBy (λ snap. min (sum_above start snap.now) (2 ^ 64 - 1)) found.items) }
{
    let mut found = Vec::new(alloc);
    for log in logs {
        add_snapshots(&mut found, log.snaps.as_slice())?;
    }
    found.sort_by_cached_key(|snapshot| sum_above(snapshot, start))?;
    Ok(found)
}

/// Where the levels of commits are found, by the snapshots that the logs list.
pub fn levels_of(
    alloc: Global,
    logs: &[Log],
    start: u64,
    top: u64,
) -> Result<Levels<'_>, AllocError>
    ensures same { IfOk result (λ levels. IsPermutation (snaps_in_logs logs.now) (referents levels.snapshots.items)) }
    ensures searchable { IfOk result AreSearchable }
    ensures start { IfOk result (λ levels. levels.start ≡ start) }
    ensures top { IfOk result (λ levels. levels.top ≡ top) }
{
    let snapshots = snapshots_of(alloc, logs, start)?;
    let are_chained = are_chained(snapshots.as_slice());
    Ok(Levels {
        snapshots,
        are_chained,
        start,
        top,
    })
}

/// The place of the first snapshot of a chain that contains the commit, and the count of snapshots where none does.
fn first_in_chain(snapshots: &[&Snapshot], worker: u32, number: u64) -> usize
    requires { Pairwise IsAtMost (referents snapshots.now) }
    ensures { IsFirstWith (stamp_at worker number) snapshots.now result }
{
    snapshots.partition_point(|snapshot| !contains(snapshot, worker, number))
}

/// The same of snapshots in any order.
fn first_in_any(snapshots: &[&Snapshot], worker: u32, number: u64) -> usize
    ensures { IsFirstWith (stamp_at worker number) snapshots.now result }
{
    for (place, snapshot) in snapshots.iter().enumerate() {
        if contains(snapshot, worker, number) {
            return place;
        }
    }
    snapshots.len()
}

/// The place of the first snapshot that contains the commit, and the count of snapshots where none does.
fn first_with(levels: &Levels, worker: u32, number: u64) -> usize
    requires { AreSearchable levels.now }
    ensures { IsFirstWith (stamp_at worker number) levels.now.snapshots.items result }
{
    if levels.are_chained {
        first_in_chain(levels.snapshots.as_slice(), worker, number)
    } else {
        first_in_any(levels.snapshots.as_slice(), worker, number)
    }
}

/// The level of a commit: the least count of a snapshot that contains it, and `top` where none does.
pub fn level_by(levels: &Levels, worker: u32, number: u64) -> u64
    requires { AreSearchable levels.now }
    ensures { result
        ≡ level_from levels.now.start levels.now.top (referents levels.now.snapshots.items) (stamp_at worker number) }
{
    let first = first_with(levels, worker, number);
    match levels.snapshots.get(first) {
        Some(snapshot) => sum_above(snapshot, levels.start).min(levels.top),
        None => levels.top,
    }
}
