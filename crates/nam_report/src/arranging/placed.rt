//! Commits with what places them in the order of a history.

ghost use Rattle.std.specs.Prelude.{◌≡◌, ◌-◌, [], map, slice_index_or, IfOk};
ghost use Rattle.si_model.specs.Arranged.{level_from};
ghost use Rattle.nam_report.specs.Lines.{referents, AreSearchable};
ghost use Rattle.nam_report.specs.Depths.{placed_with};

use crate::arranging::levels::{Levels, level_by};
use lists::List;
use si_model::{CommitLine, Key, Op, guard_keys};
use std::alloc::{AllocError, Global};

/// A commit, with its level and depth and the keys that it guards.
#[derive(Drop)]
pub struct Placed {
    pub level: u64,
    pub depth: u64,
    pub guards: List<Key>,
    pub line: CommitLine,
}

/// A key of a table, as the commits of one level guard or write it.
#[derive(Clone, Copy, PartialEq, Eq, PartialOrd, Ord)]
pub struct LevelKey {
    pub level: u64,
    pub key: Key,
}

/// The operations of a transaction, and none where there are fewer transactions. Number 0 has those of number 1.
fn ops_of(jobs: &[Vec<Op>], txn: u32) -> &[Op]
    ensures { result.now ≡ slice_index_or (map (λ job. job.items) jobs.now) (txn - 1) [] }
{
    match jobs.get((txn as usize).saturating_sub(1)) {
        Some(job) => job.as_slice(),
        None => &[],
    }
}

/// A commit at its level, at depth 0.
fn place(
    alloc: Global,
    line: CommitLine,
    jobs: &[Vec<Op>],
    levels: &Levels,
) -> Result<Placed, AllocError>
    requires { AreSearchable levels.now }
    ensures { IfOk result (λ placed.
        let level = level_from levels.now.start levels.now.top (referents levels.now.snapshots.items) in
        placed ≡ placed_with level (map (λ job. job.items) jobs.now) line) }
{
    let level = level_by(levels, line.worker, line.number);
    let guards = guard_keys(alloc, ops_of(jobs, line.txn))?;
    Ok(Placed {
        level,
        depth: 0,
        guards,
        line,
    })
}

/// The commits at their levels, at depth 0.
pub fn place_all(
    alloc: Global,
    lines: Vec<CommitLine>,
    jobs: &[Vec<Op>],
    levels: &Levels,
) -> Result<Vec<Placed>, AllocError>
    requires { AreSearchable levels.now }
    ensures { IfOk result (λ placed.
        let level = level_from levels.now.start levels.now.top (referents levels.now.snapshots.items) in
        placed.items ≡ map (placed_with level (map (λ job. job.items) jobs.now)) lines.items) }
{
    let mut placed = Vec::new(alloc);
    for line in lines {
        placed.push(place(alloc, line, jobs, levels)?)?;
    }
    Ok(placed)
}
