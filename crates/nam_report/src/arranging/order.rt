//! Commits in the order of a history.

ghost use Rattle.std.specs.Prelude.{◌≡◌, map, OnOk, IfOk};
ghost use Rattle.nam_report.specs.Depths.{line_of};
ghost use Rattle.nam_report.specs.Arranging.{in_order};

use crate::arranging::placed::Placed;
use si_model::CommitLine;
use std::alloc::{AllocError, Global};

/// Sorts by level, depth, worker and number, and keeps the order of commits in which these are the same.
fn sort(placed: &mut Vec<Placed>) -> Result<(), AllocError>
    ensures { OnOk result (placed.new.items ≡ in_order placed.old.items) }
{
    placed.sort_by_key(|commit| {
        (
            commit.level,
            commit.depth,
            commit.line.worker,
            commit.line.number,
        )
    })?;
    Ok(())
}

/// The entries of the commits.
fn into_entries(alloc: Global, placed: Vec<Placed>) -> Result<Vec<CommitLine>, AllocError>
    ensures { IfOk result (λ entries. map line_of placed.items ≡ entries.items) }
{
    let mut entries = Vec::new(alloc);
    for commit in placed {
        let Placed { line, .. } = commit;
        entries.push(line)?;
    }
    Ok(entries)
}

/// The entries of the commits, by level, depth, worker and number.
pub fn in_order(alloc: Global, placed: Vec<Placed>) -> Result<Vec<CommitLine>, AllocError>
    ensures { IfOk result (λ entries. map line_of (in_order placed.items) ≡ entries.items) }
{
    let mut placed = placed;
    sort(&mut placed)?;
    into_entries(alloc, placed)
}
