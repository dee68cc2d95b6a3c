//! The commits of the logs, as entries of a history.

ghost use Rattle.std.specs.Prelude.{◌≡◌, ◌<◌, ◌≤◌, ◌^◌, ◌++◌, length, OnOk, IfOk};
ghost use Rattle.std.specs.List.{AllByRecursion};
ghost use Rattle.si_model.specs.Tells.{total, writes_in, CountsFit};
ghost use Rattle.nam_report.specs.Lines.{line_at, lines_from, lines_by};

use si_model::{CommitLine, Event, Item, Log, Outcome, copy_items};
use std::alloc::{AllocError, Global};

/// Appends the entry of an event that is a commit, with a copy of the writes that it owns.
fn add_line(
    alloc: Global,
    lines: &mut Vec<CommitLine>,
    worker: u32,
    event: &Event,
    writes: &[Item],
) -> Result<(), AllocError>
    ensures { OnOk result (lines.new.items ≡ lines.old.items ++ line_at worker event.now writes.now) }
{
    if let Event::Tried(attempt) = event {
        if let Some(prefix) = attempt.prefix {
            if let Outcome::Commit { number } = &attempt.outcome {
                lines.push(CommitLine {
                    worker,
                    number: *number,
                    prefix,
                    txn: attempt.txn,
                    writes: copy_items(alloc, writes)?,
                })?;
            }
        }
    }
    Ok(())
}

/// Appends the entries of a worker's commits.
fn add_lines(
    alloc: Global,
    lines: &mut Vec<CommitLine>,
    worker: u32,
    events: &[Event],
    writes: &[Item],
) -> Result<(), AllocError>
    requires { total writes_in events.now ≤ length writes.now }
    ensures { OnOk result (lines.new.items ≡ lines.old.items ++ lines_from worker events.now writes.now) }
{
    let mut at = 0;
    for event in events {
        let end = at + event.writes() as usize;
        add_line(alloc, lines, worker, event, &writes[at..end])?;
        at = end;
    }
    Ok(())
}

/// The entries of all commits, worker after worker.
pub fn lines_of(alloc: Global, logs: &[Log]) -> Result<Vec<CommitLine>, AllocError>
    requires few { length logs.now < 2 ^ 31 }
    requires counts { AllByRecursion CountsFit logs.now }
    ensures { IfOk result (λ lines. lines.items ≡ lines_by 1 logs.now) }
{
    let mut lines = Vec::new(alloc);
    for (i, log) in logs.iter().enumerate() {
        add_lines(
            alloc,
            &mut lines,
            i as u32 + 1,
            log.events.as_slice(),
            log.writes.as_slice(),
        )?;
    }
    Ok(lines)
}
