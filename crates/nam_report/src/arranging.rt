//! The order of a history.

ghost use Rattle.std.specs.Prelude.{◌≡◌, ◌<◌, ◌^◌, length, map, IfOk};
ghost use Rattle.std.specs.List.{AllByRecursion};
ghost use Rattle.si_model.specs.Tells.{CountsFit, tells_of};
ghost use Rattle.nam_report.specs.Arranging.{arranged};

mod depths;
mod levels;
mod lines;
mod order;
mod placed;

use crate::arranging::depths::settle;
use crate::arranging::levels::levels_of;
use crate::arranging::lines::lines_of;
use crate::arranging::order::in_order;
use crate::arranging::placed::place_all;
use si_model::{CommitLine, Log, Op, Row};
use std::alloc::{AllocError, Global};

/// The history of the logs: the commits that they list, by level, depth, worker and number, and where these are the
/// same in the order of the logs.
///
/// The level of a commit is the least prefix of a listed snapshot that contains it, and one more than the number of
/// commits where none does. Its depth is one more than the greatest of those of its level that guard a key that it
/// writes, and 0 where none does, so a commit that guards a key comes before one that overtakes it. Jobs are the
/// operations of the transactions, transaction 1 first, and `start` is the number of each worker's commits before its
/// log. The guards are read off the operations: they are the guarded keys that none of them writes. So the loaded
/// rows are not needed.
///
/// The logs may say anything, as those that are read from a text. Of logs that can be arranged, which have an order by
/// their snapshots and no circle of guards within a level, the history is the arranged one (`arranged_law`). In a
/// circle the depths are those after as many rounds as there are commits. A transaction beyond the jobs guards nothing.
///
/// Takes memory for a copy of each write set, for each snapshot's address, for the guarded keys of each commit, twice,
/// and for the sorts. It is at most n log n in these, times one more than the greatest depth, where each two snapshots
/// are ordered in every entry; where they are not, it looks at each snapshot for each commit. An error says that memory
/// was not found.
pub fn arrange(
    alloc: Global,
    rows: &[Row],
    jobs: &[Vec<Op>],
    logs: &[Log],
    start: u64,
) -> Result<Vec<CommitLine>, AllocError>
    requires few { length logs.now < 2 ^ 31 }
    requires counts { AllByRecursion CountsFit logs.now }
    ensures { IfOk result (λ history.
        history.items ≡ arranged start (map (tells_of (map (λ job. job.items) jobs.now)) logs.now)) }
{
    let lines = lines_of(alloc, logs)?;
    let top = lines.len() as u64 + 1;
    let levels = levels_of(alloc, logs, start, top)?;
    let mut placed = place_all(alloc, lines, jobs, &levels)?;
    settle(alloc, &mut placed)?;
    in_order(alloc, placed)
}
