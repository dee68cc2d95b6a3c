//! The room that a worker's jobs need.

ghost use Rattle.std.specs.Prelude.{◌≡◌, ◌≤◌, ◌<◌, ◌*◌, ◌^◌};
ghost use Rattle.std.specs.List.{AllByRecursion};
ghost use Rattle.si_model.specs.Evaluation.{OpFits};
ghost use Rattle.nam_catalog.specs.Tables.{widths_of};
ghost use Rattle.nam_protocol.specs.Left.{op_weight, ops_weight, jobs_weight, writes_in, jobs_writes, room_for};
ghost use Rattle.nam_worker.specs.Needs.{FitsTables, IsSmall};

use nam_layout::Layout;
use nam_protocol::Job;
use si_model::{Op, Policy};

/// A scan counts as as many operations as its table has positions.
fn op_weight(layout: &Layout, op: &Op) -> u64
    requires { OpFits (widths_of layout.now.tables) op.now }
    ensures { result ≡ op_weight layout.now op.now }
{
    match op {
        Op::Scan { table, .. } => u64::from(layout.capacity(*table)),
        _ => 1,
    }
}

fn ops_weight(layout: &Layout, ops: &[Op]) -> u64
    requires ops { AllByRecursion (OpFits (widths_of layout.now.tables)) ops.now }
    requires small { ops_weight layout.now ops.now < 2 ^ 64 }
    ensures { result ≡ ops_weight layout.now ops.now }
{
    let mut weight = 0;
    for op in ops {
        weight += op_weight(layout, op);
    }
    weight
}

fn jobs_weight(layout: &Layout, jobs: &[Job]) -> u64
    requires jobs { AllByRecursion (FitsTables layout.now) jobs.now }
    requires small { jobs_weight layout.now jobs.now < 2 ^ 64 }
    ensures { result ≡ jobs_weight layout.now jobs.now }
{
    let mut weight = 0;
    for job in jobs {
        weight += ops_weight(layout, job.ops.as_slice());
    }
    weight
}

/// How many of the operations write.
fn writes_in(ops: &[Op]) -> u64
    requires { writes_in ops.now < 2 ^ 64 }
    ensures { result ≡ writes_in ops.now }
{
    let mut writes = 0;
    for op in ops {
        if op.key_written().is_some() {
            writes += 1;
        }
    }
    writes
}

fn jobs_writes(jobs: &[Job]) -> u64
    requires { jobs_writes jobs.now < 2 ^ 64 }
    ensures { result ≡ jobs_writes jobs.now }
{
    let mut writes = 0;
    for job in jobs {
        writes += writes_in(job.ops.as_slice());
    }
    writes
}

/// How many attempts, operations and tidyings a client reserves for these jobs: each job's tries, its operations as often,
/// and, where the policy tidies, three for each operation that writes and for each try.
pub fn needs(layout: &Layout, policy: Policy, jobs: &[Job]) -> (u32, u32, u32)
    requires tries { 1 ≤ policy.tries }
    requires jobs { AllByRecursion (FitsTables layout.now) jobs.now }
    requires small { IsSmall (room_for layout.now policy jobs.now) }
    ensures attempts { result.0 ≡ (room_for layout.now policy jobs.now).attempts }
    ensures ops { result.1 ≡ (room_for layout.now policy jobs.now).ops }
    ensures tidies { result.2 ≡ (room_for layout.now policy jobs.now).tidies }
{
    let attempts = u64::from(policy.tries) * jobs.len() as u64;
    let ops = u64::from(policy.tries) * jobs_weight(layout, jobs);
    let tidies = if policy.tidy {
        3 * (jobs_writes(jobs) + attempts)
    } else {
        0
    };
    (attempts as u32, ops as u32, tidies as u32)
}
