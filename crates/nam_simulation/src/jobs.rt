//! The jobs of the workers.

ghost use Rattle.std.specs.Prelude.{◌≡◌, ◌≤◌, [], length, replicate, IfOk, OnOk};
ghost use Rattle.nam_script.specs.Limits.{IsScript};
ghost use Rattle.nam_protocol.specs.Schedule.{all_jobs};
ghost use Rattle.nam_scenario.specs.Scenario.{scenario_of};
ghost use Rattle.nam_simulation.specs.Simulation.{with_job};

use lists::List;
use nam_protocol::Job;
use nam_script::{Script, ScriptTxn};
use si_model::Op;
use std::alloc::{AllocError, Global};

/// Equal operations.
pub fn copied(alloc: Global, ops: &[Op]) -> Result<Vec<Op>, AllocError>
    ensures { IfOk result (λ copies. copies.items ≡ ops.now) }
{
    let mut copies = Vec::with_capacity(alloc, ops.len())?;
    for op in ops {
        copies.push(op.copy())?;
    }
    Ok(copies)
}

// No jobs of so many workers.
fn no_jobs(alloc: Global, workers: u32) -> Result<Vec<List<Job>>, AllocError>
    ensures { IfOk result (λ jobs. jobs.items ≡ replicate workers []) }
{
    let mut jobs = Vec::with_capacity(alloc, workers as usize)?;
    for _worker in 0..workers {
        jobs.push(List::new(alloc))?;
    }
    Ok(jobs)
}

// One more job of the worker of a transaction, which has this number.
fn add_job(
    alloc: Global,
    jobs: &mut [List<Job>],
    number: u32,
    txn: &ScriptTxn,
) -> Result<(), AllocError>
    requires first { 1 ≤ txn.now.worker }
    requires last { txn.now.worker ≤ length jobs.old }
    ensures { OnOk result (jobs.new ≡ with_job jobs.old number txn.now) }
{
    let ops = copied(alloc, txn.ops.as_slice())?;
    let job = Job {
        txn: number,
        ops: List::from_vec(ops),
    };
    jobs[txn.worker as usize - 1].push(job)
}

/// The jobs of each worker, worker 1 first: its transactions with their numbers, in order.
pub fn jobs_of(alloc: Global, script: &Script) -> Result<Vec<List<Job>>, AllocError>
    requires { IsScript script.now }
    ensures { IfOk result (λ jobs.
        jobs.items ≡ all_jobs script.now.shape.workers (scenario_of script.now).txns) }
{
    let mut jobs = no_jobs(alloc, script.shape.workers)?;
    for place in 0..script.txns.len() {
        add_job(
            alloc,
            jobs.as_mut_slice(),
            place as u32 + 1,
            script.txns.at(place),
        )?;
    }
    Ok(jobs)
}
