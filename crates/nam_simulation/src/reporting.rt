//! The report of a simulated run.

ghost use Rattle.std.specs.Prelude.{◌≡◌, map, IfOk};
ghost use Rattle.nam_script.specs.ScriptSetting.{setting_of};
ghost use Rattle.nam_protocol.specs.Closed.{closed};
ghost use Rattle.nam_protocol.specs.World.{HasEnded};
ghost use Rattle.nam_report.specs.Fits.{FitsScript};
ghost use Rattle.nam_simulated.specs.RunLaw.{ClosedIsOf};
ghost use Rattle.nam_simulated.specs.ReportLaw.{report_of};

use crate::jobs::copied;
use lists::List;
use nam_core::{Runs, World};
use nam_report::{arrange, arranged_law, numbers_fit};
use nam_script::Script;
use si_model::{Closed, Op, Report};
use std::alloc::{AllocError, Global};

// The operations of each transaction, transaction 1 first.
fn ops_of(alloc: Global, script: &Script) -> Result<Vec<Vec<Op>>, AllocError>
    ensures { IfOk result (λ jobs. map (λ job. job.items) jobs.items ≡ (setting_of script.now).jobs) }
{
    let mut jobs = Vec::with_capacity(alloc, script.txns.len())?;
    for txn in script.txns.as_slice() {
        jobs.push(copied(alloc, txn.ops.as_slice())?)?;
    }
    Ok(jobs)
}

// The report on what is left of a script's world.
fn report_on(alloc: Global, script: &Script, left: Closed) -> Result<Report, AllocError>
    requires { ClosedIsOf script.now.shape left }
    ensures report { IfOk result (λ report. report ≡ report_of script.now left) }
    ensures fits { IfOk result (FitsScript script.now) }
{
    let Closed { logs, audit } = left;
    let jobs = ops_of(alloc, script)?;
    let history = arrange(
        alloc,
        script.rows.as_slice(),
        jobs.as_slice(),
        logs.as_slice(),
        script.shape.start,
    )?;
    let report = Report {
        history: List::from_vec(history),
        logs,
        audit,
    };
    numbers_fit(&report);
    arranged_law();
    Ok(report)
}

/// The report on a script's world, which is closed.
pub fn report_of<S: Runs>(
    alloc: Global,
    script: &Script,
    world: World<S>,
) -> Result<Report, AllocError>
    requires shape { world.shape ≡ script.now.shape }
    requires ended { HasEnded script.now.shape world.world }
    requires left { ClosedIsOf script.now.shape (closed script.now.shape world.world) }
    ensures report { IfOk result (λ report.
        report ≡ report_of script.now (closed script.now.shape world.world)) }
    ensures fits { IfOk result (FitsScript script.now) }
{
    let left = world.finish(alloc)?;
    report_on(alloc, script, left)
}
