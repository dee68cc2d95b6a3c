//! The lines of a log.

ghost use Rattle.std.specs.Prelude.{◌≡◌, ◌++◌, OnOk, string_bytes};
ghost use Rattle.std.specs.List.{AllByRecursion};
ghost use Rattle.nam_report.specs.Text.{log_text, logs_text, events_text};
ghost use Rattle.nam_report.specs.Fits.{ItemsFit};

use crate::event::push_event;
use nam_catalog::Table;
use si_model::Log;
use std::alloc::AllocError;
use std::fmt::Write;

/// Appends the events of a log, each with the reads and locks that it owns.
fn push_events(out: &mut String, tables: &[Table], log: &Log) -> Result<(), AllocError>
    requires { ItemsFit log.now }
    ensures { OnOk result
        (string_bytes out.new ≡ string_bytes out.old
        ++ events_text tables.now log.now.events log.now.reads log.now.locks) }
{
    let mut reads = log.reads.as_slice();
    let mut locks = log.locks.as_slice();
    for event in log.events.as_slice() {
        let (own_reads, later_reads) = reads.split_at(event.reads() as usize);
        let (own_locks, later_locks) = locks.split_at(event.locks() as usize);
        push_event(out, tables, event, own_reads, own_locks)?;
        reads = later_reads;
        locks = later_locks;
    }
    Ok(())
}

/// Appends the lines of a worker's log.
fn push_log(out: &mut String, tables: &[Table], worker: usize, log: &Log) -> Result<(), AllocError>
    requires { ItemsFit log.now }
    ensures { OnOk result (string_bytes out.new ≡ string_bytes out.old ++ log_text tables.now worker log.now) }
{
    writeln!(out, "worker {worker} events {}", log.events.len())?;
    push_events(out, tables, log)
}

/// Appends the lines of the logs, of worker 1 first.
pub fn push_logs(out: &mut String, tables: &[Table], logs: &[Log]) -> Result<(), AllocError>
    requires { AllByRecursion ItemsFit logs.now }
    ensures { OnOk result (string_bytes out.new ≡ string_bytes out.old ++ logs_text tables.now 1 logs.now) }
{
    for (place, log) in logs.iter().enumerate() {
        push_log(out, tables, place + 1, log)?;
    }
    Ok(())
}
