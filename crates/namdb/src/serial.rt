//! The serial run: one worker after another, each transaction tried once.

ghost use Rattle.std.specs.Prelude.{◌≡◌, ◌+◌, ◌<◌, ◌≤◌, [], List, length, map, slice_index, IfOk, OnOk};
ghost use Rattle.si_model.specs.declared.row.Row.{Row};
ghost use Rattle.si_model.specs.Rows.{ListsRows};
ghost use Rattle.si_model.specs.Committed.{rows_held};
ghost use Rattle.si_model.specs.Run.{IsRun};
ghost use Rattle.si_model.specs.Setting.{txns_of};
ghost use Rattle.nam_catalog.specs.Tables.{widths_of};
ghost use Rattle.nam_script.specs.Limits.{IsScript};
ghost use Rattle.namdb.specs.InRange.{IsInRange};
ghost use Rattle.nam_report.specs.Fits.{FitsScript};
ghost use Rattle.nam_report.specs.Numbers.{NumbersFit};
ghost use Rattle.nam_script.specs.ScriptSetting.{setting_of};
ghost use Rattle.namdb.specs.Few.{HasFew};
ghost use Rattle.namdb.specs.Store.{IsStore, IsPlan};
ghost use Rattle.namdb.specs.Serial.{own_txn, tells_after, history_after, log_of, log_grown, logs_after, end_after};
ghost use Rattle.namdb.specs.Serial.{audit_of};

use crate::attempt::{Plan, attempt};
use crate::store::Store;
use lists::List;
use nam_catalog::{Table, greatest};
use nam_report::numbers_fit;
use nam_script::Script;
use si_model::{AuditRow, Log, Report, Row};
use std::alloc::{AllocError, Global};

/// The widths of the tables.
fn widths_of(alloc: Global, tables: &[Table]) -> Result<Vec<u32>, AllocError>
    ensures { IfOk result (λ widths. widths.items ≡ widths_of tables.now) }
{
    tables.iter().map(|table| table.width).collect(alloc)
}

/// What is the same for all attempts at the transactions of a script.
fn plan_of(alloc: Global, script: &Script) -> Result<Plan, AllocError>
    ensures { IfOk result (λ plan. IsPlan (setting_of script.now) plan) }
{
    let widths = widths_of(alloc, script.shape.tables.as_slice())?;
    Ok(Plan {
        workers: script.shape.workers,
        greatest: greatest(script.shape.form),
        widths,
    })
}

/// The worker's attempt at the transaction at a place of the script, where it is the worker's.
fn serve(
    alloc: Global,
    script: &Script,
    plan: &Plan,
    store: &mut Store,
    log: &mut Log,
    worker: u32,
    place: usize,
) -> Result<(), AllocError>
    requires in_range { IsInRange script.now }
    requires few { HasFew script.now }
    requires plan { IsPlan (setting_of script.now) plan.now }
    requires store { IsStore (setting_of script.now) store.old }
    requires worker { (1 ≤ worker) × (worker ≤ script.now.shape.workers) }
    requires place { place < length script.now.txns }
    ensures store { OnOk result (IsStore (setting_of script.now) store.new) }
    ensures history { OnOk result (
        let s = setting_of script.now in
        let own = own_txn worker (slice_index s.owners place) (place + 1) in
        store.new.history ≡ history_after s worker store.old.history own) }
    ensures log { OnOk result (
        let s = setting_of script.now in
        let own = own_txn worker (slice_index s.owners place) (place + 1) in
        log.new ≡ log_grown log.old (tells_after s worker store.old.history own)) }
{
    let txn = script.txns.at(place);
    if txn.worker != worker {
        return Ok(());
    }
    attempt(
        alloc,
        plan,
        store,
        log,
        worker,
        place as u32 + 1,
        txn.ops.as_slice(),
    )?;
    Ok(())
}

/// All transactions of a worker, in order.
fn run_worker(
    alloc: Global,
    script: &Script,
    plan: &Plan,
    store: &mut Store,
    worker: u32,
) -> Result<Log, AllocError>
    requires in_range { IsInRange script.now }
    requires few { HasFew script.now }
    requires plan { IsPlan (setting_of script.now) plan.now }
    requires store { IsStore (setting_of script.now) store.old }
    requires worker { (1 ≤ worker) × (worker ≤ script.now.shape.workers) }
    ensures store { OnOk result (IsStore (setting_of script.now) store.new) }
    ensures history { OnOk result (
        let s = setting_of script.now in
        store.new.history ≡ history_after s worker store.old.history (txns_of worker s.owners)) }
    ensures log { IfOk result (λ log.
        let s = setting_of script.now in
        log ≡ log_of (tells_after s worker store.old.history (txns_of worker s.owners))) }
{
    let mut log = Log::new(alloc);
    for place in 0..script.txns.len() {
        serve(alloc, script, plan, store, &mut log, worker, place)?;
    }
    Ok(log)
}

/// All workers, worker 1 first.
fn run_workers(
    alloc: Global,
    script: &Script,
    plan: &Plan,
    store: &mut Store,
) -> Result<List<Log>, AllocError>
    requires in_range { IsInRange script.now }
    requires few { HasFew script.now }
    requires plan { IsPlan (setting_of script.now) plan.now }
    requires store { IsStore (setting_of script.now) store.old }
    ensures store { OnOk result (IsStore (setting_of script.now) store.new) }
    ensures history { OnOk result (
        store.new.history ≡ end_after (setting_of script.now) 1 store.old.history script.now.shape.workers) }
    ensures logs { IfOk result (λ logs.
        logs ≡ logs_after (setting_of script.now) 1 store.old.history script.now.shape.workers) }
{
    let mut logs = List::new(alloc);
    for before in 0..script.shape.workers {
        let log = run_worker(alloc, script, plan, store, before + 1)?;
        logs.push(log)?;
    }
    Ok(logs)
}

/// The audit of rows that nobody has locked.
fn audit(alloc: Global, rows: Vec<Row>) -> Result<List<AuditRow>, AllocError>
    ensures { IfOk result (λ audit. audit ≡ audit_of rows.items) }
{
    let mut audit = List::new(alloc);
    for row in rows {
        audit.push(AuditRow {
            table: row.table,
            key: row.key,
            value: Some(row.value),
            locked: false,
        })?;
    }
    Ok(audit)
}

/// The report of a store that nobody uses any more.
fn close(alloc: Global, store: Store, logs: List<Log>) -> Result<Report, AllocError>
    ensures history { IfOk result (λ report. report.history ≡ store.history) }
    ensures logs { IfOk result (λ report. report.logs ≡ logs) }
    ensures audit { IfOk result (λ report.
        (rows : List Row) × (report.audit ≡ audit_of rows) × ListsRows rows (rows_held store.rows)) }
    ensures numbers { IfOk result NumbersFit }
{
    let Store { rows, history, .. } = store;
    let rows = rows.into_rows(alloc)?;
    let audit = audit(alloc, rows)?;
    let report = Report {
        history,
        logs,
        audit,
    };
    numbers_fit(&report);
    Ok(report)
}

/// Runs a script, one worker after another, and each transaction once.
///
/// It serves every script in range, with any operations, turns and policy: it has no positions and no rings, so none of
/// its attempts ends for want of them, and its tidyings find nothing to move.
///
/// # Errors
///
/// Only where memory is not found.
pub fn run_serial(alloc: Global, script: &Script) -> Result<Report, AllocError>
    requires { IsScript script.now }
    ensures run { IfOk result (λ report. IsRun (setting_of script.now) report) }
    ensures fits { IfOk result (λ report. FitsScript script.now report) }
{
    let plan = plan_of(alloc, script)?;
    let mut store = Store::open(
        alloc,
        script.shape.workers,
        script.shape.start,
        script.rows.as_slice(),
    )?;
    let logs = run_workers(alloc, script, &plan, &mut store)?;
    close(alloc, store, logs)
}
