//! Scans: the rows of a range are gathered position by position, and listed in order of keys.

ghost use Rattle.std.specs.Prelude.{◌≡◌, ◌<◌, ◌≤◌, ◌+◌, ◌-◌, ◌^◌, IsSome, Some, true, [], ◌∷◌, map, length};
ghost use Rattle.nam_verbs.specs.Running.{next_verb};
ghost use Rattle.nam_calls.specs.Words.{capacity_of};
ghost use Rattle.nam_scan.specs.Scan.{Scanning as ScanValue, running};
ghost use Rattle.nam_protocol.specs.declared.client.Call.TheVariants as call;
ghost use Rattle.nam_protocol.specs.Client.{client_ask, client_after};
ghost use Rattle.nam_protocol.specs.Log.{with_reads};
ghost use Rattle.nam_protocol.specs.Own.{MayAsk};
ghost use Rattle.nam_protocol.specs.ScanCall.{item_of, sorted_onto};
ghost use Rattle.nam_txn.specs.Txn.{IsTxnOf, Rests};
ghost use Rattle.nam_client.specs.declared.registers.Step.TheVariants as step;
ghost use Rattle.nam_client.specs.Registers.{client_of, call_of};
ghost use Rattle.nam_client.specs.Room.{HasRoom, Holds, StepHolds, TxnRests};
ghost use Rattle.nam_client.specs.Fits.{IsClientOf, HandFits};
ghost use Rattle.nam_client.specs.Gathered.{RiseWithin, OfScan};
ghost use Rattle.nam_client.specs.Scanning.{HasLeft, HasNamed, HasAnswered};
ghost use Rattle.nam_client.specs.Scanning.{gathered, rows_listed, scan_failed, left_at, after_key, after_scan};

use crate::registers::{Registers, Step, Told};
use crate::transacting::list_attempt;
use nam_layout::Layout;
use nam_log::{RoomyList, RunningLog};
use nam_protocol::{ScanAnswer, Scanned};
use nam_scan::Scan;
use si_model::{Outcome, Value};

/// Asks for a scan of the keys from `low` to `high`.
pub fn ask_scan(a: &mut Registers, layout: &Layout, table: u32, low: u64, high: u64)
    requires of { IsClientOf layout.now a.old }
    requires may { MayAsk layout.now (client_of a.old) (call.Scan table low high) }
    requires holds { Holds a.old }
    requires rests { Rests a.old.txn.call }
    requires spare { capacity_of layout.now table ≤ a.old.spare.ops }
    requires counted { a.old.attempt.ops_so_far + capacity_of layout.now table < 2 ^ 32 }
    ensures client { client_of a.new ≡ client_ask layout.now (client_of a.old) (call.Scan table low high) }
    ensures spare { a.new.spare
        ≡ record a.old.spare { ops = a.old.spare.ops - capacity_of layout.now table } }
    ensures txn { a.new.is_open ≡ true → IsTxnOf layout.now a.new.txn }
    ensures hand { HandFits layout.now a.new (call_of a.new.step a.new) }
    ensures room { HasRoom a.new }
    ensures at { StepHolds a.new.step a.new }
    ensures calm { a.new.is_open ≡ true → TxnRests a.new.step a.new.txn.call }
{
    // A layout's total says that the shape is within its limits: the table has a position.
    let _words = layout.total();
    let capacity = layout.capacity(table);
    a.spare.ops -= capacity;
    a.attempt.ops += 1;
    a.attempt.ops_so_far += capacity;
    a.scanned.clear();
    a.scan = Some(Scan::new(layout, table, low, high, a.txn.seen().copy()));
    a.step = Step::Scanning;
}

/// Goes on with a word of the scan.
#[inline]
pub fn take_scan(a: &mut Registers, layout: &Layout, found: u64)
    requires of { IsClientOf layout.now a.old }
    requires holds { Holds a.old }
    requires step { a.old.step ≡ step.Scanning }
    ensures client { client_of a.new ≡ client_after layout.now (client_of a.old) found }
    ensures spare { a.new.spare ≡ a.old.spare }
    ensures txn { a.new.is_open ≡ true → IsTxnOf layout.now a.new.txn }
    ensures hand { HandFits layout.now a.new (call_of a.new.step a.new) }
    ensures room { HasRoom a.new }
    ensures at { StepHolds a.new.step a.new }
    ensures calm { a.new.is_open ≡ true → TxnRests a.new.step a.new.txn.call }
{
    let Some(scan) = &mut a.scan else { return };
    let position = scan.position();
    scan.take(layout, found);
    if scan.is_over() {
        on_answer(a, layout, position);
    }
}

/// The scan has answered at this position.
#[inline(never)]
fn on_answer(a: &mut Registers, layout: &Layout, position: u32)
    requires { OfScan (HasAnswered layout.now a.old position) a.old.scan }
    ensures { (scan : ScanValue) → a.old.scan ≡ Some scan
        → a.new ≡ after_scan layout.now a.old scan position scan.state }
{
    let Some(scan) = &a.scan else { return };
    let table = scan.table();
    let Some(answer) = scan.answer() else { return };
    match answer {
        ScanAnswer::Key { key } => on_key(a, layout, position, key),
        ScanAnswer::Row(item) => leave(a, layout, position, item.key, item.value),
        ScanAnswer::Done => list_rows(a, table),
        ScanAnswer::TooOld {
            worker,
            entry,
            horizon,
        } => end_scan(
            a,
            Outcome::TooOld {
                worker,
                entry,
                horizon,
            },
            Told::TooOld {
                worker,
                entry,
                horizon,
            },
        ),
        ScanAnswer::Astray => end_scan(a, Outcome::Left, Told::Astray),
    }
}

/// A key of the write set is not read: its row is the write set's.
fn on_key(a: &mut Registers, layout: &Layout, position: u32, key: u64)
    requires { OfScan (HasNamed layout.now a.old position key) a.old.scan }
    ensures { (scan : ScanValue) → a.old.scan ≡ Some scan
        → a.new ≡ after_key layout.now a.old scan position key }
{
    let Some(scan) = &mut a.scan else { return };
    match a.txn.own(scan.table(), key) {
        Some(value) => leave(a, layout, position, key, value),
        None => scan.read(layout),
    }
}

/// Leaves the position, whose key holds this.
fn leave(a: &mut Registers, layout: &Layout, position: u32, key: u64, value: Option<Value>)
    requires { OfScan (HasLeft layout.now a.old position) a.old.scan }
    ensures { (scan : ScanValue) → a.old.scan ≡ Some scan
        → a.new ≡ left_at layout.now a.old scan position key value }
{
    if let Some(value) = value {
        a.scanned.push(Scanned {
            position,
            key,
            value,
        });
    }
    let Some(scan) = &mut a.scan else { return };
    let table = scan.table();
    scan.skip(layout);
    if scan.is_over() {
        list_rows(a, table);
    }
}

/// Sorts the rows by key.
fn sort_rows(rows: &mut RoomyList<Scanned>)
    requires { RiseWithin 0 (2 ^ 32) rows.old.items }
    ensures items { rows.new.items ≡ sorted_onto [] rows.old.items }
    ensures len { length rows.new.items ≡ length rows.old.items }
    ensures room { rows.new.room ≡ rows.old.room }
{
    // Rows of one key, which are in no world, stay in the order of their positions.
    rows.sort_unstable_by_key(|row| (row.key, row.position));
}

/// Lists a row that was read. Its value is copied here, since a local costs its function at each call.
#[inline(never)]
fn list_row(log: &mut RunningLog, table: u32, row: &Scanned)
    requires { 0 < log.old.room.reads }
    ensures log { log.new.log ≡ with_reads log.old.log (item_of table row.now ∷ []) }
    ensures room { log.new.room ≡ record log.old.room { reads = log.old.room.reads - 1 } }
{
    log.list_read(table, row.key, &Some(row.value.copy()));
}

/// Lists rows that were read.
fn list_items(log: &mut RunningLog, table: u32, rows: &[Scanned])
    requires { length rows.now ≤ log.old.room.reads }
    ensures log { log.new.log ≡ with_reads log.old.log (map (item_of table) rows.now) }
    ensures room { log.new.room ≡ record log.old.room { reads = log.old.room.reads - length rows.now } }
{
    for row in rows {
        list_row(log, table, row);
    }
}

/// Lists the rows in order of keys.
fn list_rows(a: &mut Registers, table: u32)
    requires rise { RiseWithin 0 (2 ^ 32) a.old.scanned.items }
    requires reads { length a.old.scanned.items ≤ a.old.log.room.reads }
    requires word { a.old.attempt.reads + length a.old.scanned.items < 2 ^ 32 }
    ensures { a.new ≡ rows_listed a.old table }
{
    let items = a.scanned.len() as u32;
    sort_rows(&mut a.scanned);
    list_items(&mut a.log, table, a.scanned.as_slice());
    a.scanned.clear();
    a.attempt.reads += items;
    a.scan = None;
    a.step = Step::Answered(Told::Scanned { items });
}

/// The scan ends the attempt, and lists no read.
fn end_scan(a: &mut Registers, outcome: Outcome, told: Told)
    requires { 0 < a.old.log.room.events }
    ensures { a.new ≡ scan_failed a.old outcome told }
{
    a.scanned.clear();
    a.scan = None;
    list_attempt(a, outcome, 0);
    a.step = Step::Answered(told);
}
