ghost use Rattle.std.specs.Prelude.{◌≡◌, ◌≤◌, [], ◌∷◌, Some, IfOk, length, false};
ghost use Rattle.si_model.specs.declared.log.Event.TheVariants.{Moved};
ghost use Rattle.si_model.specs.declared.log.MoveEnd.TheVariants.{Done};
ghost use Rattle.std.specs.List.{AllByRecursion};
ghost use Rattle.nam_catalog.specs.Tables.{widths_of};
ghost use Rattle.nam_report.specs.Fits.{EntryFits, LogFits, FitsScript};

use crate::attempt::push_attempt;
use crate::audit::push_audit;
use crate::event::push_event;
use crate::{numbers_fit, report_text};
use lists::{List, ShortList};
use nam_catalog::{Form, Shape, Table, TableName};
use nam_script::{Script, Turns};
use si_model::{
    Attempt, AuditRow, CommitLine, Event, Finish, Item, Items, Lock, Log, MoveEnd, Outcome, Policy,
    Report, Snapshot, Stamp, Value,
};
use std::alloc::{AllocError, Global};

/// A script of one table, whose rows have one word.
fn script(alloc: Global, workers: u32, name: &str) -> Script
    requires { length name.now ≤ 16 }
    ensures workers { result.shape.workers ≡ workers }
    ensures widths { widths_of result.shape.tables ≡ 1 ∷ [] }
{
    let mut tables = ShortList::new();
    tables.push(Table {
        name: TableName::from_text(name),
        width: 1,
        capacity: 2,
        ring: 1,
    });
    Script {
        shape: Shape {
            form: Form::Narrow,
            workers,
            tables,
            buckets: 1,
            cells: 1,
            start: 0,
        },
        policy: Policy {
            tries: 1,
            tidy: false,
        },
        rows: List::new(alloc),
        txns: List::new(alloc),
        turns: Turns::List(List::new(alloc)),
    }
}

fn value(word: u64) -> Option<Value>
    ensures { result ≡ Some (word ∷ []) }
{
    let mut value = Value::new();
    value.push(word);
    Some(value)
}

fn item(key: u64, word: u64) -> Item
    ensures { result ≡ record { table = 0; key = key; value = Some (word ∷ []) } }
{
    Item {
        table: 0,
        key,
        value: value(word),
    }
}

fn audit_row(key: u64, word: u64) -> AuditRow
    ensures { result ≡ record { table = 0; key = key; value = Some (word ∷ []); locked = false } }
{
    AuditRow {
        table: 0,
        key,
        value: value(word),
        locked: false,
    }
}

fn lock(key: u64, thread: u32, number: u64) -> Lock
    ensures { result ≡ record { table = 0; key = key; stamp = record { thread = thread; number = number } } }
{
    Lock {
        table: 0,
        key,
        stamp: Stamp { thread, number },
    }
}

fn attempt(txn: u32, prefix: u64, reads: u32, locks: u32, outcome: Outcome) -> Attempt
    ensures reads { result.reads ≡ reads }
    ensures locks { result.locks ≡ locks }
    ensures outcome { result.outcome ≡ outcome }
{
    Attempt {
        txn,
        nth: 1,
        prefix: Some(prefix),
        reads,
        locks,
        writes: 0,
        outcome,
    }
}

fn entry(number: u64, prefix: u64, txn: u32, writes: Items) -> CommitLine
    ensures { result.writes ≡ writes }
{
    CommitLine {
        worker: 1,
        number,
        prefix,
        txn,
        writes,
    }
}

/// The report of a transfer between two accounts.
fn transfer(alloc: Global) -> Result<(Script, Report), AllocError>
    ensures { IfOk result (λ run. FitsScript run.0 run.1) }
{
    let tried = attempt(1, 0, 3, 2, Outcome::Commit { number: 1 });
    let log = Log {
        events: List::from_vec(vec![in alloc; Event::Tried(tried)]?),
        reads: List::from_vec(vec![in alloc; item(0, 100), item(0, 100), item(1, 0)]?),
        locks: List::from_vec(vec![in alloc; lock(0, 0, 0), lock(1, 0, 0)]?),
        writes: List::new(alloc),
        snaps: List::new(alloc),
    };
    let writes = List::from_vec(vec![in alloc; item(0, 90), item(1, 10)]?);
    let report = Report {
        history: List::from_vec(vec![in alloc; entry(1, 0, 1, writes)]?),
        logs: List::from_vec(vec![in alloc; log]?),
        audit: List::from_vec(vec![in alloc; audit_row(0, 90), audit_row(1, 10)]?),
    };
    numbers_fit(&report);
    Ok((script(alloc, 1, "acct"), report))
}

#[test]
fn transfer_has_its_text(rt: HostRuntime) -> Result<(), AllocError> {
    let (script, report) = transfer(rt.alloc())?;
    let text = report_text(rt.alloc(), &script, &report)?;
    let wanted = "report 1
history 1
c 1 worker 1 number 1 prefix 0 txn 1
w acct 0 90
w acct 1 10
worker 1 events 1
t 1 try 1 prefix 0 commit 1
r acct 0 100
r acct 0 100
r acct 1 0
l acct 0 0 0
l acct 1 0 0
audit 2
a acct 0 90
a acct 1 10
end
";
    assert!(rt; text.as_slice() == wanted.as_bytes());
    Ok(())
}

fn moved(thread: u32, number: u64) -> Event
    ensures { result ≡ Moved 0 0 0 (record { thread = thread; number = number }) Done }
{
    Event::Moved {
        bucket: 0,
        table: 0,
        key: 0,
        stamp: Stamp { thread, number },
        how: MoveEnd::Done,
    }
}

/// The log of a worker that commits twice and tidies after each commit.
fn writer_log(alloc: Global) -> Result<Log, AllocError>
    ensures { IfOk result (LogFits 2 (1 ∷ [])) }
{
    let first = attempt(1, 0, 1, 1, Outcome::Commit { number: 1 });
    let second = attempt(2, 1, 1, 1, Outcome::Commit { number: 2 });
    let mut entries = Snapshot::new();
    entries.push(2);
    entries.push(0);
    let collected = Event::Collected {
        bucket: 0,
        prefix: 2,
        entries,
        cut: false,
    };
    let events = vec![in alloc;
        Event::Tried(first),
        moved(0, 0),
        Event::Tried(second),
        Event::NoRoom { bucket: 0 },
        collected,
        moved(1, 1),
    ]?;
    Ok(Log {
        events: List::from_vec(events),
        reads: List::from_vec(vec![in alloc; item(0, 5), item(0, 6)]?),
        locks: List::from_vec(vec![in alloc; lock(0, 0, 0), lock(0, 1, 1)]?),
        writes: List::new(alloc),
        snaps: List::new(alloc),
    })
}

/// The log of a worker whose one read is too old.
fn reader_log(alloc: Global) -> Result<Log, AllocError>
    ensures { IfOk result (LogFits 2 (1 ∷ [])) }
{
    let old = Outcome::TooOld {
        worker: 1,
        entry: 0,
        horizon: 2,
    };
    Ok(Log {
        events: List::from_vec(vec![in alloc; Event::Tried(attempt(3, 0, 0, 0, old))]?),
        reads: List::new(alloc),
        locks: List::new(alloc),
        writes: List::new(alloc),
        snaps: List::new(alloc),
    })
}

fn two_logs(alloc: Global) -> Result<List<Log>, AllocError>
    ensures two { IfOk result (λ logs. length logs ≡ 2) }
    ensures fit { IfOk result (AllByRecursion (LogFits 2 (1 ∷ []))) }
{
    Ok(List::from_vec(vec![in alloc; writer_log(alloc)?, reader_log(alloc)?]?))
}

fn two_entries(alloc: Global) -> Result<List<CommitLine>, AllocError>
    ensures { IfOk result (AllByRecursion (EntryFits (1 ∷ []))) }
{
    let first = entry(1, 0, 1, List::from_vec(vec![in alloc; item(0, 6)]?));
    let second = entry(2, 1, 2, List::from_vec(vec![in alloc; item(0, 7)]?));
    Ok(List::from_vec(vec![in alloc; first, second]?))
}

/// The report of a reader that a tidying writer leaves behind.
fn too_old(alloc: Global) -> Result<(Script, Report), AllocError>
    ensures { IfOk result (λ run. FitsScript run.0 run.1) }
{
    let report = Report {
        history: two_entries(alloc)?,
        logs: two_logs(alloc)?,
        audit: List::from_vec(vec![in alloc; audit_row(0, 7)]?),
    };
    numbers_fit(&report);
    Ok((script(alloc, 2, "t"), report))
}

#[test]
fn reader_that_is_too_old_has_its_text(rt: HostRuntime) -> Result<(), AllocError> {
    let (script, report) = too_old(rt.alloc())?;
    let text = report_text(rt.alloc(), &script, &report)?;
    let wanted = "report 1
history 2
c 1 worker 1 number 1 prefix 0 txn 1
w t 0 6
c 2 worker 1 number 2 prefix 1 txn 2
w t 0 7
worker 1 events 6
t 1 try 1 prefix 0 commit 1
r t 0 5
l t 0 0 0
move 0 t 0 0 0 done
t 2 try 1 prefix 1 commit 2
r t 0 6
l t 0 1 1
noroom 0
collect 0 prefix 2 2 0 done
move 0 t 0 1 1 done
worker 2 events 1
t 3 try 1 prefix 0 old 1 0 2
audit 1
a t 0 7
end
";
    assert!(rt; text.as_slice() == wanted.as_bytes());
    Ok(())
}

#[test]
fn each_outcome_has_its_line(rt: HostRuntime) -> Result<(), AllocError> {
    let script = script(rt.alloc(), 1, "t");
    let tables = script.shape.tables.as_slice();
    let mut out = String::new(rt.alloc());
    let again = Outcome::Again {
        worker: 2,
        first: 0,
        second: 18_446_744_073_709_551_615,
    };
    let without = Attempt {
        prefix: None,
        ..attempt(1, 0, 0, 0, again)
    };
    push_attempt(&mut out, tables, &without)?;
    for outcome in [
        Outcome::ReadOnly,
        Outcome::Declined { op: 3 },
        Outcome::NoSpace { table: 0 },
        Outcome::Spent,
        Outcome::Locked(lock(4, 1, 2)),
        Outcome::Newer(lock(4, 1, 2)),
        Outcome::Full(lock(4, 1, 2)),
        Outcome::Cut,
        Outcome::Left,
    ] {
        push_attempt(&mut out, tables, &attempt(1, 7, 0, 0, outcome))?;
    }
    let wanted = "t 1 try 1 prefix - again 2 0 18446744073709551615
t 1 try 1 prefix 7 read
t 1 try 1 prefix 7 declined 3
t 1 try 1 prefix 7 nospace t
t 1 try 1 prefix 7 spent
t 1 try 1 prefix 7 locked t 4 1 2
t 1 try 1 prefix 7 newer t 4 1 2
t 1 try 1 prefix 7 full t 4 1 2
t 1 try 1 prefix 7 cut
t 1 try 1 prefix 7 left
";
    assert!(rt; out.as_str() == wanted);
    Ok(())
}

fn stopped_move(how: MoveEnd) -> Event {
    Event::Moved {
        bucket: 3,
        table: 0,
        key: 4,
        stamp: Stamp {
            thread: 1,
            number: 2,
        },
        how,
    }
}

fn stopped_collect() -> Event {
    let mut entries = Snapshot::new();
    entries.push(5);
    Event::Collected {
        bucket: 3,
        prefix: 6,
        entries,
        cut: true,
    }
}

#[test]
fn each_other_event_has_its_line(rt: HostRuntime) -> Result<(), AllocError> {
    let script = script(rt.alloc(), 1, "t");
    let tables = script.shape.tables.as_slice();
    let mut out = String::new(rt.alloc());
    for event in [
        stopped_move(MoveEnd::Back),
        stopped_move(MoveEnd::Cut),
        stopped_collect(),
        Event::CollectAgain {
            bucket: 3,
            worker: 1,
            first: 5,
            second: 6,
        },
        Event::CollectCut { bucket: 3 },
        Event::TidyCut { table: 0, key: 4 },
        Event::TailCut,
        Event::Finished { how: Finish::Clean },
        Event::Finished {
            how: Finish::Undone,
        },
        Event::Finished {
            how: Finish::RolledOn,
        },
    ] {
        push_event(&mut out, tables, &event, &[], &[])?;
    }
    let mut absent = audit_row(4, 0);
    absent.value = None;
    absent.locked = true;
    push_audit(&mut out, tables, [absent].as_slice())?;
    let wanted = "move 3 t 4 1 2 back
move 3 t 4 1 2 cut
collect 3 prefix 6 5 cut
collect 3 again 1 5 6
collect 3 cut
tidy t 4 cut
tail cut
medic clean
medic undone
medic on
audit 1
a t 4 - locked
";
    assert!(rt; out.as_str() == wanted);
    Ok(())
}
