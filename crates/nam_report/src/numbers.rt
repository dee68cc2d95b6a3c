//! The numbers of a report fit the types of their fields.
//!
//! A contract knows the range of a number that is read. So these read each number of a report once, and do nothing else.

ghost use Rattle.std.specs.Prelude.{◌<◌, ◌^◌, length, IfSome};
ghost use Rattle.std.specs.List.{AllByRecursion};
ghost use Rattle.nam_report.specs.Numbers.{IsU64, WordsFit, ItemNumbersFit, StampNumbersFit, LockNumbersFit};
ghost use Rattle.nam_report.specs.Numbers.{OutcomeNumbersFit, AttemptNumbersFit, EventNumbersFit, LogNumbersFit};
ghost use Rattle.nam_report.specs.Numbers.{EntryNumbersFit, RowNumbersFit, NumbersFit};

use si_model::{
    Attempt, AuditRow, CommitLine, Event, Item, Lock, Log, Outcome, Report, Stamp, Value,
};

fn word_fits(word: u64)
    ensures { IsU64 word }
{
    let _word = word;
}

fn words_fit(words: &[u64])
    ensures { WordsFit words.now }
{
    for word in words {
        word_fits(*word);
    }
}

fn value_fits(value: &Option<Value>)
    ensures { IfSome value.now WordsFit }
{
    if let Some(words) = value {
        words_fit(words.as_slice());
    }
}

fn item_fits(item: &Item)
    ensures { ItemNumbersFit item.now }
{
    let _key = item.key;
    value_fits(&item.value);
}

fn items_fit(items: &[Item])
    ensures { AllByRecursion ItemNumbersFit items.now }
{
    for item in items {
        item_fits(item);
    }
}

fn stamp_fits(stamp: Stamp)
    ensures { StampNumbersFit stamp }
{
    let _thread = stamp.thread;
    let _number = stamp.number;
}

fn lock_fits(lock: Lock)
    ensures { LockNumbersFit lock }
{
    let _key = lock.key;
    stamp_fits(lock.stamp);
}

fn locks_fit(locks: &[Lock])
    ensures { AllByRecursion LockNumbersFit locks.now }
{
    for lock in locks {
        lock_fits(*lock);
    }
}

fn outcome_fits(outcome: Outcome)
    ensures { OutcomeNumbersFit outcome }
{
    match outcome {
        Outcome::Locked(lock) | Outcome::Newer(lock) | Outcome::Full(lock) => lock_fits(lock),
        _ => {}
    }
}

fn attempt_fits(attempt: &Attempt)
    ensures { AttemptNumbersFit attempt.now }
{
    let _txn = attempt.txn;
    let _nth = attempt.nth;
    if let Some(prefix) = attempt.prefix {
        word_fits(prefix);
    }
    outcome_fits(attempt.outcome);
}

fn event_fits(event: &Event)
    ensures { EventNumbersFit event.now }
{
    match event {
        Event::Tried(attempt) => attempt_fits(attempt),
        Event::NoRoom { bucket } => {
            let _bucket = *bucket;
        }
        Event::Moved {
            bucket,
            key,
            stamp,
            ..
        } => {
            let _numbers = (*bucket, *key);
            stamp_fits(*stamp);
        }
        Event::Collected {
            bucket,
            prefix,
            entries,
            ..
        } => {
            let _numbers = (*bucket, *prefix);
            words_fit(entries.as_slice());
        }
        Event::CollectAgain {
            bucket,
            worker,
            first,
            second,
        } => {
            let _numbers = (*bucket, *worker, *first, *second);
        }
        Event::CollectCut { bucket } => {
            let _bucket = *bucket;
        }
        Event::TidyCut { key, .. } => {
            let _key = *key;
        }
        Event::TailCut | Event::Finished { .. } => {}
    }
}

fn events_fit(events: &[Event])
    ensures few { IsU64 (length events.now) }
    ensures fit { AllByRecursion EventNumbersFit events.now }
{
    let _few = events.len();
    for event in events {
        event_fits(event);
    }
}

fn log_fits(log: &Log)
    ensures { LogNumbersFit log.now }
{
    events_fit(log.events.as_slice());
    items_fit(log.reads.as_slice());
    locks_fit(log.locks.as_slice());
}

fn logs_fit(logs: &[Log])
    ensures { AllByRecursion LogNumbersFit logs.now }
{
    for log in logs {
        log_fits(log);
    }
}

fn entry_fits(entry: &CommitLine)
    ensures { EntryNumbersFit entry.now }
{
    let _worker = entry.worker;
    let _number = entry.number;
    let _prefix = entry.prefix;
    let _txn = entry.txn;
    items_fit(entry.writes.as_slice());
}

fn history_fits(history: &[CommitLine])
    ensures few { IsU64 (length history.now) }
    ensures fit { AllByRecursion EntryNumbersFit history.now }
{
    let _few = history.len();
    for entry in history {
        entry_fits(entry);
    }
}

fn row_fits(row: &AuditRow)
    ensures { RowNumbersFit row.now }
{
    let _key = row.key;
    value_fits(&row.value);
}

fn audit_fits(audit: &[AuditRow])
    ensures few { IsU64 (length audit.now) }
    ensures fit { AllByRecursion RowNumbersFit audit.now }
{
    let _few = audit.len();
    for row in audit {
        row_fits(row);
    }
}

/// Each number of a report fits the type of its field.
pub fn numbers_fit(report: &Report)
    ensures { NumbersFit report.now }
{
    history_fits(report.history.as_slice());
    logs_fit(report.logs.as_slice());
    audit_fits(report.audit.as_slice());
}
