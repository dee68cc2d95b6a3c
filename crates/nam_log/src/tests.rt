ghost use Rattle.std.specs.Prelude.{◌≡◌};

use crate::item_head::ItemHead;
use crate::note::Note;
use crate::{LogRoom, RoomyList, RunningLog};
use si_model::{Attempt, Event, Item, Lock, MoveEnd, Outcome, Snapshot, Stamp, Value};
use std::alloc::AllocError;
use std::mem::size_of;

fn value(width: u64) -> Value {
    let mut value = Value::new();
    for word in 0..width {
        if value.len() < 8 {
            value.push(word);
        }
    }
    value
}

fn snapshot(workers: u64) -> Snapshot {
    let mut seen = Snapshot::new();
    for entry in 0..workers {
        if seen.len() < 16 {
            seen.push(entry);
        }
    }
    seen
}

fn item(key: u64, value: Option<Value>) -> Item {
    Item {
        table: 3,
        key,
        value,
    }
}

fn lock(key: u64) -> Lock {
    Lock {
        table: 3,
        key,
        stamp: Stamp {
            thread: 2,
            number: 9,
        },
    }
}

fn attempt(number: u64) -> Attempt {
    Attempt {
        txn: 4,
        nth: 1,
        prefix: Some(12),
        reads: 2,
        locks: 2,
        writes: 2,
        outcome: Outcome::Commit { number },
    }
}

fn collected() -> Event {
    Event::Collected {
        bucket: 1,
        prefix: 12,
        entries: snapshot(2),
        cut: false,
    }
}

fn room(count: u32) -> LogRoom
    ensures events { result.events ≡ count }
    ensures reads { result.reads ≡ count }
    ensures locks { result.locks ≡ count }
    ensures writes { result.writes ≡ count }
    ensures snaps { result.snaps ≡ count }
{
    LogRoom {
        events: count,
        reads: count,
        locks: count,
        writes: count,
        snaps: count,
    }
}

// Of three reads and snapshots the first and the last stand in few bytes, and the second is too long for that.
#[test]
fn a_log_is_what_was_listed(rt: HostRuntime) -> Result<(), AllocError> {
    let mut log = RunningLog::new(rt.alloc());
    log.reserve(&room(3))?;
    log.list_snap(&snapshot(2));
    log.list_snap(&snapshot(16));
    log.list_read(3, 8, &None);
    log.list_read(3, 9, &Some(value(8)));
    log.list_read(3, 7, &Some(value(1)));
    log.list_lock(lock(8));
    log.list_lock(lock(9));
    log.list_tried(attempt(5));
    log.list_writes(&[item(8, Some(value(1))), item(9, None)]);
    log.list_event(collected());
    log.list_moved(1, 3, 8, lock(8).stamp, MoveEnd::Back);
    log.list_snap(&snapshot(1));
    assert_eq!(rt; log.room().writes, 1);
    let log = log.into_log();
    let events = log.events.as_slice();
    assert_eq!(rt; events.len(), 3);
    assert!(rt; events[0].attempt() == Some(attempt(5)));
    assert!(rt;
        matches!(
            events[1],
            Event::Collected {
                bucket: 1,
                prefix: 12,
                entries: _,
                cut: false
            }
        )
    );
    assert!(rt;
        matches!(
            events[2],
            Event::Moved {
                bucket: 1,
                table: 3,
                key: 8,
                stamp: _,
                how: MoveEnd::Back
            }
        )
    );
    let reads = [
        item(8, None),
        item(9, Some(value(8))),
        item(7, Some(value(1))),
    ];
    assert!(rt; log.reads.as_slice() == reads.as_slice());
    assert!(rt; log.locks.as_slice() == [lock(8), lock(9)].as_slice());
    assert!(rt; log.writes.as_slice() == [item(8, Some(value(1))), item(9, None)].as_slice());
    assert!(rt; log.snaps.as_slice() == [snapshot(2), snapshot(16), snapshot(1)].as_slice());
    Ok(())
}

#[test]
fn entries_are_small(rt: HostRuntime) {
    assert_eq!(rt; (size_of::<Note>(), size_of::<ItemHead>()), (72, 16));
    assert_eq!(rt; (size_of::<Event>(), size_of::<Item>()), (160, 96));
    assert_eq!(rt; (size_of::<Lock>(), size_of::<Snapshot>()), (32, 136));
}

#[test]
fn a_list_keeps_its_room(rt: HostRuntime) -> Result<(), AllocError> {
    let mut list: RoomyList<u64> = RoomyList::new(rt.alloc());
    list.reserve(2)?;
    list.push(7);
    list.push(8);
    assert_eq!(rt; list.room(), 0);
    list.clear();
    assert_eq!(rt; (list.len(), list.room()), (0, 2));
    list.reserve(1)?;
    list.append(&[9, 10]);
    assert!(rt; list.as_slice() == [9, 10].as_slice());
    assert!(rt; list.into_vec().as_slice() == [9, 10].as_slice());
    Ok(())
}
