//! A log while its worker runs.

ghost use Rattle.std.specs.Prelude.{◌≡◌, ◌-◌, ◌<◌, ◌≤◌, [], ◌∷◌, ◌++◌, length, OnOk, OnErr};
ghost use Rattle.si_model.specs.declared.log.Event.TheVariants.{Tried, Moved};
ghost use Rattle.nam_protocol.specs.Log.{no_log, with_event, with_reads, with_locks, with_writes, with_snap};
ghost use Rattle.nam_log.specs.Running.{no_room, greater_room};

use crate::compact_events::CompactEvents;
use crate::compact_items::CompactItems;
use crate::compact_snaps::CompactSnaps;
use crate::note::{Note, note_of};
use crate::{LogRoom, RoomyList};
use lists::List;
use si_model::{Attempt, Event, Item, Lock, Log, MoveEnd, Snapshot, Stamp, Value};
use std::alloc::{AllocError, Global};
use std::marker::Model;

/// A log that grows in room that was reserved: only `reserve` takes memory, and no listing fails.
///
/// A contract sees it as what is listed so far and how many more entries of each kind there is room for.
#[derive(Debug, Drop)]
pub struct RunningLog {
    room: LogRoom,
    events: CompactEvents,
    reads: CompactItems,
    locks: RoomyList<Lock>,
    writes: CompactItems,
    snaps: CompactSnaps,
}

impl Model for RunningLog {
    ghost use Rattle.std.specs.Prelude.{◌≤◌};
    ghost use Rattle.nam_log.specs.Running.{Running};

    ghost Value = { Running };

    ghost view = { λ a. record {
      log = record {
        events = a.events.items;
        reads = a.reads.items;
        locks = a.locks.items;
        writes = a.writes.items;
        snaps = a.snaps.items;
      };
      room = a.room;
    } };

    ghost invariant = { λ a. (a.room.events ≤ a.events.room) × (a.room.reads ≤ a.reads.room)
        × (a.room.locks ≤ a.locks.room) × (a.room.writes ≤ a.writes.room) × (a.room.snaps ≤ a.snaps.room) };
}

/// Lists copies of items, for which there is room.
fn push_items(list: &mut CompactItems, items: &[Item])
    requires { length items.now ≤ list.old.room }
    ensures items { list.new.items ≡ list.old.items ++ items.now }
    ensures room { list.new.room ≡ list.old.room - length items.now }
{
    for item in items {
        list.push(item.table, item.key, &item.value);
    }
}

impl RunningLog {
    /// A log without events and without room, which has taken no memory yet.
    pub fn new(alloc: Global) -> RunningLog
        ensures log { result.log ≡ no_log }
        ensures room { result.room ≡ no_room }
    {
        RunningLog {
            room: LogRoom::default(),
            events: CompactEvents::new(alloc),
            reads: CompactItems::new(alloc),
            locks: RoomyList::new(alloc),
            writes: CompactItems::new(alloc),
            snaps: CompactSnaps::new(alloc),
        }
    }

    /// Makes room for so many more entries of each kind, where there is not as much already. Where memory is not found,
    /// log and room stay as they were.
    pub fn reserve(&mut self, room: &LogRoom) -> Result<(), AllocError>
        ensures log { self.new.log ≡ self.old.log }
        ensures ok { OnOk result (self.new.room ≡ greater_room self.old.room room.now) }
        ensures err { OnErr result (self.new.room ≡ self.old.room) }
    {
        let wanted = self.room.max_each(room);
        self.events.reserve(wanted.events)?;
        self.reads.reserve(wanted.reads)?;
        self.locks.reserve(wanted.locks as usize)?;
        self.writes.reserve(wanted.writes)?;
        self.snaps.reserve(wanted.snaps)?;
        self.room = wanted;
        Ok(())
    }

    /// How many more entries of each kind there is room for.
    pub fn room(&self) -> LogRoom
        ensures { result ≡ self.now.room }
    {
        self.room
    }

    /// Lists an attempt as the next event.
    #[inline]
    pub fn list_tried(&mut self, attempt: Attempt)
        requires { 0 < self.old.room.events }
        ensures log { self.new.log ≡ with_event self.old.log (Tried attempt) }
        ensures room { self.new.room ≡ record self.old.room { events = self.old.room.events - 1 } }
    {
        self.room.events -= 1;
        self.events.push_note(note_of(&attempt));
    }

    /// Lists a move that had claimed a cell as the next event.
    #[inline]
    pub fn list_moved(&mut self, bucket: u32, table: u32, key: u64, stamp: Stamp, how: MoveEnd)
        requires { 0 < self.old.room.events }
        ensures log { self.new.log ≡ with_event self.old.log (Moved bucket table key stamp how) }
        ensures room { self.new.room ≡ record self.old.room { events = self.old.room.events - 1 } }
    {
        self.room.events -= 1;
        self.events.push_note(Note::Moved {
            bucket,
            table,
            key,
            stamp,
            how,
        });
    }

    /// Lists the next event.
    pub fn list_event(&mut self, event: Event)
        requires { 0 < self.old.room.events }
        ensures log { self.new.log ≡ with_event self.old.log event }
        ensures room { self.new.room ≡ record self.old.room { events = self.old.room.events - 1 } }
    {
        self.room.events -= 1;
        self.events.push(event);
    }

    /// Lists what was read at a key.
    pub fn list_read(&mut self, table: u32, key: u64, value: &Option<Value>)
        requires { 0 < self.old.room.reads }
        ensures log { self.new.log ≡ with_reads self.old.log (record { table = table; key = key; value = value.now } ∷ []) }
        ensures room { self.new.room ≡ record self.old.room { reads = self.old.room.reads - 1 } }
    {
        self.room.reads -= 1;
        self.reads.push(table, key, value);
    }

    /// Lists a lock that was taken.
    #[inline]
    pub fn list_lock(&mut self, lock: Lock)
        requires { 0 < self.old.room.locks }
        ensures log { self.new.log ≡ with_locks self.old.log (lock ∷ []) }
        ensures room { self.new.room ≡ record self.old.room { locks = self.old.room.locks - 1 } }
    {
        self.room.locks -= 1;
        self.locks.push(lock);
    }

    /// Lists what a commit wrote, in order.
    pub fn list_writes(&mut self, items: &[Item])
        requires { length items.now ≤ self.old.room.writes }
        ensures log { self.new.log ≡ with_writes self.old.log items.now }
        ensures room { self.new.room ≡ record self.old.room { writes = self.old.room.writes - length items.now } }
    {
        let left = self.room.writes as usize - items.len();
        self.room.writes = left as u32;
        push_items(&mut self.writes, items);
    }

    /// Lists the snapshot that a call got.
    pub fn list_snap(&mut self, seen: &Snapshot)
        requires { 0 < self.old.room.snaps }
        ensures log { self.new.log ≡ with_snap self.old.log seen.now }
        ensures room { self.new.room ≡ record self.old.room { snaps = self.old.room.snaps - 1 } }
    {
        self.room.snaps -= 1;
        self.snaps.push(seen);
    }

    /// What was listed, handed out without memory.
    pub fn into_log(self) -> Log
        ensures { result ≡ self.log }
    {
        let RunningLog {
            room: _,
            events,
            reads,
            locks,
            writes,
            snaps,
        } = self;
        Log {
            events: List::from_vec(events.into_vec()),
            reads: List::from_vec(reads.into_vec()),
            locks: List::from_vec(locks.into_vec()),
            writes: List::from_vec(writes.into_vec()),
            snaps: List::from_vec(snaps.into_vec()),
        }
    }
}
