//! A list of events whose newest stand in few bytes.

ghost use Rattle.std.specs.Prelude.{◌≡◌, ◌-◌, ◌<◌, ◌≤◌, [], ◌∷◌, ◌++◌, length, max, OnOk, OnErr};
ghost use Rattle.nam_log.specs.Notes.{event_of, events_of};

use crate::RoomyList;
use crate::note::{Note, event_of, note_of_event};
use si_model::Event;
use std::alloc::{AllocError, Global};
use std::marker::Model;

/// A list of events with room. The newest are noted in few bytes for as long as they are of frequent kinds.
#[derive(Debug, Drop)]
pub(crate) struct CompactEvents {
    listed: RoomyList<Event>,
    notes: RoomyList<Note>,
}

impl Model for CompactEvents {
    ghost use Rattle.std.specs.Prelude.{◌-◌, ◌≤◌, ◌++◌, length};
    ghost use Rattle.si_model.specs.declared.log.Event.{Event};
    ghost use Rattle.nam_log.specs.Roomy.{Roomy};
    ghost use Rattle.nam_log.specs.Notes.{events_of};

    ghost Value = { Roomy Event };

    ghost view = { λ a. record {
      items = a.listed.items ++ events_of a.notes.items;
      room = a.listed.room - length a.notes.items;
    } };

    ghost invariant = { λ a. length a.notes.items ≤ a.listed.room };
}

/// Lists the events of these notes.
fn list_events(notes: &[Note], list: &mut RoomyList<Event>)
    requires { length notes.now ≤ list.old.room }
    ensures items { list.new.items ≡ list.old.items ++ events_of notes.now }
    ensures room { list.new.room ≡ list.old.room - length notes.now }
{
    for note in notes {
        list.push(event_of(note));
    }
}

/// Moves the noted events to the others.
fn settle(notes: &mut RoomyList<Note>, list: &mut RoomyList<Event>)
    requires { length notes.old.items ≤ list.old.room }
    ensures items { list.new.items ≡ list.old.items ++ events_of notes.old.items }
    ensures room { list.new.room ≡ list.old.room - length notes.old.items }
    ensures emptied { notes.new.items ≡ [] }
{
    list_events(notes.as_slice(), list);
    notes.clear();
}

impl CompactEvents {
    /// No events and no room.
    pub fn new(alloc: Global) -> CompactEvents
        ensures items { result.items ≡ [] }
        ensures room { result.room ≡ 0 }
    {
        CompactEvents {
            listed: RoomyList::new(alloc),
            notes: RoomyList::new(alloc),
        }
    }

    /// Makes room for so many more events, if there is not as much already. Where memory is not found, events and room
    /// stay as they were.
    pub fn reserve(&mut self, room: u32) -> Result<(), AllocError>
        ensures items { self.new.items ≡ self.old.items }
        ensures ok { OnOk result (self.new.room ≡ max self.old.room room) }
        ensures err { OnErr result (self.new.room ≡ self.old.room) }
    {
        settle(&mut self.notes, &mut self.listed);
        self.notes.reserve(room as usize)?;
        self.listed.reserve(room as usize)
    }

    /// Appends an event that a note stands for, and for which there is room.
    #[inline]
    pub fn push_note(&mut self, note: Note)
        requires { 0 < self.old.room }
        ensures items { self.new.items ≡ self.old.items ++ event_of note ∷ [] }
        ensures room { self.new.room ≡ self.old.room - 1 }
    {
        if self.notes.room() == 0 {
            self.push_noted(note);
        } else {
            self.notes.push(note);
        }
    }

    /// The same, where the notes have no room. The event is built here, since a local costs its function at each call.
    #[cold]
    #[inline(never)]
    fn push_noted(&mut self, note: Note)
        requires { 0 < self.old.room }
        ensures items { self.new.items ≡ self.old.items ++ event_of note ∷ [] }
        ensures room { self.new.room ≡ self.old.room - 1 }
    {
        self.push_listed(event_of(&note));
    }

    /// Appends an event, for which there is room.
    pub fn push(&mut self, event: Event)
        requires { 0 < self.old.room }
        ensures items { self.new.items ≡ self.old.items ++ event ∷ [] }
        ensures room { self.new.room ≡ self.old.room - 1 }
    {
        match note_of_event(&event) {
            Some(note) => self.push_note(note),
            None => self.push_listed(event),
        }
    }

    /// The same, past the notes.
    #[cold]
    #[inline(never)]
    fn push_listed(&mut self, event: Event)
        requires { 0 < self.old.room }
        ensures items { self.new.items ≡ self.old.items ++ event ∷ [] }
        ensures room { self.new.room ≡ self.old.room - 1 }
    {
        settle(&mut self.notes, &mut self.listed);
        self.listed.push(event);
    }

    /// The vector of the events, made without memory.
    pub fn into_vec(self) -> Vec<Event>
        ensures { result.items ≡ self.items }
    {
        let CompactEvents {
            mut listed,
            mut notes,
        } = self;
        settle(&mut notes, &mut listed);
        listed.into_vec()
    }
}
