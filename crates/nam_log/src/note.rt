//! Events that are noted in few bytes.

ghost use Rattle.std.specs.Prelude.{◌≡◌, IfSome};
ghost use Rattle.si_model.specs.declared.log.Event.TheVariants.{Tried};
ghost use Rattle.nam_log.specs.Notes.{tried, event_of};

use si_model::{Attempt, Event, MoveEnd, Outcome, Stamp};

/// Which attempt, and how much of its log's other lists it owns.
#[derive(Clone, Copy, Debug)]
pub(crate) struct Counts {
    pub txn: u32,
    pub nth: u32,
    pub reads: u32,
    pub locks: u32,
    pub writes: u32,
}

/// An event of the kinds that are frequent.
#[derive(Clone, Copy, Debug)]
pub(crate) enum Note {
    /// An attempt that got its snapshot.
    Begun {
        counts: Counts,
        prefix: u64,
        outcome: Outcome,
    },
    /// An attempt that got none.
    Unbegun {
        counts: Counts,
        outcome: Outcome,
    },
    NoRoom {
        bucket: u32,
    },
    Moved {
        bucket: u32,
        table: u32,
        key: u64,
        stamp: Stamp,
        how: MoveEnd,
    },
}

/// The note of an attempt.
pub(crate) fn note_of(attempt: &Attempt) -> Note
    ensures { event_of result ≡ Tried attempt.now }
{
    let counts = Counts {
        txn: attempt.txn,
        nth: attempt.nth,
        reads: attempt.reads,
        locks: attempt.locks,
        writes: attempt.writes,
    };
    let outcome = attempt.outcome;
    match attempt.prefix {
        Some(prefix) => Note::Begun {
            counts,
            prefix,
            outcome,
        },
        None => Note::Unbegun { counts, outcome },
    }
}

/// The note of an event, if it is of a frequent kind.
pub(crate) fn note_of_event(event: &Event) -> Option<Note>
    ensures { IfSome result (λ note. event_of note ≡ event.now) }
{
    match event {
        Event::Tried(attempt) => Some(note_of(attempt)),
        Event::NoRoom { bucket } => Some(Note::NoRoom { bucket: *bucket }),
        Event::Moved {
            bucket,
            table,
            key,
            stamp,
            how,
        } => Some(Note::Moved {
            bucket: *bucket,
            table: *table,
            key: *key,
            stamp: *stamp,
            how: *how,
        }),
        _ => None,
    }
}

fn tried(counts: &Counts, prefix: Option<u64>, outcome: Outcome) -> Event
    ensures { result ≡ tried counts.now prefix outcome }
{
    Event::Tried(Attempt {
        txn: counts.txn,
        nth: counts.nth,
        prefix,
        reads: counts.reads,
        locks: counts.locks,
        writes: counts.writes,
        outcome,
    })
}

/// The event that a note stands for.
pub(crate) fn event_of(note: &Note) -> Event
    ensures { result ≡ event_of note.now }
{
    match note {
        Note::Begun {
            counts,
            prefix,
            outcome,
        } => tried(counts, Some(*prefix), *outcome),
        Note::Unbegun { counts, outcome } => tried(counts, None, *outcome),
        Note::NoRoom { bucket } => Event::NoRoom { bucket: *bucket },
        Note::Moved {
            bucket,
            table,
            key,
            stamp,
            how,
        } => Event::Moved {
            bucket: *bucket,
            table: *table,
            key: *key,
            stamp: *stamp,
            how: *how,
        },
    }
}
