//! What a worker lists of its attempts and of its tidying.

ghost use Rattle.std.specs.Prelude.{◌≡◌, []};

use crate::row::{Items, Key};
use lists::{List, ShortList};
use std::alloc::Global;

/// The commit numbers that a worker found published, one for each worker.
pub type Snapshot = ShortList<u64, 16>;

/// The writer of a version and the number of its commit. (0, 0) is the loader's.
#[derive(Clone, Copy, Debug, Default, PartialEq, Eq)]
pub struct Stamp {
    pub thread: u32,
    pub number: u64,
}

/// A record, with the stamp that its header bore.
#[derive(Clone, Copy, Debug, Default, PartialEq, Eq)]
pub struct Lock {
    pub table: u32,
    pub key: u64,
    pub stamp: Stamp,
}

impl Lock {
    ghost use Rattle.si_model.specs.Answers.{lock_key};

    /// The table and the key.
    pub fn key(&self) -> Key
        ensures { result ≡ lock_key self.now }
    {
        Key {
            table: self.table,
            key: self.key,
        }
    }
}

/// How an attempt ended.
#[derive(Clone, Copy, Debug, PartialEq, Eq)]
pub enum Outcome {
    /// Its writes are published under this number of its worker.
    Commit {
        number: u64,
    },
    /// It wrote nothing.
    ReadOnly,
    /// Operation `op`, counted from 1, did not find what it needs.
    Declined {
        op: u32,
    },
    /// The table has no position for a key that it writes or guards.
    NoSpace {
        table: u32,
    },
    /// The worker has no commit number left.
    Spent,
    /// The second pass of its snapshot found another entry than the first.
    Again {
        worker: u32,
        first: u64,
        second: u64,
    },
    /// A record that it writes or guards is locked.
    Locked(Lock),
    /// A record that it writes or guards has a version that its snapshot does not hold.
    Newer(Lock),
    /// The version that it reads is given up: the horizon is above its snapshot.
    TooOld {
        worker: u32,
        entry: u64,
        horizon: u64,
    },
    /// The ring of a record that it writes has no free slot.
    Full(Lock),
    /// Its worker was stopped.
    Cut,
    /// Its caller gave it up.
    Left,
}

/// One try of a transaction. It owns the next `reads` reads and the next `locks` locks of its log and, if it
/// committed, the next `writes` writes. Where it got a snapshot, `prefix` is the length of the history that it saw.
#[derive(Clone, Copy, Debug, PartialEq, Eq)]
pub struct Attempt {
    pub txn: u32,
    pub nth: u32,
    pub prefix: Option<u64>,
    pub reads: u32,
    pub locks: u32,
    pub writes: u32,
    pub outcome: Outcome,
}

/// How the move of an old version ended, once it had claimed a cell.
#[derive(Clone, Copy, Debug, PartialEq, Eq)]
pub enum MoveEnd {
    Done,
    /// Another worker had moved the version first.
    Back,
    Cut,
}

/// How a stopped worker's attempt was finished from the words alone.
#[derive(Clone, Copy, Debug, PartialEq, Eq)]
pub enum Finish {
    /// There was nothing to finish.
    Clean,
    /// Its locks were given back.
    Undone,
    /// Its commit was completed.
    RolledOn,
}

/// What a worker did.
#[derive(Debug, Drop)]
pub enum Event {
    Tried(Attempt),
    /// A tidying found no free cell in the bucket.
    NoRoom {
        bucket: u32,
    },
    /// A tidying claimed a cell for the version with this stamp.
    Moved {
        bucket: u32,
        table: u32,
        key: u64,
        stamp: Stamp,
        how: MoveEnd,
    },
    /// A collect got this snapshot.
    Collected {
        bucket: u32,
        prefix: u64,
        entries: Snapshot,
        cut: bool,
    },
    /// The second pass of a collect's snapshot found another entry than the first.
    CollectAgain {
        bucket: u32,
        worker: u32,
        first: u64,
        second: u64,
    },
    /// The worker was stopped in a collect, before its snapshot.
    CollectCut {
        bucket: u32,
    },
    /// The worker was stopped in a tidying, before it claimed a cell.
    TidyCut {
        table: u32,
        key: u64,
    },
    /// The worker was stopped after its commit was published.
    TailCut,
    /// The stopped worker was finished.
    Finished {
        how: Finish,
    },
}

impl Event {
    ghost use Rattle.si_model.specs.Tells.{attempt_in, reads_in, locks_in, writes_in};

    /// The attempt that the event is.
    pub fn attempt(&self) -> Option<Attempt>
        ensures { result ≡ attempt_in self.now }
    {
        match self {
            Event::Tried(attempt) => Some(*attempt),
            _ => None,
        }
    }

    /// How many of its log's reads the event owns.
    pub fn reads(&self) -> u32
        ensures { result ≡ reads_in self.now }
    {
        self.attempt().map_or(0, |attempt| attempt.reads)
    }

    /// How many of its log's locks the event owns.
    pub fn locks(&self) -> u32
        ensures { result ≡ locks_in self.now }
    {
        self.attempt().map_or(0, |attempt| attempt.locks)
    }

    /// How many of its log's writes the event owns.
    pub fn writes(&self) -> u32
        ensures { result ≡ writes_in self.now }
    {
        self.attempt().map_or(0, |attempt| attempt.writes)
    }
}

/// What one worker did, in order. The items of the events stand one after another in the other lists.
#[derive(Debug, Drop)]
pub struct Log {
    pub events: List<Event>,
    pub reads: Items,
    pub locks: List<Lock>,
    pub writes: Items,
    pub snaps: List<Snapshot>,
}

impl Log {
    /// A log without events, which has taken no memory yet.
    pub fn new(alloc: Global) -> Log
        ensures { result ≡ record { events = []; reads = []; locks = []; writes = []; snaps = [] } }
    {
        Log {
            events: List::new(alloc),
            reads: List::new(alloc),
            locks: List::new(alloc),
            writes: List::new(alloc),
            snaps: List::new(alloc),
        }
    }
}
