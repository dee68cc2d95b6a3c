//! Transactions: their calls, and what they have at hand.

use lists::ShortList;
use nam_calls::{ClaimKeyPoint, CopyPoint, InstallPoint, LockPoint, ReadPoint, SlotPoint};
use nam_layout::Place;
use si_model::{Item, Key, Lock, Op, Snapshot, Value, copy_value};

/// A call of a transaction. Fields are counted from 1.
#[derive(Debug, Drop, PartialEq, Eq)]
pub enum TxnCall {
    /// Reads a key.
    Get {
        table: u32,
        key: u64,
    },
    /// Gives a key a value.
    Put {
        table: u32,
        key: u64,
        value: Value,
    },
    /// Reads a key and adds `by` to one of its fields, or takes it away where not `up`.
    Add {
        table: u32,
        key: u64,
        field: u32,
        up: bool,
        by: u64,
    },
    /// Makes a key absent.
    Del {
        table: u32,
        key: u64,
    },
    /// Reads a key and declines the transaction where a field is below `least`.
    Need {
        table: u32,
        key: u64,
        field: u32,
        least: u64,
    },
    /// Reads a key that no concurrent transaction may write.
    Guard {
        table: u32,
        key: u64,
    },
    /// Publishes the write set.
    Commit,
}

/// A key and the position that bears it.
#[derive(Clone, Copy, Debug, PartialEq, Eq)]
pub struct Record {
    pub key: Key,
    pub place: Place,
}

impl Default for Record {
    ghost use Rattle.std.specs.Prelude.{◌≡◌};
    ghost use Rattle.nam_protocol.specs.Commit.{no_record};

    ghost is_default = { λ r. r ≡ no_record };

    /// No record of a commit. Lists of records need one to begin with.
    fn default() -> Record {
        Record {
            key: Key { table: 0, key: 0 },
            place: Place::default(),
        }
    }
}

/// An open transaction of a worker whose last commit number is `last`, on the snapshot `seen`.
#[derive(Debug, Drop)]
pub struct TxnState {
    pub worker: u32,
    pub last: u64,
    pub seen: Snapshot,
    /// The write set: each key once, in the order of first writes, with its last value.
    pub writes: ShortList<Item, 16>,
    /// The guarded keys, each once, in the order of first guards.
    pub guards: ShortList<Key, 16>,
    /// The keys that are written or guarded, each once, with their positions.
    pub claims: ShortList<Record, 16>,
    /// What the call that runs has read, until it is listed.
    pub read: Option<Item>,
    /// The records of the commit: the written ones in write-set order, then the others that are guarded.
    pub records: ShortList<Record, 16>,
    /// The headers that the commit's records bore which it has locked: the first ones, while it locks them.
    pub held: ShortList<u64, 16>,
    /// The numbers of the current versions of the written records whose slots were looked at.
    pub counts: ShortList<u64, 16>,
}

/// Where the listing of a commit's records in its worker's intent stands. Records are counted from 0, in the commit's
/// order.
#[derive(Clone, Copy, Debug, PartialEq, Eq)]
pub enum ListPoint {
    /// Write a record's row.
    ListRow { nth: u32 },
    /// Write what the commit does with a record.
    ListKind { nth: u32 },
    /// Write a data word of a record's next version.
    ListData { nth: u32, word: u32 },
    /// Write the number of the commit.
    ListNumber,
    /// Write the state: the records are listed.
    ListState,
}

/// Why a commit changes nothing.
#[derive(Clone, Copy, Debug, PartialEq, Eq)]
pub enum Refusal {
    /// The record is locked by another.
    Locked(Lock),
    /// The record has a newer version than the snapshot sees.
    Newer(Lock),
    /// The slot that the record's next version needs has a version that was not moved yet.
    Full(Lock),
}

/// Where a commit stands. Records are counted from 0, in the commit's order.
#[derive(Debug, Drop)]
pub enum CommitPoint {
    /// List the records in the worker's intent, in form Held.
    Listing { at: ListPoint },
    /// Lock the records.
    Locking { at: LockPoint },
    /// Look at the slot of the next written record.
    Checking { at: SlotPoint },
    /// Write a record's header back, since a written record's slot is not free.
    Returning { given: u32, full: Lock },
    /// Write the number of a written record's current version to the intent, in form Held.
    Counting { nth: u32 },
    /// Write the intent's state, in form Held: the commit is decided.
    Deciding,
    /// Read a written record's data word after those got.
    Saving { nth: u32, got: Value },
    /// Copy a written record's current version into its slot.
    Copying { nth: u32, old: Value, at: CopyPoint },
    /// Install a written record's next version.
    Installing { nth: u32, at: InstallPoint },
    /// Write the worker's entry of the vector.
    Publishing,
    /// Write a guarded record's header back.
    Freeing { nth: u32 },
    /// Write the intent's state, in form Held: there is none. Then the commit was refused.
    Clearing { refusal: Refusal },
    /// Write the intent's state, in form Held: there is none. Then the commit is over.
    Ending,
}

/// Where a transaction's call stands.
#[derive(Debug, Drop)]
pub enum TxnPoint {
    /// Search the key's position, having passed so many of its path.
    Finding {
        op: Op,
        passed: u32,
    },
    /// Read at the position.
    Reading {
        op: Op,
        position: u32,
        at: ReadPoint,
    },
    /// Claim a position for the key.
    Claiming {
        op: Op,
        at: ClaimKeyPoint,
    },
    /// Commit.
    Committing {
        at: CommitPoint,
    },
}

/// The answer to a transaction's call.
#[derive(Debug, Drop, PartialEq, Eq)]
pub enum TxnAnswer {
    /// What a get or a guard found.
    Value(Option<Value>),
    /// The write set has the put or the deletion.
    Written,
    /// The write set has the field's new value.
    Added(u64),
    /// The field is at least what was needed.
    Met,
    /// The write set is published under this number.
    Committed {
        number: u64,
    },
    /// There was nothing to be published.
    ReadOnly,
    /// The horizon is above the snapshot: the worker's entries of both.
    TooOld {
        worker: u32,
        entry: u64,
        horizon: u64,
    },
    /// Every position of the table bears another key.
    NoSpace {
        table: u32,
    },
    /// The operation did not find what it needs.
    Declined,
    /// The worker has no commit number left.
    Spent,
    /// The record is locked by another.
    Locked(Lock),
    /// The record has a newer version than the snapshot sees.
    Newer(Lock),
    /// The slot that the record's next version needs has a version that was not moved yet.
    Full(Lock),
    /// A read went astray: this never comes in a world.
    Astray,
}

impl TxnAnswer {
    ghost use Rattle.std.specs.Prelude.{◌≡◌};

    /// An equal answer, made without memory.
    pub fn copy(&self) -> TxnAnswer
        ensures { result ≡ self.now }
    {
        match self {
            TxnAnswer::Value(value) => TxnAnswer::Value(copy_value(value)),
            TxnAnswer::Written => TxnAnswer::Written,
            TxnAnswer::Added(number) => TxnAnswer::Added(*number),
            TxnAnswer::Met => TxnAnswer::Met,
            TxnAnswer::Committed { number } => TxnAnswer::Committed { number: *number },
            TxnAnswer::ReadOnly => TxnAnswer::ReadOnly,
            TxnAnswer::TooOld {
                worker,
                entry,
                horizon,
            } => TxnAnswer::TooOld {
                worker: *worker,
                entry: *entry,
                horizon: *horizon,
            },
            TxnAnswer::NoSpace { table } => TxnAnswer::NoSpace { table: *table },
            TxnAnswer::Declined => TxnAnswer::Declined,
            TxnAnswer::Spent => TxnAnswer::Spent,
            TxnAnswer::Locked(lock) => TxnAnswer::Locked(*lock),
            TxnAnswer::Newer(lock) => TxnAnswer::Newer(*lock),
            TxnAnswer::Full(lock) => TxnAnswer::Full(*lock),
            TxnAnswer::Astray => TxnAnswer::Astray,
        }
    }
}
