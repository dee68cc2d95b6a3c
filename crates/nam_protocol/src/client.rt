//! A worker's client: its calls one at a time, and its log.

use crate::scan::ScanPoint;
use crate::txn::{TxnAnswer, TxnCall, TxnPoint, TxnState};
use lists::List;
use nam_calls::{CollectPoint, MedicPoint, MovePoint};
use nam_vector::SnapPoint;
use nam_verbs::Now;
use si_model::{Finish, Log, Snapshot, Value};

/// A call of a client.
#[derive(Debug, Drop, PartialEq, Eq)]
pub enum Call {
    /// Begins try `nth` of a transaction.
    Begin { txn: u32, nth: u32 },
    /// A call of the open transaction.
    Txn(TxnCall),
    /// Reads each present row whose key is from `low` to `high`, in the open transaction.
    Scan { table: u32, low: u64, high: u64 },
    /// Moves the version in the slot that the key's next version needs.
    Tidy { table: u32, key: u64 },
    /// Raises the horizon to a snapshot and frees the bucket's cells below.
    Collect { bucket: u32 },
}

/// The answer to a client's call.
#[derive(Debug, Drop, PartialEq, Eq)]
pub enum Answer {
    /// The transaction is open, on the state after so many commits.
    Begun {
        prefix: u64,
    },
    /// The snapshot has to be taken again: the worker's entry rose.
    Again {
        worker: u32,
        first: u64,
        second: u64,
    },
    /// The answer to a call of a transaction.
    Txn(TxnAnswer),
    /// The scan listed so many rows.
    Scanned {
        items: u32,
    },
    /// The version stands in a cell.
    Moved,
    /// Another worker had moved it first.
    Back,
    /// There was nothing to be moved.
    Nothing,
    /// The bucket had no free cell.
    NoRoom {
        bucket: u32,
    },
    /// The horizon that the collection knows.
    Collected(Snapshot),
}

impl Answer {
    ghost use Rattle.std.specs.Prelude.{◌≡◌};

    /// An equal answer, made without memory.
    pub fn copy(&self) -> Answer
        ensures { result ≡ self.now }
    {
        match self {
            Answer::Begun { prefix } => Answer::Begun { prefix: *prefix },
            Answer::Again {
                worker,
                first,
                second,
            } => Answer::Again {
                worker: *worker,
                first: *first,
                second: *second,
            },
            Answer::Txn(answer) => Answer::Txn(answer.copy()),
            Answer::Scanned { items } => Answer::Scanned { items: *items },
            Answer::Moved => Answer::Moved,
            Answer::Back => Answer::Back,
            Answer::Nothing => Answer::Nothing,
            Answer::NoRoom { bucket } => Answer::NoRoom { bucket: *bucket },
            Answer::Collected(known) => Answer::Collected(known.copy()),
        }
    }
}

/// Where a client's call stands.
#[derive(Debug, Drop)]
pub enum CallPoint {
    /// Take a transaction's snapshot.
    Beginning {
        txn: u32,
        nth: u32,
        at: SnapPoint,
    },
    /// A call of the open transaction.
    InTxn {
        at: TxnPoint,
    },
    /// Scan a table.
    Scanning {
        table: u32,
        low: u64,
        high: u64,
        at: ScanPoint,
    },
    /// Search the position of the key to be tidied, having passed so many of its path.
    Seeking {
        table: u32,
        key: u64,
        passed: u32,
    },
    /// Move the version in the key's slot.
    Moving {
        table: u32,
        key: u64,
        position: u32,
        at: MovePoint,
    },
    /// Take a collection's snapshot.
    Snapping {
        bucket: u32,
        at: SnapPoint,
    },
    /// Collect the bucket.
    Collecting {
        bucket: u32,
        prefix: u64,
        seen: Snapshot,
        at: CollectPoint,
    },
}

/// The open transaction, as its client knows it.
#[derive(Debug, Drop)]
pub struct Open {
    pub txn: u32,
    pub nth: u32,
    /// How many commits its snapshot sees.
    pub prefix: u64,
    /// How many operations were asked.
    pub ops: u32,
    /// The same, where a scan counts as many as its table has positions.
    pub ops_so_far: u32,
    /// How many reads and locks it has listed.
    pub reads: u32,
    pub locks: u32,
    pub state: TxnState,
}

/// A present row that a scan found, and its position.
#[derive(Debug, Drop)]
pub struct Scanned {
    pub position: u32,
    pub key: u64,
    pub value: Value,
}

/// A client of a worker whose commit numbers follow `start`, the last of them being `last`.
#[derive(Debug, Drop)]
pub struct ClientState {
    pub worker: u32,
    pub start: u64,
    pub last: u64,
    pub log: Log,
    pub txn: Option<Open>,
    /// What the scan that runs has found, position by position.
    pub scanned: List<Scanned>,
    /// The call that was asked last, if there was one.
    pub call: Option<Now<CallPoint, Answer>>,
    /// It was stopped for good.
    pub cut: bool,
    /// The medic of a client that was stopped, or how it has finished.
    pub medic: Option<Now<MedicPoint, Finish>>,
}
