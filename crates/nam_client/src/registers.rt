//! What a client has at hand.

ghost use Rattle.std.specs.Prelude.{◌≡◌, false};
ghost use Rattle.nam_protocol.specs.Telling.{new_client};
ghost use Rattle.nam_client.specs.Registers.{client_of};
ghost use Rattle.nam_client.specs.declared.registers.Step.TheVariants as step;
ghost use Rattle.nam_client.specs.Room.{HasRoom};

use nam_calls::Path;
use nam_log::{RoomyList, RunningLog};
use nam_protocol::Scanned;
use nam_scan::Scan;
use nam_txn::Txn;
use nam_upkeep::{Collector, Mover, Snapper};
use si_model::{Finish, Snapshot};
use std::alloc::Global;

/// How many calls a client has room for: begins, operations, and tidyings or collections.
#[derive(Clone, Copy, Debug, PartialEq, Eq)]
pub struct Spare {
    pub attempts: u32,
    pub ops: u32,
    pub tidies: u32,
}

/// What is counted of the open transaction, or of the last one.
#[derive(Clone, Copy, Debug, PartialEq, Eq)]
pub struct Attempting {
    pub txn: u32,
    pub nth: u32,
    pub prefix: u64,
    pub ops: u32,
    /// The same, where a scan counts as many as its table has positions.
    pub ops_so_far: u32,
    pub reads: u32,
    pub locks: u32,
}

/// The call that was asked last. Where it stands is said by what it runs on.
#[derive(Clone, Copy, Debug, PartialEq, Eq)]
pub enum Step {
    /// No call was asked yet.
    Resting,
    /// A begin, on the snapper.
    Beginning { txn: u32, nth: u32 },
    /// A call of the transaction.
    InTxn,
    /// A scan, on the scan.
    Scanning,
    /// A tidying that searches its key's position, having passed so many of its path.
    Seeking { table: u32, key: u64, passed: u32 },
    /// A tidying of that position, on the mover.
    Moving { table: u32, key: u64, position: u32 },
    /// A collection's snapshot, on the snapper.
    Snapping { bucket: u32 },
    /// A collection on that snapshot, on the collector.
    Collecting { bucket: u32, prefix: u64 },
    /// A call that was answered where no machine tells it.
    Answered(Told),
}

/// An answer that is kept as it is.
#[derive(Clone, Copy, Debug, PartialEq, Eq)]
pub enum Told {
    /// There was nothing to be moved.
    Nothing,
    /// A scan listed so many rows.
    Scanned {
        items: u32,
    },
    /// A scan found its snapshot too old.
    TooOld {
        worker: u32,
        entry: u64,
        horizon: u64,
    },
    /// A scan's read went astray.
    Astray,
}

/// A client's registers.
#[derive(Debug, Drop)]
pub struct Registers {
    pub worker: u32,
    pub start: u64,
    pub last: u64,
    pub log: RunningLog,
    pub spare: Spare,
    /// How many events are kept for its closing: two, once it has room for a call.
    pub closing: u32,
    pub is_open: bool,
    pub attempt: Attempting,
    pub txn: Txn,
    pub step: Step,
    pub snapper: Snapper,
    pub mover: Mover,
    pub collector: Collector,
    /// The path of the key to be tidied.
    pub path: Path,
    /// How many verbs follow the search or the snapshot that runs at the most.
    pub to_follow: u64,
    pub scan: Option<Scan>,
    /// What the scan that runs has found, position by position.
    pub scanned: RoomyList<Scanned>,
    pub is_cut: bool,
    /// How the client was finished, if it was.
    pub finish: Option<Finish>,
}

/// The registers of a new client of a worker, whose commit numbers follow `start`.
pub fn new_registers(alloc: Global, worker: u32, start: u64) -> Registers
    ensures client { client_of result ≡ new_client worker start }
    ensures spare { result.spare ≡ record { attempts = 0; ops = 0; tidies = 0 } }
    ensures room { HasRoom result }
    ensures rests { result.step ≡ step.Resting }
    ensures closed { result.is_open ≡ false }
{
    Registers {
        worker,
        start,
        last: start,
        log: RunningLog::new(alloc),
        spare: Spare {
            attempts: 0,
            ops: 0,
            tidies: 0,
        },
        closing: 0,
        is_open: false,
        attempt: Attempting {
            txn: 0,
            nth: 0,
            prefix: 0,
            ops: 0,
            ops_so_far: 0,
            reads: 0,
            locks: 0,
        },
        txn: Txn::new(worker, start, Snapshot::new()),
        step: Step::Resting,
        snapper: Snapper::new(),
        mover: Mover::new(),
        collector: Collector::new(),
        path: Path {
            key: 0,
            capacity: 1,
            row: 0,
            first: 0,
            words: 0,
        },
        to_follow: 0,
        scan: None,
        scanned: RoomyList::new(alloc),
        is_cut: false,
        finish: None,
    }
}
