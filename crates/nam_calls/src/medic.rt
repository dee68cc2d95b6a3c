//! The medic: a stopped worker's attempt is finished from the words alone.

use crate::record::InstallPoint;
use crate::ring::CopyPoint;
use lists::ShortList;
use si_model::Value;

/// The walk over the listed records of a decided commit: how many there are, the number of the commit, which record is
/// at hand, and which of those before it are guards.
#[derive(Debug, Drop)]
pub struct Walk {
    pub records: u32,
    pub number: u64,
    pub nth: u32,
    pub guards: ShortList<u32, 16>,
}

/// What a listed record gets: its row, the number of the version that was locked, and the value of the next one; a
/// deletion has none.
#[derive(Debug, Drop)]
pub struct NextVersion {
    pub row: u32,
    pub count: u64,
    pub value: Option<Value>,
}

/// Where the medic stands.
#[derive(Debug, Drop)]
pub enum MedicPoint {
    /// Read the state of the intent.
    MedicState,
    /// Read the row of a record of a commit that is only listed.
    UndoRow {
        records: u32,
        nth: u32,
    },
    /// Read the record's header.
    UndoHead {
        records: u32,
        nth: u32,
        row: u32,
    },
    /// Write the header back without lock.
    UndoBack {
        records: u32,
        nth: u32,
        row: u32,
        header: u64,
    },
    /// Write the state that says there is no intent: the commit is undone.
    UndoClear,
    /// Read the number of a commit that is decided.
    RollNumber {
        records: u32,
    },
    /// Read the row of the record at hand.
    RollRow {
        walk: Walk,
    },
    /// Read what it gets.
    RollKind {
        walk: Walk,
        row: u32,
    },
    /// Read the number of the version that was locked.
    RollCount {
        walk: Walk,
        row: u32,
        deleted: bool,
    },
    /// Read the data word of the intent after those got.
    RollData {
        walk: Walk,
        row: u32,
        count: u64,
        got: Value,
    },
    /// Read the record's header.
    RollHead {
        walk: Walk,
        next: NextVersion,
    },
    /// Read the header of the slot for the version that was locked.
    RollSlot {
        walk: Walk,
        next: NextVersion,
        header: u64,
    },
    /// Read the data word of the record after those got.
    RollOld {
        walk: Walk,
        next: NextVersion,
        header: u64,
        got: Value,
    },
    /// Copy the version into its slot.
    RollCopy {
        walk: Walk,
        next: NextVersion,
        header: u64,
        old: Value,
        at: CopyPoint,
    },
    /// Install the next version.
    RollInstall {
        walk: Walk,
        next: NextVersion,
        at: InstallPoint,
    },
    /// Write the stopped worker's entry of the vector.
    RollEntry {
        number: u64,
        guards: ShortList<u32, 16>,
    },
    /// Read the row of the guard after those passed.
    GuardRow {
        guards: ShortList<u32, 16>,
        passed: u32,
    },
    /// Read its kind.
    GuardKind {
        guards: ShortList<u32, 16>,
        passed: u32,
        row: u32,
    },
    /// Read its header.
    GuardHead {
        guards: ShortList<u32, 16>,
        passed: u32,
        row: u32,
    },
    /// Write the header back without lock.
    GuardBack {
        guards: ShortList<u32, 16>,
        passed: u32,
        row: u32,
        header: u64,
    },
    /// Write the state that says there is no intent: the commit is complete.
    RollClear,
}
