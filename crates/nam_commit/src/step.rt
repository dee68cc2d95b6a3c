//! Where a commit stands, without its lists.

use nam_calls::{CopyPoint, InstallPoint, LockPoint, SlotPoint};
use si_model::Lock;

/// Where the listing of a commit's records in its worker's intent stands.
#[derive(Clone, Copy, Debug, PartialEq, Eq)]
pub enum ListStep {
    /// Write a record's row.
    Row { nth: u32 },
    /// Write what the commit does with a record.
    Kind { nth: u32 },
    /// Write a data word of a record's next version.
    Data { nth: u32, word: u32 },
    /// Write the number of the commit.
    Number,
    /// Write the state: the records are listed.
    State,
}

/// Why a commit changes nothing.
#[derive(Clone, Copy, Debug, PartialEq, Eq)]
pub enum Loss {
    /// The record is locked by another.
    Locked { lock: Lock },
    /// The record has a newer version than the snapshot sees.
    Newer { lock: Lock },
    /// The slot that the record's next version needs is not free.
    Full { lock: Lock },
}

/// Where a commit stands, or how it was over. Records are counted from 0, in the commit's order; the words of the one
/// that is saved and copied are in a buffer beside the step.
#[derive(Clone, Copy, Debug, PartialEq, Eq)]
pub enum Step {
    /// List the records in the worker's intent.
    Listing { at: ListStep },
    /// Lock the records.
    Locking { at: LockPoint },
    /// Look at the slot of the next written record.
    Checking { at: SlotPoint },
    /// Write a record's header back.
    Returning { given: u32, full: Lock },
    /// Write the number of a written record's current version to the intent.
    Counting { nth: u32 },
    /// Write the intent's state: decided.
    Deciding,
    /// Read a written record's data word after those in the buffer.
    Saving { nth: u32 },
    /// Copy a written record's current version, whose words are in the buffer.
    Copying { nth: u32, at: CopyPoint },
    /// Install a written record's next version.
    Installing { nth: u32, at: InstallPoint },
    /// Write the worker's entry of the vector.
    Publishing,
    /// Write a guarded record's header back.
    Freeing { nth: u32 },
    /// Write the intent's state: none. The commit is refused.
    Clearing { loss: Loss },
    /// Write the intent's state: none. The commit is done.
    Ending,
    /// The commit was refused.
    Refused { loss: Loss },
    /// The commit is done, under this number.
    Committed { number: u64 },
    /// There was nothing to be committed.
    ReadOnly,
    /// The worker has no number left.
    Spent,
}
