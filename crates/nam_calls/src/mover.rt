//! Moving an old version from its slot into a cell.

use crate::overflow::{ClaimPoint, FillPoint, Version};
use si_model::{Stamp, Value};

/// Where a move stands.
#[derive(Debug, Drop)]
pub enum MovePoint {
    /// Read the number of the record's current version.
    MoveCount,
    /// Read the header of that version's slot.
    MoveHead {
        slot: u32,
    },
    /// Read the slot's end.
    MoveEnding {
        slot: u32,
        header: u64,
    },
    /// Claim a cell.
    MoveClaim {
        slot: u32,
        header: u64,
        ending: u64,
        at: ClaimPoint,
    },
    /// Read the slot word after those got.
    MoveWords {
        slot: u32,
        header: u64,
        ending: u64,
        cell: u32,
        tag: u64,
        got: Value,
    },
    /// Fill the cell.
    MoveFill {
        slot: u32,
        header: u64,
        cell: u32,
        tag: u64,
        version: Version,
        at: FillPoint,
    },
    /// Read the slot's header again.
    MoveAgain {
        slot: u32,
        header: u64,
        cell: u32,
        tag: u64,
    },
    /// Write the tag that says the cell is full.
    MoveFull {
        slot: u32,
        header: u64,
        cell: u32,
        tag: u64,
    },
    /// Exchange the slot's header for the same with the moved flag.
    MoveFlag {
        slot: u32,
        header: u64,
    },
    /// Write the tag that sets the cell free again.
    MoveBack {
        header: u64,
        cell: u32,
        tag: u64,
    },
}

/// How a move ended.
#[derive(Clone, Copy, Debug, PartialEq, Eq)]
pub enum MoveAnswer {
    /// The version with this stamp stands in a cell.
    Moved { stamp: Stamp },
    /// Another worker had moved it first, and the cell was given back.
    Back { stamp: Stamp },
    /// The slot had no version to be moved.
    Nothing,
    /// The bucket had no free cell.
    NoRoom { bucket: u32 },
}
