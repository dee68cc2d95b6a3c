//! Old versions in the cells of a bucket.

use si_model::Value;

/// Where the search of a bucket's cells stands.
#[derive(Debug, Drop)]
pub enum CellPoint {
    /// Read the cell's tag.
    CellTag {
        cell: u32,
    },
    /// Read the row that owns it.
    CellOwner {
        cell: u32,
        tag: u64,
    },
    /// Read the header of its version.
    CellBegin {
        cell: u32,
        tag: u64,
    },
    /// Read the end of its version.
    CellEnding {
        cell: u32,
        tag: u64,
        header: u64,
    },
    /// Read the data word after those got.
    CellWords {
        cell: u32,
        tag: u64,
        header: u64,
        got: Value,
    },
    /// Read the tag again.
    CellAgain {
        cell: u32,
        tag: u64,
        header: u64,
        value: Value,
    },
}

/// Where the claim of a free cell stands.
#[derive(Clone, Copy, Debug, PartialEq, Eq)]
pub enum ClaimPoint {
    /// Read the cell's tag.
    ClaimLook { cell: u32 },
    /// Exchange the free tag for one that says it is being written.
    ClaimTake { cell: u32, tag: u64 },
}

/// How the claim of a free cell ended.
#[derive(Clone, Copy, Debug, PartialEq, Eq)]
pub enum ClaimEnd {
    /// The cell is claimed, under this tag.
    Claimed { cell: u32, tag: u64 },
    /// Each cell was found not free, or was lost to another.
    NoRoom,
}

/// An old version: its header without the moved flag, the stamp word of its successor, and its words.
#[derive(Debug, Drop)]
pub struct Version {
    pub begin: u64,
    pub end: u64,
    pub value: Value,
}

/// Where the filling of a claimed cell stands.
#[derive(Clone, Copy, Debug, PartialEq, Eq)]
pub enum FillPoint {
    /// Write the row that owns it.
    FillOwner,
    /// Write the header of its version.
    FillBegin,
    /// Write the end of its version.
    FillEnding,
    /// Write a data word.
    FillWord { nth: u32 },
}
