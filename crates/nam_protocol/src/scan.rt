//! Scanning a table's positions for the keys of a range.

use nam_calls::ReadPoint;
use si_model::Item;

/// Where a scan stands.
#[derive(Debug, Drop)]
pub enum ScanPoint {
    /// Read the position's key word.
    ScanKey {
        position: u32,
    },
    /// Read at the position, which bears the key.
    ScanRead {
        position: u32,
        key: u64,
        at: ReadPoint,
    },
}

/// What a scan found. After a key or a row its caller says how it goes on.
#[derive(Debug, Drop, PartialEq, Eq)]
pub enum ScanAnswer {
    /// The position bears a key of the range.
    Key {
        key: u64,
    },
    /// What the snapshot sees at that position.
    Row(Item),
    /// All positions were passed.
    Done,
    /// The horizon is above the snapshot: the worker's entries of both.
    TooOld {
        worker: u32,
        entry: u64,
        horizon: u64,
    },
    /// A read went astray: this never comes in a world.
    Astray,
}
