//! The horizon: raising it to a snapshot and freeing what is below, and showing that a snapshot is below it.

use si_model::Snapshot;

/// Where the collection of a bucket stands. It knows so many entries of the horizon.
#[derive(Debug, Drop)]
pub enum CollectPoint {
    /// Read the horizon entry after those known.
    HorizonLook {
        known: Snapshot,
    },
    /// Exchange the lower entry that was found for the snapshot's.
    HorizonRaise {
        known: Snapshot,
        found: u64,
    },
    /// Read the cell's tag.
    CollectTag {
        known: Snapshot,
        cell: u32,
    },
    /// Read the end of its version.
    CollectEnding {
        known: Snapshot,
        cell: u32,
        tag: u64,
    },
    /// Exchange the tag for that of a free cell.
    CollectFree {
        known: Snapshot,
        cell: u32,
        tag: u64,
    },
}

/// Whether the horizon has passed a snapshot.
#[derive(Clone, Copy, Debug, PartialEq, Eq)]
pub enum OldEnd {
    /// The worker's horizon entry is above the snapshot's entry.
    TooOld {
        worker: u32,
        entry: u64,
        horizon: u64,
    },
    /// No entry is above the snapshot's.
    NotPassed,
}
