//! Reading the version of a record that a snapshot sees.

use crate::overflow::CellPoint;
use crate::record::CurrentPoint;
use crate::ring::RingPoint;
use nam_layout::{Cells, Place};
use si_model::Value;

/// Where a read looks: at the record, at the cells of its bucket, and at the horizon of so many workers.
#[derive(Clone, Copy, Debug, PartialEq, Eq)]
pub struct Sight {
    pub place: Place,
    pub cells: Cells,
    pub workers: u32,
}

/// Where a read stands.
#[derive(Debug, Drop)]
pub enum ReadPoint {
    /// Read the current version.
    ReadCurrent {
        at: CurrentPoint,
    },
    /// Search the ring, since the current version was locked.
    ReadUnsure {
        value: Value,
        header: u64,
        at: RingPoint,
    },
    /// Read the header once more, since the ring has no version.
    ReadRecheck {
        value: Value,
        header: u64,
    },
    /// Search the ring.
    ReadRing {
        at: RingPoint,
    },
    /// Search the cells.
    ReadCells {
        at: CellPoint,
    },
    /// Read a worker's horizon entry.
    ReadHorizon {
        worker: u32,
    },
}

/// How a read ended.
#[derive(Debug, Drop, PartialEq, Eq)]
pub enum ReadingEnd {
    /// What the snapshot sees; a deletion has no value.
    Got(Option<Value>),
    /// The worker's horizon entry is above the snapshot's entry.
    Passed {
        worker: u32,
        entry: u64,
        horizon: u64,
    },
    /// All searches missed, and the horizon does not say why: this never comes in a world.
    Astray,
}
