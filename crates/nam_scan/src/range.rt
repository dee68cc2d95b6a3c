//! The range of a scan.

/// The keys from `low` to `high` of a table that has so many positions.
#[derive(Clone, Copy, Debug, PartialEq, Eq)]
pub struct ScanRange {
    pub table: u32,
    pub low: u64,
    pub high: u64,
    pub capacity: u32,
}
