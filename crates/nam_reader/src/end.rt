//! How a read ended.

/// How a read ended. `Reader::value` has the words of a present value.
#[derive(Clone, Copy, Debug, PartialEq, Eq)]
pub enum ReaderEnd {
    /// The snapshot sees a value.
    Present,
    /// It sees a deletion, or that there has been no value.
    Absent,
    /// The worker's horizon entry is above the snapshot's entry.
    TooOld {
        worker: u32,
        entry: u64,
        horizon: u64,
    },
    /// All searches missed, and the horizon does not say why: this never comes in a world.
    Astray,
}
