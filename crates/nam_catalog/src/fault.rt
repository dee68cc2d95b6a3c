//! What a shape may lack.

/// Why a shape cannot be that of a store. Tables are counted from 0.
#[derive(Clone, Copy, Debug, PartialEq, Eq)]
pub enum ShapeFault {
    /// It has no worker.
    NoWorkers,
    /// It has more than 16 workers.
    TooManyWorkers,
    /// It has no table.
    NoTables,
    /// The table's rows have no word, or more than 8.
    BadWidth { table: u32 },
    /// The table has room for no key, or for more than 4,096.
    BadCapacity { table: u32 },
    /// The table keeps no old version, or more than 16.
    BadRing { table: u32 },
    /// It has no bucket, or more than 256.
    BadBuckets,
    /// Its buckets have no cell, or more than 64.
    BadCells,
    /// Headers of the form can't bear the start.
    BadStart,
    /// The table bears the name of an earlier one.
    TwiceNamed { table: u32 },
    /// It takes more than 4,194,304 words.
    TooManyWords,
}
