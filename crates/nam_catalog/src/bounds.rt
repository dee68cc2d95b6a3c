//! How much there can be at the most, and how many words a cell and an intent take.

// Shapes

/// Workers of a store.
pub const MOST_WORKERS: u32 = 16;

/// Tables of a store.
pub const MOST_TABLES: usize = 8;

/// Words of a row.
pub const MOST_WIDTH: u32 = 8;

/// Keys of a table.
pub const MOST_CAPACITY: u32 = 4_096;

/// Old versions of a position.
pub const MOST_RING: u32 = 16;

/// Buckets of overflow cells.
pub const MOST_BUCKETS: u32 = 256;

/// Cells of a bucket.
pub const MOST_CELLS: u32 = 64;

/// Words of a store.
pub const MOST_WORDS: u64 = 4_194_304;

/// The words of an overflow cell: tag, owner, begin, end, and room for the widest value.
pub const CELL_WORDS: u64 = 12;

/// The words of a worker's intent, in the form that has intents: its state, a commit number, and 11 words for each of
/// 16 records.
pub const INTENT_WORDS: u64 = 178;

// Scripts

/// Attempts at a transaction.
pub const MOST_TRIES: u32 = 16;

/// Transactions of a script.
pub const MOST_TXNS: usize = 8_192;

/// Operations of a transaction.
pub const MOST_TXN_OPS: usize = 32;

/// What all operations of a script cost.
pub const MOST_OPS: u64 = 65_536;

/// Keys that a transaction writes or guards.
pub const MOST_KEYS: usize = 16;

/// Turns that a script names one by one.
pub const MOST_TURNS: u64 = 10_000_000;

/// Turns of one stint.
pub const MOST_STEPS: u32 = 1_000_000;

/// Turns that a seed picks.
pub const MOST_PICKS: u32 = 1_000_000;
