//! Searching the index for a key.

/// The positions of a table in the order in which a key is looked for: the first is that of the key modulo the
/// capacity, and after the table's last position its first follows.
#[derive(Clone, Copy, Debug, PartialEq, Eq)]
pub struct Path {
    pub key: u64,
    pub capacity: u32,
    /// The row of the table's first position.
    pub row: u32,
    /// The address of its key word.
    pub first: u64,
    /// How many words each position has.
    pub words: u64,
}

/// How the search for a key's position ended.
#[derive(Clone, Copy, Debug, PartialEq, Eq)]
pub enum FindEnd {
    /// The position bears the key.
    At(u32),
    /// No position of the key's path bears it.
    Absent,
}

/// Where the claim of a position stands. It has passed so many positions of the key's path.
#[derive(Clone, Copy, Debug, PartialEq, Eq)]
pub enum ClaimKeyPoint {
    /// Read the key word.
    KeyLook { passed: u32 },
    /// Exchange 0 for the key.
    KeyTake { passed: u32 },
}

/// How the claim of a position ended.
#[derive(Clone, Copy, Debug, PartialEq, Eq)]
pub enum ClaimKeyEnd {
    /// The position bears the key.
    At(u32),
    /// Every position of the table bears another key.
    NoSpace,
}
