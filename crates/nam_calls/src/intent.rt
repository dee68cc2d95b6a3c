//! What a worker's intent says of its commit.

/// How far the commit is.
#[derive(Clone, Copy, Debug, PartialEq, Eq)]
pub enum IntentPhase {
    /// Its records are listed; any of them may be locked.
    Listed,
    /// All its records are locked; any of them may be installed.
    Decided,
}

/// What the state of an intent says: how many records are listed, and how far the commit is.
#[derive(Clone, Copy, Debug, PartialEq, Eq)]
pub struct IntentState {
    pub records: u32,
    pub phase: IntentPhase,
}

/// What a listed record gets.
#[derive(Clone, Copy, Debug, PartialEq, Eq)]
pub enum IntentKind {
    /// A version with the data words of the intent.
    Value,
    /// A version that is a deletion.
    Deletion,
    /// No version: it is only guarded.
    Guard,
}
