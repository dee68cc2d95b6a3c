//! Where a transaction's call stands.

/// A step of a transaction's calls. The registers beside it have the rest.
#[derive(Clone, Copy, Debug, PartialEq, Eq)]
pub(crate) enum Step {
    /// No call was asked since the begin.
    Resting,
    /// Search the position of the operation's key.
    Finding,
    /// Read at the position.
    Reading,
    /// Read a key word to claim its position.
    KeyLook,
    /// Exchange 0 for the key.
    KeyTake,
    /// Commit.
    Committing,
    /// The call was answered.
    Answered,
}
