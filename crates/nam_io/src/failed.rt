//! The one way in which a call of a source or a sink fails.

/// The call failed, and nothing was read or taken.
#[derive(Clone, Copy, Debug, PartialEq, Eq)]
pub struct Failed;
