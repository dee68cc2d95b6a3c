//! What an evaluation gives.

use crate::row::{Items, Key};
use lists::List;

/// What came of a list of operations: all were done, or operation `op`, counted from 1, declined.
#[derive(Debug, Drop)]
pub enum Evaluated {
    Done {
        reads: Items,
        writes: Items,
        guards: List<Key>,
    },
    Declined {
        op: u32,
        reads: Items,
    },
}
