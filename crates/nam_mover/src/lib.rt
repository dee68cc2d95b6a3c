//! The move of an old version from its slot into a cell, so that the record's next version can take the slot.
//!
//! `Move` is one call, as functions on its points and as a machine: it looks at the one slot that the record's next
//! version needs, claims a cell, copies the version there, says by the tag that the cell is full, and only then sets
//! the slot's moved flag. Whatever words its verbs find, `move_law` says exactly how it ends and what it did;
//! `order_law` what it has done before a write and before the flag, at each moment; `claimed_law` for which version
//! it holds a claimed cell; and `field_law` that each verb is at a field of the position or of the bucket's cells. No
//! call takes memory.
#![tactic(auto)]

mod laws;
mod place;
mod running;
#[cfg(test)]
mod tests;

pub use laws::{claimed_law, field_law, move_law, order_law};
pub use nam_calls::MoveAnswer;
pub use place::{move_after, move_begin, move_claimed, move_left, move_verb};
pub use running::Move;
