//! A snapshot of the vector, the move of an old version and the collection of a bucket, in registers.
//!
//! `Snapper`, `Mover` and `Collector` are begun again for each call, and change in place. Each is at every moment the
//! running call that the definitions of its points say: `verb` is the verb of its point, at an address within reach,
//! `take` goes on exactly as the definitions say of the word found, and lowers the number of verbs to come, and `end`
//! tells the definitions' end. No call takes memory.
#![tactic(auto)]

mod cells;
mod collect_registers;
mod collector;
mod move_registers;
mod mover;
mod snapper;
#[cfg(test)]
mod tests;

pub use collector::Collector;
pub use mover::Mover;
pub use nam_calls::MoveAnswer;
pub use snapper::{Snapper, SnapperEnd};
