//! Locks: a locked header has one holder, which lists it, and the words of a position are those of its versions, but
//! for what the holder has written.
//!
//! The crate has no code that runs. What is claimed of locks stands in `nam_ghost`. Here it is proved: the opening has
//! it with any rows that may be loaded, each step of a store keeps it, and so each store that comes about has it.
#![tactic(auto)]

mod laws;

pub use laws::{listed_law, locks_law};
