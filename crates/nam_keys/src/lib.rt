//! Keys: a key has at most one position, and what was found or passed on its path is so for good.
//!
//! The crate has no code that runs. What is claimed of keys stands in `nam_ghost`. Here it is proved: the opening has
//! it with any rows that may be loaded, each step of a store keeps it, and so each store that comes about has it.
#![tactic(auto)]

mod laws;

pub use laws::{keys_law, positions_law};
