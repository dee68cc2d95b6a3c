//! Origins: each version is the write of one commit, published or in flight, and each client lists its publications.
//!
//! The crate has no code that runs. What is claimed stands in `nam_ghost`. Here it is proved: the opening has it with
//! any rows that may be loaded, each step of a store keeps it, and so each store that comes about has it.
#![tactic(auto)]

mod laws;

pub use laws::{listed_law, logs_law, origins_law, written_law};
