//! Versions: each writer had all versions before its own in its snapshot, and what a snapshot contains is installed.
//!
//! The crate has no code that runs. What is claimed of version chains and publications stands in `nam_ghost`. Here it
//! is proved: the opening has it with any rows that may be loaded, and each step of a store keeps it.
#![tactic(auto)]

mod laws;

pub use laws::{chains_law, published_law, seen_law};
