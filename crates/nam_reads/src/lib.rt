//! Reads by eight steps: what a reader may rely on at each of its points, and what it comes to.
//!
//! The crate has no code that runs. What is claimed stands in `nam_ghost`. Here it is proved that the opening has it
//! with any rows that may be loaded, that each step of a store keeps it, and that a read gets the newest version that
//! its snapshot sees, or tells a true cause.
#![tactic(auto)]

mod laws;

pub use laws::{found_law, reads_law};
