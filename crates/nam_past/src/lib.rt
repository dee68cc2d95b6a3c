//! The past: each snapshot that was taken is the vector of one moment of the one order in which commits were published.
//!
//! The crate has no code that runs. The order and the publications stand in `nam_ghost`. Here it is proved that the
//! opening has it, that each step of a store keeps it, and what it comes to for what a snapshot contains.
#![tactic(auto)]

mod laws;

pub use laws::{past_law, prefix_law};
