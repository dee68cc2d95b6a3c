//! The law that consistent logs, with the history arranged from them, are a run of the snapshot isolation machine, and
//! how logs may grow and stay consistent.
//!
//! The crate has no code that runs: its functions carry laws over the definitions of `si_model`.
#![tactic(auto)]

pub mod growth;
mod laws;

pub use laws::{arrange_law, run_law, state_law};
