//! Each entry of the horizon above the start is that of a collection that some client has told or runs.
//!
//! The crate has no code that runs. What is claimed of the horizon, of what was told of collections and of the
//! snapshots of one client is defined here. It is proved that the opening has it with any rows that may be loaded, and
//! that each step of a store keeps it; and what it comes to where an attempt ends as too old: another client has
//! collected by just the entry that the answer tells, or does so now.
#![tactic(auto)]

mod laws;

pub use laws::{behind_law, old_law, raised_law};
