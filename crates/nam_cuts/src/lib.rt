//! Where a worker's line refused a verb, and what the worker's log says of it, in each simulated run.
//!
//! The crate has no code that runs. The laws say that a worker is cut exactly where its line refused a verb, which then
//! is the last that the line was asked for, and that its log alone tells of a cut; and that a worker's snapshots and
//! the bounds of its jobs enclose how many verbs its line passed.
#![tactic(auto)]

mod laws;

pub use laws::{line_cuts, passed_bounds};
