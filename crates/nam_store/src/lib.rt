//! A store: the words, and one client for each worker, any of which may do its next verb, be asked a call, give its
//! transaction up, or be stopped.
//!
//! The crate has no code that runs. It is what invariants of the words stand on: `specs/` has the store, its steps and
//! the stores that come about by them, with any ghost that goes along. The laws say what a step does to the words as a
//! function of fields, what it leaves alone, and what holds of every store whatever else its words say.
#![tactic(auto)]

mod laws;

pub use laws::{base_law, loaded_law, step_by, step_leaves, world_law};
