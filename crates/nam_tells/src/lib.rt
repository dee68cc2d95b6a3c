//! What a client's log tells, were it taken now: what was told before its open attempt or running call, and what that
//! has still to tell. Each step of a client makes so much of it.
//!
//! The crate has no code that runs, and speaks of clients alone: nothing here takes a fact of words.
#![tactic(auto)]

mod laws;

pub use laws::{asked_law, cut_law, ended_law, told_law};
