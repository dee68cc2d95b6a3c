//! A worker's driver follows the retry policy.
//!
//! The crate has no code that runs. Here it is proved of nam_protocol's driver: where each answer of its client's calls
//! tells in the log what it should, the events told so far are a walk that si_model's policy allows, and the driver
//! stands for what is owed next; a session that has ended, or that is cut at any point, has followed its policy.
#![tactic(auto)]

mod laws;

pub use laws::{followed_law, follows_law};
