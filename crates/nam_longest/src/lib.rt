//! How many verbs each call of a client takes at the very most, whatever words it finds.
//!
//! The crate has no code that runs. The law says that no words make a call take more verbs than its longest, and that
//! some words make it take as many. Where a call reads, its longest is below its bound.
#![tactic(auto)]

mod laws;

pub use laws::longest_calls;
