//! The order of what logs list, were each client cut now: commits are numbered, snapshots are ordered, of two commits
//! that write one key one is in the other's snapshot, and overtaking goes in no circle.
//!
//! The crate has no code that runs. It is stated of one store that meets what the law of words says of it, and of the
//! logs that its clients would leave.
#![tactic(auto)]

mod laws;

pub use laws::order_law;
