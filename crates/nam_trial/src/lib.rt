//! A plain store for trying calls: the words of a shape as they stand at the opening, on which calls are run verb by
//! verb.
//!
//! The tests of the crates above use it. No other actor reaches its words.
#![tactic(auto)]

mod steps;
mod store;
#[cfg(test)]
mod tests;

pub use steps::{exchange, pair, read, takes, write};
pub use store::{PlainStore, plain_shape};
