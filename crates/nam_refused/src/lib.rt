//! What a commit's answers Newer and Locked tell is true.
//!
//! The crate has no code that runs. What is claimed of commits that are refused is defined here. It is proved that the
//! opening has it with any rows that may be loaded, and that each step of a store keeps it; and what the answers come
//! to, at the word that ends the commit.
#![tactic(auto)]

mod laws;

pub use laws::{locked_law, lockers_law, newer_law, refused_law};
