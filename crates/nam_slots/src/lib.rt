//! Slots of old versions: each has the mark or keeps one version whole, and the current version is copied before its
//! data are written over.
//!
//! The crate has no code that runs. What is claimed of slots stands in `nam_ghost`. Here it is proved: the opening has
//! it with any rows that may be loaded, each step of a store keeps it, and makes of each row only what all others rely
//! on.
#![tactic(auto)]

mod laws;

pub use laws::{kept_law, slots_law};
