//! Keys that stand in the words: each was loaded or asked for, and each has one position, its home.
//!
//! The crate has no code that runs. What holds of key words along their paths stands in `nam_ghost`. Here it is proved
//! whose keys they are, and what the position of a key is as a function of the words; so what a search tells that ends
//! without a position, or for want of space, in the words of the model.
#![tactic(auto)]

mod laws;

pub use laws::{claimed_law, ends_law, home_law};
