//! The law of words: what every word, version and call in flight may rely on, of each store that comes about.
//!
//! The crate has no code that runs. What is claimed stands in `nam_ghost`, group by group, and each group is proved in
//! a crate of its own. Here they are joined.
#![tactic(auto)]

mod laws;

pub use laws::{
    answers_law, counts_law, lockers_law, past_law, snapshots_law, words_law, worlds_law,
};
