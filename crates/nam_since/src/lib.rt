//! Guards: a commit that locks a record stands before each that writes it unseen, in the order of publication and in
//! each snapshot that was taken.
//!
//! The crate has no code that runs. What is claimed stands in `nam_ghost`. Here it is proved: the opening has it, each
//! step of a store keeps it, and no commit overtakes itself, however many are between.
#![tactic(auto)]

mod laws;

pub use laws::{circle_law, since_law};
