//! Cells and the horizon: a full cell has one version whole, horizon entries never fall, and each old version is in its
//! slot, or in a cell, or ended within the horizon.
//!
//! The crate has no code that runs. What is claimed stands in `nam_ghost`. Here it is proved that the opening has it
//! with any rows that may be loaded, and that each step of a store keeps it and owes all others what they rely on.
#![tactic(auto)]

mod laws;

pub use laws::{cells_law, places_law};
