//! The moments of snapshots: a worker's entry of the vector is what it has published, and snapshots that were taken are
//! ordered.
//!
//! The crate has no code that runs. It proves one group of the invariants that `nam_ghost` defines, for every store
//! that comes about by the steps of `nam_store`.
#![tactic(auto)]

mod laws;

pub use laws::{moments_law, snapshots_law, vector_law};
