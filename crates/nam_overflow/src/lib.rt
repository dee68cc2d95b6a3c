//! Old versions in the cells of a bucket.
//!
//! `SearchCells` looks for the version of a row that a snapshot sees, `ClaimCell` takes the first free cell, and
//! `FillCell` writes a version into a cell. Whatever words their verbs find, `search_law` says exactly when a version
//! is found, whole, and when none is there, `claim_law` when a cell is claimed and when there is no room, and
//! `fill_law` which words are written, and that no others are; `field_law` that each verb is at a field of the bucket's
//! cells.
#![tactic(auto)]

mod claim;
mod fill;
mod laws;
mod search;
#[cfg(test)]
mod tests;

pub use claim::{ClaimCell, claim_after, claim_begin, claim_left, claim_verb};
pub use fill::{FillCell, fill_after, fill_begin, fill_left, fill_verb};
pub use laws::{claim_law, field_law, fill_law, search_law};
pub use nam_calls::{ClaimEnd, SearchEnd as CellEnd};
pub use search::{SearchCells, cell_after, cell_begin, cell_left, cell_verb};
