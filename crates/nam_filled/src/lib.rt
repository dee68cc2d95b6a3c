//! Who fills the cells: each cell that isn't free is held by the move that claimed it last, until a collection could
//! free it, or its tags are used up.
//!
//! The crate has no code that runs. Which moves have ever claimed a cell goes along with a store as a ghost. What is
//! claimed of them is defined here; it is proved that the opening has it with any rows that may be loaded, and that
//! each step of a store keeps it; and what it comes to, in words of what clients tell, where a mover finds a cell
//! taken.
#![tactic(auto)]

mod laws;

pub use laws::{filled_law, holders_law, taken_law};
