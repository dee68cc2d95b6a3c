//! The medic: a stopped worker's attempt is finished from the words alone.
//!
//! `Medic` is one call, as functions on its points and as a struct that is given the layout with each word. It reads
//! the worker's intent. A commit that is only listed is undone: each listed record that the worker has locked gets its
//! header back. A decided one is rolled on: each listed record that the worker has locked is copied into its slot,
//! unless the slot holds the version, and installed; then the entry is written and the guards are freed. Each function
//! is exactly the definition of its name in nam_calls, whose laws say the rest. No call takes memory.
#![tactic(auto)]

mod after;
mod left;
mod running;
#[cfg(test)]
mod tests;
mod verb;
mod words;

pub use after::medic_after;
pub use left::medic_left;
pub use running::Medic;
pub use verb::{medic_begin, medic_verb};
