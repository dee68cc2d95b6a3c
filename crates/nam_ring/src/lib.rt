//! Old versions in a record's ring of slots.
//!
//! Three calls, each as functions on its points and as a machine: `CheckSlot` looks at the slot that the record's next
//! version needs, `CopyOld` puts the current version there, and `SearchRing` looks for the version that a snapshot
//! sees. Whatever words their verbs find, `check_law`, `copy_law` and `search_law` say exactly how they end and what
//! they did, and `field_law` that each verb is at a field of the position that was given. No call takes memory.
#![tactic(auto)]

mod check;
mod copy;
mod laws;
mod search;
#[cfg(test)]
mod tests;

pub use check::{CheckSlot, slot_after, slot_begin, slot_left, slot_verb};
pub use copy::{CopyOld, copy_after, copy_begin, copy_left, copy_verb};
pub use laws::{check_law, copy_law, field_law, search_law};
pub use nam_calls::{SearchEnd, SlotEnd};
pub use search::{SearchRing, ring_after, ring_begin, ring_left, ring_verb};
