//! A read at a position under a snapshot, in registers.
//!
//! `Reader` finds the version of a record that a snapshot sees: the current version, the ring where that was locked,
//! the header once more, the ring, the bucket's cells, and the horizon. It is the read of `nam_calls`, verb for verb
//! and end for end, and `verb`, `take`, `left`, `end` and `value` say so by equations with it. What changes from verb
//! to verb are numbers and two buffers, so that a step is a handful of instructions. No call takes memory.
#![tactic(auto)]

mod cells;
mod current;
mod end;
mod horizon;
mod left;
mod reader;
mod registers;
mod ring;
mod step;
#[cfg(test)]
mod tests;

pub use end::ReaderEnd;
pub use reader::Reader;
