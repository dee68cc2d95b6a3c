//! Shapes of stores: how many workers and tables there are, how large they are, and which form their headers have.
//!
//! `check` gives the number of words that a store of a shape takes, or else the first fault of the shape. A shape has
//! no fault exactly where it fits its limits, as `fits_law` says: so much follows from an `Ok` of `check`.
//! `table_named` finds the first table of a name, `name_at` the name of a table, and `greatest` the greatest commit
//! number of a form. `bounds` has the limits of shapes, and of scripts, in one place. No call takes memory.
#![tactic(auto)]

pub mod bounds;
mod fault;
mod form;
mod laws;
mod limits;
mod name;
mod names;
mod shape;
#[cfg(test)]
mod tests;
mod words;

pub use fault::ShapeFault;
pub use form::{Form, greatest};
pub use laws::fits_law;
pub use limits::check;
pub use name::TableName;
pub use names::table_named;
pub use shape::{Shape, Table, name_at};
pub use words::{intent_words, position_words, slot_words};
