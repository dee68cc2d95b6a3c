//! Where each word of a store stands.
//!
//! A `Layout` is made of a shape without a fault. It gives the addresses of a worker's entries and intent, of a table's
//! position (`Place`) and of a bucket's cells (`Cells`), each exactly as the shape determines it, and `field_of` gives
//! the field that stands at an address. `address_law` says that the addresses of fields are distinct and fill 0 to the
//! total less 1, and that both ways are each other's inverse; `row_law` that rows and positions are one to one;
//! `place_law` that the fields of a place, of cells and of workers stand where the shape's addresses say; `within_law`
//! that they stand before the end of the place, of the cells and of the entries; and `limit_law` how many there can
//! be. No call takes memory, and none but `new` and `field_of` goes over the tables.
#![tactic(auto)]

mod address;
mod extent;
mod field;
mod laws;
mod layout;
#[cfg(test)]
mod tests;
mod within;

pub use address::horizon_at;
pub use field::{Cells, Field, Place};
pub use laws::{address_law, limit_law, place_law, row_law, within_law};
pub use layout::Layout;
