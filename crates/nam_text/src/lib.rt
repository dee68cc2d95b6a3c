//! The spelling that scripts and reports share: the lines of a text and the fields of a line, numbers and names of
//! tables, and the words of a value, in decimal, each behind a space.
//!
//! A number has one spelling, decimal digits without a leading zero. One above 2^64 - 1 is spelt too, but has no value
//! here, so that a line can be misspelt or out of range, and not both.
#![tactic(auto)]

mod fields;
mod reading;
#[cfg(test)]
mod tests;
mod token;
mod value;

pub use fields::{Fields, find_byte, first_line};
pub use reading::{done, is_word, name_at, number_at, table_name, word_at};
pub use token::{Number, is_name, number};
pub use value::{push_value, push_words};
