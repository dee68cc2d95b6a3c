//! Header words of records, in three forms, and tags of overflow cells.
//!
//! A header is the stamp of a version, three flags and, in one form, the holder of a lock. `pack` and `unpack` turn it
//! into a word and back: each word is exactly one header, and `round_trip_law` says so of both ways. `with_lock`,
//! `without_lock` and `with_moved` change a flag of a word and nothing else. `visible` says which stamps a snapshot
//! sees. `stamp_in`, `is_locked` and the like read one field of a word, and `version_word` is the word of a new
//! version. A `Tag` is a cell's generation and state. No call takes memory.
#![tactic(auto)]

mod flag;
mod header;
mod laws;
mod layout;
mod stamp;
mod tag;
#[cfg(test)]
mod tests;
mod visibility;

pub use flag::{with_lock, with_moved, without_lock};
pub use header::{Header, pack, unpack};
pub use laws::{number_law, round_trip_law};
pub use stamp::{
    MARK, is_deleted, is_locked, is_moved, is_within, same_stamp, sees, stamp_in, stamp_word,
    version_word, without_moved,
};
pub use tag::Tag;
pub use visibility::visible;
