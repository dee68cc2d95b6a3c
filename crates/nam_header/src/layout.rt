//! Where the fields stand in a word.

pub const LOCKED: u64 = 1;

pub const DELETED: u64 = 2;

pub const MOVED: u64 = 4;

/// The lowest bit of the number, in all forms.
pub const NUMBER: u32 = 3;

/// The lowest bit of the thread, where numbers have 32 bits.
pub const THREAD: u32 = 35;

/// The lowest bit of the thread, where numbers have 45 bits.
pub const WIDE_THREAD: u32 = 48;

/// The lowest bit of the holder, in the form that has one.
pub const HOLDER: u32 = 59;
