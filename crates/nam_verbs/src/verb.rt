//! Verbs.

/// What may be done to one word of a region, whose address is counted in words from 0.
#[derive(Clone, Copy, Debug, PartialEq, Eq)]
pub enum Verb {
    /// Finds the word.
    Read { at: u64 },
    /// Stores a word, and finds 0.
    Write { at: u64, word: u64 },
    /// Finds the word, and stores another exactly where it is the expected one (compare and swap).
    Exchange { at: u64, expect: u64, word: u64 },
}
