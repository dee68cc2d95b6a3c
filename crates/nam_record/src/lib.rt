//! A record's current version: reading it under a snapshot, and installing the next one.
//!
//! Four calls, each as functions on its points and as a machine: `ReadCurrent` reads the header, the data words and
//! the header again, `Recheck` looks at the header once more, `ReadWords` reads the data words alone, and `Install`
//! writes the next version. Whatever words their verbs find, `current_law`, `recheck_law`, `words_law` and
//! `install_law` say exactly how they end and what they did, and `field_law` that each verb is at a field of the
//! position that was given. No call takes memory.
#![tactic(auto)]

mod current;
mod install;
mod laws;
mod recheck;
#[cfg(test)]
mod tests;
mod words;

pub use current::{ReadCurrent, current_after, current_begin, current_left, current_verb};
pub use install::{Install, install_after, install_begin, install_left, install_verb};
pub use laws::{current_law, field_law, install_law, recheck_law, words_law};
pub use nam_calls::CurrentEnd;
pub use recheck::{Recheck, recheck_end, recheck_verb};
pub use words::{ReadWords, words_after, words_begin, words_left, words_verb};
