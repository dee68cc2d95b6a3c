//! A commit in registers: the locks, the slots, the copies and installs, the publication, the guards, and in form Held
//! the worker's intent around them.
//!
//! A `Committer` stands beside a transaction that it is given with each call. It is asked for a verb and given the word
//! that the verb found, until the commit is over. Together the two are exactly the commit of the protocol's
//! definitions: what is asked, the verb of each point at its address, and what follows each word. What fits at the
//! begin fits until the end, each word lowers the number of verbs to come, and `held_law` says which words take a lock.
//! No call takes memory.
#![tactic(auto)]

mod asking;
mod checking;
mod committer;
mod ending;
mod laws;
mod leaving;
mod listing;
mod locking;
mod records;
mod step;
mod stepping;
#[cfg(test)]
mod tests;
mod writing;

pub use committer::Committer;
pub use laws::held_law;
