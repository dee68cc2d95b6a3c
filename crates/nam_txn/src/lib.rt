//! A transaction's calls in registers: reads of its own writes, the search of a key's position, the read there, the
//! decision, the claim of a position, and the commit.
//!
//! A `Txn` is asked a call, tells the verb that stands, and is given the word that this verb found, until the call is
//! answered. It is exactly the transaction of the protocol's definitions: what a call begins with, the verb of each
//! point at its address, what follows each word, and how many verbs are to come. What fits at the begin fits until the
//! end. No call takes memory.
#![tactic(auto)]

mod asking;
mod beginning;
mod change;
mod claiming;
mod committing;
mod deciding;
mod finding;
mod keys;
mod registers;
mod step;
mod stepping;
mod txn;
mod walk;

pub use txn::Txn;
