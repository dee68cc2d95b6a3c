//! Locking records and writing their headers back.
//!
//! `LockAll` locks records in order, each under a header that is unlocked and that a snapshot sees. It ends with all
//! locks or with none: where a record is locked or newer than the snapshot, it writes back the headers of those that
//! it has locked, as they were. `UnlockAll` writes headers back. Whatever words their verbs find, `locking_law` says
//! exactly when a locking ends how, `taken_law` how many locks it has taken, `unlocking_law` what `UnlockAll` does,
//! and `field_law` that each verb is at the header of its record's row. No call takes memory.
#![tactic(auto)]

mod laws;
mod lock;
#[cfg(test)]
mod tests;
mod unlock;

pub use laws::{field_law, locking_law, taken_law, unlocking_law};
pub use lock::{LockAll, lock_after, lock_begin, lock_left, lock_verb};
pub use nam_calls::{LockEnd, LockPoint, Locks};
pub use unlock::{UnlockAll, unlock_after, unlock_begin, unlock_left, unlock_verb};
