//! The history machine of snapshot isolation.
//!
//! Its public types are the rows, histories, logs and reports of a store. Its `specs/` define what a run of the
//! machine is: committed states, evaluation, legal and numbered histories, what a log may list, and why. `state`
//! gives a committed state and `eval` an evaluation, exactly.
#![tactic(auto)]

mod committed;
mod evaluated;
mod evaluation;
mod field;
mod generator;
mod keys;
mod legal;
mod log;
mod op;
mod report;
mod row;
#[cfg(test)]
mod tests;
mod write_set;

pub use committed::{CommittedRows, state};
pub use evaluated::Evaluated;
pub use evaluation::{eval, eval_on};
pub use generator::{next_state, pick};
pub use keys::{guard_keys, keys_of};
pub use legal::is_legal;
pub use log::{Attempt, Event, Finish, Lock, Log, MoveEnd, Outcome, Snapshot, Stamp};
pub use op::{Op, Policy};
pub use report::{AuditRow, Closed, CommitLine, Report};
pub use row::{Item, Items, Key, Row, Value, copy_items, copy_value};
