//! Lines that each verb must pass, and which can refuse it.
//!
//! A line has a plan, which numbers of its verbs, counted from 1, it refuses, and is asked before each verb. It fails
//! exactly at the numbers of its plan, and each failure raises its count of faults. `UpLine` refuses none, `FuseLine`
//! all from a number on, `ListLine` those of a list. A verb that the line does not pass is not to be done.
#![tactic(auto)]

mod fuse_line;
mod laws;
mod line;
mod list_line;
#[cfg(test)]
mod tests;
mod up_line;

pub use fuse_line::FuseLine;
pub use laws::passed_law;
pub use line::Line;
pub use list_line::ListLine;
pub use nam_io::Failed;
pub use up_line::UpLine;
