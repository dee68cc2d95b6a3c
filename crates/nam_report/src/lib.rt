//! The history of closed logs, and the text of a report.
//!
//! `arrange` puts the commits that logs list into the order of a history, whatever the logs say. A report that fits its
//! script, in its tables, widths and counts, has one text. `report_text` gives exactly that.
#![tactic(auto)]

mod arranging;
mod attempt;
mod audit;
mod event;
mod history;
mod item;
mod laws;
mod log;
mod numbers;
mod report;
#[cfg(test)]
mod tests;
#[cfg(test)]
mod tests_arrange;

pub use arranging::arrange;
pub use laws::{arranged_law, text_law};
pub use numbers::numbers_fit;
pub use report::report_text;
