//! The report of a simulated run: that it fits its script.
//!
//! The crate has no code that runs. Its laws say of each run that occurs, whatever the workers' lines do, that each log
//! and the audit of the closed world fit the script, so that the report can be arranged and spelt.
#![tactic(auto)]

mod laws;

pub use laws::{audits_fit, logs_fit, one_report, reports_fit, runs_fit, worlds_fit};
