//! Scans: a scan passes no key that its snapshot sees.
//!
//! The crate has no code that runs. It says what a running scan has gathered (`ScansOk`), and proves that the opening
//! has it with any rows that may be loaded, that each step of a store keeps it, and what a scan lists in the end.
#![tactic(auto)]

mod laws;

pub use laws::{scanned_law, scans_law};
