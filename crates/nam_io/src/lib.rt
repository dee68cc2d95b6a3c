//! Sources and sinks of bytes that may fail.
//!
//! A source tells what is left, a sink what was taken, where they can, and each counts its faults. `read_all` gives
//! all that was left or says why not, `write_all` sends all bytes or says that a front of them went out, and a fault
//! is answered only where the count of faults rose. There are sources and sinks in memory, whose calls fail where
//! one asks, and over std's readers and writers, which tell nothing of their content.
#![tactic(auto)]

mod call_counter;
mod failed;
mod mem_sink;
mod mem_source;
mod read_end;
mod reading;
mod sink;
mod source;
mod std_sink;
mod std_source;
#[cfg(test)]
mod tests;
mod writing;

pub use failed::Failed;
pub use mem_sink::MemSink;
pub use mem_source::MemSource;
pub use read_end::ReadEnd;
pub use reading::read_all;
pub use sink::Sink;
pub use source::Source;
pub use std_sink::StdSink;
pub use std_source::StdSource;
pub use writing::write_all;
