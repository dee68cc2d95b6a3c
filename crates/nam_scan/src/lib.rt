//! A scan of a table's positions for the keys of a range, and the read at a position under a snapshot.
//!
//! The read goes by eight steps, as functions on its points: the current version, the ring where that was locked, the
//! header once more, the ring, the cells, and the horizon. `Scan` goes over the positions one after another; at a key
//! of the range its caller reads there or leaves the position. What stands in `nam_calls` and `nam_protocol` as
//! definitions stands here in code, and `answer_law` says where a scan answers. No call takes memory.
#![tactic(auto)]

mod laws;
mod points;
mod range;
mod reading;
mod scan;
#[cfg(test)]
mod tests;

pub use laws::answer_law;
pub use nam_calls::{ReadPoint, ReadingEnd, Sight};
pub use nam_protocol::{ScanAnswer, ScanPoint};
pub use points::{scan_after, scan_begin, scan_left, scan_read, scan_skip, scan_verb};
pub use range::ScanRange;
pub use reading::{read_after, read_begin, read_left, read_verb, sight_of};
pub use scan::Scan;
