//! The vector of published commit numbers, of which worker j owns the entry at address j - 1.
//!
//! `Snap` takes a snapshot of it by double collect, and `Publish` writes a worker's own entry. Whatever words their
//! verbs find, `order_law` says what a snapshot reads, `done_law` and `again_law` exactly when it is done and when it
//! has to be taken again, and `publish_law` when a number is published. `take_snapshot` and `publish_number` run the
//! two calls on words that nobody else changes, where a snapshot is always done.
#![tactic(auto)]

mod laws;
mod publish;
mod serial;
mod snap;
#[cfg(test)]
mod tests;

pub use laws::{again_law, done_law, order_law, publish_law};
pub use publish::{Publish, publish_verb};
pub use serial::{publish_number, take_snapshot};
pub use snap::{Snap, SnapEnd, SnapPoint, snap_after, snap_begin, snap_left, snap_verb};
