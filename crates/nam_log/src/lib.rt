//! A worker's log as it grows, in room that was reserved before.
//!
//! A client lists its events, reads, locks, writes and snapshots in a [`RunningLog`] while it runs, and no call but
//! `reserve` takes memory: each listing has the condition that there is room, and with it cannot fail. The log is
//! exactly that of the definitions of `nam_protocol`, and `into_log` hands it out. A [`RoomyList`] is one list of
//! this kind.
#![tactic(auto)]

mod compact_events;
mod compact_items;
mod compact_snaps;
mod flat_items;
mod flat_snaps;
mod item_head;
mod note;
mod room;
mod roomy;
mod running;
#[cfg(test)]
mod tests;

pub use room::LogRoom;
pub use roomy::RoomyList;
pub use running::RunningLog;
