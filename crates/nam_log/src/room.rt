//! How much more a log takes.

ghost use Rattle.std.specs.Prelude.{◌≡◌};

/// How many more entries of each kind a log takes without memory.
#[derive(Clone, Copy, Debug, Default, PartialEq, Eq)]
pub struct LogRoom {
    pub events: u32,
    pub reads: u32,
    pub locks: u32,
    pub writes: u32,
    pub snaps: u32,
}

impl LogRoom {
    ghost use Rattle.nam_log.specs.Running.{greater_room};

    /// Of each count the greater.
    pub fn max_each(&self, other: &LogRoom) -> LogRoom
        ensures { result ≡ greater_room self.now other.now }
    {
        LogRoom {
            events: self.events.max(other.events),
            reads: self.reads.max(other.reads),
            locks: self.locks.max(other.locks),
            writes: self.writes.max(other.writes),
            snaps: self.snaps.max(other.snaps),
        }
    }
}
