//! Locking records in order, each under the header that the snapshot sees.

ghost use Rattle.std.specs.Prelude.{◌≡◌};

use lists::ShortList;

/// Where the locking stands.
#[derive(Clone, Copy, Debug, PartialEq, Eq)]
pub enum LockPoint {
    /// Read the header of the next record.
    Peek,
    /// Exchange it for the same with the lock.
    Seize { header: u64 },
    /// Write the header of a held record back, since the next record's header is this one.
    GiveBack { given: u32, found: u64 },
}

/// A locking that goes on: it holds the first records, whose headers were these, and stands here.
#[derive(Debug, Drop)]
pub struct Locks {
    pub held: ShortList<u64, 16>,
    pub at: LockPoint,
}

/// How the locking ended.
#[derive(Debug, Drop, PartialEq, Eq)]
pub enum LockEnd {
    /// All records are locked; their headers were these.
    Held(ShortList<u64, 16>),
    /// The record is locked by another, and no lock is held.
    Locked { nth: u32, found: u64 },
    /// The record has a newer version than the snapshot sees, and no lock is held.
    Newer { nth: u32, found: u64 },
}

impl LockEnd {
    /// An equal end, made without memory.
    pub fn copy(&self) -> LockEnd
        ensures { result ≡ self.now }
    {
        match self {
            LockEnd::Held(held) => LockEnd::Held(held.copy()),
            LockEnd::Locked { nth, found } => LockEnd::Locked {
                nth: *nth,
                found: *found,
            },
            LockEnd::Newer { nth, found } => LockEnd::Newer {
                nth: *nth,
                found: *found,
            },
        }
    }
}
