//! What holds of locks in every store, with what is known of its versions, and in words of clients and headers alone.

ghost use Rattle.nam_locks.specs.LocksLaw.{KeepsLaw, ListedLaw, LockedLaw, OnceLaw, OpensLaw, ReachedLaw};

/// What is claimed of locks, with the version chains as they are known along the steps.
///
/// A header bears the current version and the lock, with the holder's name in form Held. The count is that version's
/// number, and one more between the holder's write of the count and of the header. The data are that version's until
/// the holder writes its first data word. A row whose chain names a worker is one that this worker's client holds, and
/// the other way round: it has kept the header without the lock, its snapshot sees the version there, and the number
/// that it found is that version's. At the record at hand it has written so much, at all others nothing; what is done
/// has its new version.
///
/// The opening has it, with any rows that may be loaded. Each verb, each call that is asked, each transaction that is
/// given up and each stop keeps it, of a store that meets what holds of every store.
pub fn locks_law()
    ensures opening { OpensLaw }
    ensures step { KeepsLaw }
    ensures reached { ReachedLaw }
{}

/// What that comes to, in each store that comes about.
///
/// Where a header is locked some client runs a commit that lists the lock: it has taken it, and neither given it back
/// nor written the new header; in form Held the header names that client's worker. What a client lists is a row with a
/// locked header. No two clients list one row.
pub fn listed_law()
    ensures locked { LockedLaw }
    ensures listed { ListedLaw }
    ensures once { OnceLaw }
{}
