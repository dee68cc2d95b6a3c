//! What the calls do and how they end, whatever words their verbs find.

ghost use Rattle.nam_lock.specs.LockingLaw.{LockingLaw, LockingAtFields};
ghost use Rattle.nam_lock.specs.MomentLaw.{MomentLaw, MomentAtFields, StoredLaw, StoredAtFields};
ghost use Rattle.nam_lock.specs.TakenLaw.{TakenLaw};
ghost use Rattle.nam_lock.specs.UnlockingLaw.{UnlockingLaw, UnlockingAtFields};
ghost use Rattle.nam_lock.specs.FieldLaw.{LockingFieldLaw, UnlockingFieldLaw};

/// A locking ends with all locks exactly where each header in order was read unlocked and visible, and its exchange
/// for the same with the lock found what was read. It ends without a lock exactly where some records were locked so,
/// the next was read locked or not visible, or its exchange found another word than the read, and then each header
/// that was exchanged was written back as it was, in order, and nothing else was done. The end is `Locked` where the
/// word found in the way is locked, and else `Newer`. The machine's words are the headers of its places; the same holds
/// of the protocol's call, whose words are the header fields of rows.
pub fn locking_law()
    ensures machine { LockingLaw }
    ensures fields { LockingAtFields }
{}

/// At each moment, whatever words were found so far, a locking has done nothing but take locks in order, read or lose
/// the next one, and then write back the first of the headers that it exchanged, as they were. So what it has stored
/// are the headers of the first `taken` records with the worker's lock, and then the first of these without it. The
/// machine's words are the headers of its places; the same holds of the protocol's call.
pub fn moment_law()
    ensures machine { MomentLaw }
    ensures fields { MomentAtFields }
    ensures stored { StoredLaw }
    ensures stored_fields { StoredAtFields }
{}

/// After any words, a locking has taken as many locks as there were exchanges that found the word that they expected.
pub fn taken_law()
    ensures { TakenLaw }
{}

/// The writing back writes each header to its record in order, and does nothing else.
pub fn unlocking_law()
    ensures machine { UnlockingLaw }
    ensures fields { UnlockingAtFields }
{}

/// Whatever words are found, each verb of a machine over places of rows is the one of the protocol's call, at the
/// header field of such a row.
pub fn field_law()
    ensures locking { LockingFieldLaw }
    ensures unlocking { UnlockingFieldLaw }
{}
