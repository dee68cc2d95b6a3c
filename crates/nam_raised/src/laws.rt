//! Where the horizon's entries come from, and why an attempt is too old.

ghost use Rattle.nam_raised.specs.OldLaw.{CauseLaw, OldLaw};
ghost use Rattle.nam_raised.specs.RaisedLaw.{BehindLaw, KeepsLaw, OpensLaw};

/// What is claimed of the horizon, with the tellers of the store's clients.
///
/// Each entry is the start, or that of a collection that some client tells, were its log taken now: one that has ended,
/// or one that runs or was stopped. A client's snapshots rise in each entry, each collection that it has told has the
/// entries of its snapshot, and its open transaction's snapshot has its own last number.
///
/// The opening has it, with any rows that may be loaded (`opening`). Each verb, each call that is asked, each
/// transaction that is given up and each stop keeps it (`step`).
pub fn raised_law()
    ensures opening { OpensLaw }
    ensures step { KeepsLaw }
{}

/// What a client has collected by is at most each snapshot that it takes later: those that its log tells after the
/// collection, that of its open transaction, and that by which it collects now.
pub fn behind_law()
    ensures behind { BehindLaw }
{}

/// Where a word ends an attempt with the answer TooOld, in an operation or in a scan, the answer names another worker,
/// the snapshot's entry for it, and an entry of the horizon above that; and another client tells a collection by just
/// that entry, were its log taken now (`old`). So the event of this attempt has the cause that the history machine asks
/// for, over the logs that the clients would give, were each of them stopped now (`cause`).
pub fn old_law()
    ensures old { OldLaw }
    ensures cause { CauseLaw }
{}
