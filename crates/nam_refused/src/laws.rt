//! What a refused commit tells, with what is known of its store's versions.

ghost use Rattle.nam_refused.specs.LockersLaw as lockers;
ghost use Rattle.nam_refused.specs.RefusedLaw.{FoundLaw, KeepsLaw, LockedLaw, NewerLaw, OpensLaw};

/// What is claimed of commits that are refused, with the version chains as they are known along the steps.
///
/// A header that is to be exchanged for itself with the lock is the current version's, or a version was installed
/// since that the commit's snapshot doesn't see. A header that stood in the way of a lock bears a version of the
/// record's row, which the snapshot doesn't see, unless the header was locked. So does the refusal that a commit
/// carries while its intent is cleared.
///
/// The opening has it, with any rows that may be loaded. Each verb, each call that is asked, each transaction that is
/// given up and each stop keeps it, of a store whose locks are as they are claimed to be, and where each row goes on as
/// it may.
pub fn refused_law()
    ensures opening { OpensLaw }
    ensures step { KeepsLaw }
{}

/// Where a word ends a commit with the answer Newer, the row of the record that the answer names has a version with the
/// answer's stamp, and the commit's snapshot doesn't see it.
pub fn newer_law()
    ensures newer { NewerLaw }
{}

/// Where a commit finds the header of the next record locked, another client lists that lock, and in form Held the
/// header names that client's worker. Where a word ends a commit with the answer Locked, the row of the record that the
/// answer names has a version with the answer's stamp.
pub fn locked_law()
    ensures locked { LockedLaw }
    ensures found { FoundLaw }
{}

/// Where a word ends a commit with the answer Locked, the lock that the answer names is one that another client's log
/// lists, under the same stamp.
///
/// So it is of a locked header that stood in the way of a lock, while the commit gives its locks back, and of the
/// refusal that it carries while its intent is cleared. The opening has it (`opening`), and each step keeps it
/// (`step`), of a store whose locks and keys are as they are claimed to be; and of such a store it holds of the answer
/// (`listed`).
pub fn lockers_law()
    ensures opening { lockers.OpensLaw }
    ensures step { lockers.KeepsLaw }
    ensures listed { lockers.ListedLaw }
{}
