//! What readers may rely on, step by step, and what the end of a read tells.

ghost use Rattle.nam_reads.specs.FoundLaw.{NeverAstrayLaw, NewestLaw, TooOldLaw};
ghost use Rattle.nam_reads.specs.ReadsLaw.{KeepsLaw, OpensLaw};

/// What a client that reads a version may rely on at each point of its read (`ReadsOk`).
///
/// The opening has it, with any rows that may be loaded (`opening`). Each verb, each call that is asked, each
/// transaction that is given up and each stop keeps it (`step`): of a store that meets what the law of words says of it
/// before the step, where rows, cells, the horizon and the vector go on as they may (`Ready`).
pub fn reads_law()
    ensures opening { OpensLaw }
    ensures step { KeepsLaw }
{}

/// What the end of a read tells, of a store that meets what the law of words says.
///
/// A value that a read gets is that of the newest version that its snapshot sees, whole (`newest`). A read ends without
/// a value only where that version has ended within the horizon, and the horizon entry that it tells is above its
/// snapshot's (`too_old`). It never ends astray (`never_astray`).
pub fn found_law()
    ensures newest { NewestLaw }
    ensures too_old { TooOldLaw }
    ensures never_astray { NeverAstrayLaw }
{}
