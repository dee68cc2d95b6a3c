//! What holds of keys in every store, with what is known of its versions, and in words of key words and clients alone.

ghost use Rattle.nam_keys.specs.KeysLaw.{KeepsLaw, NextLaw, OpensLaw, ReachedLaw};
ghost use Rattle.nam_keys.specs.KeysLaw.{AbsentLaw, FoundLaw, FullLaw, OnceLaw, PassedLaw};

/// What is claimed of keys, with the version chains as they are known along the steps.
///
/// A position bears a key only where all positions before it on the key's path bear other keys. A position without a
/// key has had no version but the loader's absent one, and nobody has locked it. What a client's search has passed
/// bears other keys; where its operation, its scan or its move has found a position, it bears the key; and so do the
/// positions that its transaction has claimed, and those that its scan has found before the one that it is at.
///
/// The opening has it, with any rows that may be loaded. Each verb, each call that is asked, each transaction that is
/// given up and each stop keeps it, of a store that meets what holds of every store; and none changes a key word that
/// stands.
pub fn keys_law()
    ensures opening { OpensLaw }
    ensures step { KeepsLaw }
    ensures next { NextLaw }
    ensures reached { ReachedLaw }
{}

/// What that comes to, in each store that comes about.
///
/// No two positions of a table bear one key. A row that a client has found for a key bears it in each store that comes
/// after; what its search has passed bears other keys there. Where a search ends without a position, no position of the
/// table bears the key as its last word is found. Where a claim ends for want of space, each bears another key for
/// good.
pub fn positions_law()
    ensures once { OnceLaw }
    ensures found { FoundLaw }
    ensures passed { PassedLaw }
    ensures absent { AbsentLaw }
    ensures full { FullLaw }
{}
