//! What holds of the vector, and of the snapshots that were taken of it.

ghost use Rattle.nam_moments.specs.MomentsLaw.{EntryLaw, KeepsLaw, NextLaw, OpensLaw, ReachedLaw, RisesLaw};
ghost use Rattle.nam_moments.specs.SnapshotsLaw.{SnapshotsLaw};

/// Snapshots are moments of the vector (`MomentsOk`), whatever the clients of a store do one after another.
///
/// A worker's entry is the number that it has published last. A snapshot in its second pass, and each that was taken,
/// is within the vector, and any two are ordered in every entry, unless one of them has an entry that its second pass
/// has not confirmed and that the vector has passed. No entry that a pass has found is below that of a snapshot that
/// the same client has taken before, and that of the client's own worker is the number that it has published.
///
/// The opening has it, with any rows that may be loaded, and each verb, each call that may be asked, each transaction
/// that is given up and each stop keeps it in a store that meets what is said of every store, and owes all others what
/// they rely on (`next`).
pub fn moments_law()
    ensures opening { OpensLaw }
    ensures step { KeepsLaw }
    ensures next { NextLaw }
    ensures reached { ReachedLaw }
{}

/// A worker's entry of the vector is the number of its last commit, and one more from its publication on to the
/// commit's answer. No step of any kind lets an entry fall.
pub fn vector_law()
    ensures entry { EntryLaw }
    ensures rises { RisesLaw }
{}

/// Of any two snapshots that clients have taken, in whichever store that comes about, one contains every commit that
/// the other contains. So each contains a prefix of one order of the commits. It has an entry for each worker, and
/// contains only what is published.
pub fn snapshots_law()
    ensures { SnapshotsLaw }
{}
