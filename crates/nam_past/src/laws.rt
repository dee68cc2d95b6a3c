//! What holds of the order of publication and the snapshots, step by step, and what it comes to.

ghost use Rattle.nam_past.specs.PastLaw.{KeepsLaw, OpensLaw};
ghost use Rattle.nam_past.specs.PrefixLaw.{AllLaw, ContainsLaw, MomentLaw, StaysLaw, SumLaw};

/// Snapshots are moments of the order in which commits were published (`PastOk`).
///
/// Each stamp of the order is a worker's, of the number after those that the worker has there before. The vector is
/// what it comes to after the whole order. Each snapshot that was taken is the vector after a front of the order; one
/// in its second pass has such a front for what is confirmed, and is at most the vector there.
///
/// The opening has it, with any rows that may be loaded (`opening`). Each verb, each call that is asked, each
/// transaction that is given up and each stop keeps it (`step`), of a store that meets what is said of calls and of
/// snapshots (`RestsOn`), where the step's client goes on as an observer of the vector may.
pub fn past_law()
    ensures opening { OpensLaw }
    ensures step { KeepsLaw }
{}

/// What that comes to, for each snapshot that some client has taken.
///
/// It is the vector after a front of the order of publication (`moment`), which no step changes (`stays`). Of the
/// stamps in the order it sees those of the front and no others (`contains`), and above the start it sees no others at
/// all (`all`). How many they are is the sum of its entries above the start, which is the prefix that a log tells of it
/// (`sum`).
pub fn prefix_law()
    ensures moment { MomentLaw }
    ensures stays { StaysLaw }
    ensures contains { ContainsLaw }
    ensures all { AllLaw }
    ensures sum { SumLaw }
{}
