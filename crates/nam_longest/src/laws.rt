//! The longest calls of a client.

ghost use Rattle.nam_longest.specs.LongestLaw.{ToComeLaw, AskedLaw, LongestLaw, ReachedLaw};

/// A call of a client that fits takes no more verbs than its longest, whatever words it finds: each word leaves fewer
/// verbs to come at the very most, and right after the ask no more than the longest are to come.
///
/// And its longest is reached: for each shape within its limits some words below 2^64 make the call take as many, where
/// it takes any.
pub fn longest_calls()
    ensures falls { ToComeLaw }
    ensures begins { AskedLaw }
    ensures longest { LongestLaw }
    ensures reached { ReachedLaw }
{}
