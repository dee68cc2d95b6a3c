//! The laws of consistent logs. A log is one worker's own list of what it did; logs are consistent where each is right
//! by the snapshots that it lists, with no history at hand.

ghost use Rattle.si_law.specs.Law.{ArrangedIsRun, ConsistentArrange, ConsistentNoCircle, StateIsNewest};

/// Consistent logs, with the history arranged from them and an audit of the state after it, are a run of the snapshot
/// isolation machine.
pub fn run_law()
    ensures { ArrangedIsRun }
{}

/// Consistent logs can be arranged. A commit's level is the length of the history that the first snapshot with it saw;
/// within a level there is no circle of commits in which each guards a key that the next one writes. The latter also
/// where the transactions come call by call.
pub fn arrange_law()
    ensures arrange { ConsistentArrange }
    ensures no_circle { ConsistentNoCircle }
{}

/// After an arranged history each key holds what the commit of the greatest prefix wrote there, so the state needs no
/// history.
pub fn state_law()
    ensures { StateIsNewest }
{}
