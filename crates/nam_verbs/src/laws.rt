//! Calls that stand at points: what they do, and how they end.

ghost use Rattle.nam_verbs.specs.Steps.{StepsLaw, VerbsLaw};

/// A call ends by found words exactly where it ends with steps that found them.
pub fn steps_law<W, P, E>()
    ensures { StepsLaw W P E }
{}

/// A call that does the same verbs whatever it finds ends with the steps of these verbs, and with no others.
pub fn verbs_law<W, P, E>()
    ensures { VerbsLaw W P E }
{}
