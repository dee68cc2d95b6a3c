//! How many verbs a line has passed.

ghost use Rattle.nam_line.specs.PassedLaw.{PassedLaw};

/// How many verbs a line has passed follows from its plan and how often it was asked.
pub fn passed_law()
    ensures { PassedLaw }
{}
