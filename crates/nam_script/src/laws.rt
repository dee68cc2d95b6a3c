//! How the texts that are parsed and the texts that are printed go together.

ghost use Rattle.nam_script.specs.Grouping.{GroupingLaw};

/// A text that spells a script, with its stints 64 to a line, is the text that is printed of it. So is each text
/// without stints.
pub fn grouping_law()
    ensures { GroupingLaw }
{}
