//! What the text of a report tells of it, and what the history of logs is.

ghost use Rattle.nam_report.specs.Shown.{TextLaw};
ghost use Rattle.nam_report.specs.Arranging.{ArrangedLaw, PublishedLaw};

/// A text spells one report: two reports that fit one script and have the same text are the same in all that it shows,
/// which is all but the writes and snapshots that logs list beside the history.
pub fn text_law()
    ensures { TextLaw }
{}

/// What `arrange` gives of logs that can be arranged, by the order of their snapshots and without a circle of guards in
/// a level, is their arranged history; of any logs it has exactly the commits that they publish.
pub fn arranged_law()
    ensures arranged { ArrangedLaw }
    ensures published { PublishedLaw }
{}
