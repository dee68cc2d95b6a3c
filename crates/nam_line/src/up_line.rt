//! A line that passes each verb.

ghost use Rattle.std.specs.Prelude.{◌≡◌, ◌≤◌, ◌↔◌, IsTrue, IsErr};
ghost use Rattle.nam_line.specs.Plan.{empty_plan, refuses_next};
ghost use Rattle.nam_line.specs.CountedLine.{new_counted, after_pass};

use crate::line::Line;
use nam_io::Failed;
use nam_verbs::Verb;
use std::marker::Model;

/// Passes each verb.
#[derive(Debug, Drop)]
pub struct UpLine {
    passed: u64,
}

impl Model for UpLine {
    ghost use Rattle.nam_line.specs.Plan.{empty_plan};
    ghost use Rattle.nam_line.specs.CountedLine.{CountedLine};

    ghost Value = { CountedLine };

    ghost view = { λ l. record { line = record { plan = empty_plan; asked = l.passed }; faults = 0 } };
}

impl UpLine {
    /// A line that passes each verb.
    pub fn new() -> UpLine
        ensures { result ≡ new_counted empty_plan }
    {
        UpLine { passed: 0 }
    }

    /// A line that has passed so many.
    #[cfg(test)]
    pub fn after(passed: u64) -> UpLine
        ensures { result ≡ record { line = record { plan = empty_plan; asked = passed }; faults = 0 } }
    {
        UpLine { passed }
    }
}

impl Line for UpLine {
    ghost state = { λ l. l.line };

    ghost faults = { λ l. l.faults };

    fn pass(&mut self, _verb: Verb) -> Result<(), Failed>
        ensures value { self.new ≡ after_pass self.old }
        ensures refuses { IsErr result ↔ IsTrue (refuses_next self.old.line) }
        ensures counted { self.old.faults ≤ self.new.faults }
    {
        self.passed = self.passed.saturating_add(1);
        Ok(())
    }
}
