//! A line that refuses all verbs from a number on.

ghost use Rattle.std.specs.Prelude.{◌≡◌, ◌≤◌, ◌↔◌, IsTrue, IsErr};
ghost use Rattle.nam_line.specs.Plan.{plan_from, refuses_next};
ghost use Rattle.nam_line.specs.CountedLine.{new_counted, after_pass, asked_in_all};

use crate::line::Line;
use nam_io::Failed;
use nam_verbs::Verb;
use std::marker::Model;

/// Refuses the verb of one number, counted from 1, and all later ones.
#[derive(Debug, Drop)]
pub struct FuseLine {
    at: u64,
    passed: u64,
    failed: u64,
}

impl Model for FuseLine {
    ghost use Rattle.nam_line.specs.Plan.{plan_from};
    ghost use Rattle.nam_line.specs.CountedLine.{CountedLine, asked_in_all};

    ghost Value = { CountedLine };

    ghost view = { λ l. record {
      line = record { plan = plan_from l.at; asked = asked_in_all l.passed l.failed };
      faults = l.failed;
    } };
}

impl FuseLine {
    /// A line that refuses the verb number `at`, counted from 1, and all later ones.
    pub fn new(at: u64) -> FuseLine
        ensures { result ≡ new_counted (plan_from at) }
    {
        FuseLine {
            at,
            passed: 0,
            failed: 0,
        }
    }

    /// A line that has passed and refused so many.
    #[cfg(test)]
    pub fn after(at: u64, passed: u64, failed: u64) -> FuseLine
        ensures { result ≡ record {
          line = record { plan = plan_from at; asked = asked_in_all passed failed };
          faults = failed;
        } }
    {
        FuseLine { at, passed, failed }
    }
}

impl Line for FuseLine {
    ghost state = { λ l. l.line };

    ghost faults = { λ l. l.faults };

    fn pass(&mut self, _verb: Verb) -> Result<(), Failed>
        ensures value { self.new ≡ after_pass self.old }
        ensures refuses { IsErr result ↔ IsTrue (refuses_next self.old.line) }
        ensures counted { self.old.faults ≤ self.new.faults }
    {
        let asked = self.passed.saturating_add(self.failed).saturating_add(1);
        if asked < self.at {
            self.passed = self.passed.saturating_add(1);
            return Ok(());
        }
        self.failed = self.failed.saturating_add(1);
        Err(Failed)
    }
}
