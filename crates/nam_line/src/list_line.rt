//! A line that refuses the verbs of a list.

ghost use Rattle.std.specs.Prelude.{◌≡◌, ◌≤◌, ◌↔◌, IsTrue, IsErr};
ghost use Rattle.nam_line.specs.Plan.{plan_of, refuses_next};
ghost use Rattle.nam_line.specs.CountedLine.{new_counted, after_pass};

use crate::line::Line;
use lists::List;
use nam_io::Failed;
use nam_verbs::Verb;
use std::marker::Model;

/// Refuses the verbs whose numbers, counted from 1, are listed.
#[derive(Debug, Drop)]
pub struct ListLine {
    failing: List<u64>,
    asked: u64,
    failed: u64,
}

impl Model for ListLine {
    ghost use Rattle.nam_line.specs.Plan.{plan_of};
    ghost use Rattle.nam_line.specs.CountedLine.{CountedLine};

    ghost Value = { CountedLine };

    ghost view = { λ l. record { line = record { plan = plan_of l.failing; asked = l.asked }; faults = l.failed } };
}

impl ListLine {
    /// A line that refuses the verbs whose numbers, counted from 1, are in `failing`.
    pub fn new(failing: Vec<u64>) -> ListLine
        ensures { result ≡ new_counted (plan_of failing.items) }
    {
        ListLine {
            failing: List::from_vec(failing),
            asked: 0,
            failed: 0,
        }
    }

    /// A line that was asked so often and refused so many.
    #[cfg(test)]
    pub fn after(failing: Vec<u64>, asked: u64, failed: u64) -> ListLine
        ensures { result ≡ record {
          line = record { plan = plan_of failing.items; asked = asked };
          faults = failed;
        } }
    {
        ListLine {
            failing: List::from_vec(failing),
            asked,
            failed,
        }
    }
}

impl Line for ListLine {
    ghost state = { λ l. l.line };

    ghost faults = { λ l. l.faults };

    fn pass(&mut self, _verb: Verb) -> Result<(), Failed>
        ensures value { self.new ≡ after_pass self.old }
        ensures refuses { IsErr result ↔ IsTrue (refuses_next self.old.line) }
        ensures counted { self.old.faults ≤ self.new.faults }
    {
        self.asked = self.asked.saturating_add(1);
        if self.failing.as_slice().contains(&self.asked) {
            self.failed = self.failed.saturating_add(1);
            return Err(Failed);
        }
        Ok(())
    }
}
