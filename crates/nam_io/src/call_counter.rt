//! The calls of an object in memory, some of which fail.

ghost use Rattle.std.specs.Prelude.{◌≡◌, ◌≤◌, ◌↔◌, IsErr, OnOk, OnErr};
ghost use Rattle.nam_io.specs.Faults.{one_more};
ghost use Rattle.nam_io.specs.Calls.{FailsNext, after_call, after_fault};

use crate::failed::Failed;
use std::marker::Model;

/// Which calls fail, how many were made, and how many faults there were.
#[derive(Debug, Drop)]
pub struct CallCounter {
    failing: Vec<u64>,
    made: u64,
    faults: u64,
}

impl Model for CallCounter {
    ghost use Rattle.nam_io.specs.Calls.{Calls};

    ghost Value = { Calls };

    ghost view = { λ c. record { failing = c.failing.items; made = c.made; faults = c.faults } };
}

impl CallCounter {
    /// No call was made yet. `failing` has the numbers, from 1, of the calls that fail.
    pub fn new(failing: Vec<u64>) -> CallCounter
        ensures { result ≡ record { failing = failing.items; made = 0; faults = 0 } }
    {
        CallCounter {
            failing,
            made: 0,
            faults: 0,
        }
    }

    /// Counts one more call, which fails if its number is listed.
    pub fn begin(&mut self) -> Result<(), Failed>
        ensures fails { IsErr result ↔ FailsNext self.old }
        ensures ok { OnOk result (self.new ≡ after_call self.old) }
        ensures err { OnErr result (self.new ≡ after_fault self.old) }
        ensures counted { self.old.faults ≤ self.new.faults }
    {
        self.made = self.made.saturating_add(1);
        if self.failing.contains(&self.made) {
            self.raise();
            return Err(Failed);
        }
        Ok(())
    }

    /// Counts a fault.
    pub fn raise(&mut self)
        ensures value { self.new ≡ record self.old { faults = one_more self.old.faults } }
        ensures counted { self.old.faults ≤ self.new.faults }
    {
        self.faults = self.faults.saturating_add(1);
    }
}
