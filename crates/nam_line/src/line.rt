//! What a line is.

ghost use Rattle.std.specs.Prelude.{◌≡◌, ◌≤◌, ◌↔◌, ℕ, IsTrue, IsErr, OnOk, OnErr};
ghost use Rattle.nam_io.specs.Faults.{Rose};
ghost use Rattle.nam_line.specs.Plan.{Line, asked_once, refuses_next};

use nam_io::Failed;
use nam_verbs::Verb;

/// What each verb must pass. Used as `Box<dyn Line + Send>`.
pub trait Line: Drop {
    // Its plan, which never changes, and how many verbs it was asked to pass, a count that stands still at 2^64 - 1.
    ghost state: { Self → Line };

    // How many verbs it refused, a count that stands still at 2^64 - 1.
    ghost faults: { Self → ℕ };

    /// Asks to pass a verb. It fails exactly where the plan has the verb's number, and then the verb is not to be done.
    fn pass(&mut self, verb: Verb) -> Result<(), Failed>
        ensures asked { state self.new ≡ asked_once (state self.old) }
        ensures refuses { IsErr result ↔ IsTrue (refuses_next (state self.old)) }
        ensures fault { OnErr result (Rose (faults self.old) (faults self.new)) }
        ensures none { OnOk result (faults self.new ≡ faults self.old) }
        ensures counted { faults self.old ≤ faults self.new };
}
