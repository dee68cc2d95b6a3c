//! Sinks of bytes.

ghost use Rattle.std.specs.Prelude.{◌≡◌, ◌<◌, ◌≤◌, ℕ, List, Option, length, take, IfOk, OnErr};
ghost use Rattle.std.specs.Io.{WritesAtMost};
ghost use Rattle.std.specs.Io.KnownBytes.{Appends};
ghost use Rattle.nam_io.specs.Faults.{Rose};

use crate::failed::Failed;

/// What takes bytes.
pub trait Sink {
    // What was taken, where the sink tells it.
    ghost taken: { Self → Option (List ℕ) };

    // How many faults there were, a count that stands still at 2^64 - 1.
    ghost faults: { Self → ℕ };

    /// Takes bytes from the front of `from`, and says how many. 0 bytes are a fault.
    fn write(&mut self, from: &[u8]) -> Result<usize, Failed>
        requires { 0 < length from.now }
        ensures within { WritesAtMost result from.now }
        ensures takes { IfOk result (λ n. Appends (taken self.old) (taken self.new) (take n from.now)) }
        ensures none { result ≡ Ok 0 → Rose (faults self.old) (faults self.new) }
        ensures kept { OnErr result (taken self.new ≡ taken self.old) }
        ensures fault { OnErr result (Rose (faults self.old) (faults self.new)) }
        ensures counted { faults self.old ≤ faults self.new };
}
