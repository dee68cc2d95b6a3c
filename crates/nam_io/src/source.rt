//! Sources of bytes.

ghost use Rattle.std.specs.Prelude.{◌≡◌, ◌<◌, ◌≤◌, ℕ, List, Option, length, take, IfOk, OnErr};
ghost use Rattle.std.specs.Io.{ReadsAtMost};
ghost use Rattle.std.specs.Io.KnownBytes.{Consumes, IsAtEnd};
ghost use Rattle.nam_io.specs.Faults.{Rose};

use crate::failed::Failed;

/// Bytes to read.
pub trait Source {
    // What is left, where the source tells it.
    ghost left: { Self → Option (List ℕ) };

    // How many faults there were, a count that stands still at 2^64 - 1.
    ghost faults: { Self → ℕ };

    /// Reads some of what is left to the front of `into`, and says how many bytes. 0 bytes are the end of input.
    fn read(&mut self, into: &mut [u8]) -> Result<usize, Failed>
        requires { 0 < length into.old }
        ensures within { ReadsAtMost result into.new }
        ensures gives { IfOk result (λ n. Consumes (left self.old) (left self.new) (take n into.new)) }
        ensures end { result ≡ Ok 0 → IsAtEnd (left self.new) }
        ensures kept { OnErr result (left self.new ≡ left self.old) }
        ensures fault { OnErr result (Rose (faults self.old) (faults self.new)) }
        ensures counted { faults self.old ≤ faults self.new };
}
