//! A writer of std as a sink.

ghost use Rattle.std.specs.Prelude.{◌≡◌, ◌==◌, ◌<◌, ◌≤◌, length, IfOk, OnErr, if◌then◌else◌};
ghost use Rattle.std.specs.Io.{WritesAtMost};
ghost use Rattle.std.specs.Io.KnownBytes.{WriteAppends};
ghost use Rattle.nam_io.specs.Faults.{one_more};

use crate::failed::Failed;
use crate::sink::Sink;
use std::io::Write;
use std::marker::Model;

/// A writer of std as a sink. It tells nothing of its content.
#[derive(Drop)]
pub struct StdSink<W> {
    writer: W,
    faults: u64,
}

impl<W> Model for StdSink<W> {
    ghost use Rattle.nam_io.specs.Adapted.{Adapted};

    ghost Value = { Adapted W };

    ghost view = { λ s. record { stream = s.writer; faults = s.faults } };
}

impl<W: Write> StdSink<W> {
    /// A sink over this writer, without a fault yet.
    pub fn new(writer: W) -> StdSink<W>
        ensures { result ≡ record { stream = writer; faults = 0 } }
    {
        StdSink { writer, faults: 0 }
    }
}

impl<W: Write> Sink for StdSink<W> {
    ghost use Rattle.std.specs.Prelude.{None};

    ghost taken = { λ _. None };

    ghost faults = { λ s. s.faults };

    /// Makes one call of the writer. To take 0 bytes is a fault.
    fn write(&mut self, from: &[u8]) -> Result<usize, Failed>
        requires { 0 < length from.now }
        ensures within { WritesAtMost result from.now }
        ensures passes { WriteAppends (W.contents self.old.stream) (W.contents self.new.stream) result from.now }
        ensures ok { IfOk result (λ n.
            self.new.faults ≡ (if n == 0 then one_more self.old.faults else self.old.faults)) }
        ensures err { OnErr result (self.new.faults ≡ one_more self.old.faults) }
        ensures counted { self.old.faults ≤ self.new.faults }
    {
        let taken = self.writer.write(from);
        if !matches!(taken, Ok(1..)) {
            self.faults = self.faults.saturating_add(1);
        }
        taken.map_err(|_| Failed)
    }
}
