//! Bytes to a sink.

ghost use Rattle.std.specs.Prelude.{◌≡◌, ◌≤◌, OnOk, OnErr};
ghost use Rattle.std.specs.Io.KnownBytes.{Appends};
ghost use Rattle.nam_io.specs.Faults.{Rose};
ghost use Rattle.nam_io.specs.Fronts.{AppendsFront};

use crate::failed::Failed;
use crate::sink::Sink;

/// Writes all of the bytes. It ends with `Failed` where the sink fails or takes 0 bytes; then a front of them went
/// out.
pub fn write_all<K: Sink>(sink: &mut K, bytes: &[u8]) -> Result<(), Failed>
    ensures all { OnOk result (Appends (K.taken sink.old) (K.taken sink.new) bytes.now) }
    ensures front { OnErr result (AppendsFront (K.taken sink.old) (K.taken sink.new) bytes.now) }
    ensures fault { OnErr result (Rose (K.faults sink.old) (K.faults sink.new)) }
    ensures counted { K.faults sink.old ≤ K.faults sink.new }
{
    let mut rest = bytes;
    while !rest.is_empty() {
        let count = sink.write(rest)?;
        if count == 0 {
            return Err(Failed);
        }
        rest = &rest[count..];
    }
    Ok(())
}
