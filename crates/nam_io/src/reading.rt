//! All that a source has left.

ghost use Rattle.std.specs.Prelude.{◌≡◌, ◌≢◌, ◌<◌, ◌≤◌, ◌+◌, vec_len, length, IfOk, OnOk, IfSome};
ghost use Rattle.std.specs.Io.KnownBytes.{Consumes, IsAtEnd};
ghost use Rattle.nam_io.specs.Faults.{Rose};
ghost use Rattle.nam_io.specs.Fronts.{LosesFront};

use crate::read_end::ReadEnd;
use crate::source::Source;
use std::alloc::Global;

/// The most bytes that one call of the source is asked for.
const PIECE: usize = 4096;

/// All that is left, if that is at most `limit` bytes.
///
/// `ReadFault` is a fault of the source. `TooLong` says that more than `limit` bytes were left; then one byte past
/// the limit is read, and no more.
pub fn read_all<S: Source>(alloc: Global, source: &mut S, limit: usize) -> Result<Vec<u8>, ReadEnd>
    ensures all { IfOk result (λ bytes. Consumes (S.left source.old) (S.left source.new) bytes.items) }
    ensures to_the_end { OnOk result (IsAtEnd (S.left source.new)) }
    ensures within { IfOk result (λ bytes. vec_len bytes ≤ limit) }

    ensures fault { result ≡ Err ReadEnd.ReadFault → Rose (S.faults source.old) (S.faults source.new) }
    ensures long { result ≡ Err ReadEnd.TooLong →
        IfSome (S.left source.old) (λ bytes. limit < length bytes) }

    // TooLong comes exactly where more than `limit` bytes were got, and reading stops at the first of those.
    ensures stops { result ≡ Err ReadEnd.TooLong →
        LosesFront (S.left source.old) (S.left source.new) (λ n. n ≡ limit + 1) }
    ensures short { result ≢ Err ReadEnd.TooLong →
        LosesFront (S.left source.old) (S.left source.new) (λ n. n ≤ limit) }

    ensures counted { S.faults source.old ≤ S.faults source.new }
{
    let mut bytes = Vec::new(alloc);
    let mut piece = [0u8; PIECE];
    loop {
        // One byte past the limit is enough to tell that the input is too long.
        let room = (limit - bytes.len()).saturating_add(1).min(PIECE);
        let count = source.read(&mut piece[..room])?;
        if count == 0 {
            return Ok(bytes);
        }
        if limit - bytes.len() < count {
            return Err(ReadEnd::TooLong);
        }
        bytes.extend_from_slice(&piece[..count])?;
    }
}
