//! A source in memory.

ghost use Rattle.std.specs.Prelude.{◌≡◌, ◌<◌, ◌≤◌, ◌↔◌, [], min, length, take, IsErr, IfOk, OnErr};
ghost use Rattle.nam_io.specs.Calls.{FailsNext, after_fault};
ghost use Rattle.nam_io.specs.Memory.{read_count, after_read};

use crate::call_counter::CallCounter;
use crate::failed::Failed;
use crate::source::Source;
use std::marker::Model;

/// Bytes in memory, read in pieces. Chosen calls fail.
#[derive(Debug, Drop)]
pub struct MemSource {
    bytes: Vec<u8>,
    at: usize,
    piece: usize,
    calls: CallCounter,
}

impl Model for MemSource {
    ghost use Rattle.std.specs.Prelude.{◌<◌, ◌≤◌, vec_len, drop};
    ghost use Rattle.nam_io.specs.Memory.{SourceState};

    ghost Value = { SourceState };

    ghost view = { λ s. record { left = drop s.at s.bytes.items; piece = s.piece; calls = s.calls } };

    ghost invariant = { λ s. (0 < s.piece) × (s.at ≤ vec_len s.bytes) };
}

impl MemSource {
    /// A source of these bytes, at most `piece` of them in a call. The calls whose numbers, from 1, are in `failing`
    /// fail.
    pub fn new(bytes: Vec<u8>, piece: usize, failing: Vec<u64>) -> MemSource
        requires { 0 < piece }
        ensures { result ≡ record {
          left = bytes.items;
          piece = piece;
          calls = record { failing = failing.items; made = 0; faults = 0 };
        } }
    {
        MemSource {
            bytes,
            at: 0,
            piece,
            calls: CallCounter::new(failing),
        }
    }
}

impl Source for MemSource {
    ghost use Rattle.std.specs.Prelude.{Some};

    ghost left = { λ s. Some s.left };

    ghost faults = { λ s. s.calls.faults };

    fn read(&mut self, into: &mut [u8]) -> Result<usize, Failed>
        requires { 0 < length into.old }
        ensures fails { IsErr result ↔ FailsNext self.old.calls }
        ensures err { OnErr result (self.new ≡ record self.old { calls = after_fault self.old.calls }) }
        ensures count { IfOk result (λ n. n ≡ read_count self.old (length into.old)) }
        ensures bytes { IfOk result (λ n. take n into.new ≡ take n self.old.left) }
        ensures after { IfOk result (λ n. self.new ≡ after_read self.old n) }
        ensures end { result ≡ Ok 0 → self.new.left ≡ [] }
        ensures counted { self.old.calls.faults ≤ self.new.calls.faults }
    {
        self.calls.begin()?;
        let count = copy_front(into, &self.bytes[self.at..], self.piece);
        self.at += count;
        Ok(count)
    }
}

/// Copies the front of `from`, of `most` bytes at most, to the front of `into`, and says how many bytes.
fn copy_front(into: &mut [u8], from: &[u8], most: usize) -> usize
    ensures count { result ≡ min (min (length into.old) most) (length from.now) }
    ensures bytes { take result into.new ≡ take result from.now }
{
    let count = into.len().min(most).min(from.len());
    into[..count].copy_from_slice(&from[..count]);
    count
}
