//! A sink in memory.

ghost use Rattle.std.specs.Prelude.{◌≡◌, ◌<◌, ◌≤◌, ◌↔◌, [], length, IsErr, IfOk, OnErr};
ghost use Rattle.nam_io.specs.Calls.{FailsNext, after_fault};
ghost use Rattle.nam_io.specs.Memory.{write_count, after_write};

use crate::call_counter::CallCounter;
use crate::failed::Failed;
use crate::sink::Sink;
use std::alloc::{AllocError, Global};
use std::marker::Model;

/// A buffer of fixed room, filled in pieces. Chosen calls fail.
#[derive(Debug, Drop)]
pub struct MemSink {
    bytes: Vec<u8>,
    room: usize,
    piece: usize,
    calls: CallCounter,
}

impl Model for MemSink {
    ghost use Rattle.std.specs.Prelude.{◌<◌, ◌≤◌, vec_len, vec_capacity};
    ghost use Rattle.nam_io.specs.Memory.{SinkState};

    ghost Value = { SinkState };

    ghost view = { λ s. record { taken = s.bytes.items; room = s.room; piece = s.piece; calls = s.calls } };

    ghost invariant = { λ s. (0 < s.piece) × (vec_len s.bytes ≤ s.room) × (s.room ≤ vec_capacity s.bytes) };
}

impl MemSink {
    /// An empty sink, which takes at most `room` bytes, and at most `piece` of them in a call. The calls whose
    /// numbers, from 1, are in `failing` fail. The room is reserved here.
    pub fn new(
        alloc: Global,
        room: usize,
        piece: usize,
        failing: Vec<u64>,
    ) -> Result<MemSink, AllocError>
        requires { 0 < piece }
        ensures { IfOk result (λ sink. sink ≡ record {
          taken = [];
          room = room;
          piece = piece;
          calls = record { failing = failing.items; made = 0; faults = 0 };
        }) }
    {
        let bytes = Vec::with_capacity(alloc, room)?;
        Ok(MemSink {
            bytes,
            room,
            piece,
            calls: CallCounter::new(failing),
        })
    }

    /// What was taken.
    pub fn bytes(&self) -> &[u8]
        ensures value { result.now ≡ self.now.taken }
        ensures fits { length result.now ≤ self.now.room }
    {
        self.bytes.as_slice()
    }
}

impl Sink for MemSink {
    ghost use Rattle.std.specs.Prelude.{Some};

    ghost taken = { λ s. Some s.taken };

    ghost faults = { λ s. s.calls.faults };

    fn write(&mut self, from: &[u8]) -> Result<usize, Failed>
        requires { 0 < length from.now }
        ensures fails { IsErr result ↔ FailsNext self.old.calls }
        ensures err { OnErr result (self.new ≡ record self.old { calls = after_fault self.old.calls }) }
        ensures count { IfOk result (λ n. n ≡ write_count self.old (length from.now)) }
        ensures after { IfOk result (λ n. self.new ≡ after_write self.old n from.now) }
        ensures counted { self.old.calls.faults ≤ self.new.calls.faults }
    {
        self.calls.begin()?;
        let room = self.room - self.bytes.len();
        let count = from.len().min(self.piece).min(room);
        if count == 0 {
            self.calls.raise();
            return Ok(0);
        }
        // The room is reserved.
        self.bytes.extend_from_slice(&from[..count]).unwrap();
        Ok(count)
    }
}
