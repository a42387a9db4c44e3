ghost use Rattle.std.specs.Prelude.{◌≡◌, ◌<◌, [], length, take, Some, IfOk, IsOk, ◌+◌, ◌-◌, ◌≤◌, ℕ};
ghost use Rattle.ls_io.specs.Causes.{HasCause};
ghost use Rattle.ls_io.specs.Moves.{WriteTakes, TakesSome};
ghost use Rattle.ls_io.specs.Mem.{WritesPiece, IsRoomFor};

use super::counts::{is_next_failing, raised};
use super::traits::{Sink, SinkFail};
use std::alloc::{AllocError, Global};
use std::marker::Model;

/// A sink into reserved memory, which tells its bytes. A call takes a piece of fixed length, and fails where
/// it is told to, or where the room is used up.
#[derive(Debug, Drop)]
pub struct MemSink {
    bytes: Vec<u8>,
    room: usize,
    piece: usize,
    failing: Vec<u64>,
    calls: u64,
    faults: u64,
}

impl Model for MemSink {
    ghost use Rattle.std.specs.Prelude.{◌<◌, ◌≤◌, vec_len, vec_capacity};
    ghost use Rattle.ls_io.specs.Mem.{SinkState};

    ghost Value = { SinkState };

    ghost view = { λ s. record {
      bytes = s.bytes.items;
      room = s.room;
      piece = s.piece;
      failing = s.failing.items;
      calls = s.calls;
      faults = s.faults;
    } };

    ghost invariant = { λ s. (vec_len s.bytes ≤ s.room) × (s.room ≤ vec_capacity s.bytes) × (0 < s.piece) };
}

impl MemSink {
    /// A sink with nothing written, and memory for `room` bytes. A call takes the first `piece` bytes of what
    /// it is handed, or all where these are fewer. It fails exactly where its number, from 1, is in `failing`,
    /// or where the bytes that it would take pass the room.
    pub fn new(
        alloc: Global,
        room: usize,
        piece: usize,
        failing: &[u64],
    ) -> Result<MemSink, AllocError>
        requires { 0 < piece }
        ensures { IfOk result (λ s. s ≡ record {
          bytes = [];
          room = room;
          piece = piece;
          failing = failing.now;
          calls = 0;
          faults = 0;
        }) }
    {
        Ok(MemSink {
            bytes: Vec::with_capacity(alloc, room)?,
            room,
            piece,
            failing: Vec::from_slice(alloc, failing)?,
            calls: 0,
            faults: 0,
        })
    }

    /// The bytes that were written. It takes no memory.
    pub fn bytes(&self) -> &[u8]
        ensures { result.now ≡ self.now.bytes }
    {
        &self.bytes
    }
}

impl Sink for MemSink {
    ghost written = { λ s. Some s.bytes };

    ghost failures = { λ s. s.faults };

    ghost has_room = { λ s room. IsRoomFor s room };

    fn faults(&self) -> u64 {
        self.faults
    }

    // The last clause adds which call fails, and how many bytes any other takes. A call takes no memory.
    fn write(&mut self, bytes: &[u8]) -> Result<usize, SinkFail>
        ensures some { TakesSome result bytes.now }
        ensures bytes { WriteTakes (Some self.old.bytes) (Some self.new.bytes) result bytes.now }
        ensures cause { HasCause self.old.faults self.new.faults result }
        ensures sound { (room : ℕ) → IsRoomFor self.old room → length bytes.now ≤ room
            → IsOk result × IfOk result (λ n. IsRoomFor self.new (room - n)) × (self.new.faults ≡ self.old.faults) }
        ensures piece { WritesPiece self.old self.new result bytes.now }
    {
        let fails = is_next_failing(&self.failing, self.calls);
        self.calls = raised(self.calls);
        let count = self.piece.min(bytes.len());
        if fails || count > self.room - self.bytes.len() {
            self.faults = raised(self.faults);
            return Err(SinkFail);
        }
        self.bytes.extend_from_slice(&bytes[..count]).unwrap();
        Ok(count)
    }
}
