ghost use Rattle.std.specs.Prelude.{◌≡◌, ◌<◌, [], length, take, Some, IfOk, IsOk};
ghost use Rattle.std.specs.Io.{ReadsAtMost};
ghost use Rattle.ls_io.specs.Causes.{HasCause, raised};
ghost use Rattle.ls_io.specs.Moves.{ReadGives};
ghost use Rattle.ls_io.specs.Mem.{ReadsPiece};

use super::counts::{is_next_failing, raised};
use super::traits::{Source, SourceFail};
use std::alloc::{AllocError, Global};
use std::marker::Model;

/// A source over bytes in memory, which tells them. A call gives a piece of fixed length, and fails where it
/// is told to.
#[derive(Debug, Drop)]
pub struct MemSource {
    bytes: Vec<u8>,
    at: usize,
    piece: usize,
    failing: Vec<u64>,
    calls: u64,
    faults: u64,
}

impl Model for MemSource {
    ghost use Rattle.std.specs.Prelude.{◌<◌, ◌≤◌, vec_len, drop};
    ghost use Rattle.ls_io.specs.Mem.{SourceState};

    ghost Value = { SourceState };

    ghost view = { λ s. record {
      left = drop s.at s.bytes.items;
      piece = s.piece;
      failing = s.failing.items;
      calls = s.calls;
      faults = s.faults;
    } };

    ghost invariant = { λ s. (s.at ≤ vec_len s.bytes) × (0 < s.piece) };
}

impl MemSource {
    /// A source with these bytes left. A call gives as many as the least of `piece`, the buffer's length and
    /// what is left, and fails exactly where its number, from 1, is in `failing`.
    pub fn new(
        alloc: Global,
        bytes: &[u8],
        piece: usize,
        failing: &[u64],
    ) -> Result<MemSource, AllocError>
        requires { 0 < piece }
        ensures { IfOk result (λ s. s ≡ record {
          left = bytes.now;
          piece = piece;
          failing = failing.now;
          calls = 0;
          faults = 0;
        }) }
    {
        Ok(MemSource {
            bytes: Vec::from_slice(alloc, bytes)?,
            at: 0,
            piece,
            failing: Vec::from_slice(alloc, failing)?,
            calls: 0,
            faults: 0,
        })
    }

    /// The bytes that are left to read. It takes no memory.
    pub fn left(&self) -> &[u8]
        ensures { result.now ≡ self.now.left }
    {
        &self.bytes[self.at..]
    }
}

impl Source for MemSource {
    ghost left = { λ s. Some s.left };

    ghost failures = { λ s. s.faults };

    ghost calls = { λ s. s.calls };

    ghost is_sound = { λ s. s.failing ≡ [] };

    fn faults(&self) -> u64 {
        self.faults
    }

    // The last clause adds which call fails, and how many bytes any other gives. A call takes no memory.
    fn read(&mut self, buf: &mut [u8]) -> Result<usize, SourceFail>
        ensures bound { ReadsAtMost result buf.new }
        ensures bytes { ReadGives (Some self.old.left) (Some self.new.left) result buf.new }
        ensures cause { HasCause self.old.faults self.new.faults result }
        ensures call { self.new.calls ≡ raised self.old.calls }
        ensures sound { self.old.failing ≡ [] → IsOk result × (self.new.failing ≡ []) × (self.new.faults ≡ self.old.faults) }
        ensures piece { ReadsPiece self.old self.new result buf.new }
    {
        let fails = is_next_failing(&self.failing, self.calls);
        self.calls = raised(self.calls);
        if fails {
            self.faults = raised(self.faults);
            return Err(SourceFail);
        }
        let left = &self.bytes[self.at..];
        let count = self.piece.min(buf.len()).min(left.len());
        buf[..count].copy_from_slice(&left[..count]);
        self.at += count;
        Ok(count)
    }
}
