ghost use Rattle.std.specs.Prelude.{◌≡◌, ◌-◌, ◌≤◌, ℕ, List, Option, length, IsOk, IfOk};
ghost use Rattle.std.specs.Io.{ReadsAtMost};
ghost use Rattle.ls_io.specs.Causes.{HasCause, raised};
ghost use Rattle.ls_io.specs.Moves.{ReadGives, WriteTakes, TakesSome};

/// A read failed, and the source's count of failures rose.
#[derive(Debug, Drop)]
pub struct SourceFail;

/// A write failed, and the sink's count of failures rose.
#[derive(Debug, Drop)]
pub struct SinkFail;

/// Where bytes come from. A source stands for the bytes that are left to read, if it tells them: one over
/// memory does, and standard input does not. No call changes whether it tells them.
pub trait Source {
    /// The bytes that are left to read, or `None` if the source does not tell them.
    ghost left: { Self → Option (List ℕ) };

    /// How many calls of `read` failed so far.
    ghost failures: { Self → ℕ };

    /// How many calls of `read` were made so far.
    ghost calls: { Self → ℕ };

    /// No later call of `read` will fail. A source that cannot know this never claims it.
    ghost is_sound: { Self → Type 0 } = { λ _. ⊥ };

    /// How many calls of `read` failed so far. The count never falls, and stands still at the greatest `u64`.
    fn faults(&self) -> u64
        ensures { result ≡ failures self.now };

    /// Reads at most as many bytes as the buffer is long.
    ///
    /// After `Ok(n)` the first n bytes of what was left are the first n of the buffer, and no longer left;
    /// nothing is said of the buffer behind them. `Ok(0)` into a buffer that is not empty is the end of the
    /// input: nothing is left. `Err` comes only where the count of failures rose, and leaves what is left
    /// as it was. At `Ok` the count of failures is as it was.
    fn read(&mut self, buf: &mut [u8]) -> Result<usize, SourceFail>
        ensures bound { ReadsAtMost result buf.new }
        ensures bytes { ReadGives (left self.old) (left self.new) result buf.new }
        ensures cause { HasCause (failures self.old) (failures self.new) result }
        ensures call { calls self.new ≡ raised (calls self.old) }
        ensures sound { is_sound self.old → IsOk result × is_sound self.new × (failures self.new ≡ failures self.old) };
}

/// Where bytes go to. A sink stands for the bytes that were written to it, if it tells them: one over memory
/// does, and standard output does not. No call changes whether it tells them.
pub trait Sink {
    /// The bytes that were written, or `None` if the sink does not tell them.
    ghost written: { Self → Option (List ℕ) };

    /// How many calls of `write` failed so far.
    ghost failures: { Self → ℕ };

    /// So many more bytes can be written with no failure. A sink that cannot know this never claims it.
    ghost has_room: { Self → ℕ → Type 0 } = { λ _ _. ⊥ };

    /// How many calls of `write` failed so far. The count never falls, and stands still at the greatest `u64`.
    fn faults(&self) -> u64
        ensures { result ≡ failures self.now };

    /// Writes some of the bytes.
    ///
    /// After `Ok(n)` the first n of them stand behind what was written before; n is 0 only where there are
    /// no bytes. `Err` comes only where the count of failures rose, and leaves what was written as it was. At
    /// `Ok` the count of failures is as it was.
    fn write(&mut self, bytes: &[u8]) -> Result<usize, SinkFail>
        ensures some { TakesSome result bytes.now }
        ensures bytes { WriteTakes (written self.old) (written self.new) result bytes.now }
        ensures cause { HasCause (failures self.old) (failures self.new) result }
        ensures sound { (room : ℕ) → has_room self.old room → length bytes.now ≤ room
            → IsOk result × IfOk result (λ n. has_room self.new (room - n)) × (failures self.new ≡ failures self.old) };
}
