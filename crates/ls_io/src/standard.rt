ghost use Rattle.std.specs.Prelude.{◌≡◌, None};
ghost use Rattle.std.specs.Io.{ReadsAtMost};
ghost use Rattle.std.specs.Io.KnownBytes.{ReadConsumes, WriteAppends};
ghost use Rattle.ls_io.specs.Causes.{HasCause, CountsOnce, raised};
ghost use Rattle.ls_io.specs.Moves.{ReadGives, WriteTakes, TakesSome};

use super::counts::raised;
use super::traits::{Sink, SinkFail, Source, SourceFail};
use std::io::{Read, Write};

/// A source over a reader, as standard input. It does not tell its bytes. Each `Err` of the reader is a
/// failure, also where a signal broke off the call.
#[derive(Drop)]
pub struct StdSource<R: Read> {
    reader: R,
    calls: u64,
    faults: u64,
}

impl<R: Read> StdSource<R> {
    /// A source over the reader. No call was made yet.
    pub fn new(reader: R) -> StdSource<R>
        ensures reader { result.reader ≡ reader }
        ensures calls { result.calls ≡ 0 }
        ensures faults { result.faults ≡ 0 }
    {
        StdSource {
            reader,
            calls: 0,
            faults: 0,
        }
    }
}

impl<R: Read> Source for StdSource<R> {
    ghost left = { λ _. None };

    ghost failures = { λ s. s.faults };

    ghost calls = { λ s. s.calls };

    fn faults(&self) -> u64 {
        self.faults
    }

    // The last clauses add that a failure counts once, and what the reader itself tells: the bytes come from it,
    // and 0 only at its end.
    fn read(&mut self, buf: &mut [u8]) -> Result<usize, SourceFail>
        ensures bound { ReadsAtMost result buf.new }
        ensures bytes { ReadGives None None result buf.new }
        ensures cause { HasCause self.old.faults self.new.faults result }
        ensures call { self.new.calls ≡ raised self.old.calls }
        ensures once { CountsOnce self.old.faults self.new.faults result }
        ensures reader { ReadConsumes (R.remaining self.old.reader) (R.remaining self.new.reader) result buf.new }
    {
        self.calls = raised(self.calls);
        match self.reader.read(buf) {
            Ok(count) => Ok(count),
            Err(_) => {
                self.faults = raised(self.faults);
                Err(SourceFail)
            }
        }
    }
}

/// A sink over a writer, as standard output. It does not tell its bytes. Each `Err` of the writer is a
/// failure, also where a signal broke off the call, and so is a call that takes nothing of some bytes.
#[derive(Drop)]
pub struct StdSink<W: Write> {
    writer: W,
    faults: u64,
}

impl<W: Write> StdSink<W> {
    /// A sink over the writer. No call has failed yet.
    pub fn new(writer: W) -> StdSink<W>
        ensures writer { result.writer ≡ writer }
        ensures faults { result.faults ≡ 0 }
    {
        StdSink { writer, faults: 0 }
    }
}

impl<W: Write> Sink for StdSink<W> {
    ghost written = { λ _. None };

    ghost failures = { λ s. s.faults };

    fn faults(&self) -> u64 {
        self.faults
    }

    // The last clauses add that a failure counts once, and what the writer itself tells: the bytes went to it.
    fn write(&mut self, bytes: &[u8]) -> Result<usize, SinkFail>
        ensures some { TakesSome result bytes.now }
        ensures bytes { WriteTakes None None result bytes.now }
        ensures cause { HasCause self.old.faults self.new.faults result }
        ensures once { CountsOnce self.old.faults self.new.faults result }
        ensures writer { WriteAppends (W.contents self.old.writer) (W.contents self.new.writer) result bytes.now }
    {
        match self.writer.write(bytes) {
            Ok(count) if count > 0 || bytes.is_empty() => Ok(count),
            _ => {
                self.faults = raised(self.faults);
                Err(SinkFail)
            }
        }
    }
}
