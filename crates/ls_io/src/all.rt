ghost use Rattle.std.specs.Prelude.{◌≡◌, ◌+◌, ◌-◌, ◌<◌, ◌≤◌, length, ℕ, OnOk, OnErr, IfOk, IfSome, IsErrOf, IsErr, IsOk};
ghost use Rattle.std.specs.Io.KnownBytes.{IsAtEnd};
ghost use Rattle.ls_io.specs.Causes.{Rose};
ghost use Rattle.ls_io.specs.Moves.{limit, Gave, GaveSome, GaveCount, GaveAtMost, Took, TookPrefix};
ghost use Rattle.ls_io.specs.declared.all.ReadFault.TheVariants.{Memory};

use super::traits::{Sink, SinkFail, Source};
use std::alloc::{AllocError, Global};

/// The greatest length of a text, in bytes.
pub const LIMIT: usize = 16_777_216;

/// How many bytes one call of `read` is asked for at most.
const CHUNK: usize = 16_384;

/// Why a source was not read to its end.
#[derive(Debug, Drop)]
pub enum ReadFault {
    /// A read failed: the source's count of failures rose.
    Fault,

    /// More than `LIMIT` bytes were left. One byte more than `LIMIT` was read.
    TooLong,

    /// There is no memory for the bytes.
    Memory,
}

impl From<AllocError> for ReadFault {
    ghost from_gives = { λ _ e. e ≡ Memory };

    fn from(_error: AllocError) -> ReadFault {
        ReadFault::Memory
    }
}

/// Reads a source to its end. `Ok` is all that was left, at most `LIMIT` bytes.
///
/// It ends after at most `LIMIT + 1` calls of `read`: each call but the last gives a byte at least, and these
/// bytes are at most `LIMIT`. None of these calls is a second attempt after a failed one.
pub fn read_all<S: Source>(alloc: Global, source: &mut S) -> Result<Vec<u8>, ReadFault>
    // The answer is all that was left, and nothing is left then.
    ensures all { IfOk result (λ text. Gave (S.left source.old) (S.left source.new) text.items) }
    ensures end { OnOk result (IsAtEnd (S.left source.new)) }

    // With more bytes left than the limit the answer is never `Ok`. `TooLong` comes exactly where one byte
    // more than the limit came.
    ensures within { IfOk result (λ text. length text.items ≤ limit) }
    ensures long { IfSome (S.left source.old) (λ left. limit < length left → IsErr result) }
    ensures too_long { IsErrOf result ReadFault.TooLong → GaveCount (S.left source.old) (S.left source.new) (limit + 1) }
    ensures not_too_long { (IsErrOf result ReadFault.TooLong → ⊥) → GaveAtMost (S.left source.old) (S.left source.new) limit }

    // A read failed only where the count rose, which it does at a fault alone, and none of a source that does not
    // fail.
    ensures later { S.failures source.old ≤ S.failures source.new }
    ensures fault { IsErrOf result ReadFault.Fault → Rose (S.failures source.old) (S.failures source.new) }
    ensures quiet { (IsErrOf result ReadFault.Fault → ⊥) → S.failures source.new ≡ S.failures source.old }
    ensures sound { S.is_sound source.old → (IsErrOf result ReadFault.Fault → ⊥) × S.is_sound source.new
        × (S.failures source.new ≡ S.failures source.old) }

    // There is at most one call more than the bytes that it may take.
    ensures calls { S.calls source.new ≤ S.calls source.old + limit + 1 }

    // After a refusal the source has given a prefix of what it had left.
    ensures refused { OnErr result (GaveSome (S.left source.old) (S.left source.new)) }
{
    let mut bytes = Vec::new(alloc);
    let mut chunk = [0u8; CHUNK];
    loop {
        let want = CHUNK.min(LIMIT + 1 - bytes.len());
        match source.read(&mut chunk[..want]) {
            Ok(0) => return Ok(bytes),
            Ok(count) => {
                if bytes.len() + count > LIMIT {
                    return Err(ReadFault::TooLong);
                }
                bytes.extend_from_slice(&chunk[..count])?;
            }
            Err(_) => return Err(ReadFault::Fault),
        }
    }
}

/// Writes all the bytes. It takes no memory.
pub fn write_all<K: Sink>(sink: &mut K, bytes: &[u8]) -> Result<(), SinkFail>
    // All the bytes stand behind what was written before, or after a refusal a prefix of them.
    ensures all { OnOk result (Took (K.written sink.old) (K.written sink.new) bytes.now) }
    ensures refused { OnErr result (TookPrefix (K.written sink.old) (K.written sink.new) bytes.now) }

    // A write failed only where the count rose, which it does at a refusal alone, and none of a sink with room for
    // the bytes.
    ensures later { K.failures sink.old ≤ K.failures sink.new }
    ensures fault { OnErr result (Rose (K.failures sink.old) (K.failures sink.new)) }
    ensures quiet { OnOk result (K.failures sink.new ≡ K.failures sink.old) }
    ensures sound { (room : ℕ) → K.has_room sink.old room → length bytes.now ≤ room
        → IsOk result × K.has_room sink.new (room - length bytes.now) × (K.failures sink.new ≡ K.failures sink.old) }
{
    let mut at = 0;
    while at < bytes.len() {
        match sink.write(&bytes[at..]) {
            Ok(count) => at += count,
            Err(fail) => return Err(fail),
        }
    }
    Ok(())
}
