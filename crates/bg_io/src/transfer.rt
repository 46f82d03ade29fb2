ghost use Rattle.std.specs.Prelude.{◌≡◌, ◌≢◌, ◌<◌, ◌≤◌, ◌+◌, ◌↔◌, ℕ, List, length, Err, IfOk, MatchResult, OnErr, OnOk};
ghost use Rattle.std.specs.Io.KnownBytes.{Appends, Consumes, IsAtEnd};
ghost use Rattle.bg_io.specs.Ends.{CountsAtMost, CountsGained, CountsTaken, HasCause, HasRoom, IsCutShort, Loses};
ghost use Rattle.bg_io.specs.Ends.{LosesAtMost, RoomFalls, Rose};

use crate::ends::{Sink, Source};
use std::alloc::{AllocError, Global};

/// Why a source was not read to its end.
#[derive(Debug, Clone, Copy, PartialEq, Eq)]
pub enum ReadAllFault {
    ReadFault,
    TooLong,
    NoMemory,
}

impl From<AllocError> for ReadAllFault {
    ghost use Rattle.bg_io.specs.declared.transfer.ReadAllFault.TheVariants.{NoMemory};
    ghost use Rattle.std.specs.Prelude.{◌≡◌};

    ghost from_gives = { λ _ e. e ≡ NoMemory };

    fn from(_refused: AllocError) -> ReadAllFault {
        ReadAllFault::NoMemory
    }
}

/// All bytes up to the end of the source, of which at most one more than the limit is taken.
pub fn read_all<S: Source>(
    alloc: Global,
    source: &mut S,
    limit: u32,
) -> Result<Vec<u8>, ReadAllFault>
    ensures all { IfOk result (λ text. Consumes (S.left source.old) (S.left source.new) text.items) }
    ensures to_the_end { OnOk result (IsAtEnd (S.left source.new)) }
    ensures within { IfOk result (λ text. length text.items ≤ limit) }
    ensures too_long { result ≡ Err ReadAllFault.TooLong → Loses (S.left source.old) (S.left source.new) (limit + 1) }

    // Neither the end nor too much was seen.
    ensures read_fault { result ≡ Err ReadAllFault.ReadFault →
        LosesAtMost (S.left source.old) (S.left source.new) limit }
    ensures no_memory { result ≡ Err ReadAllFault.NoMemory → LosesAtMost (S.left source.old) (S.left source.new) limit }

    ensures cause { result ≡ Err ReadAllFault.ReadFault → Rose (S.faults source.old) (S.faults source.new) }
    ensures kept { result ≢ Err ReadAllFault.ReadFault → S.faults source.new ≡ S.faults source.old }

    // Each read but the last takes at least one byte, and none is made after one that failed.
    ensures calls { CountsAtMost (S.calls source.old) (S.calls source.new) (limit + 1) }
    ensures calls_taken { CountsTaken (S.left source.old) (S.left source.new) (S.calls source.old)
        (S.calls source.new) }
    ensures calls_ok { IfOk result (λ text. CountsAtMost (S.calls source.old) (S.calls source.new)
        (length text.items + 1)) }
{
    let limit = limit as usize;
    let mut text = Vec::new(alloc);
    let mut buffer = [0; 4096];
    while text.len() <= limit {
        let most = buffer.len().min(limit + 1 - text.len());
        let piece = &mut buffer[..most];
        match source.read(piece) {
            Err(_) => return Err(ReadAllFault::ReadFault),
            Ok(0) => return Ok(text),
            Ok(count) => {
                if text.len() + count > limit {
                    return Err(ReadAllFault::TooLong);
                }
                text.extend_from_slice(&piece[..count])?;
            }
        }
    }
    Err(ReadAllFault::TooLong)
}

/// A write that failed.
#[derive(Debug, Clone, Copy, PartialEq, Eq)]
pub struct WriteFault;

/// Writes all the bytes.
pub fn write_all<K: Sink>(sink: &mut K, bytes: &[u8]) -> Result<(), WriteFault>
    ensures all { OnOk result (Appends (K.held sink.old) (K.held sink.new) bytes.now) }
    ensures room { OnOk result (RoomFalls (K.room sink.old) (K.room sink.new) (length bytes.now)) }

    // So the fault does not come where there is nothing to write.
    ensures part { OnErr result ((gained : List ℕ) × IsCutShort gained bytes.now
        × Appends (K.held sink.old) (K.held sink.new) gained) }
    ensures taken { OnErr result (HasRoom (K.room sink.old) (length bytes.now) → ⊥) }
    ensures cause { HasCause (K.faults sink.old) (K.faults sink.new) result }

    // Each write but a failed one takes at least one byte.
    ensures calls { CountsAtMost (K.calls sink.old) (K.calls sink.new) (length bytes.now) }
    ensures calls_gained { MatchResult result
        (λ _. CountsGained (K.held sink.old) (K.held sink.new) (K.calls sink.old) (K.calls sink.new) 0)
        (λ _. CountsGained (K.held sink.old) (K.held sink.new) (K.calls sink.old) (K.calls sink.new) 1) }
{
    let mut done = 0;
    while done < bytes.len() {
        match sink.write(&bytes[done..]) {
            Ok(count) => done += count,
            Err(_) => return Err(WriteFault),
        }
    }
    Ok(())
}
