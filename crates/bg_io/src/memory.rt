ghost use Rattle.std.specs.Prelude.{◌≡◌, ◌<◌, ◌+◌, ◌↔◌, ℕ, List, [], ◌++◌, min, length, take, Ok, IfOk, IsErr};
ghost use Rattle.std.specs.Prelude.{IsOk, None, OnErr, Some};
ghost use Rattle.std.specs.Io.{ReadsAtMost};
ghost use Rattle.std.specs.Io.KnownBytes.{ReadConsumes, WriteAppends};
ghost use Rattle.bg_io.specs.Ends.{HasCause, HasRoom, RoomFalls, TakesSome};
ghost use Rattle.bg_io.specs.Memory.{Filling};

use crate::ends::{Failed, Sink, Source};
use std::alloc::{AllocError, Global};
use std::marker::Model;

/// Want of memory.
pub type NoMemory = AllocError;

/// Bytes in memory, of which no read fails. Contracts see the bytes still to come.
#[derive(Debug, Drop)]
pub struct SteadySource {
    bytes: Vec<u8>,
    given: usize,
}

impl Model for SteadySource {
    ghost use Rattle.std.specs.Prelude.{◌≤◌, List, ℕ, drop, length};

    ghost Value = { List ℕ };

    ghost view = { λ s. drop s.given s.bytes.items };

    ghost invariant = { λ s. s.given ≤ length s.bytes.items };
}

impl SteadySource {
    pub fn new(bytes: Vec<u8>) -> SteadySource
        ensures { result ≡ bytes.items }
    {
        SteadySource { bytes, given: 0 }
    }

    // As many of the next bytes as there are and the piece has place for.
    pub(crate) fn give(&mut self, piece: &mut [u8]) -> usize
        ensures count { result ≡ min (length piece.new) (length self.old) }
        ensures bytes { self.old ≡ take result piece.new ++ self.new }
    {
        let rest = &self.bytes.as_slice()[self.given..];
        let count = piece.len().min(rest.len());
        piece[..count].copy_from_slice(&rest[..count]);
        self.given += count;
        count
    }
}

impl Source for SteadySource {
    ghost left = { λ s. Some s };

    ghost faults = { λ _. 0 };

    ghost calls = { λ _. None };

    fn read(&mut self, piece: &mut [u8]) -> Result<usize, Failed>
        ensures bound { ReadsAtMost result piece.new }
        ensures bytes { ReadConsumes (Some self.old) (Some self.new) result piece.new }
        ensures cause { HasCause 0 0 result }
        ensures empty { piece.old ≡ [] → (result ≡ Ok 0) × (self.new ≡ self.old) }
        ensures steady { IsOk result }
        ensures count { IfOk result (λ n. n ≡ min (length piece.new) (length self.old)) }
    {
        Ok(self.give(piece))
    }
}

/// A sink in memory that takes a fixed number of bytes, for which its memory is taken at once.
#[derive(Debug, Drop)]
pub struct FixedSink {
    held: Vec<u8>,
    room: usize,
    faults: u64,
}

impl Model for FixedSink {
    ghost use Rattle.std.specs.Prelude.{◌≤◌, ◌+◌, length};
    ghost use Rattle.std.specs.Vec.{vec_capacity};
    ghost use Rattle.bg_io.specs.Memory.{Filling};

    ghost Value = { Filling };

    ghost view = { λ s. record { held = s.held.items; room = s.room; faults = s.faults } };

    ghost invariant = { λ s. length s.held.items + s.room ≤ vec_capacity s.held };
}

impl FixedSink {
    pub fn new(alloc: Global, room: usize) -> Result<FixedSink, NoMemory>
        ensures { IfOk result (λ s. s ≡ record { held = []; room = room; faults = 0 }) }
    {
        Ok(FixedSink {
            held: Vec::with_capacity(alloc, room)?,
            room,
            faults: 0,
        })
    }

    pub fn held(&self) -> &[u8]
        ensures { result.now ≡ self.now.held }
    {
        self.held.as_slice()
    }
}

impl Sink for FixedSink {
    ghost held = { λ s. Some s.held };

    ghost room = { λ s. Some s.room };

    ghost faults = { λ s. s.faults };

    ghost calls = { λ _. None };

    fn write(&mut self, piece: &[u8]) -> Result<usize, Failed>
        ensures bound { TakesSome result piece.now }
        ensures bytes { WriteAppends (Some self.old.held) (Some self.new.held) result piece.now }
        ensures room { IfOk result (RoomFalls (Some self.old.room) (Some self.new.room)) }
        ensures taken { OnErr result (0 < length piece.now → HasRoom (Some self.old.room) 1 → ⊥) }
        ensures cause { HasCause self.old.faults self.new.faults result }
        ensures empty { piece.now ≡ [] → (result ≡ Ok 0) × (self.new ≡ self.old) }
        ensures fails { IsErr result ↔ ((0 < length piece.now) × (self.old.room ≡ 0)) }
        ensures count { IfOk result (λ n. n ≡ min (length piece.now) self.old.room) }
    {
        if piece.is_empty() {
            return Ok(0);
        }
        if self.room == 0 {
            self.faults = self.faults.saturating_add(1);
            return Err(Failed);
        }
        let count = piece.len().min(self.room);
        match self.held.extend_from_slice(&piece[..count]) {
            Ok(()) => {
                self.room -= count;
                Ok(count)
            }
            Err(_) => unreachable!(),
        }
    }
}
