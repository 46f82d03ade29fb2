ghost use Rattle.std.specs.Prelude.{◌≡◌, ◌<◌, ◌≤◌, ◌↔◌, [], min, length, Ok, IfOk, IsErr, IsTrue, OnErr, Some};
ghost use Rattle.std.specs.Prelude.{None, is_err, Contains};
ghost use Rattle.std.specs.Io.{ReadsAtMost};
ghost use Rattle.std.specs.Io.KnownBytes.{ReadConsumes, WriteAppends};
ghost use Rattle.bg_io.specs.Ends.{CountsAtMost, HasCause, HasRoom, RoomFalls, TakesSome, one_more};
ghost use Rattle.bg_io.specs.Memory.{FailsNext, after_call, new_plan};

use crate::ends::{Failed, Sink, Source};
use crate::memory::SteadySource;
use std::alloc::Global;
use std::marker::Model;

#[derive(Debug, Drop)]
struct FailurePlan {
    piece: usize,
    failing: Vec<u32>,
    calls: u64,
    faults: u64,
}

impl Model for FailurePlan {
    ghost use Rattle.std.specs.Prelude.{◌<◌};
    ghost use Rattle.bg_io.specs.Memory.{Plan};

    ghost Value = { Plan };

    ghost view = { λ p. record { piece = p.piece; failing = p.failing.items; calls = p.calls; faults = p.faults } };

    ghost invariant = { λ p. 0 < p.piece };
}

impl FailurePlan {
    fn new(piece: usize, failing: Vec<u32>) -> FailurePlan
        requires { 0 < piece }
        ensures { result ≡ new_plan piece failing.items }
    {
        FailurePlan {
            piece,
            failing,
            calls: 0,
            faults: 0,
        }
    }

    fn piece(&self) -> usize
        ensures value { result ≡ self.now.piece }
        ensures some { 0 < result }
    {
        self.piece
    }

    // Counts the call, and its failure.
    fn fails(&mut self) -> bool
        ensures next { IsTrue result ↔ FailsNext self.old }
        ensures after { self.new ≡ after_call self.old result }
        ensures later { self.old.faults ≤ self.new.faults }
        ensures counted { CountsAtMost (Some self.old.calls) (Some self.new.calls) 1 }
    {
        self.calls = self.calls.saturating_add(1);
        let fails = has_number(self.failing.as_slice(), self.calls);
        if fails {
            self.faults = self.faults.saturating_add(1);
        }
        fails
    }

    fn fail(&mut self)
        ensures after { self.new ≡ record self.old { faults = one_more self.old.faults } }
        ensures later { self.old.faults ≤ self.new.faults }
    {
        self.faults = self.faults.saturating_add(1);
    }
}

fn has_number(numbers: &[u32], number: u64) -> bool
    ensures { IsTrue result ↔ Contains numbers.now number }
{
    for candidate in numbers {
        if u64::from(*candidate) == number {
            return true;
        }
    }
    false
}

/// Bytes in memory that come in pieces, with the numbers of the reads that fail. Reads are counted from 1, those into
/// an empty piece left out.
#[derive(Debug, Drop)]
pub struct MemorySource {
    bytes: SteadySource,
    plan: FailurePlan,
}

impl Model for MemorySource {
    ghost use Rattle.bg_io.specs.Memory.{Reading};

    ghost Value = { Reading };

    ghost view = { λ s. record { left = s.bytes; plan = s.plan } };
}

impl MemorySource {
    pub fn new(bytes: Vec<u8>, piece: usize, failing: Vec<u32>) -> MemorySource
        requires { 0 < piece }
        ensures { result ≡ record { left = bytes.items; plan = new_plan piece failing.items } }
    {
        MemorySource {
            bytes: SteadySource::new(bytes),
            plan: FailurePlan::new(piece, failing),
        }
    }
}

impl Source for MemorySource {
    ghost left = { λ s. Some s.left };

    ghost faults = { λ s. s.plan.faults };

    ghost calls = { λ s. Some s.plan.calls };

    fn read(&mut self, piece: &mut [u8]) -> Result<usize, Failed>
        ensures bound { ReadsAtMost result piece.new }
        ensures bytes { ReadConsumes (Some self.old.left) (Some self.new.left) result piece.new }
        ensures cause { HasCause self.old.plan.faults self.new.plan.faults result }
        ensures calls { CountsAtMost (Some self.old.plan.calls) (Some self.new.plan.calls) 1 }
        ensures empty { piece.old ≡ [] → (result ≡ Ok 0) × (self.new ≡ self.old) }
        ensures fails { IsErr result ↔ ((0 < length piece.new) × FailsNext self.old.plan) }
        ensures count { IfOk result (λ n. n ≡ min (min (length piece.new) self.old.plan.piece) (length self.old.left)) }
        ensures plan { 0 < length piece.new → self.new.plan ≡ after_call self.old.plan (is_err result) }
    {
        if piece.is_empty() {
            return Ok(0);
        }
        if self.plan.fails() {
            return Err(Failed);
        }
        let most = piece.len().min(self.plan.piece());
        Ok(self.bytes.give(&mut piece[..most]))
    }
}

/// A sink in memory that takes its bytes in pieces, with the numbers of the writes that fail. Writes are counted from
/// 1, those of an empty piece left out. A write for which there is no memory fails too.
#[derive(Debug, Drop)]
pub struct MemorySink {
    held: Vec<u8>,
    plan: FailurePlan,
}

impl Model for MemorySink {
    ghost use Rattle.bg_io.specs.Memory.{Holding};

    ghost Value = { Holding };

    ghost view = { λ s. record { held = s.held.items; plan = s.plan } };
}

impl MemorySink {
    pub fn new(alloc: Global, piece: usize, failing: Vec<u32>) -> MemorySink
        requires { 0 < piece }
        ensures { result ≡ record { held = []; plan = new_plan piece failing.items } }
    {
        MemorySink {
            held: Vec::new(alloc),
            plan: FailurePlan::new(piece, failing),
        }
    }

    pub fn held(&self) -> &[u8]
        ensures { result.now ≡ self.now.held }
    {
        self.held.as_slice()
    }
}

impl Sink for MemorySink {
    ghost held = { λ s. Some s.held };

    ghost room = { λ _. None };

    ghost faults = { λ s. s.plan.faults };

    ghost calls = { λ s. Some s.plan.calls };

    fn write(&mut self, piece: &[u8]) -> Result<usize, Failed>
        ensures bound { TakesSome result piece.now }
        ensures bytes { WriteAppends (Some self.old.held) (Some self.new.held) result piece.now }
        ensures cause { HasCause self.old.plan.faults self.new.plan.faults result }
        ensures calls { CountsAtMost (Some self.old.plan.calls) (Some self.new.plan.calls) 1 }
        ensures empty { piece.now ≡ [] → (result ≡ Ok 0) × (self.new ≡ self.old) }

        // Want of memory may stand in the place of Ok.
        ensures fails { 0 < length piece.now → FailsNext self.old.plan → IsErr result }
        ensures count { IfOk result (λ n. n ≡ min (length piece.now) self.old.plan.piece) }
        ensures plan { 0 < length piece.now → self.new.plan ≡ after_call self.old.plan (is_err result) }
    {
        if piece.is_empty() {
            return Ok(0);
        }
        if self.plan.fails() {
            return Err(Failed);
        }
        let count = piece.len().min(self.plan.piece());
        match self.held.extend_from_slice(&piece[..count]) {
            Ok(()) => Ok(count),
            Err(_) => {
                self.plan.fail();
                Err(Failed)
            }
        }
    }
}
