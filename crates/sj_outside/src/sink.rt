// Sinks in memory.
ghost use Rattle.std.specs.Prelude.{◌≡◌, ◌<◌, ◌≤◌, ◌-◌, ◌++◌, ◌⊎◌, ◌↔◌, IsTrue, length, take, min, Option, Some, None, IfOk, IsErr, MatchResult, Ok};
ghost use Rattle.std.specs.Option.{option_map};
ghost use Rattle.std.proofs.Common.{ap};
ghost use Rattle.sj_base.specs.Count.{raised};
ghost use Rattle.sj_outside.specs.Outside.{HasCause, Writes};
ghost use Rattle.sj_outside.specs.InMemory.{is_listed, sink_of, sink_took, sink_failed};

use crate::copies::fault;
use crate::{Failed, Sink};
use sj_base::Memory;
use std::alloc::Global;
use std::marker::Model;

/// A sink of a fixed room in memory. It fails at the calls that a list names and where no room is left, and at no
/// other. It is for tests and for hosts.
#[derive(Drop)]
pub struct MemSink {
    bytes: Vec<u8>,
    room: usize,
    fails: Vec<u64>,
    calls: u64,
    faults: u64,
}

impl Model for MemSink {
    ghost use Rattle.std.specs.Prelude.{◌≤◌, vec_len, vec_capacity};
    ghost use Rattle.sj_outside.specs.InMemory.{SinkState};

    ghost Value = { SinkState };

    ghost view = { λ s. record { taken = s.bytes.items; room = s.room; fails = s.fails.items; calls = s.calls; faults = s.faults } };

    ghost invariant = { λ s. (vec_len s.bytes ≤ s.room) × (s.room ≤ vec_capacity s.bytes) };
}

impl MemSink {
    /// A sink for `room` bytes, whose memory is taken now. The calls whose numbers are in `fails`, counted from 0,
    /// fail.
    pub fn new(alloc: Global, room: usize, fails: Vec<u64>) -> Result<MemSink, Memory>
        ensures { IfOk result (λ s. s ≡ sink_of room fails.items) }
    {
        Ok(MemSink {
            bytes: Vec::with_capacity(alloc, room)?,
            room,
            fails,
            calls: 0,
            faults: 0,
        })
    }

    /// All bytes taken so far.
    pub fn bytes(&self) -> &[u8]
        ensures { result.now ≡ self.now.taken }
    {
        self.bytes.as_slice()
    }

    /// How often it has failed. The number stays at 2^64 - 1.
    pub fn faults(&self) -> u64
        ensures { result ≡ self.now.faults }
    {
        self.faults
    }
}

impl Sink for MemSink {
    ghost taken = { λ s. Some s.taken };

    ghost size = { λ s. Some (length s.taken) };

    ghost faults = { λ s. s.faults };

    ghost counts = { λ s bytes told. ap (option_map length) told };

    fn write(&mut self, piece: &[u8]) -> Result<usize, Failed>
        requires { 0 < length piece.now }
        ensures bytes { Writes (Some self.old.taken) (Some self.new.taken) (Some (length self.old.taken)) (Some (length self.new.taken)) result piece.now }
        ensures cause { HasCause self.old.faults self.new.faults result }
        ensures fails { IsErr result ↔ (IsTrue (is_listed self.old.fails self.old.calls) ⊎ (self.old.room ≤ length self.old.taken)) }
        ensures amount { IfOk result (λ n. n ≡ min (length piece.now) (self.old.room - length self.old.taken)) }
        ensures after { MatchResult result (λ n. self.new ≡ sink_took self.old (self.old.taken ++ take n piece.now)) (λ _. self.new ≡ sink_failed self.old) }
    {
        let call = self.calls;
        self.calls = call.saturating_add(1);
        if self.fails.contains(&call) {
            return Err(fault(&mut self.faults));
        }
        let free = self.room - self.bytes.len();
        if free == 0 {
            return Err(fault(&mut self.faults));
        }
        let n = piece.len().min(free);
        self.bytes.extend_from_slice(&piece[..n]).unwrap();
        Ok(n)
    }
}

/// A sink that counts the bytes it takes, and keeps none of them. It never fails. It is for tests and for hosts: the
/// program writes to standard output and standard error.
#[derive(Drop)]
pub struct CountSink {
    number: u64,
}

impl Model for CountSink {
    ghost use Rattle.std.specs.Prelude.{ℕ};

    ghost Value = { ℕ };

    ghost view = { λ s. s.number };
}

impl CountSink {
    /// Nothing taken so far.
    pub fn new() -> CountSink
        ensures { result ≡ 0 }
    {
        CountSink { number: 0 }
    }

    /// How many bytes it took. The number stays at 2^64 - 1.
    pub fn size(&self) -> u64
        ensures { result ≡ self.now }
    {
        self.number
    }
}

impl Sink for CountSink {
    ghost taken = { λ s. None };

    ghost size = { λ s. Some s };

    ghost faults = { λ s. 0 };

    ghost counts = { λ s bytes told. absurd (Prim.cc told) };

    fn write(&mut self, piece: &[u8]) -> Result<usize, Failed>
        requires { 0 < length piece.now }
        ensures bytes { Writes None None (Some self.old) (Some self.new) result piece.now }
        ensures cause { HasCause 0 0 result }
        ensures value { result ≡ Ok (length piece.now) }
        ensures after { self.new ≡ raised self.old (length piece.now) }
    {
        let n = piece.len();
        self.number = self.number.saturating_add(n as u64);
        Ok(n)
    }
}
