// Sources over bytes in memory.
ghost use Rattle.std.specs.Prelude.{◌≡◌, ◌<◌, ◌≤◌, ◌↔◌, ℕ, List, IsTrue, length, min, drop, Option, Some, IfOk, IsErr, MatchResult, Ok};
ghost use Rattle.std.specs.Io.KnownBytes.{ReadConsumes};
ghost use Rattle.sj_outside.specs.Outside.{HasCause};
ghost use Rattle.sj_outside.specs.InMemory.{is_listed, most_given, source_over, source_gave, source_failed};

use crate::copies::{copy_from, cut_to, fault};
use crate::{Failed, Source};
use std::marker::Model;

/// A source over bytes in memory, which fails at the calls that a list names and at no other,
/// and whose calls can be cut short. It is for tests and for hosts.
#[derive(Drop)]
pub struct MemSource {
    bytes: Vec<u8>,
    at: usize,
    cuts: Vec<usize>,
    fails: Vec<u64>,
    calls: u64,
    faults: u64,
}

impl Model for MemSource {
    ghost use Rattle.std.specs.Prelude.{◌≤◌, drop, vec_len};
    ghost use Rattle.sj_outside.specs.InMemory.{SourceState};

    ghost Value = { SourceState };

    ghost view = { λ s. record { left = drop s.at s.bytes.items; cuts = s.cuts.items; fails = s.fails.items; calls = s.calls; faults = s.faults } };

    ghost invariant = { λ s. s.at ≤ vec_len s.bytes };
}

impl MemSource {
    /// Gives `bytes`. The calls whose numbers are in `fails`, counted from 0, fail. Call number k gives no more
    /// than `cuts[k]` bytes, where there is such an entry and it is not 0.
    pub fn new(bytes: Vec<u8>, cuts: Vec<usize>, fails: Vec<u64>) -> MemSource
        ensures { result ≡ source_over bytes.items cuts.items fails.items }
    {
        MemSource {
            bytes,
            at: 0,
            cuts,
            fails,
            calls: 0,
            faults: 0,
        }
    }

    /// How often it was called. The number stays at 2^64 - 1.
    pub fn calls(&self) -> u64
        ensures { result ≡ self.now.calls }
    {
        self.calls
    }
}

impl Source for MemSource {
    ghost left = { λ s. Some s.left };

    ghost faults = { λ s. s.faults };

    fn read(&mut self, buf: &mut [u8]) -> Result<usize, Failed>
        requires { 0 < length buf.old }
        ensures bound { IfOk result (λ n. n ≤ length buf.old) }
        ensures bytes { ReadConsumes (Some self.old.left) (Some self.new.left) result buf.new }
        ensures cause { HasCause self.old.faults self.new.faults result }
        ensures fails { IsErr result ↔ IsTrue (is_listed self.old.fails self.old.calls) }
        ensures amount { IfOk result (λ n. n ≡ min (most_given self.old.cuts self.old.calls (length buf.old)) (length self.old.left)) }
        ensures after { MatchResult result (λ n. self.new ≡ source_gave self.old n) (λ _. self.new ≡ source_failed self.old) }
    {
        let call = self.calls;
        self.calls = call.saturating_add(1);
        if self.fails.contains(&call) {
            return Err(fault(&mut self.faults));
        }
        let room = cut_to(&self.cuts, call, buf.len());
        let n = copy_from(&self.bytes, self.at, buf, room);
        self.at += n;
        Ok(n)
    }
}

/// A source over bytes in memory that never fails. It is for tests and for hosts: the program reads standard input.
#[derive(Drop)]
pub struct QuietSource {
    bytes: Vec<u8>,
    at: usize,
}

impl Model for QuietSource {
    ghost use Rattle.std.specs.Prelude.{ℕ, List, ◌≤◌, drop, vec_len};

    ghost Value = { List ℕ };

    ghost view = { λ s. drop s.at s.bytes.items };

    ghost invariant = { λ s. s.at ≤ vec_len s.bytes };
}

impl QuietSource {
    /// Gives `bytes`.
    pub fn new(bytes: Vec<u8>) -> QuietSource
        ensures { result ≡ bytes.items }
    {
        QuietSource { bytes, at: 0 }
    }
}

impl Source for QuietSource {
    ghost left = { λ s. Some s };

    ghost faults = { λ s. 0 };

    fn read(&mut self, buf: &mut [u8]) -> Result<usize, Failed>
        requires { 0 < length buf.old }
        ensures bound { IfOk result (λ n. n ≤ length buf.old) }
        ensures bytes { ReadConsumes (Some self.old) (Some self.new) result buf.new }
        ensures cause { HasCause 0 0 result }
        ensures value { result ≡ Ok (min (length buf.old) (length self.old)) }
        ensures after { self.new ≡ drop (min (length buf.old) (length self.old)) self.old }
    {
        let n = copy_from(&self.bytes, self.at, buf, buf.len());
        self.at += n;
        Ok(n)
    }
}
