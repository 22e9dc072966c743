// Shelves of one file in memory.
ghost use Rattle.std.specs.Prelude.{◌≡◌, ◌≢◌, ◌<◌, ◌≤◌, ◌⊎◌, ◌↔◌, IsTrue, true, false, [], length, min, drop, Option, Some, IfOk, OnOk, OnErr, IsOk, IsErr, MatchResult, Ok};
ghost use Rattle.std.specs.Io.KnownBytes.{ReadConsumes};
ghost use Rattle.std.proofs.Common.{rules};
ghost use Rattle.sj_base.specs.Count.{raised};
ghost use Rattle.sj_outside.specs.Outside.{HasCause, HasFile, Opens, one_file};
ghost use Rattle.sj_outside.specs.InMemory.{is_listed, shelf_of, shelf_left, shelf_failed, quiet_shelf_of};

use crate::copies::{copy_from, fault};
use crate::{Failed, Shelf};
use sj_base::Text;
use std::marker::Model;

/// A shelf of one file in memory. It fails at the calls that a list names and at names that are not its file's, and at
/// no other. Calls of both kinds are counted together. It is for tests and for hosts.
#[derive(Drop)]
pub struct MemShelf {
    name: Text,
    bytes: Vec<u8>,
    // where no file is chosen, the end of the bytes
    at: usize,
    fails: Vec<u64>,
    calls: u64,
    faults: u64,
}

impl Model for MemShelf {
    ghost use Rattle.std.specs.Prelude.{◌≤◌, drop, vec_len};
    ghost use Rattle.sj_outside.specs.InMemory.{ShelfState};

    ghost Value = { ShelfState };

    ghost view = { λ s. record { name = s.name; bytes = s.bytes.items; left = drop s.at s.bytes.items; fails = s.fails.items; calls = s.calls; faults = s.faults } };

    ghost invariant = { λ s. s.at ≤ vec_len s.bytes };
}

impl MemShelf {
    /// A shelf with the file `name`, which holds `bytes`. The calls whose numbers are in `fails`, counted from 0, fail.
    pub fn new(name: Text, bytes: Vec<u8>, fails: Vec<u64>) -> MemShelf
        ensures { result ≡ shelf_of name bytes.items fails.items }
    {
        let at = bytes.len();
        MemShelf {
            name,
            bytes,
            at,
            fails,
            calls: 0,
            faults: 0,
        }
    }
}

impl Shelf for MemShelf {
    ghost files = { λ s. Some (one_file s.name s.bytes) };

    ghost left = { λ s. Some s.left };

    ghost faults = { λ s. s.faults };

    ghost quiet = { λ s. false };

    ghost tells = { λ s is. Prim.cc };

    fn pick(&mut self, name: &str) -> Result<(), Failed>
        ensures opened { OnOk result (Opens (Some (one_file self.old.name self.old.bytes)) name.now (Some self.new.left)) }
        ensures closed { OnErr result (Some self.new.left ≡ Some []) }
        ensures same_files { Some (one_file self.new.name self.new.bytes) ≡ Some (one_file self.old.name self.old.bytes) }
        ensures cause { HasCause self.old.faults self.new.faults result }
        ensures fails { IsErr result ↔ (IsTrue (is_listed self.old.fails self.old.calls) ⊎ (name.now ≢ self.old.name)) }
        ensures after { MatchResult result (λ _. self.new ≡ shelf_left self.old self.old.bytes) (λ _. self.new ≡ shelf_failed self.old []) }
    {
        let call = self.calls;
        self.calls = call.saturating_add(1);
        self.at = self.bytes.len();
        if self.fails.contains(&call) {
            return Err(fault(&mut self.faults));
        }
        if self.name.as_str() != name {
            return Err(fault(&mut self.faults));
        }
        self.at = 0;
        Ok(())
    }

    fn read(&mut self, buf: &mut [u8]) -> Result<usize, Failed>
        requires { 0 < length buf.old }
        ensures bound { IfOk result (λ n. n ≤ length buf.old) }
        ensures bytes { ReadConsumes (Some self.old.left) (Some self.new.left) result buf.new }
        ensures same_files { Some (one_file self.new.name self.new.bytes) ≡ Some (one_file self.old.name self.old.bytes) }
        ensures cause { HasCause self.old.faults self.new.faults result }
        ensures fails { IsErr result ↔ IsTrue (is_listed self.old.fails self.old.calls) }
        ensures amount { IfOk result (λ n. n ≡ min (length buf.old) (length self.old.left)) }
        ensures after { MatchResult result (λ n. self.new ≡ shelf_left self.old (drop n self.old.left)) (λ _. self.new ≡ shelf_failed self.old self.old.left) }
    {
        let call = self.calls;
        self.calls = call.saturating_add(1);
        if self.fails.contains(&call) {
            return Err(fault(&mut self.faults));
        }
        let n = copy_from(&self.bytes, self.at, buf, buf.len());
        self.at += n;
        Ok(n)
    }
}

/// A shelf of one file in memory that fails at names that are not its file's, and at nothing else. It is for tests and
/// for hosts: the program opens real files.
#[derive(Drop)]
pub struct QuietShelf {
    name: Text,
    bytes: Vec<u8>,
    // where no file is chosen, the end of the bytes
    at: usize,
    faults: u64,
}

impl Model for QuietShelf {
    ghost use Rattle.std.specs.Prelude.{◌≤◌, drop, vec_len};
    ghost use Rattle.sj_outside.specs.InMemory.{QuietShelfState};

    ghost Value = { QuietShelfState };

    ghost view = { λ s. record { name = s.name; bytes = s.bytes.items; left = drop s.at s.bytes.items; faults = s.faults } };

    ghost invariant = { λ s. s.at ≤ vec_len s.bytes };
}

impl QuietShelf {
    /// A shelf with the file `name`, which holds `bytes`.
    pub fn new(name: Text, bytes: Vec<u8>) -> QuietShelf
        ensures { result ≡ quiet_shelf_of name bytes.items }
    {
        let at = bytes.len();
        QuietShelf {
            name,
            bytes,
            at,
            faults: 0,
        }
    }
}

impl Shelf for QuietShelf {
    ghost files = { λ s. Some (one_file s.name s.bytes) };

    ghost left = { λ s. Some s.left };

    ghost faults = { λ s. s.faults };

    ghost quiet = { λ s. true };

    ghost tells = { λ s is. Prim.search rules };

    fn pick(&mut self, name: &str) -> Result<(), Failed>
        ensures opened { OnOk result (Opens (Some (one_file self.old.name self.old.bytes)) name.now (Some self.new.left)) }
        ensures closed { OnErr result (Some self.new.left ≡ Some []) }
        ensures quiet_picks { HasFile (Some (one_file self.old.name self.old.bytes)) name.now → IsOk result }
        ensures same_files { Some (one_file self.new.name self.new.bytes) ≡ Some (one_file self.old.name self.old.bytes) }
        ensures cause { HasCause self.old.faults self.new.faults result }
        ensures fails { IsErr result ↔ (name.now ≢ self.old.name) }
        ensures after { MatchResult result
            (λ _. self.new ≡ record self.old { left = self.old.bytes })
            (λ _. self.new ≡ record self.old { left = []; faults = raised self.old.faults 1 }) }
    {
        self.at = self.bytes.len();
        if self.name.as_str() != name {
            return Err(fault(&mut self.faults));
        }
        self.at = 0;
        Ok(())
    }

    fn read(&mut self, buf: &mut [u8]) -> Result<usize, Failed>
        requires { 0 < length buf.old }
        ensures bound { IfOk result (λ n. n ≤ length buf.old) }
        ensures bytes { ReadConsumes (Some self.old.left) (Some self.new.left) result buf.new }
        ensures same_files { Some (one_file self.new.name self.new.bytes) ≡ Some (one_file self.old.name self.old.bytes) }
        ensures cause { HasCause self.old.faults self.new.faults result }
        ensures value { result ≡ Ok (min (length buf.old) (length self.old.left)) }
        ensures after { self.new ≡ record self.old { left = drop (min (length buf.old) (length self.old.left)) self.old.left } }
    {
        let n = copy_from(&self.bytes, self.at, buf, buf.len());
        self.at += n;
        Ok(n)
    }
}
