// The recognizer: a text in pieces.
ghost use Rattle.std.specs.Prelude.{◌≡◌, ◌↔◌, ◌<◌, ◌≤◌, ℕ, List, [], ◌++◌, length, take, OnOk, MatchResult, IsTrue, is_some, ⊤};
ghost use Rattle.sj_json.specs.Spelling.{IsJson};
ghost use Rattle.sj_scan.specs.Beginnings.{BeginsText};
ghost use Rattle.sj_scan.specs.Opened.{opened_at_end};
ghost use Rattle.sj_scan.specs.Runs.{in_string};
ghost use Rattle.sj_scan.specs.Scanning.{StandsFor, step_of, steps, is_whole as whole, open_count};

use crate::mode::{Container, Mode, may_end};
use crate::run::run_len;
use crate::turn::{Stop, turn};
use crate::utf8;
use crate::utf8::{Utf8, is_between};
use sj_base::Memory;
use sj_json::MAX_LENGTH;
use std::alloc::Global;
use std::marker::Model;

/// Tells whether the bytes that it is given since [`Recognizer::start`], in any cut, are a JSON text (RFC 8259), within the
/// limits of length and depth. It keeps none of these bytes.
///
/// Example: after the pieces `[1` and `.5]` the bytes are JSON; after `01` nothing that follows makes them JSON
/// (`sj_document_tests::pieces::tells_the_byte_behind_which_no_text_follows`).
#[derive(Drop)]
pub struct Recognizer {
    mode: Mode,
    // The open containers, the innermost one last.
    containers: Vec<Container>,
    text: Utf8,
    // Bytes so far.
    taken: usize,
    // No JSON text within the limit of length begins with the bytes so far.
    failed: bool,
}

impl Model for Recognizer {
    ghost use Rattle.std.specs.Prelude.{Option};
    ghost use Rattle.sj_scan.specs.Scanning.{Reached};

    ghost Value = { Option Reached };

    ghost use Rattle.sj_scan.specs.Scans.{reached_of};

    ghost view = { reached_of };
}

impl Recognizer {
    /// A recognizer that was given no byte.
    pub fn new(alloc: Global) -> Recognizer
        ensures { StandsFor [] result }
    {
        Recognizer {
            mode: Mode::Value,
            containers: Vec::new(alloc),
            text: Utf8::Between,
            taken: 0,
            failed: false,
        }
    }

    /// Begins a text. The memory for open containers is kept.
    pub fn start(&mut self)
        ensures { StandsFor [] self.new }
    {
        self.mode = Mode::Value;
        self.containers.clear();
        self.text = Utf8::Between;
        self.taken = 0;
        self.failed = false;
    }

    /// Takes the next bytes of the text.
    ///
    /// # Errors
    /// [`Memory`] where memory runs out. What was taken is lost then: `start` begins a text anew.
    pub fn piece(&mut self, bytes: &[u8]) -> Result<(), Memory>
        ensures { (h : List ℕ) → StandsFor h self.old → OnOk result (StandsFor (h ++ bytes.now) self.new) }
    {
        let mut at = 0;
        while at < bytes.len() {
            at += self.advance(&bytes[at..])?;
        }
        Ok(())
    }

    /// Whether the bytes since `start` are a JSON text.
    pub fn finish(&self) -> bool
        ensures { (h : List ℕ) → StandsFor h self.now → (IsTrue result ↔ IsJson h) }
    {
        self.is_whole()
    }

    /// Whether a JSON text begins with the bytes since `start`: they are not too long already, and some bytes that follow make
    /// them one.
    pub fn begins(&self) -> bool
        ensures { (h : List ℕ) → StandsFor h self.now → (IsTrue result ↔ BeginsText h) }
    {
        self.is_live()
    }

    /// How many containers are open, and 0 if no JSON text begins with the bytes since `start`.
    pub fn held(&self) -> usize
        ensures opened { (h : List ℕ) → StandsFor h self.now → BeginsText h → result ≡ opened_at_end h }
        ensures nothing { (h : List ℕ) → StandsFor h self.now → (BeginsText h → ⊥) → result ≡ 0 }
    {
        self.open_containers()
    }

    fn open_containers(&self) -> usize
        ensures { result ≡ open_count self.now }
    {
        if self.failed {
            0
        } else {
            self.containers.len()
        }
    }

    // Takes a run of a string, or one byte. How many bytes were taken.
    fn advance(&mut self, bytes: &[u8]) -> Result<usize, Memory>
        requires { 0 < length bytes.now }
        ensures { MatchResult result (λ n. (self.new ≡ steps self.old (take n bytes.now)) × (0 < n) × (n ≤ length bytes.now)) (λ _. ⊤) }
    {
        let run = self.skim(bytes);
        if run > 0 {
            return Ok(run);
        }
        self.take(bytes[0])?;
        Ok(1)
    }

    // Passes over the run of a string at the front, if it stands in a string.
    fn skim(&mut self, bytes: &[u8]) -> usize
        ensures taken { self.new ≡ steps self.old (take result bytes.now) }
        ensures bound { result ≤ length bytes.now }
    {
        if !self.is_in_string() {
            return 0;
        }
        let run = run_len(bytes);
        if self.taken > MAX_LENGTH || run > MAX_LENGTH - self.taken {
            return 0;
        }
        self.taken += run;
        run
    }

    fn is_in_string(&self) -> bool
        ensures { result ≡ in_string self.now }
    {
        match self.mode {
            Mode::Quoted(_) => !self.failed && is_between(self.text),
            _ => false,
        }
    }

    fn is_live(&self) -> bool
        ensures { result ≡ is_some self.now }
    {
        !self.failed
    }

    fn is_whole(&self) -> bool
        ensures { result ≡ whole self.now }
    {
        !self.failed && may_end(self.mode) && self.containers.is_empty() && is_between(self.text)
    }

    fn take(&mut self, byte: u8) -> Result<(), Memory>
        ensures { OnOk result (self.new ≡ step_of self.old byte) }
    {
        if self.failed {
            return Ok(());
        }
        if self.taken >= MAX_LENGTH {
            self.failed = true;
            return Ok(());
        }
        match utf8::step(self.text, byte) {
            None => self.failed = true,
            Some(text) => match turn(self.mode, &mut self.containers, byte) {
                Ok(mode) => {
                    self.mode = mode;
                    self.text = text;
                    self.taken += 1;
                }
                Err(Stop::NotJson) => self.failed = true,
                Err(Stop::Memory) => return Err(Memory),
            },
        }
        Ok(())
    }
}
