// The source of generated lines.
ghost use Rattle.std.specs.Prelude.{◌≡◌, ◌<◌, ◌≤◌, ◌++◌, [], length, take, drop, min, Option, Some, IfOk, Ok};
ghost use Rattle.std.specs.Io.KnownBytes.{ReadConsumes};
ghost use Rattle.sj_outside.specs.Outside.{HasCause};
ghost use Rattle.sj_generated.specs.Lines.{most_lines, generated};

use crate::line::{ROOM, line};
use arrayvec::ArrayString;
use sj_outside::{Failed, Source};
use std::marker::Model;

/// A source of generated lines. It makes a line when its first byte is asked for, holds that line alone, and never
/// fails.
///
/// Contracts see it as the bytes that are left.
#[derive(Drop)]
pub struct GeneratedSource {
    /// The line that is being given, and how many of its bytes were.
    line: ArrayString<ROOM>,
    given: usize,
    /// The number of the next line, and how many lines are not begun.
    next: u32,
    left: u32,
}

impl Model for GeneratedSource {
    ghost use Rattle.std.specs.Prelude.{ℕ, List, ◌+◌, ◌≤◌, ◌++◌, drop};
    ghost use Rattle.arrayvec.specs.ArrayString.{array_string_len};
    ghost use Rattle.sj_generated.specs.Lines.{lines_from};

    ghost Value = { List ℕ };

    ghost view = { λ s. drop s.given s.line.bytes ++ lines_from s.next s.left };

    ghost invariant = { λ s. (s.given ≤ array_string_len s.line) × (s.next + s.left ≤ 1000000) };
}

impl GeneratedSource {
    /// Gives the lines from 1 to `number`.
    pub fn new(number: u32) -> GeneratedSource
        requires { number ≤ most_lines }
        ensures { result ≡ generated number }
    {
        GeneratedSource {
            line: ArrayString::new(),
            given: 0,
            next: 1,
            left: number,
        }
    }

    /// Moves bytes of one line into the front of `buf`, and says how many. They are none at the end alone.
    fn give(&mut self, buf: &mut [u8]) -> usize
        requires { 0 < length buf.old }
        ensures within { result ≤ length buf.old }
        ensures bytes { self.old ≡ take result buf.new ++ self.new }
        ensures end { result ≡ 0 → self.old ≡ [] }
    {
        if self.given == self.line.len() && self.left > 0 {
            self.line = line(self.next);
            self.given = 0;
            self.next += 1;
            self.left -= 1;
        }
        let n = copy_front(&self.line.as_str().as_bytes()[self.given..], buf);
        self.given += n;
        n
    }
}

impl Source for GeneratedSource {
    ghost left = { λ s. Some s };

    ghost faults = { λ s. 0 };

    fn read(&mut self, buf: &mut [u8]) -> Result<usize, Failed>
        requires { 0 < length buf.old }
        ensures bound { IfOk result (λ n. n ≤ length buf.old) }
        ensures bytes { ReadConsumes (Some self.old) (Some self.new) result buf.new }
        ensures cause { HasCause 0 0 result }
        ensures value { result ≡ Ok (min (length buf.old) (length self.old)) }
        ensures after { self.new ≡ drop (min (length buf.old) (length self.old)) self.old }
    {
        let mut filled = 0;
        while filled < buf.len() {
            let n = self.give(&mut buf[filled..]);
            if n == 0 {
                break;
            }
            filled += n;
        }
        Ok(filled)
    }
}

/// Moves the first bytes of `from` into the front of `buf`, and says how many.
fn copy_front(from: &[u8], buf: &mut [u8]) -> usize
    ensures count { result ≡ min (length from.now) (length buf.old) }
    ensures bytes { take result buf.new ≡ take result from.now }
{
    let n = from.len().min(buf.len());
    buf[..n].copy_from_slice(&from[..n]);
    n
}
