// The page.
ghost use Rattle.std.specs.Prelude.{◌≡◌, ◌<◌, [], length, OnOk};
ghost use Rattle.sj_page.specs.Pages.{max_page, empty_page, print_state, nothing, one_row, error_print, Prints};

use crate::stop::Stop;
use crate::writes::write_all;
use sj_base::{Bytes, State};
use sj_outside::Sink;
use sj_rows::error_text;
use std::alloc::Global;

/// A page of so many bytes is written.
const MAX_PAGE: usize = 65_536;

/// How many rows and how many error rows were printed. The numbers stay at 2^64 - 1.
#[derive(Clone, Copy, Debug, PartialEq, Eq)]
pub struct Counts {
    pub rows: u64,
    pub errors: u64,
}

/// The texts of rows that are not written yet, and how many rows and error rows were printed.
///
/// Whoever finds a row appends its text to `text`, so that it is copied from nowhere, and then calls [`Page::row_came`]. A
/// page of 65,536 bytes or more is written at once there, so it holds fewer between two rows. After a call that failed the
/// page is not used again.
#[derive(Drop)]
pub struct Page {
    /// The texts that are not written yet.
    pub text: Bytes,
    /// How many rows were printed. The number stays at 2^64 - 1.
    pub rows: u64,
    /// How many error rows were printed. The number stays at 2^64 - 1.
    pub errors: u64,
}

impl Page {
    /// An empty page. It takes no memory.
    pub fn new(alloc: Global) -> Page
        ensures { result ≡ empty_page }
    {
        Page {
            text: Bytes::new(alloc),
            rows: 0,
            errors: 0,
        }
    }

    /// How many rows and error rows were printed.
    pub fn counts(&self) -> Counts
        ensures rows { result.rows ≡ self.now.rows }
        ensures errors { result.errors ≡ self.now.errors }
    {
        Counts {
            rows: self.rows,
            errors: self.errors,
        }
    }

    /// Counts a row, whose text stands at the end of the page.
    ///
    /// # Errors
    /// Where a write fails. What was written is a front of what the page had.
    #[inline(always)]
    pub fn row_came<O: Sink>(&mut self, out: &mut O) -> Result<(), Stop>
        ensures prints { Prints one_row (print_state O.taken O.size O.faults out.old self.old) (print_state O.taken O.size O.faults out.new self.new) result }
        ensures short { OnOk result (length self.new.text < max_page) }
    {
        self.rows = self.rows.saturating_add(1);
        self.pass_on(out)
    }

    /// Prints an error row.
    ///
    /// # Errors
    /// Where memory runs out, and where a write fails. What was written is a front of what the page had and the row.
    pub fn error_row<O: Sink>(
        &mut self,
        out: &mut O,
        line: u64,
        statement: u32,
        state: State,
    ) -> Result<(), Stop>
        ensures prints { Prints (error_print line statement state) (print_state O.taken O.size O.faults out.old self.old) (print_state O.taken O.size O.faults out.new self.new) result }
        ensures short { OnOk result (length self.new.text < max_page) }
    {
        if error_text(&mut self.text, line, statement, state).is_err() {
            return Err(Stop::Memory);
        }
        self.errors = self.errors.saturating_add(1);
        self.pass_on(out)
    }

    /// Writes the page where it is long.
    fn pass_on<O: Sink>(&mut self, out: &mut O) -> Result<(), Stop>
        ensures prints { Prints nothing (print_state O.taken O.size O.faults out.old self.old) (print_state O.taken O.size O.faults out.new self.new) result }
        ensures short { OnOk result (length self.new.text < max_page) }
    {
        if self.text.len() < MAX_PAGE {
            return Ok(());
        }
        self.write(out)
    }

    /// Writes the page, which is then empty.
    ///
    /// # Errors
    /// Where a write fails. What was written is a front of what the page had.
    pub fn write<O: Sink>(&mut self, out: &mut O) -> Result<(), Stop>
        ensures prints { Prints nothing (print_state O.taken O.size O.faults out.old self.old) (print_state O.taken O.size O.faults out.new self.new) result }
        ensures empty { OnOk result (self.new.text ≡ []) }
    {
        if write_all(out, self.text.as_slice()).is_err() {
            return Err(Stop::Output);
        }
        self.text.truncate(0);
        Ok(())
    }
}
