// The rows of a statement for a line.
ghost use Rattle.std.specs.Prelude.{◌≡◌, ◌≤◌, ◌++◌, length, All, IfOk, OnOk, OnErr, None, true};
ghost use Rattle.sj_value.specs.Values.{IsPrintable};
ghost use Rattle.sj_rows.specs.RowText.{Extends};
ghost use Rattle.sj_table.specs.Series.{done};
ghost use Rattle.sj_table.specs.Takes.{Spends};
ghost use Rattle.sj_bound.specs.Bound as b;
ghost use Rattle.sj_bound.specs.Sound.{IsSound};
ghost use Rattle.sj_bound.specs.View.{bound_of};
ghost use Rattle.sj_select_list.specs.Line.{line_of};
ghost use Rattle.sj_select.specs.Rows.{statement_rows, statement_cost};
ghost use Rattle.sj_select.specs.Seen.{Gives, next_text, next_values};
ghost use Rattle.sj_select.specs.Sources.{IsFor, IsReadySource, FindsNext, Prints, source_left, source_due, due_behind};
ghost use Rattle.sj_select.specs.Stages.{left_at, due_at, turn_for, stage_behind, EndsText};

use crate::source::{Found, RowSource, hand_out};
use sj_base::{Bytes, Memory, State, Steps};
use sj_bound::Bound;
use sj_rows::{RowHead, end_row};
use sj_select_list::LineDoc;
use sj_value::SqlValue;
use std::alloc::Global;
use std::marker::Model;
use std::mem;

/// One answer of [`RowsOf::print`] or [`RowsOf::next`].
#[derive(Clone, Copy, Debug, PartialEq, Eq)]
pub enum Turn {
    /// The text of a row was appended, or its values were given.
    Row,
    /// No row is left.
    End,
    /// No row is left, and this state is raised.
    Raised(State),
}

/// How far the rows have come.
#[derive(Clone, Copy)]
pub(crate) enum Stage {
    /// Rows may be left.
    Going,
    /// No row is left.
    Ended,
    /// No row is left, and this state is raised.
    Raised(State),
}

impl Turn {
    // What is answered where this was found.
    #[inline(always)]
    fn of(found: Found) -> Turn
        ensures { result ≡ turn_for found }
    {
        match found {
            Found::Row | Found::LastRow => Turn::Row,
            Found::End => Turn::End,
            Found::Raised(state) => Turn::Raised(state),
        }
    }
}

impl Stage {
    // How far the rows have come where this was found. There is no row behind the last one.
    #[inline(always)]
    fn behind(found: Found) -> Stage
        ensures { result ≡ stage_behind found }
    {
        match found {
            Found::Row => Stage::Going,
            Found::LastRow | Found::End => Stage::Ended,
            Found::Raised(state) => Stage::Raised(state),
        }
    }

    // Appends the fields of what comes next of the rows that have come so far. An end comes again, without a step.
    #[inline(always)]
    fn print<'d>(
        self,
        alloc: Global,
        source: &mut RowSource<'d>,
        line: LineDoc<'d>,
        out: &mut Bytes,
        steps: &mut Steps,
    ) -> Result<Found, Memory>
        requires { IsReadySource source.old }
        ensures prints { (s : b.Bound) → IsFor s source.old → IfOk result (λ found. Prints (left_at self (source_left s (line_of line.entry) source.old)) found out.old out.new (source_left s (line_of line.entry) source.new)) }
        ensures err { (s : b.Bound) → IsFor s source.old → OnErr result (Extends out.old out.new) }
        ensures costs { (s : b.Bound) → IsFor s source.old → Spends (due_at self (source_due s (line_of line.entry) source.old)) (due_behind result (source_due s (line_of line.entry) source.new)) steps.old steps.new }
        ensures is_for { (s : b.Bound) → IsFor s source.old → IsFor s source.new }
        ensures ready { IsReadySource source.new }
    {
        match self {
            Stage::Going => source.print(alloc, line, out, steps),
            Stage::Ended => Ok(Found::End),
            Stage::Raised(state) => Ok(Found::Raised(state)),
        }
    }
}

impl Stage {
    // Finds the values of what comes next of the rows that have come so far. An end comes again, without a step.
    fn find<'d>(
        self,
        alloc: Global,
        source: &mut RowSource<'d>,
        line: LineDoc<'d>,
        steps: &mut Steps,
    ) -> Result<Found, Memory>
        requires { IsReadySource source.old }
        ensures finds { (s : b.Bound) → IsFor s source.old → IfOk result (λ found. FindsNext (left_at self (source_left s (line_of line.entry) source.old)) found source.new.stack.values.items (source_left s (line_of line.entry) source.new)) }
        ensures costs { (s : b.Bound) → IsFor s source.old → Spends (due_at self (source_due s (line_of line.entry) source.old)) (due_behind result (source_due s (line_of line.entry) source.new)) steps.old steps.new }
        ensures is_for { (s : b.Bound) → IsFor s source.old → IsFor s source.new }
        ensures ready { IsReadySource source.new }
    {
        match self {
            Stage::Going => source.find(alloc, line, steps),
            Stage::Ended => Ok(Found::End),
            Stage::Raised(state) => Ok(Found::Raised(state)),
        }
    }
}

// Ends the text of a row. Where no row was found, takes back what stands behind the place where it would begin.
#[inline(always)]
fn end_text(out: &mut Bytes, start: usize, found: Found) -> Result<(), Memory>
    requires { start ≤ length out.old }
    ensures ends { OnOk result (EndsText found start out.old out.new) }
    ensures err { OnErr result (out.new ≡ out.old) }
{
    match found {
        Found::Row | Found::LastRow => end_row(out),
        Found::End | Found::Raised(_) => {
            out.truncate(start);
            Ok(())
        }
    }
}

// Behind the last row of a line, makes the head that of the next line. No further row of the line is asked for.
#[inline(always)]
fn advance_behind(head: &mut RowHead, found: Found) {
    if let Found::LastRow = found {
        head.advance();
    }
}

/// The rows of a statement, for one line after another (ISO/IEC 9075-2, query specification).
///
/// No list of rows is kept: one row is found at a time. The aggregates of a statement take one row of its table after another, and
/// keep the text of what they took.
///
/// Contracts see the statement, the line, the rows that are left, and the steps that may still be taken.
///
/// Its `drop` is written out, so that whoever holds one gives it up by one call, and not part by part at each place where the holder
/// may return early.
pub struct RowsOf<'d> {
    alloc: Global,
    bound: &'d Bound,
    line: LineDoc<'d>,
    source: RowSource<'d>,
    stage: Stage,
    head: RowHead,
}

impl<'d> Drop for RowsOf<'d> {
    fn drop(self) {
        let RowsOf {
            alloc: _alloc,
            bound: _bound,
            line: _line,
            source: _source,
            stage: _stage,
            head: _head,
        } = self;
    }
}

impl<'d> Model for RowsOf<'d> {
    ghost use Rattle.sj_select.specs.Seen.{Seen, seen_code};

    ghost Value = { Seen };

    ghost coded = { seen_code };

    ghost use Rattle.sj_bound.specs.View.{bound_of};
    ghost use Rattle.sj_select_list.specs.Line.{line_of};
    ghost use Rattle.sj_select.specs.Sources.{IsFor, IsReadySource, source_left, source_due};
    ghost use Rattle.sj_select.specs.Stages.{left_at, due_at};

    ghost view = { λ r. record { bound = r.bound.now; line = line_of r.line; left = left_at r.stage (source_left (bound_of r.bound.now) (line_of r.line) r.source); due = due_at r.stage (source_due (bound_of r.bound.now) (line_of r.line) r.source) } };

    ghost invariant = { λ r. IsReadySource r.source × IsFor (bound_of r.bound.now) r.source };
}

impl<'d> RowsOf<'d> {
    /// The rows of a statement for a line, from the first on. The cursors of its paths take their memory here.
    ///
    /// # Errors
    /// [`Memory`] where memory runs out.
    pub fn new(alloc: Global, bound: &'d Bound, line: LineDoc<'d>) -> Result<RowsOf<'d>, Memory>
        requires { IsSound (bound_of bound.now) }
        ensures bound { IfOk result (λ r. r.bound ≡ bound.now) }
        ensures line { IfOk result (λ r. r.line ≡ line_of line.entry) }
        ensures left { IfOk result (λ r. r.left ≡ statement_rows (bound_of bound.now) (line_of line.entry)) }
        ensures due { IfOk result (λ r. r.due ≡ statement_cost (bound_of bound.now) (line_of line.entry)) }
    {
        // The source is large, so it goes straight to its place, and through no call in between.
        match RowSource::new(alloc, bound) {
            Ok(mut source) => {
                source.rewind(line);
                Ok(RowsOf {
                    alloc,
                    bound,
                    line,
                    source,
                    stage: Stage::Going,
                    head: RowHead::new(),
                })
            }
            Err(memory) => Err(memory),
        }
    }

    /// The same for another line, wherever the rows stood. It takes no memory.
    #[inline(always)]
    pub fn rewind(&mut self, line: LineDoc<'d>)
        ensures bound { self.new.bound ≡ self.old.bound }
        ensures line { self.new.line ≡ line_of line.entry }
        ensures left { self.new.left ≡ statement_rows (bound_of self.old.bound) (line_of line.entry) }
        ensures due { self.new.due ≡ statement_cost (bound_of self.old.bound) (line_of line.entry) }
    {
        self.line = line;
        self.stage = Stage::Going;
        self.source.rewind(line);
    }

    /// Appends the text of the next row, which has this number of a line and of a statement, or tells the end. After an end the same end
    /// comes again, without a step. What is due never grows, and the counter rises by no more than it falls.
    ///
    /// # Errors
    /// [`Memory`] where memory runs out. `out` stays as it was, and what is said of the counter holds. The rows then stand anywhere, and are
    /// rewound before they are used again.
    #[inline(always)]
    pub fn print(
        &mut self,
        out: &mut Bytes,
        number: u64,
        statement: u32,
        steps: &mut Steps,
    ) -> Result<Turn, Memory>
        ensures gives { IfOk result (Gives self.old self.new) }
        ensures text { OnOk result (out.new ≡ out.old ++ next_text number statement self.old.left) }
        ensures err { OnErr result (out.new ≡ out.old) }
        ensures spends { Spends self.old.due self.new.due steps.old steps.new }
        ensures bound { self.new.bound ≡ self.old.bound }
        ensures line { self.new.line ≡ self.old.line }
    {
        let start = out.len();
        match self.print_behind(start, out, number, statement, steps) {
            Ok(turn) => Ok(turn),
            Err(memory) => {
                out.truncate(start);
                Err(memory)
            }
        }
    }

    // The same, behind the place. Where memory runs out, something may stand there.
    #[inline(always)]
    fn print_behind(
        &mut self,
        start: usize,
        out: &mut Bytes,
        number: u64,
        statement: u32,
        steps: &mut Steps,
    ) -> Result<Turn, Memory>
        requires { start ≡ length out.old }
        ensures gives { IfOk result (Gives self.old self.new) }
        ensures text { OnOk result (out.new ≡ out.old ++ next_text number statement self.old.left) }
        ensures err { OnErr result (Extends out.old out.new) }
        ensures spends { Spends self.old.due self.new.due steps.old steps.new }
        ensures bound { self.new.bound ≡ self.old.bound }
        ensures line { self.new.line ≡ self.old.line }
    {
        self.head.begin(out, number, statement)?;
        // Where memory runs out, nothing is left.
        let stage = mem::replace(&mut self.stage, Stage::Ended);
        let found = stage.print(self.alloc, &mut self.source, self.line, out, steps)?;
        end_text(out, start, found)?;
        self.stage = Stage::behind(found);
        advance_behind(&mut self.head, found);
        Ok(Turn::of(found))
    }

    /// Puts the values of the next row in the place of those in `values`, or tells the end and leaves none there. They are the values of which
    /// [`RowsOf::print`] appends the text. After an end the same end comes again, without a step. What is due never grows, and the counter
    /// rises by no more than it falls.
    ///
    /// The program prints rows; this is for tests and for hosts.
    ///
    /// # Errors
    /// [`Memory`] where memory runs out. `values` stays as it was, and what is said of the counter holds. The rows then stand anywhere, and
    /// are rewound before they are used again.
    pub fn next(&mut self, values: &mut Vec<SqlValue>, steps: &mut Steps) -> Result<Turn, Memory>
        ensures gives { IfOk result (Gives self.old self.new) }
        ensures values { OnOk result (values.new.items ≡ next_values self.old.left) }
        ensures printable { OnOk result (All IsPrintable values.new.items) }
        ensures err { OnErr result (values.new ≡ values.old) }
        ensures spends { Spends self.old.due self.new.due steps.old steps.new }
        ensures bound { self.new.bound ≡ self.old.bound }
        ensures line { self.new.line ≡ self.old.line }
    {
        // Where memory runs out, nothing is left.
        let stage = mem::replace(&mut self.stage, Stage::Ended);
        let found = stage.find(self.alloc, &mut self.source, self.line, steps)?;
        hand_out(found, &mut self.source.stack, values);
        self.stage = Stage::behind(found);
        Ok(Turn::of(found))
    }

    /// Whether it is known that no row is left and no state is raised. Of a statement without a table this is always known, so its
    /// only row is the last that is asked for. Of a table it may be known later: where it is not, `print` and `next` tell.
    #[inline(always)]
    pub fn is_over(&self) -> bool
        ensures over { result ≡ true → self.now.left ≡ done }
        ensures alone { (bound_of self.now.bound).table ≡ None → self.now.left ≡ done → result ≡ true }
    {
        match self.stage {
            Stage::Ended => true,
            Stage::Going | Stage::Raised(_) => false,
        }
    }
}
