// Rows that are kept from one piece of the input to the next.
ghost use Rattle.std.specs.Prelude.{◌≡◌, ◌≤◌, length, map, IfOk};
ghost use Rattle.sj_bound.specs.View.{bound_of};
ghost use Rattle.sj_file.specs.Job.{AreSound};
ghost use Rattle.sj_run.specs.Batch.{bounds_in};

use crate::rows::rows_of;
use sj_base::{Memory, push};
use sj_batch::{Batch, LINES_TOGETHER, Lengths, ReadLine};
use sj_bound::Bound;
use sj_select::RowsOf;
use std::alloc::Global;
use std::mem;

/// Places for the lines that kept rows are asked of. No line stands there yet.
pub(crate) fn new_places(alloc: Global) -> Result<Vec<ReadLine>, Memory> {
    let mut places = Vec::with_capacity(alloc, LINES_TOGETHER)?;
    while places.len() < LINES_TOGETHER {
        push(&mut places, ReadLine::none())?;
    }
    Ok(places)
}

/// The rows of the statements, kept from one piece of the input to the next, so that small pieces do not make them anew. Rows
/// borrow the lines that they are asked of. So such lines stand in places of their own, which the next lines do not take as long
/// as the rows are kept.
#[derive(Drop)]
pub(crate) struct KeptRows<'a> {
    pub(crate) alloc: Global,
    pub(crate) rows: Vec<RowsOf<'a>>,
    // those that no line of these rows was put into
    places: &'a mut [ReadLine],
}

impl<'a> KeptRows<'a> {
    /// The rows of these statements, with these places for lines.
    pub(crate) fn new(
        alloc: Global,
        statements: &'a [Bound],
        places: &'a mut [ReadLine],
    ) -> Result<KeptRows<'a>, Memory>
        requires { AreSound statements.now }
        ensures { IfOk result (λ kept. bounds_in kept.rows.items ≡ map bound_of statements.now) }
    {
        let rows = rows_of(alloc, statements)?;
        Ok(KeptRows {
            alloc,
            rows,
            places,
        })
    }

    /// Whether a line may still be placed.
    pub(crate) fn has_place(&self) -> bool {
        !self.places.is_empty()
    }

    /// How many lines of the batch are to be placed, from the first on: where all are short, as many as there are places for.
    pub(crate) fn placeable(&self, batch: &Batch) -> usize
        ensures within { result ≤ length batch.now.lines.items }
        ensures room { result ≤ length self.now.places.now }
    {
        match batch.lengths {
            Lengths::Short => batch.lines.len().min(self.places.len()),
            Lengths::Any => 0,
        }
    }

    /// Puts the lines into places, and gives them there. What stood in those places is then where the lines were.
    pub(crate) fn place(&mut self, lines: &mut [ReadLine]) -> &'a [ReadLine]
        requires room { length lines.old ≤ length self.old.places.now }
        ensures placed { result.now ≡ lines.old }
        ensures rows { self.new.rows.items ≡ self.old.rows.items }
    {
        let (taken, left) = mem::take(&mut self.places).split_at_mut(lines.len());
        self.places = left;
        taken.swap_with_slice(lines);
        taken
    }
}
