// The lines of pieces of the input.
ghost use Rattle.std.specs.Prelude.{◌≡◌, ◌≤◌, ◌+◌, [], OnOk};
ghost use Rattle.sj_base.specs.Count.{raised};
ghost use Rattle.sj_bound.specs.View.{bound_of};
ghost use Rattle.sj_rows.specs.HeldLines.{drained};
ghost use Rattle.sj_page.specs.Pages.{Prints};
ghost use Rattle.sj_file.specs.ToGroup.{IsReadyToGroup};
ghost use Rattle.sj_stream.specs.LineJob.{lines_print, lines_cost};
ghost use Rattle.sj_stream.specs.Out.{state_at, SameLoans};
ghost use Rattle.sj_group_run.specs.GroupJob.{group_job};
ghost use Rattle.sj_group_run.specs.Kept.{rows_kept};
ghost use Rattle.sj_group_run.specs.Gathering.{Gathered, Saw};

use crate::gather::{Gatherer, gather_batch};
use sj_batch::{Batch, Batches, Behind};
use sj_file::{Keys, ToGroup};
use sj_group::Groups;
use sj_outside::Sink;
use sj_page::Stop;
use sj_rows::Lines;
use sj_stream::{Out, PrintsLines};
use std::alloc::Global;

/// Gathers the rows of lines, and prints their error rows.
#[derive(Drop)]
pub(crate) struct Gathering<'g> {
    alloc: Global,
    to_group: &'g ToGroup,
    batches: Batches,
    pub(crate) gatherer: Gatherer,
}

impl<'g> Gathering<'g> {
    /// No rows so far. It takes no memory.
    pub(crate) fn new(alloc: Global, to_group: &'g ToGroup) -> Gathering<'g>
        requires { IsReadyToGroup to_group.now }
        ensures { Saw result.to_group.now result.gatherer.groups (group_job to_group.now.aggregate (bound_of to_group.now.statement)) [] }
    {
        Gathering {
            alloc,
            to_group,
            batches: Batches::new(alloc),
            gatherer: Gatherer {
                groups: Groups::new(alloc, to_group.aggregate),
                values: Vec::new(alloc),
            },
        }
    }
}

impl PrintsLines for Gathering<'_> {
    ghost saw = { λ g job before. Saw g.to_group.now g.gatherer.groups job before };

    fn print_lines<O: Sink>(
        &mut self,
        piece: usize,
        lines: &mut Lines,
        out: &mut Out<'_, O>,
    ) -> Result<(), Stop> {
        let batch = self.batches.of_piece(self.alloc, piece);
        read_and_gather(
            self.alloc,
            out,
            lines,
            batch,
            self.to_group,
            &mut self.gatherer,
        )
    }
}

/// Reads the lines that wait, a batch at a time, and gathers the rows of each batch.
fn read_and_gather<O: Sink>(
    alloc: Global,
    out: &mut Out<'_, O>,
    lines: &mut Lines,
    batch: &mut Batch,
    to_group: &ToGroup,
    gatherer: &mut Gatherer,
) -> Result<(), Stop>
    requires ready { IsReadyToGroup to_group.now }
    requires aggregate { gatherer.old.groups.aggregate ≡ to_group.now.aggregate }
    ensures prints { Prints (lines_print (group_job to_group.now.aggregate (bound_of to_group.now.statement)) (lines.old.given + 1) lines.old.waiting)
        (state_at O.Sink out.old) (state_at O.Sink out.new) result }
    ensures costs { out.new.steps.now ≤ raised out.old.steps.now (lines_cost (group_job to_group.now.aggregate (bound_of to_group.now.statement)) (lines.old.given + 1) lines.old.waiting) }
    ensures drained { OnOk result (lines.new ≡ drained lines.old) }
    ensures gathered { Gathered (rows_kept to_group.now.aggregate (bound_of to_group.now.statement) lines.old.waiting) gatherer.old.groups gatherer.new.groups result }
    ensures lent { SameLoans out.old out.new }
{
    loop {
        let behind = match batch.read_on(alloc, Keys::Any, lines) {
            Ok(behind) => behind,
            Err(_) => return Err(Stop::Memory),
        };
        match gather_batch(
            alloc,
            out,
            gatherer,
            &to_group.statement,
            batch.lines.as_slice(),
        ) {
            Ok(()) => {}
            Err(stop) => return Err(stop),
        }
        match behind {
            Behind::Nothing => return Ok(()),
            Behind::Perhaps => {}
        }
    }
}
