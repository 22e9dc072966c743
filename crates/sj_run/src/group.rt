// The groups of an input.
ghost use Rattle.std.specs.Prelude.{◌≡◌, Some};
ghost use Rattle.sj_file.specs.File.{grouping};
ghost use Rattle.sj_stream.specs.Out.{out_at};
ghost use Rattle.sj_run.specs.Ran.{IsBefore, Ran, moment_at};

use sj_base::Steps;
use sj_file::{Status, accept_to_group};
use sj_group_run::group_lines;
use sj_outside::{Shelf, Sink, Source};
use std::alloc::Global;

/// Groups the rows of the one statement of a file over an input.
pub(crate) fn group_file<H: Shelf, I: Source, O: Sink>(
    alloc: Global,
    name: &str,
    shelf: &mut H,
    input: &mut I,
    out: &mut O,
    steps: &mut Steps,
) -> Status
    ensures ran { Ran (Some (grouping name.now))
        (moment_at H.Shelf I.Source O.Sink shelf.old input.old steps.old out.old)
        (moment_at H.Shelf I.Source O.Sink shelf.new input.new steps.new out.new) result }
    ensures untouched { IsBefore result → (input.new ≡ input.old) × (out.new ≡ out.old) × (steps.new ≡ steps.old) }
{
    match accept_to_group(alloc, name, shelf) {
        Ok(to_group) => group_lines(alloc, &to_group, input, out, steps),
        Err(status) => status,
    }
}
