// The rows of lines that were read together, on their way into groups.
ghost use Rattle.std.specs.Prelude.{◌≡◌, ◌≤◌};
ghost use Rattle.sj_base.specs.Count.{raised};
ghost use Rattle.sj_bound.specs.Sound.{IsSound};
ghost use Rattle.sj_bound.specs.View.{bound_of};
ghost use Rattle.sj_table.specs.Series.{elements};
ghost use Rattle.sj_page.specs.Pages.{print_state, Prints};
ghost use Rattle.sj_file.specs.ToGroup.{CanGroup};
ghost use Rattle.sj_stream.specs.Out.{state_at, SameLoans};
ghost use Rattle.sj_batch.specs.Batch.{line_read};
ghost use Rattle.sj_batch.specs.Given.{cost_given};
ghost use Rattle.sj_group_run.specs.GroupJob.{errors_print};
ghost use Rattle.sj_group_run.specs.Gathering.{read_kept, batch_print, batch_cost, batch_rows, Gathered};

use sj_base::{State, Steps};
use sj_batch::ReadLine;
use sj_bound::Bound;
use sj_group::Groups;
use sj_outside::Sink;
use sj_page::{Page, Stop};
use sj_select::{RowsOf, Turn};
use sj_select_list::LineDoc;
use sj_stream::Out;
use sj_value::SqlValue;
use std::alloc::Global;

/// The rows that came, in groups.
#[derive(Drop)]
pub(crate) struct Gatherer {
    pub(crate) groups: Groups,
    // the values of the row that comes; their room is kept from one row to the next
    pub(crate) values: Vec<SqlValue>,
}

/// Gathers the rows of a statement for a line, up to the first that cannot be gathered, and prints an error row where a
/// state ends them. The counter rises for the rows that are asked for alone.
fn gather_line<'a, O: Sink>(
    out: &mut O,
    page: &mut Page,
    gatherer: &mut Gatherer,
    rows: &mut RowsOf<'a>,
    line: &'a ReadLine,
    steps: &mut Steps,
) -> Result<(), Stop>
    requires sound { IsSound (bound_of rows.old.bound) }
    requires fits { CanGroup gatherer.old.groups.aggregate (bound_of rows.old.bound) }
    ensures prints { Prints (errors_print line.now.number (read_kept gatherer.old.groups.aggregate (bound_of rows.old.bound) line.now))
        (print_state O.taken O.size O.faults out.old page.old) (print_state O.taken O.size O.faults out.new page.new) result }
    ensures gathered { Gathered (elements (read_kept gatherer.old.groups.aggregate (bound_of rows.old.bound) line.now)) gatherer.old.groups gatherer.new.groups result }
    ensures costs { steps.new ≤ raised steps.old (cost_given (bound_of rows.old.bound) (line_read line.now.reading)) }
    ensures bound { rows.new.bound ≡ rows.old.bound }
{
    rows.rewind(line.reading.line());
    loop {
        let turn = match rows.next(&mut gatherer.values, steps) {
            Ok(turn) => turn,
            Err(_) => return Err(Stop::Memory),
        };
        match turn {
            Turn::Row => {
                let row = gatherer.values.as_slice();
                if !gatherer.groups.takes(row) {
                    return page.error_row(out, line.number, 1, State::S22004);
                }
                match gatherer.groups.add(row) {
                    Ok(()) => {}
                    Err(_) => return Err(Stop::Memory),
                }
            }
            Turn::End => return Ok(()),
            Turn::Raised(state) => return page.error_row(out, line.number, 1, state),
        }
    }
}

/// Gathers the rows of a statement for lines, one after the other.
fn gather_each<'a, O: Sink>(
    out: &mut O,
    page: &mut Page,
    gatherer: &mut Gatherer,
    rows: &mut RowsOf<'a>,
    lines: &'a [ReadLine],
    steps: &mut Steps,
) -> Result<(), Stop>
    requires sound { IsSound (bound_of rows.old.bound) }
    requires fits { CanGroup gatherer.old.groups.aggregate (bound_of rows.old.bound) }
    ensures prints { Prints (batch_print gatherer.old.groups.aggregate (bound_of rows.old.bound) lines.now)
        (print_state O.taken O.size O.faults out.old page.old) (print_state O.taken O.size O.faults out.new page.new) result }
    ensures gathered { Gathered (batch_rows gatherer.old.groups.aggregate (bound_of rows.old.bound) lines.now) gatherer.old.groups gatherer.new.groups result }
    ensures costs { steps.new ≤ raised steps.old (batch_cost (bound_of rows.old.bound) lines.now) }
{
    for line in lines {
        match gather_line(out, page, gatherer, rows, line, steps) {
            Ok(()) => {}
            Err(stop) => return Err(stop),
        }
    }
    Ok(())
}

/// Gathers the rows of a statement for lines that were read together, by cursors that are made for them alone.
pub(crate) fn gather_batch<'a, O: Sink>(
    alloc: Global,
    out: &mut Out<'_, O>,
    gatherer: &mut Gatherer,
    statement: &'a Bound,
    lines: &'a [ReadLine],
) -> Result<(), Stop>
    requires sound { IsSound (bound_of statement.now) }
    requires fits { CanGroup gatherer.old.groups.aggregate (bound_of statement.now) }
    ensures prints { Prints (batch_print gatherer.old.groups.aggregate (bound_of statement.now) lines.now)
        (state_at O.Sink out.old) (state_at O.Sink out.new) result }
    ensures gathered { Gathered (batch_rows gatherer.old.groups.aggregate (bound_of statement.now) lines.now) gatherer.old.groups gatherer.new.groups result }
    ensures costs { out.new.steps.now ≤ raised out.old.steps.now (batch_cost (bound_of statement.now) lines.now) }
    ensures lent { SameLoans out.old out.new }
{
    // To make cursors costs as much as to ask for a row, so none are made where no line is left for them.
    if lines.is_empty() {
        return Ok(());
    }
    match RowsOf::new(alloc, statement, LineDoc::NotJson) {
        Ok(mut rows) => gather_each(out.sink, out.page, gatherer, &mut rows, lines, out.steps),
        Err(_) => Err(Stop::Memory),
    }
}
