// The groups, when all lines are done.
ghost use Rattle.std.specs.Prelude.{◌≡◌, [], List, OnOk};
ghost use Rattle.sj_group.specs.Grouping.{Row, grouped};
ghost use Rattle.sj_group.specs.Held.{StandsForRows};
ghost use Rattle.sj_page.specs.Sides.{joined};
ghost use Rattle.sj_page.specs.Pages.{print_state, Prints};
ghost use Rattle.sj_stream.specs.Out.{out_at};
ghost use Rattle.sj_stream.specs.Then.{Ends};
ghost use Rattle.sj_group_run.specs.Gathering.{groups_print};

use sj_file::Status;
use sj_group::Groups;
use sj_outside::Sink;
use sj_page::{Page, Stop};
use sj_stream::status_of;
use std::alloc::Global;

/// Writes the texts of all groups, a page at a time, and says how that ended.
pub(crate) fn write_groups<O: Sink>(alloc: Global, groups: &Groups, out: &mut O) -> Status
    ensures { (rows : List Row) → StandsForRows rows groups.now → Ends (joined (grouped groups.now.aggregate rows)) (out_at O.Sink out.old) (out_at O.Sink out.new) result }
{
    let mut page = Page::new(alloc);
    match print_groups(groups, out, &mut page) {
        Ok(()) => Status::Done,
        Err(stop) => status_of(stop),
    }
}

/// Prints the texts of all groups, and writes what is left on the page.
fn print_groups<O: Sink>(groups: &Groups, out: &mut O, page: &mut Page) -> Result<(), Stop>
    ensures prints { (rows : List Row) → StandsForRows rows groups.now → Prints (groups_print (grouped groups.now.aggregate rows))
        (print_state O.taken O.size O.faults out.old page.old) (print_state O.taken O.size O.faults out.new page.new) result }
    ensures empty { OnOk result (page.new.text ≡ []) }
{
    let mut i = 0;
    while i < groups.len() {
        match groups.group_text(i, &mut page.text) {
            Ok(()) => {}
            Err(_) => return Err(Stop::Memory),
        }
        match page.row_came(out) {
            Ok(()) => {}
            Err(stop) => return Err(stop),
        }
        i += 1;
    }
    page.write(out)
}
