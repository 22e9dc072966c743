// The canonical text of a file.
ghost use Rattle.std.specs.Prelude.{◌≡◌, Some};
ghost use Rattle.sj_file.specs.File.{showing, shelf_at};
ghost use Rattle.sj_stream.specs.Input.{InputSide};
ghost use Rattle.sj_run.specs.Ran.{IsBefore, Ran, moment};
ghost use Rattle.sj_stream.specs.Out.{out_at};

use sj_file::{Status, accept_text};
use sj_outside::{Shelf, Sink};
use sj_page::write_all;
use std::alloc::Global;

/// Writes the canonical text of the statements of a file, each on a line, once all of them are accepted. It reads no input.
pub(crate) fn show_file<H: Shelf, O: Sink>(
    alloc: Global,
    name: &str,
    shelf: &mut H,
    out: &mut O,
) -> Status
    ensures ran { (from : InputSide) → Ran (Some (showing name.now))
        (moment (shelf_at H.Shelf shelf.old) from (out_at O.Sink out.old))
        (moment (shelf_at H.Shelf shelf.new) from (out_at O.Sink out.new)) result }
    ensures untouched { IsBefore result → out.new ≡ out.old }
{
    let text = match accept_text(alloc, name, shelf) {
        Ok(text) => text,
        Err(status) => return status,
    };
    match write_all(out, text.as_slice()) {
        Ok(()) => Status::Done,
        Err(_) => Status::WriteFault,
    }
}
