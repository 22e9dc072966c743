// The check of a file.
ghost use Rattle.std.specs.Prelude.{◌≡◌, ◌∷◌, [], Some, codes, decimal};
ghost use Rattle.sj_page.specs.Sides.{Wrote, joined};
ghost use Rattle.sj_file.specs.File.{checking, shelf_at};
ghost use Rattle.sj_stream.specs.Input.{InputSide};
ghost use Rattle.sj_run.specs.Ran.{IsBefore, Ran, moment};
ghost use Rattle.sj_stream.specs.Out.{out_at};

use itoa::Buffer;
use sj_file::{Status, accept_count};
use sj_outside::{Failed, Shelf, Sink};
use sj_page::write_parts;
use std::alloc::Global;

/// Writes that so many statements are accepted.
fn write_count<O: Sink>(out: &mut O, count: u32) -> Result<(), Failed>
    ensures { Wrote (out_at O.Sink out.old) (out_at O.Sink out.new)
        (joined (codes "accepted " ∷ decimal count ∷ codes "\n" ∷ [])) result }
{
    let mut buffer = Buffer::new();
    let digits = buffer.format(count).as_bytes();
    write_parts(out, &[b"accepted ".as_slice(), digits, b"\n".as_slice()])
}

/// Checks the statements of a file one after the other, and tells how many they are. It reads no input.
pub(crate) fn check_file<H: Shelf, O: Sink>(
    alloc: Global,
    name: &str,
    shelf: &mut H,
    out: &mut O,
) -> Status
    ensures ran { (from : InputSide) → Ran (Some (checking name.now))
        (moment (shelf_at H.Shelf shelf.old) from (out_at O.Sink out.old))
        (moment (shelf_at H.Shelf shelf.new) from (out_at O.Sink out.new)) result }
    ensures untouched { IsBefore result → out.new ≡ out.old }
{
    let count = match accept_count(alloc, name, shelf) {
        Ok(count) => count,
        Err(status) => return status,
    };
    match write_count(out, count) {
        Ok(()) => Status::Done,
        Err(_) => Status::WriteFault,
    }
}
