// The messages.
ghost use Rattle.std.specs.Prelude.{◌≡◌, ◌≤◌, map, List, ℕ};
ghost use Rattle.sj_page.specs.Sides.{Wrote};
ghost use Rattle.sj_run.specs.Notes.{note_of, Noted};
ghost use Rattle.sj_stream.specs.Out.{out_at};

use itoa::Buffer;
use sj_file::Status;
use sj_outside::{Failed, Sink};
use sj_page::{write_all, write_parts};

/// Writes the message of a status.
fn write_note<N: Sink>(notes: &mut N, status: Status) -> Result<(), Failed>
    ensures { Wrote (out_at N.Sink notes.old) (out_at N.Sink notes.new) (note_of status) result }
{
    match status {
        Status::Done => write_all(notes, b""),
        Status::Usage => write_all(
            notes,
            b"usage: sqljson run [--unique-keys] FILE | check FILE | selfrun N FILE | show FILE | group FILE | scan PATH\n",
        ),
        Status::Refused(k, kind) => {
            let mut buffer = Buffer::new();
            let digits = buffer.format(k).as_bytes();
            write_parts(
                notes,
                &[
                    b"statement ".as_slice(),
                    digits,
                    b": ".as_slice(),
                    kind.message().as_bytes(),
                    b"\n".as_slice(),
                ],
            )
        }
        Status::ShelfFault => write_all(notes, b"statement file cannot be read\n"),
        Status::ReadFault => write_all(notes, b"input failed\n"),
        Status::WriteFault => write_all(notes, b"output failed\n"),
        Status::Memory => write_all(notes, b"out of memory\n"),
        Status::InputLimit => write_all(notes, b"input too long\n"),
        Status::FileTooLong => write_all(notes, b"statement file too long\n"),
    }
}

/// Tells a status, as far as the notes take it.
pub(crate) fn tell<N: Sink>(notes: &mut N, status: Status)
    ensures { Noted (out_at N.Sink notes.old) (out_at N.Sink notes.new) (note_of status) }
{
    let _ = write_note(notes, status);
}
