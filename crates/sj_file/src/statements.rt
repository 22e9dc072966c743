// The statements of the file that the words name.
ghost use Rattle.std.specs.Prelude.{◌<◌, length, map, IfOk, MatchResult};
ghost use Rattle.sj_bound.specs.View.{bound_of};
ghost use Rattle.sj_file.specs.File.{shelf_at};
ghost use Rattle.sj_file.specs.Job.{AreSound, statement_limit};
ghost use Rattle.sj_file.specs.Accepted.{Accepted, AcceptedSoMany, AcceptedWithText, IsUnaccepted};

use crate::file::load;
use crate::job::FileRefusal;
use crate::status::Status;
use crate::verdict::{count_of, statements_of, text_of};
use sj_base::Bytes;
use sj_bind::Bound;
use sj_outside::Shelf;
use std::alloc::Global;

/// Reads a file whole, and binds its statements in their order; or says how the command ends that names it. They are
/// fewer than 2^32. Of a file that is too long no more is read than the first byte past the limit.
///
/// # Errors
/// The status with which the command ends, which is one of these:
///
/// - [`Status::ShelfFault`]: the shelf failed;
/// - [`Status::FileTooLong`]: the file has more than 1,048,576 bytes;
/// - [`Status::Refused`]: a statement is refused, and this is the first;
/// - [`Status::Memory`]: memory ran out, which says nothing of the file.
pub fn accept<H: Shelf>(alloc: Global, name: &str, shelf: &mut H) -> Result<Vec<Bound>, Status>
    ensures file { let old = shelf_at H.Shelf shelf.old in
        let new = shelf_at H.Shelf shelf.new in
        MatchResult result (λ statements. Accepted name.now old new (map bound_of statements.items)) (λ status. IsUnaccepted name.now old new status) }
    ensures few { IfOk result (λ statements. length statements.items < statement_limit) }
    ensures sound { IfOk result (λ statements. AreSound statements.items) }
{
    let file = match load(alloc, name, shelf) {
        Ok(file) => file,
        Err(status) => return Err(status),
    };
    match statements_of(alloc, file.as_slice()) {
        Ok(statements) => Ok(statements),
        Err(FileRefusal::Memory) => Err(Status::Memory),
        Err(FileRefusal::Refused(k, kind)) => Err(Status::Refused(k, kind)),
    }
}

/// Reads a file whole, and counts its statements; or says how the command ends that names it. It binds each of them as
/// [`accept`] does, and gives it up before the next, so no more than one is held.
///
/// # Errors
/// Those of [`accept`].
pub fn accept_count<H: Shelf>(alloc: Global, name: &str, shelf: &mut H) -> Result<u32, Status>
    ensures { let old = shelf_at H.Shelf shelf.old in
        let new = shelf_at H.Shelf shelf.new in
        MatchResult result (λ count. AcceptedSoMany name.now old new count) (λ status. IsUnaccepted name.now old new status) }
{
    let file = match load(alloc, name, shelf) {
        Ok(file) => file,
        Err(status) => return Err(status),
    };
    match count_of(alloc, file.as_slice()) {
        Ok(count) => Ok(count),
        Err(FileRefusal::Memory) => Err(Status::Memory),
        Err(FileRefusal::Refused(k, kind)) => Err(Status::Refused(k, kind)),
    }
}

/// Reads a file whole, and gives the canonical text of its statements, each on a line; or says how the command ends that
/// names it. It binds each of them as [`accept`] does, and gives it up before the next, so no more than one is held.
///
/// # Errors
/// Those of [`accept`].
pub fn accept_text<H: Shelf>(alloc: Global, name: &str, shelf: &mut H) -> Result<Bytes, Status>
    ensures { let old = shelf_at H.Shelf shelf.old in
        let new = shelf_at H.Shelf shelf.new in
        MatchResult result (λ text. AcceptedWithText name.now old new text) (λ status. IsUnaccepted name.now old new status) }
{
    let file = match load(alloc, name, shelf) {
        Ok(file) => file,
        Err(status) => return Err(status),
    };
    match text_of(alloc, file.as_slice()) {
        Ok(text) => Ok(text),
        Err(FileRefusal::Memory) => Err(Status::Memory),
        Err(FileRefusal::Refused(k, kind)) => Err(Status::Refused(k, kind)),
    }
}
