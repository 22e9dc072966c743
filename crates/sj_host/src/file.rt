// The statements of a file in memory.
ghost use Rattle.std.specs.Prelude.{◌≡◌, ◌≤◌, length, map, take, IfOk, IfErr, OnOk, OnErr};
ghost use Rattle.sj_outside.specs.InMemory.{quiet_shelf_of};
ghost use Rattle.sj_bound.specs.View.{bound_of};
ghost use Rattle.sj_file.specs.Refusals.{AcceptsSoMany, AcceptsWithText};
ghost use Rattle.sj_host.specs.Host.{file_name, AcceptsWithWidths, IsWhy, IsWhyUnshown, width_of};

use crate::unanswered::{Unanswered, why_unanswered};
use sj_base::{Memory, Text, push};
use sj_bound::Bound;
use sj_file::{accept, accept_count, accept_text};
use sj_outside::QuietShelf;
use std::alloc::Global;

/// A shelf that holds this file under the name `f`.
pub(crate) fn shelf_of(alloc: Global, file: &[u8]) -> Result<QuietShelf, Memory>
    ensures { IfOk result (λ shelf. shelf ≡ quiet_shelf_of file_name file.now) }
{
    let name = Text::from_str(alloc, "f")?;
    let bytes = file.to_vec(alloc)?;
    Ok(QuietShelf::new(name, bytes))
}

/// How many statements a file has, all of which are accepted.
///
/// # Errors
/// [`Unanswered::Refused`], [`Unanswered::FileTooLong`] and [`Unanswered::Memory`].
pub fn check(alloc: Global, file: &[u8]) -> Result<u32, Unanswered>
    ensures accepted { IfOk result (λ count. AcceptsSoMany file.now count) }
    ensures unanswered { IfErr result (λ why. IsWhy file.now why) }
{
    let mut shelf = match shelf_of(alloc, file) {
        Ok(shelf) => shelf,
        Err(_) => return Err(Unanswered::Memory),
    };
    match accept_count(alloc, "f", &mut shelf) {
        Ok(count) => Ok(count),
        Err(status) => Err(why_unanswered(status)),
    }
}

/// How many fields the rows of each statement of a file have, in the order of the statements.
///
/// # Errors
/// Those of [`check`].
pub fn widths(alloc: Global, file: &[u8]) -> Result<Vec<u32>, Unanswered>
    ensures accepted { IfOk result (λ widths. AcceptsWithWidths file.now widths.items) }
    ensures unanswered { IfErr result (λ why. IsWhy file.now why) }
{
    let mut shelf = match shelf_of(alloc, file) {
        Ok(shelf) => shelf,
        Err(_) => return Err(Unanswered::Memory),
    };
    match accept(alloc, "f", &mut shelf) {
        Ok(statements) => match widths_of(alloc, statements.as_slice()) {
            Ok(widths) => Ok(widths),
            Err(_) => Err(Unanswered::Memory),
        },
        Err(status) => Err(why_unanswered(status)),
    }
}

fn widths_of(alloc: Global, statements: &[Bound]) -> Result<Vec<u32>, Memory>
    ensures { IfOk result (λ widths. widths.items ≡ map width_of (map bound_of statements.now)) }
{
    let mut widths = Vec::with_capacity(alloc, statements.len())?;
    for statement in statements {
        push(&mut widths, statement.width())?;
    }
    Ok(widths)
}

/// Writes the canonical text of the statements of a file at the front of `out`, each on a line, and says how many bytes it has.
///
/// # Errors
/// Those of [`check`], and [`Unanswered::Room`] if the text is longer than `out`. Then nothing is written.
pub fn show(alloc: Global, file: &[u8], out: &mut [u8]) -> Result<usize, Unanswered>
    ensures within { IfOk result (λ count. count ≤ length out.new) }
    ensures shown { IfOk result (λ count. AcceptsWithText file.now (take count out.new)) }
    ensures unanswered { IfErr result (λ why. IsWhyUnshown file.now (length out.old) why) }
    ensures untouched { OnErr result (out.new ≡ out.old) }
{
    let mut shelf = match shelf_of(alloc, file) {
        Ok(shelf) => shelf,
        Err(_) => return Err(Unanswered::Memory),
    };
    match accept_text(alloc, "f", &mut shelf) {
        Ok(text) => {
            let count = text.as_slice().len();
            if count > out.len() {
                return Err(Unanswered::Room);
            }
            out[..count].copy_from_slice(text.as_slice());
            Ok(count)
        }
        Err(status) => Err(why_unanswered(status)),
    }
}
