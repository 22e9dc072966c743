// Why a call gives nothing.
ghost use Rattle.std.specs.Prelude.{◌≡◌};
ghost use Rattle.sj_host.specs.declared.unanswered.Unanswered.TheVariants.{Memory};
ghost use Rattle.sj_host.specs.Host.{unanswered_by};

use sj_file::Status;
use sj_sql::FileKind;
use thiserror::Error;

/// Why a call gives nothing.
#[derive(Clone, Copy, Debug, PartialEq, Eq, Error)]
pub enum Unanswered {
    /// The statement of this number is the first that is refused, counted from 1, and this is the reason.
    #[error("a statement is refused")]
    Refused(u32, FileKind),
    /// The statement file has more than 1,048,576 bytes.
    #[error("statement file too long")]
    FileTooLong,
    /// Memory ran out. It says nothing of the file.
    #[error("out of memory")]
    Memory,
    /// The buffer of the caller has no room for what was to be written. What it holds then, no clause says.
    #[error("no room")]
    Room,
}

impl From<sj_base::Memory> for Unanswered {
    ghost from_gives = { λ _ e. e ≡ Memory };

    fn from(_: sj_base::Memory) -> Unanswered {
        Unanswered::Memory
    }
}

/// By the status of a command over objects in memory. Its words are of a form and neither its shelf nor its input fails, so
/// the statuses that say otherwise do not come.
pub(crate) fn why_unanswered(status: Status) -> Unanswered
    ensures { result ≡ unanswered_by status }
{
    match status {
        Status::Refused(number, kind) => Unanswered::Refused(number, kind),
        Status::FileTooLong => Unanswered::FileTooLong,
        Status::WriteFault => Unanswered::Room,
        Status::Done
        | Status::Usage
        | Status::ShelfFault
        | Status::ReadFault
        | Status::Memory
        | Status::InputLimit => Unanswered::Memory,
    }
}
