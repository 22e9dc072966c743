// Why a text is not scanned for.
ghost use Rattle.std.specs.Prelude.{◌≡◌};
ghost use Rattle.sj_scan_statement.specs.declared.refusal.ScanRefusal.TheVariants.{Memory};
ghost use Rattle.sj_scan_statement.specs.Answers.{answer_to};

use sj_path::PathRefusal;
use sj_sql_grammar::FileKind;
use thiserror::Error;

/// Why a text is not scanned for.
#[derive(Clone, Copy, Debug, PartialEq, Eq, Error)]
pub enum ScanRefusal {
    /// The text is no path, or it is one that is not forward ([`FileKind::NotForward`]).
    #[error("{0}")]
    Refused(FileKind),
    /// Memory ran out. It says nothing of the text.
    #[error("out of memory")]
    Memory,
}

impl From<sj_base::Memory> for ScanRefusal {
    ghost from_gives = { λ _ e. e ≡ Memory };

    fn from(_: sj_base::Memory) -> ScanRefusal {
        ScanRefusal::Memory
    }
}

// The same refusal, of a path.
pub(crate) fn of_path(refusal: PathRefusal) -> ScanRefusal
    ensures { result ≡ answer_to refusal }
{
    match refusal {
        PathRefusal::Lex => ScanRefusal::Refused(FileKind::PathLex),
        PathRefusal::TooDeep => ScanRefusal::Refused(FileKind::PathTooDeep),
        PathRefusal::Syntax => ScanRefusal::Refused(FileKind::PathSyntax),
        PathRefusal::Misplaced => ScanRefusal::Refused(FileKind::PathMisplaced),
        PathRefusal::Unsupported(name) => ScanRefusal::Refused(FileKind::Unsupported(name)),
        PathRefusal::Memory => ScanRefusal::Memory,
    }
}
