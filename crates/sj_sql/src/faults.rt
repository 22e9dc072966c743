//! What is noted of a statement while it is read.

ghost use Rattle.std.specs.Prelude.{◌≡◌, IfOk};
ghost use Rattle.sj_path_grammar.specs.declared.refusal.PathRefusal.TheVariants as path_refusal;
ghost use Rattle.sj_sql_grammar.specs.Faults as spec;
ghost use Rattle.sj_sql_grammar.specs.Notes as notes;
ghost use Rattle.sj_sql.specs.Noted.{faults_of};

use sj_base::Memory;
use sj_path::{Name, PathRefusal};
use sj_sql_grammar::{Encoding, FileKind, TypeName};

/// What may refuse a statement that has a tree: the first of each kind, in the order of the text.
#[derive(Clone, Copy)]
pub struct Faults {
    /// Why a path text is refused, unless this implementation lacks a part of it.
    pub path: Option<FileKind>,
    /// What this implementation lacks.
    pub unsupported: Option<Name>,
}

impl Faults {
    /// Nothing is noted.
    pub fn none() -> Faults
        ensures { faults_of result ≡ spec.nothing_noted }
    {
        Faults {
            path: None,
            unsupported: None,
        }
    }

    fn with_fault(self, fault: FileKind) -> Faults
        ensures { faults_of result ≡ spec.noting_fault fault (faults_of self) }
    {
        match self.path {
            Some(_) => self,
            None => Faults {
                path: Some(fault),
                unsupported: self.unsupported,
            },
        }
    }

    fn with_unsupported(self, name: Name) -> Faults
        ensures { faults_of result ≡ spec.noting_unsupported name (faults_of self) }
    {
        match self.unsupported {
            Some(_) => self,
            None => Faults {
                path: self.path,
                unsupported: Some(name),
            },
        }
    }

    /// Notes an encoding, where this implementation lacks it.
    pub fn with_encoding(self, encoding: Encoding) -> Faults
        ensures { faults_of result ≡ notes.note_encoding spec.parsing encoding (faults_of self) }
    {
        match encoding {
            Encoding::Read => self,
            Encoding::Refused => self.with_unsupported(Name::Encoding),
        }
    }

    /// Notes a type, where this implementation lacks it.
    pub fn with_type(self, ty: TypeName) -> Faults
        ensures { faults_of result ≡ notes.note_type spec.parsing ty (faults_of self) }
    {
        match ty {
            TypeName::Known(_) => self,
            TypeName::Approximate => self.with_unsupported(Name::ApproximateType),
            TypeName::Datetime => self.with_unsupported(Name::DatetimeType),
        }
    }

    /// Notes why a path text is refused.
    pub fn with_refusal(self, refusal: PathRefusal) -> Result<Faults, Memory>
        ensures noted { IfOk result (λ f. faults_of f ≡ spec.noting_refusal refusal (faults_of self)) }
        ensures memory { IfOk result (λ _. refusal ≡ path_refusal.Memory → ⊥) }
    {
        match refusal {
            PathRefusal::Lex => Ok(self.with_fault(FileKind::PathLex)),
            PathRefusal::TooDeep => Ok(self.with_fault(FileKind::PathTooDeep)),
            PathRefusal::Syntax => Ok(self.with_fault(FileKind::PathSyntax)),
            PathRefusal::Misplaced => Ok(self.with_fault(FileKind::PathMisplaced)),
            PathRefusal::Unsupported(name) => Ok(self.with_unsupported(name)),
            PathRefusal::Memory => Err(Memory),
        }
    }
}
