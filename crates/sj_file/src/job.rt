// What is run over the lines of an input.

use sj_bind::Bound;
use sj_sql::FileKind;

/// Whether the keys of a line's objects are to be unique.
#[derive(Clone, Copy, Debug, PartialEq, Eq)]
pub enum Keys {
    /// An object may have two equal keys.
    Any,
    /// `--unique-keys`: a line in which some object has two equal keys gives functions the error 22037 in place of its
    /// root.
    Unique,
}

/// The statements of a file, and how they see a line.
#[derive(Drop)]
pub struct Job {
    /// Whether the keys of a line's objects are to be unique.
    pub keys: Keys,
    /// The statements in their order, as they are bound. Those of a file are fewer than 2^32.
    pub statements: Vec<Bound>,
}

/// Why a file is not taken.
#[derive(Clone, Copy, Debug, PartialEq, Eq)]
pub(crate) enum FileRefusal {
    /// The statement of this number is refused, counted from 1.
    Refused(u32, FileKind),
    /// Memory ran out. It says nothing of the file.
    Memory,
}
