// How a command ends.
ghost use Rattle.std.specs.Prelude.{◌≡◌};
ghost use Rattle.sj_file.specs.StatusNumbers.{number_of};

use sj_sql::FileKind;

/// How a command ended.
#[derive(Clone, Copy, Debug, PartialEq, Eq)]
pub enum Status {
    /// All was done that the words ask for. No call on the shelf, the input or the output failed.
    Done,
    /// The words are of none of the forms. No file was opened.
    Usage,
    /// The statement of this number is the first that is refused, counted from 1, and this is the reason.
    Refused(u32, FileKind),
    /// The statement file could not be opened or read: a call on the shelf failed.
    ShelfFault,
    /// The input could not be read: a call on it failed.
    ReadFault,
    /// The output could not be written: a call on it failed.
    WriteFault,
    /// Memory ran out. It says nothing of the file or the input.
    Memory,
    /// 2^62 bytes of the input were taken, which is as many as an input may have.
    InputLimit,
    /// The statement file has more than 1,048,576 bytes.
    FileTooLong,
}

impl Status {
    /// The number that the process ends with, from 0 to 8.
    ///
    /// Example: a run whose statement file is refused ends with 2 (`checks/rows/words.txt`).
    pub fn number(self) -> u8
        ensures { result ≡ number_of self }
    {
        match self {
            Status::Done => 0,
            Status::Usage => 1,
            Status::Refused(_, _) => 2,
            Status::ShelfFault => 3,
            Status::ReadFault => 4,
            Status::WriteFault => 5,
            Status::Memory => 6,
            Status::InputLimit => 7,
            Status::FileTooLong => 8,
        }
    }
}
