//! Why a file of statements is not taken, and the message of each reason.

ghost use Rattle.std.specs.Prelude.{◌≡◌};
ghost use Rattle.sj_sql_grammar.specs.Messages.{name_text, bind_text, kind_text};

use sj_path_grammar::Name;
use thiserror::Error;

/// Why a statement that has a tree is refused: the first that holds, in this order.
#[derive(Clone, Copy, Debug, PartialEq, Eq, Error)]
#[error("{}", self.message())]
pub enum BindKind {
    /// More than 1,000 items of the SELECT list, more than 1,000 columns, or more than 64 paths of a table.
    TooMany,
    /// Two columns of a table have equal names.
    ColumnTwice,
    /// Two paths of a table have equal names.
    PathNameTwice,
    /// A path of a table has no name, and its plan names paths.
    PathNameMissing,
    /// The plan of a table does not match its paths.
    PlanMismatch,
    /// A PASSING clause names a variable twice.
    VariableTwice,
    /// A path has a variable that its PASSING clause does not name.
    UnknownVariable,
    /// A QUOTES clause stands beside WITH WRAPPER.
    QuotesWithWrapper,
    /// A DEFAULT literal cannot be cast to the type.
    DefaultCast,
    /// A name of the SELECT list is no column of the table.
    UnknownColumn,
    /// An aggregate stands beside an item that is none.
    AggregateMixed,
    /// The key of a constructor or an aggregate is not a text.
    KeyType,
}

impl BindKind {
    /// The words that tell a user why the statement is refused: lower case, without a full stop.
    pub fn message(self) -> &'static str
        ensures { result.now ≡ bind_text self }
    {
        match self {
            BindKind::TooMany => "too many columns or paths",
            BindKind::ColumnTwice => "column named twice",
            BindKind::PathNameTwice => "path named twice",
            BindKind::PathNameMissing => "path without a name",
            BindKind::PlanMismatch => "plan does not match the paths",
            BindKind::VariableTwice => "variable passed twice",
            BindKind::UnknownVariable => "unknown variable",
            BindKind::QuotesWithWrapper => "QUOTES with WRAPPER",
            BindKind::DefaultCast => "default cannot be cast",
            BindKind::UnknownColumn => "unknown column",
            BindKind::AggregateMixed => "aggregate beside a plain value",
            BindKind::KeyType => "key is not a text",
        }
    }
}

/// Why a statement is refused: the first that holds, in this order. Reading and binding a file give all but the last two, which
/// are of commands that ask for more than a file that is accepted.
#[derive(Clone, Copy, Debug, PartialEq, Eq, Error)]
#[error("{}", self.message())]
pub enum FileKind {
    /// A piece of the statement is no token.
    Lex,
    /// The tokens of the statement have no tree, or the file ends before its semicolon.
    Syntax,
    /// A path text does not break into tokens.
    PathLex,
    /// A path text nests too deep, or has too many parts.
    PathTooDeep,
    /// The tokens of a path text have no tree.
    PathSyntax,
    /// An `@` or a `last` stands where it may not.
    PathMisplaced,
    /// A type, an encoding or a part of a path that this implementation lacks: the first in the text.
    Unsupported(Name),
    /// The statement has a tree, and does not fit together.
    Bind(BindKind),
    /// The file is accepted, and is not the one statement that grouping asks for.
    Group,
    /// The path is accepted, and is not one whose items can be told while its text comes.
    NotForward,
}

impl FileKind {
    /// The words that tell a user why the file is refused: lower case, without a full stop.
    pub fn message(self) -> &'static str
        ensures { result.now ≡ kind_text self }
    {
        match self {
            FileKind::Lex => "lexical error",
            FileKind::Syntax => "syntax error",
            FileKind::PathLex => "path: lexical error",
            FileKind::PathTooDeep => "path: too deep",
            FileKind::PathSyntax => "path: syntax error",
            FileKind::PathMisplaced => "path: misplaced @ or last",
            FileKind::Unsupported(name) => unsupported(name),
            FileKind::Bind(why) => why.message(),
            FileKind::Group => "not a statement to group",
            FileKind::NotForward => "path is not forward",
        }
    }
}

fn unsupported(name: Name) -> &'static str
    ensures { result.now ≡ name_text name }
{
    match name {
        Name::LikeRegex => "unsupported like_regex",
        Name::Double => "unsupported double",
        Name::Datetime => "unsupported datetime",
        Name::ApproximateType => "unsupported approximate type",
        Name::DatetimeType => "unsupported datetime type",
        Name::Encoding => "unsupported encoding",
    }
}
