//! The grammar of statements (ISO/IEC 9075-2, SQL/JSON), as definitions below the parser: the trees, the rules as
//! relations, the functional reading of the tokens of a statement, and the law that these have at most one tree.
//!
//! It stands on the tokens of statement files, the paths of sj_path_grammar and the clauses of sj_value. The parser, which is proved
//! against these definitions, is a crate of its own. `refusal.rt` has the reasons for which a file is refused, each with its
//! message.
#![tactic(auto)]

mod clauses;
mod law;
mod refusal;

pub use clauses::{
    Encoding, InOut, IsJsonCall, Passed, QueryClauses, Quotes, Siblings, TypeName, ValueDo,
};
pub use law::{
    noted_answer, noted_faults, noted_reading, one_answer, one_file, one_reading, one_tree,
    path_answers, some_answer, some_file,
};
pub use refusal::{BindKind, FileKind};
