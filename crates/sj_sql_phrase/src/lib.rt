//! The phrases of statements: what a few tokens say (ISO/IEC 9075-2, SQL/JSON). None of them has a path.
//!
//! They are single tokens, keywords and what they mean, clauses, types, literals, the variables of PASSING, the document, and
//! the plan of a table. The crate stands on the tokens of sj_sql_token, the definitions of sj_sql_grammar and the trees of
//! sj_sql_tree. It knows no parser of paths, so it is proved beside sj_path. The parser of statements is sj_sql.
//!
//! It promises that each function that reads a phrase gives what the definition of the phrase gives, in `specs/Phrases.antt` or
//! `specs/Reading.antt` of sj_sql_grammar: what the tokens at the front say and the tokens that follow, or nothing where no such
//! phrase stands there. If memory runs out, nothing is said. And `too_deep` is true exactly if more parentheses stay open
//! somewhere than may.
#![tactic(auto)]

pub mod depth;
pub mod document;
pub mod literal;
mod meaning;
mod operators;
pub mod optional;
pub mod passing;
pub mod phrase;
pub mod plan;
pub mod single;
