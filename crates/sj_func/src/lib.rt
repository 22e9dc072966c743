//! The query functions of SQL/JSON over an inquiry or the cursor of a path (ISO/IEC 9075-2, SQL/JSON functions).
//!
//! `specs/Functions.antt` says what each function gives of the trace that its path has on an item, and what it may
//! take. JSON_EXISTS and JSON_VALUE ask an inquiry about the item. JSON_QUERY rewinds a cursor on the item. Neither is asked further
//! than it must.
//!
//! The crate stands on `sj_cursor` for paths on items, on `sj_value` for values, casts and the clauses of the
//! functions, on `sj_text` for the texts of items, and on `sj_rows` for fields of rows. It promises that each call gives exactly the outcome of the
//! definitions, where memory suffices, and that the counter rises by no more than they allow.
#![tactic(auto)]

mod context;
mod exists;
mod field;
mod json;
mod query;
mod query_field;
mod single;
mod texts;
mod value;

pub use context::{Context, Outcome};
pub use exists::json_exists;
pub use field::{json_value_field, outcome_field};
pub use json::is_json;
pub use query::json_query;
pub use query_field::json_query_field;
pub use value::json_value;
