//! The values and the aggregates of a SELECT list, for a line (ISO/IEC 9075-2, query specification).
//!
//! The definitions are whole lists: `specs/Values.antt` says what each value of a SELECT list is for a line, and `specs/Aggregates.antt` what the
//! aggregates are over a list of rows. A row is a list of values, those of its columns.
//!
//! The values are found one behind the other by a list of operations, made once for a statement: an operation finds one value, or makes one
//! of those that stand before it. So nothing recurs while values are found. Where each operation finds a value of the list, its field is appended to
//! the row at once. Where values are made of others, those that are left on the stack at the end are the list, and are appended then.
//! Aggregates take the columns of one row after another, and keep the text of what they took.
//!
//! The crate stands on `sj_bound` for statements, on `sj_func` for the query functions, on `sj_rows` for fields, and on `sj_build` for the constructors and aggregates. It
//! knows no table. It promises that the values and the aggregates, or the first state that is raised, are exactly those of the definitions,
//! where memory suffices, and that the counter rises by no more than they allow.
#![tactic(auto)]

mod aggregate;
mod build;
mod calls;
mod find;
mod finder;
mod line;
mod operation;
mod print;
mod stack;

pub use aggregate::{
    Aggregate, ArrayCall, ObjectCall, aggregates_of, begin_all, finish_all, take_all,
};
pub use build::{boxed_cursor, inquiry_on, operations_of};
pub use find::find_list;
pub use line::LineDoc;
pub use operation::{ExistsCall, Operation, QueryCall, ValueCall};
pub use print::print_list;
pub use stack::Stack;
