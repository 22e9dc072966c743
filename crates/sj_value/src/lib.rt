//! SQL values and types, the cast of an item to a type, and what the query functions are told to do.
//!
//! It stands on `sj_item` for items, on `sj_decimal` for numbers, and on `sj_base` for texts, bytes and states.
//!
//! Contracts see an [`SqlValue`] as it is written, with its text and its bytes as lists: it has no pointers, so two
//! values are compared by `≡`. A [`Plan`] has pointers, and contracts see it as its `plan_tree`.
#![tactic(auto)]

mod casts;
mod clauses;
mod copies;
mod law;
mod plan;
mod refusal;
mod types;
mod value;

pub use casts::cast;
pub use clauses::{
    ExistsAction, JsonKind, Nulls, QueryAction, QuerySpec, TableAction, ValueAction, ValueSpec,
    Wrapper,
};
pub use copies::copy;
pub use law::one_number;
pub use plan::Plan;
pub use refusal::CastRefusal;
pub use types::SqlType;
pub use value::SqlValue;
