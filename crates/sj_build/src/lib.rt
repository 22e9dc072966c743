//! JSON_OBJECT, JSON_ARRAY, JSON_OBJECTAGG and JSON_ARRAYAGG of SQL values (ISO/IEC 9075-2, JSON object and array
//! constructors, JSON aggregate functions).
//!
//! It stands on `sj_value` for SQL values, on `sj_text` for strings between quotation marks, on `sj_decimal` for the
//! texts of numbers, on `sj_base` for bytes, states and the answer "out of memory", and on `indexmap` for the keys of
//! an object that may not be equal.
//!
//! [`json_array`] and [`json_object`] take a whole list. [`ArrayAgg`] and [`ObjectAgg`] take it piece by piece, and
//! keep the text of what was added, which they also lend. It promises that each gives exactly the value of its definition
//! (`specs/Constructors.antt`) over the whole list, and refuses a member exactly where the definition does. Each takes
//! one pass, and time linear in the texts that it makes.
#![tactic(auto)]

mod array;
mod array_agg;
mod element;
mod field;
mod keys;
mod object;
mod object_agg;
mod refusal;

pub use array::json_array;
pub use array_agg::ArrayAgg;
pub use field::Field;
pub use object::json_object;
pub use object_agg::ObjectAgg;
pub use refusal::BuildRefusal;
