//! The rules that a statement keeps beside its grammar, and what it is bound to: names become numbers, and each default is cast to
//! its type.
//!
//! It stands on the trees of sj_sql_tree and makes the bound statements of sj_bound, by whose `bound_of` contracts see them. `bind`
//! accepts exactly the statements that break no rule, and names the first rule that another one breaks.
#![tactic(auto)]

mod binding;
mod calls;
mod clauses;
mod covered;
mod fault;
mod flat;
mod items;
mod keys;
mod law;
mod name_set;
mod parts;
mod refusal;
mod row_rules;
mod table;
mod table_rules;
mod values;
mod variables;

pub use binding::bind;
pub use law::accepted_statements_are_bindable;
pub use refusal::BindRefusal;
pub use sj_bound::{Bound, BoundColumn, BoundItem, BoundMember, BoundPath, BoundTable, BoundValue};
