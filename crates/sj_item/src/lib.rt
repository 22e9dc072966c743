//! The items that a path gives, and what there is to say of one or two of them: kind, size, casts and comparison.
//!
//! It stands on `sj_doc` for the nodes of a document, on `sj_decimal` for numbers and the words of comparison, and on
//! `sj_base` for states.
//!
//! Every contract sees an [`Item`] as its `item_value`, in which there are no pointers: a node by its number and the
//! tree that begins there, a made value by itself (`specs/Items.antt`). `item_tree` is the tree that an item stands
//! for, and `nodes_below` counts the nodes of the document below it. Kind, size, casts and comparison depend on the
//! tree alone, so a made number compares as the same number in a document does. An item is copied without memory.
//!
//! `specs/Scalars.antt` is the table of casts: what a tree is as a number, a whole number, a truth value and a text,
//! and the state in which it is refused. [`to_number`], [`to_whole`], [`to_truth`] and [`to_text`] answer by it, and
//! take no memory. The types of RETURNING and the item methods of SQL:2023 read this table and no other.
#![tactic(auto)]

mod bounds;
mod casts;
mod comparison;
mod item;
mod made;
mod numeral;
mod pair;
mod texts;
mod truth;

pub use bounds::{BIGINT_HIGH, BIGINT_LOW, INTEGER_HIGH, INTEGER_LOW};
pub use casts::{to_number, to_text, to_truth, to_whole};
pub use comparison::{compare, starts_with};
pub use item::{Item, Pull, kind, size};
pub use made::Exact;
pub use pair::{Pair, PairValue};
pub use sj_decimal::Compare;
pub use truth::Truth;
