//! The printed text of items and strings: JSON (RFC 8259) without white space.
//!
//! It stands on `sj_item` for the items, on `sj_doc` for the tour of a node, and on `sj_json` for what the printed text
//! of a tree is (`printed`).
//!
//! [`item_text`] visits the nodes of a document one by one, without recursion and without memory but that of the bytes
//! it writes to. It raises the counter by exactly the nodes below the item's node. Where memory runs out, what was
//! written is a first part of the text (`AppendsPrefix`). A run of bytes that stand for themselves is written at once,
//! and so is a numeral that is the text of its number. [`put_short`] and [`push_front`] append a short text by moves of one
//! size, for crates above too.
#![tactic(auto)]

mod item;
mod node;
mod numeral;
mod place;
mod scalar;
mod stored;
mod string;
mod window;

pub use item::item_text;
pub use place::Place;
pub use stored::led;
pub use string::string_text;
pub use window::{MOST_SHORT, push_front, put_short};
