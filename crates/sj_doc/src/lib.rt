//! A JSON document: one vector of nodes in preorder, and one run of bytes for the text of all strings, keys and
//! numbers. No call walks a document by recursion.
//!
//! It stands on `sj_json` for the definitions, on `sj_decimal` for exact numbers and on `sj_base` for the
//! counter of steps.
//!
//! Every contract sees a `Doc` as one tree, a `NodeRef` as its number in preorder and the tree that begins
//! there, `Children` as the list of the children that are left, a `Tour` as the list of the visits that are
//! left, a `DocBuilder` as the containers that are open and the line that it holds, and a `CopiedLine` as the bytes of
//! the line. The words over a `NodeRef` are in `specs/Listed.antt`: `node_tree`, `node_id`, `node_key` and `member_of`.
//!
//! `Children::next`, `Children::next_under` and `Tour::next` alone hand out the children of a node, and raise
//! the counter by one for each.
#![tactic(auto)]

mod builder;
mod children;
mod copied;
mod doc;
mod keys;
mod node;
mod stored;
mod tour;

pub use builder::DocBuilder;
pub use children::Children;
pub use copied::CopiedLine;
pub use doc::{Doc, Member, NodeRef, Num};
pub use node::{Kind, Want};
pub use stored::{StoredText, WINDOW};
pub use tour::{Tour, Visit};
