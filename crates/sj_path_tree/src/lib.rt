//! Paths of the SQL/JSON path language (ISO/IEC 9075-2, 9.46) as trees: the path of one member, the number of nodes, and the
//! variables that are passed to a path.
//!
//! `specs/Tree.antt` defines the trees. Contracts see a path that the code holds as one of these, by `path_of` in
//! `specs/View.antt`. The crate stands on `sj_base` and `sj_decimal`, and knows no text of a path: which trees a text has is
//! for `sj_path_grammar` to say, and `sj_path` finds them. What evaluates, binds or joins paths needs their trees alone.
#![tactic(auto)]

mod count;
mod member;
mod parts;
mod tree;
mod vars;

pub use count::nodes;
pub use member::member_path;
pub use parts::{Arith, Initial, Literal, Method, Mode};
pub use sj_decimal::Compare;
pub use tree::{Expr, Path, Pred, Step, Sub};
pub use vars::Vars;
