//! What stands inside parentheses.

use sj_path_tree::{Expr, Pred};

/// An expression or a predicate: which of them it is shows at its end alone.
///
/// Both are in boxes. One call drops a box. A tree that is held by value is dropped part by part, wherever a function
/// may return early, and each such place has to be proved.
#[derive(Drop)]
pub enum ExprOrPred {
    Value(Box<Expr>),
    Test(Box<Pred>),
}
