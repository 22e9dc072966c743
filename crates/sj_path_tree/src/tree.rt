//! Paths as trees.

use crate::parts::{Arith, Initial, Literal, Method, Mode};
use sj_base::Text;
use sj_decimal::Compare;

/// A path of the SQL/JSON path language (ISO/IEC 9075-2, 9.46).
///
/// Its `drop` is written out, so that whoever holds a path gives it up by one call. A derived one
/// is laid open, with all parts of the tree, at each place where a holder may return early.
pub struct Path {
    pub mode: Mode,
    pub expr: Expr,
}

impl Drop for Path {
    fn drop(self) {
        let Path {
            mode: _mode,
            expr: _expr,
        } = self;
    }
}

/// An expression of a path.
#[cycle(tree)]
#[derive(Drop)]
pub enum Expr {
    /// `$`
    Root,
    /// `$name`
    Var(Text),
    /// `@`
    Context,
    /// `last`
    Last,
    Lit(Literal),
    /// An accessor on what an expression gives.
    Access(Box<Expr>, Step),
    Plus(Box<Expr>),
    Minus(Box<Expr>),
    Binary(Arith, Box<Expr>, Box<Expr>),
}

/// An accessor.
#[cycle(tree)]
#[derive(Drop)]
pub enum Step {
    /// `.key`
    Member(Text),
    /// `.*`
    AllMembers,
    /// `[*]`
    AllElements,
    /// `[list]`, which the parser never leaves empty
    Elements(Vec<Sub>),
    /// `?(predicate)`
    Filter(Box<Pred>),
    /// `.method()`
    Method(Method),
}

/// One part of a list of subscripts.
#[cycle(tree)]
#[derive(Drop)]
pub enum Sub {
    One(Expr),
    /// `from to to`
    Range(Expr, Expr),
}

/// A predicate of a filter.
#[cycle(tree)]
#[derive(Drop)]
pub enum Pred {
    Compare(Compare, Expr, Expr),
    And(Box<Pred>, Box<Pred>),
    Or(Box<Pred>, Box<Pred>),
    Not(Box<Pred>),
    IsUnknown(Box<Pred>),
    Exists(Expr),
    StartsWith(Expr, Initial),
}
