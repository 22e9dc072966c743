//! Which operands stand in parentheses.

ghost use Rattle.std.specs.Prelude.{◌≡◌};
ghost use Rattle.sj_path_tree.specs.View.{expr_of, pred_of};
ghost use Rattle.sj_path_text.specs.Parentheses as spec;

use sj_path_tree::{Arith, Expr, Pred};

/// `+` and `-` have the lower rank, and `*`, `/` and `%` the higher one.
fn is_low(op: Arith) -> bool
    ensures { result ≡ spec.is_low op }
{
    match op {
        Arith::Add | Arith::Sub => true,
        Arith::Mul | Arith::Div | Arith::Rem => false,
    }
}

/// An operation with two operands.
pub(crate) fn is_binary(e: &Expr) -> bool
    ensures { result ≡ spec.is_binary (expr_of e.now) }
{
    match e {
        Expr::Binary(_, _, _) => true,
        _ => false,
    }
}

/// An operation with one operand or two.
pub(crate) fn is_operation(e: &Expr) -> bool
    ensures { result ≡ spec.is_operation (expr_of e.now) }
{
    match e {
        Expr::Plus(_) | Expr::Minus(_) | Expr::Binary(_, _, _) => true,
        _ => false,
    }
}

/// An operation with two operands of the lower rank.
fn is_sum(e: &Expr) -> bool
    ensures { result ≡ spec.is_sum (expr_of e.now) }
{
    match e {
        Expr::Binary(op, _, _) => is_low(*op),
        _ => false,
    }
}

/// An operation of a lower rank than this operator.
pub(crate) fn is_below(op: Arith, e: &Expr) -> bool
    ensures { result ≡ spec.is_below op (expr_of e.now) }
{
    !is_low(op) && is_sum(e)
}

/// An operation of the same rank as this operator, or of a lower one.
pub(crate) fn is_not_above(op: Arith, e: &Expr) -> bool
    ensures { result ≡ spec.is_not_above op (expr_of e.now) }
{
    if is_low(op) { is_sum(e) } else { is_binary(e) }
}

pub(crate) fn is_or(p: &Pred) -> bool
    ensures { result ≡ spec.is_or (pred_of p.now) }
{
    match p {
        Pred::Or(_, _) => true,
        _ => false,
    }
}

pub(crate) fn is_and_or_or(p: &Pred) -> bool
    ensures { result ≡ spec.is_and_or_or (pred_of p.now) }
{
    match p {
        Pred::And(_, _) | Pred::Or(_, _) => true,
        _ => false,
    }
}

pub(crate) fn is_exists(p: &Pred) -> bool
    ensures { result ≡ spec.is_exists (pred_of p.now) }
{
    match p {
        Pred::Exists(_) => true,
        _ => false,
    }
}
