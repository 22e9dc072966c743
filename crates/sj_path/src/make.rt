//! Nodes of a tree.

ghost use Rattle.std.specs.Prelude.{◌≡◌, ◌∷◌, IfOk};
ghost use Rattle.sj_path_tree.specs.Tree as tree;
ghost use Rattle.sj_path_tree.specs.View.{expr_of, step_of, pred_of};

use sj_base::{Memory, boxed};
use sj_path_tree::{Arith, Expr, Pred, Step, Sub};
use std::alloc::Global;

pub fn binary(alloc: Global, op: Arith, a: Box<Expr>, b: Box<Expr>) -> Result<Box<Expr>, Memory>
    ensures { IfOk result (λ e. expr_of e.value ≡ tree.Binary op (expr_of a.value) (expr_of b.value)) }
{
    boxed(alloc, Expr::Binary(op, a, b))
}

pub fn access(alloc: Global, a: Box<Expr>, step: Step) -> Result<Box<Expr>, Memory>
    ensures { IfOk result (λ e. expr_of e.value ≡ tree.Access (expr_of a.value) (step_of step)) }
{
    boxed(alloc, Expr::Access(a, step))
}

pub fn and(alloc: Global, a: Box<Pred>, b: Box<Pred>) -> Result<Box<Pred>, Memory>
    ensures { IfOk result (λ p. pred_of p.value ≡ tree.And (pred_of a.value) (pred_of b.value)) }
{
    boxed(alloc, Pred::And(a, b))
}

pub fn or(alloc: Global, a: Box<Pred>, b: Box<Pred>) -> Result<Box<Pred>, Memory>
    ensures { IfOk result (λ p. pred_of p.value ≡ tree.Or (pred_of a.value) (pred_of b.value)) }
{
    boxed(alloc, Pred::Or(a, b))
}

/// The subscripts with one before them.
pub fn with_first(others: Vec<Sub>, first: Box<Sub>) -> Result<Vec<Sub>, Memory>
    ensures { IfOk result (λ all. all.items ≡ first.value ∷ others.items) }
{
    let mut all = others;
    all.insert(0, Box::into_inner(first))?;
    Ok(all)
}
