//! How many nodes a path has.

ghost use Rattle.std.specs.Prelude.{◌≡◌, ◌+◌};
ghost use Rattle.std.specs.Io.Iter.{u64_saturate};
ghost use Rattle.sj_path_tree.specs.Nodes as spec;
ghost use Rattle.sj_path_tree.specs.View.{path_of, expr_of, step_of, sub_of, subs_of, pred_of};

use crate::tree::{Expr, Path, Pred, Step, Sub};

#[cycle(nodes)]
fn expr_nodes(e: &Expr) -> u64
    ensures { result ≡ u64_saturate (spec.expr_nodes (expr_of e.now)) }
{
    match e {
        Expr::Root | Expr::Var(_) | Expr::Context | Expr::Last | Expr::Lit(_) => 1,
        Expr::Access(e, step) => one_and_two(expr_nodes(e), step_nodes(step)),
        Expr::Plus(e) | Expr::Minus(e) => one_and(expr_nodes(e)),
        Expr::Binary(_, a, b) => one_and_two(expr_nodes(a), expr_nodes(b)),
    }
}

#[cycle(nodes)]
#[tactic(auto, using(crate::proofs::Rows::elements))]
fn step_nodes(step: &Step) -> u64
    ensures { result ≡ u64_saturate (spec.step_nodes (step_of step.now)) }
{
    match step {
        Step::Member(_) | Step::AllMembers | Step::AllElements | Step::Method(_) => 1,
        Step::Elements(subs) => one_and(subs_nodes(subs)),
        Step::Filter(p) => one_and(pred_nodes(p)),
    }
}

#[cycle(nodes)]
fn sub_nodes(sub: &Sub) -> u64
    ensures { result ≡ u64_saturate (spec.sub_nodes (sub_of sub.now)) }
{
    match sub {
        Sub::One(e) => one_and(expr_nodes(e)),
        Sub::Range(from, to) => one_and_two(expr_nodes(from), expr_nodes(to)),
    }
}

#[cycle(nodes)]
fn subs_nodes(subs: &[Sub]) -> u64
    ensures { result ≡ u64_saturate (spec.subs_nodes (subs_of subs.now)) }
{
    let mut count = 0u64;
    for sub in subs {
        count = count.saturating_add(sub_nodes(sub));
    }
    count
}

#[cycle(nodes)]
fn pred_nodes(p: &Pred) -> u64
    ensures { result ≡ u64_saturate (spec.pred_nodes (pred_of p.now)) }
{
    match p {
        Pred::Compare(_, a, b) => one_and_two(expr_nodes(a), expr_nodes(b)),
        Pred::And(p, q) | Pred::Or(p, q) => one_and_two(pred_nodes(p), pred_nodes(q)),
        Pred::Not(p) | Pred::IsUnknown(p) => one_and(pred_nodes(p)),
        Pred::Exists(e) | Pred::StartsWith(e, _) => one_and(expr_nodes(e)),
    }
}

/// A node with `below` nodes below it.
fn one_and(below: u64) -> u64
    ensures { result ≡ u64_saturate (1 + below) }
{
    below.saturating_add(1)
}

/// A node with two parts below it.
fn one_and_two(first: u64, second: u64) -> u64
    ensures { result ≡ u64_saturate (1 + first + second) }
{
    one_and(first).saturating_add(second)
}

/// Counts the expressions, accessors, subscripts and predicates of a path. The count stays at
/// `2^64 - 1`.
///
/// The program does not call this; its tests do, and a host may.
pub fn nodes(path: &Path) -> u64
    ensures { result ≡ u64_saturate (spec.nodes (path_of path.now)) }
{
    expr_nodes(&path.expr)
}
