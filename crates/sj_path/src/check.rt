//! Whether each `@` and `last` stands where it may.

ghost use Rattle.std.specs.Prelude.{◌≡◌};
ghost use Rattle.sj_path_grammar.specs.Misplaced as misplaced;
ghost use Rattle.sj_path_tree.specs.View.{expr_of, step_of, sub_of, subs_of, pred_of};

use sj_path_tree::{Expr, Pred, Step, Sub};

/// Whether an `@` stands in no filter or a `last` in no subscript list.
#[cycle(misplaced)]
pub fn misplaced_expr(e: &Expr, filtered: bool, listed: bool) -> bool
    ensures { result ≡ misplaced.misplaced_expr (expr_of e.now) filtered listed }
{
    match e {
        Expr::Root | Expr::Var(_) | Expr::Lit(_) => false,
        Expr::Context => !filtered,
        Expr::Last => !listed,
        Expr::Access(e, step) => {
            misplaced_expr(e, filtered, listed) || misplaced_step(step, filtered, listed)
        }
        Expr::Plus(e) | Expr::Minus(e) => misplaced_expr(e, filtered, listed),
        Expr::Binary(_, a, b) => {
            misplaced_expr(a, filtered, listed) || misplaced_expr(b, filtered, listed)
        }
    }
}

#[cycle(misplaced)]
#[tactic(auto, using(sj_path_tree::proofs::Rows::elements))]
fn misplaced_step(step: &Step, filtered: bool, listed: bool) -> bool
    ensures { result ≡ misplaced.misplaced_step (step_of step.now) filtered listed }
{
    match step {
        Step::Elements(subs) => misplaced_subs(subs, filtered),
        Step::Filter(p) => misplaced_pred(p, listed),
        Step::Member(_) | Step::AllMembers | Step::AllElements | Step::Method(_) => false,
    }
}

#[cycle(misplaced)]
fn misplaced_sub(sub: &Sub, filtered: bool) -> bool
    ensures { result ≡ misplaced.misplaced_sub (sub_of sub.now) filtered }
{
    match sub {
        Sub::One(e) => misplaced_expr(e, filtered, true),
        Sub::Range(from, to) => {
            misplaced_expr(from, filtered, true) || misplaced_expr(to, filtered, true)
        }
    }
}

#[cycle(misplaced)]
fn misplaced_subs(subs: &[Sub], filtered: bool) -> bool
    ensures { result ≡ misplaced.misplaced_subs (subs_of subs.now) filtered }
{
    for sub in subs {
        if misplaced_sub(sub, filtered) {
            return true;
        }
    }
    false
}

#[cycle(misplaced)]
fn misplaced_pred(p: &Pred, listed: bool) -> bool
    ensures { result ≡ misplaced.misplaced_pred (pred_of p.now) listed }
{
    match p {
        Pred::Compare(_, a, b) => misplaced_expr(a, true, listed)
            || misplaced_expr(b, true, listed),
        Pred::And(p, q) | Pred::Or(p, q) => misplaced_pred(p, listed) || misplaced_pred(q, listed),
        Pred::Not(p) | Pred::IsUnknown(p) => misplaced_pred(p, listed),
        Pred::Exists(e) | Pred::StartsWith(e, _) => misplaced_expr(e, true, listed),
    }
}
