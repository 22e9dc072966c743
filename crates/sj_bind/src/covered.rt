//! Whether the variables of a path are among names, which are looked up in a set.

ghost use Rattle.std.specs.Prelude.{◌≡◌};
ghost use Rattle.std.specs.List.{list_all};
ghost use Rattle.sj_base.specs.Names.{is_among};
ghost use Rattle.sj_path_tree.specs.View.{path_of, expr_of, step_of, sub_of, subs_of, pred_of};
ghost use Rattle.sj_path_tree.specs.Vars as spec;
ghost use Rattle.sj_bind.specs.Names.{names_of};

use crate::name_set::NameSet;
use sj_path_tree::{Expr, Initial, Path, Pred, Step, Sub};

/// Whether the name is there.
pub fn has_name(names: &NameSet<'_>, name: &str) -> bool
    ensures { result ≡ is_among (names_of names.now) name.now }
{
    names.names.contains(name)
}

/// Whether each variable of the path is there.
pub fn covers(names: &NameSet<'_>, path: &Path) -> bool
    ensures { result ≡ list_all (is_among (names_of names.now)) (spec.names (path_of path.now)) }
{
    covers_expr(&path.expr, names)
}

#[cycle(covers)]
#[tactic(auto, using(crate::proofs::Lists::all_of_both))]
fn covers_expr(e: &Expr, names: &NameSet<'_>) -> bool
    ensures { result ≡ list_all (is_among (names_of names.now)) (spec.expr_names (expr_of e.now)) }
{
    match e {
        Expr::Root | Expr::Context | Expr::Last | Expr::Lit(_) => true,
        Expr::Var(name) => has_name(names, name.as_str()),
        Expr::Access(e, step) => covers_expr(e, names) && covers_step(step, names),
        Expr::Plus(e) | Expr::Minus(e) => covers_expr(e, names),
        Expr::Binary(_, a, b) => covers_expr(a, names) && covers_expr(b, names),
    }
}

#[cycle(covers)]
#[tactic(auto, using(crate::proofs::Lists::all_of_both, sj_path_tree::proofs::Rows::elements))]
fn covers_step(step: &Step, names: &NameSet<'_>) -> bool
    ensures { result ≡ list_all (is_among (names_of names.now)) (spec.step_names (step_of step.now)) }
{
    match step {
        Step::Elements(subs) => covers_subs(subs, names),
        Step::Filter(p) => covers_pred(p, names),
        Step::Member(_) | Step::AllMembers | Step::AllElements | Step::Method(_) => true,
    }
}

#[cycle(covers)]
#[tactic(auto, using(crate::proofs::Lists::all_of_both))]
fn covers_sub(sub: &Sub, names: &NameSet<'_>) -> bool
    ensures { result ≡ list_all (is_among (names_of names.now)) (spec.sub_names (sub_of sub.now)) }
{
    match sub {
        Sub::One(e) => covers_expr(e, names),
        Sub::Range(from, to) => covers_expr(from, names) && covers_expr(to, names),
    }
}

#[cycle(covers)]
#[tactic(auto, using(crate::proofs::Lists::all_of_both))]
fn covers_subs(subs: &[Sub], names: &NameSet<'_>) -> bool
    ensures { result ≡ list_all (is_among (names_of names.now)) (spec.subs_names (subs_of subs.now)) }
{
    for sub in subs {
        if !covers_sub(sub, names) {
            return false;
        }
    }
    true
}

#[cycle(covers)]
#[tactic(auto, using(crate::proofs::Lists::all_of_both))]
fn covers_pred(p: &Pred, names: &NameSet<'_>) -> bool
    ensures { result ≡ list_all (is_among (names_of names.now)) (spec.pred_names (pred_of p.now)) }
{
    match p {
        Pred::Compare(_, a, b) => covers_expr(a, names) && covers_expr(b, names),
        Pred::And(p, q) | Pred::Or(p, q) => covers_pred(p, names) && covers_pred(q, names),
        Pred::Not(p) | Pred::IsUnknown(p) => covers_pred(p, names),
        Pred::Exists(e) => covers_expr(e, names),
        Pred::StartsWith(e, initial) => covers_expr(e, names) && covers_initial(initial, names),
    }
}

fn covers_initial(initial: &Initial, names: &NameSet<'_>) -> bool
    ensures { result ≡ list_all (is_among (names_of names.now)) (spec.initial_names initial.now) }
{
    match initial {
        Initial::Lit(_) => true,
        Initial::Var(name) => has_name(names, name.as_str()),
    }
}
