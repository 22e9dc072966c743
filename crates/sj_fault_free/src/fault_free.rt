// Whether the form of a path rules out a fault.
ghost use Rattle.std.specs.Prelude.{◌≡◌};
ghost use Rattle.sj_path_tree.specs.View.{path_of, expr_of, step_of, sub_of, subs_of};
ghost use Rattle.sj_fault_free.specs.FaultFree.{is_number, is_fixed, sub_fault_free, subs_fault_free, step_fault_free, expr_fault_free, fault_free};

use sj_path_tree::{Expr, Literal, Mode, Path, Step, Sub};

/// Whether the form of a path rules out a fault on every item: it is in lax mode, has no method, sign or arithmetic, and each subscript is
/// the literal of a number or `last`. A filter has no fault, whatever its predicate. The law `fault_free_paths_end_well` says that such
/// a path ends well; of any other path nothing is said.
pub fn is_fault_free(path: &Path) -> bool
    ensures { result ≡ fault_free (path_of path.now) }
{
    match path.mode {
        Mode::Lax => is_expr_fault_free(&path.expr),
        Mode::Strict => false,
    }
}

fn is_expr_fault_free(expr: &Expr) -> bool
    ensures { result ≡ expr_fault_free (expr_of expr.now) }
{
    match expr {
        Expr::Root | Expr::Var(_) | Expr::Context | Expr::Last | Expr::Lit(_) => true,
        Expr::Access(inner, step) => is_expr_fault_free(inner) && is_step_fault_free(step),
        Expr::Plus(_) | Expr::Minus(_) | Expr::Binary(_, _, _) => false,
    }
}

#[tactic(auto, using(sj_path_tree::proofs::Rows::elements))]
fn is_step_fault_free(step: &Step) -> bool
    ensures { result ≡ step_fault_free (step_of step.now) }
{
    match step {
        Step::Member(_) | Step::AllMembers | Step::AllElements | Step::Filter(_) => true,
        Step::Elements(subs) => are_subs_fault_free(subs),
        Step::Method(_) => false,
    }
}

fn are_subs_fault_free(subs: &[Sub]) -> bool
    ensures { result ≡ subs_fault_free (subs_of subs.now) }
{
    for sub in subs {
        if !is_sub_fault_free(sub) {
            return false;
        }
    }
    true
}

fn is_sub_fault_free(sub: &Sub) -> bool
    ensures { result ≡ sub_fault_free (sub_of sub.now) }
{
    match sub {
        Sub::One(index) => is_fixed_subscript(index),
        Sub::Range(from, to) => is_fixed_subscript(from) && is_fixed_subscript(to),
    }
}

// Whether a subscript is a number wherever it is asked.
fn is_fixed_subscript(subscript: &Expr) -> bool
    ensures { result ≡ is_fixed (expr_of subscript.now) }
{
    match subscript {
        Expr::Last => true,
        Expr::Lit(literal) => is_number_literal(literal),
        _ => false,
    }
}

fn is_number_literal(literal: &Literal) -> bool
    ensures { result ≡ is_number literal.now }
{
    match literal {
        Literal::Num(_) => true,
        Literal::Text(_) | Literal::Bool(_) | Literal::Null => false,
    }
}
