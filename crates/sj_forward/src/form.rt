// Whether the form of a path is forward.
ghost use Rattle.std.specs.Prelude.{◌≡◌, is_some};
ghost use Rattle.sj_path_tree.specs.Tree as tree;
ghost use Rattle.sj_path_tree.specs.View.{path_of, expr_of, step_of, sub_of, subs_of};
ghost use Rattle.sj_forward.specs.Forward.{whole, index, span_of, accessor_of, on_root, is_forward};

use sj_path_tree::{Expr, Literal, Mode, Path, Step, Sub};

/// Whether a path is forward: in lax mode, `$` and accessors on it, each of which is a member, `.*`, `[*]`, or one
/// subscript or range whose ends are literals of whole numbers (accessors: ISO/IEC 9075-2, 9.46).
pub fn forward(path: &Path) -> bool
    ensures { result ≡ is_forward (path_of path.now) }
{
    match path.mode {
        Mode::Lax => is_chain(&path.expr),
        Mode::Strict => false,
    }
}

// Whether an expression has only such accessors on `$`.
fn is_chain(expr: &Expr) -> bool
    ensures { result ≡ is_some (on_root (expr_of expr.now)) }
{
    match expr {
        Expr::Root => true,
        Expr::Access(inner, step) => is_chain(inner) && is_accessor(step),
        _ => false,
    }
}

#[tactic(auto, using(sj_path_tree::proofs::Rows::elements))]
fn is_accessor(step: &Step) -> bool
    ensures { result ≡ is_some (accessor_of (step_of step.now)) }
{
    match step {
        Step::Member(_) | Step::AllMembers | Step::AllElements => true,
        Step::Elements(subs) => is_one_span(subs),
        Step::Filter(_) | Step::Method(_) => false,
    }
}

fn is_one_span(subs: &[Sub]) -> bool
    ensures { result ≡ is_some (accessor_of (tree.Elements (subs_of subs.now))) }
{
    match subs {
        [sub] => is_span(sub),
        _ => false,
    }
}

fn is_span(sub: &Sub) -> bool
    ensures { result ≡ is_some (span_of (sub_of sub.now)) }
{
    match sub {
        Sub::One(at) => is_index(at),
        Sub::Range(from, to) => is_index(from) && is_index(to),
    }
}

// Whether an expression is the literal of a whole number.
fn is_index(expr: &Expr) -> bool
    ensures { result ≡ is_some (index (expr_of expr.now)) }
{
    match expr {
        Expr::Lit(literal) => is_whole(literal),
        _ => false,
    }
}

fn is_whole(literal: &Literal) -> bool
    ensures { result ≡ is_some (whole literal.now) }
{
    match literal {
        Literal::Num(number) => {
            let (coefficient, scale) = number.parts();
            coefficient >= 0 && scale == 0
        }
        Literal::Text(_) | Literal::Bool(_) | Literal::Null => false,
    }
}
