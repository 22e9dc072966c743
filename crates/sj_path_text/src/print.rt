//! Prints the tree of a path. A list of subscripts is a loop; all else is recursion, which the limits on parentheses and on
//! operators, signs and accessors bound in each path that is read from a text.

ghost use Rattle.std.specs.Prelude.{◌≡◌, ◌++◌, [], OnOk, OnErr};
ghost use Rattle.sj_text.specs.Prefixes.{AppendsPrefix};
ghost use Rattle.sj_path_tree.specs.View.{path_of, expr_of, step_of, sub_of, subs_of, pred_of};
ghost use Rattle.sj_path_text.specs.Text as spec;

use crate::parentheses::{
    is_and_or_or, is_below, is_binary, is_exists, is_not_above, is_operation, is_or,
};
use crate::part::{
    arith_text, compare_text, initial_text, literal_text, method_name, mode_text, variable_text,
};
use sj_base::{Bytes, Memory};
use sj_path_tree::{Expr, Path, Pred, Step, Sub};
use sj_text::string_text;

/// Appends the canonical text of a path. Where memory runs out, `out` has grown by a first part of it.
///
/// Example: the path of the text `$.a+1` has the canonical text `lax $."a" + 1`.
pub fn path_text(path: &Path, out: &mut Bytes) -> Result<(), Memory>
    ensures ok { OnOk result (out.new ≡ out.old ++ spec.path_text (path_of path.now)) }
    ensures err { OnErr result (AppendsPrefix out.old (spec.path_text (path_of path.now)) out.new) }
{
    mode_text(path.mode, out)?;
    out.push(b" ")?;
    expr_text(&path.expr, out)
}

#[cycle(text)]
fn expr_text(e: &Expr, out: &mut Bytes) -> Result<(), Memory>
    ensures ok { OnOk result (out.new ≡ out.old ++ spec.expr_text (expr_of e.now)) }
    ensures err { OnErr result (AppendsPrefix out.old (spec.expr_text (expr_of e.now)) out.new) }
{
    match e {
        Expr::Root => out.push(b"$"),
        Expr::Var(name) => variable_text(name.as_str(), out),
        Expr::Context => out.push(b"@"),
        Expr::Last => out.push(b"last"),
        Expr::Lit(literal) => literal_text(literal, out),
        Expr::Access(e, step) => {
            operand_text(e, is_operation(e), out)?;
            step_text(step, out)
        }
        Expr::Plus(e) => {
            out.push(b"+")?;
            operand_text(e, is_binary(e), out)
        }
        Expr::Minus(e) => {
            out.push(b"-")?;
            operand_text(e, is_binary(e), out)
        }
        Expr::Binary(op, a, b) => {
            operand_text(a, is_below(*op, a), out)?;
            arith_text(*op, out)?;
            operand_text(b, is_not_above(*op, b), out)
        }
    }
}

/// Appends an operand, in parentheses where `enclosed` says so.
#[cycle(text)]
fn operand_text(e: &Expr, enclosed: bool, out: &mut Bytes) -> Result<(), Memory>
    ensures ok { OnOk result (out.new ≡ out.old ++ spec.enclosed enclosed (spec.expr_text (expr_of e.now))) }
    ensures err { OnErr result (AppendsPrefix out.old (spec.enclosed enclosed (spec.expr_text (expr_of e.now))) out.new) }
{
    if !enclosed {
        return expr_text(e, out);
    }
    out.push(b"(")?;
    expr_text(e, out)?;
    out.push(b")")
}

#[cycle(text)]
#[tactic(auto, using(sj_path_tree::proofs::Rows::elements))]
fn step_text(step: &Step, out: &mut Bytes) -> Result<(), Memory>
    ensures ok { OnOk result (out.new ≡ out.old ++ spec.step_text (step_of step.now)) }
    ensures err { OnErr result (AppendsPrefix out.old (spec.step_text (step_of step.now)) out.new) }
{
    match step {
        Step::Member(key) => {
            out.push(b".")?;
            string_text(key.as_str(), out)
        }
        Step::AllMembers => out.push(b".*"),
        Step::AllElements => out.push(b"[*]"),
        Step::Elements(subs) => list_text(subs, out),
        Step::Filter(p) => {
            out.push(b"?(")?;
            pred_text(p, out)?;
            out.push(b")")
        }
        Step::Method(method) => {
            out.push(b".")?;
            method_name(*method, out)?;
            out.push(b"()")
        }
    }
}

#[cycle(text)]
fn sub_text(sub: &Sub, out: &mut Bytes) -> Result<(), Memory>
    ensures ok { OnOk result (out.new ≡ out.old ++ spec.sub_text (sub_of sub.now)) }
    ensures err { OnErr result (AppendsPrefix out.old (spec.sub_text (sub_of sub.now)) out.new) }
{
    match sub {
        Sub::One(e) => expr_text(e, out),
        Sub::Range(from, to) => {
            expr_text(from, out)?;
            out.push(b" to ")?;
            expr_text(to, out)
        }
    }
}

/// Appends a list of subscripts.
#[cycle(text)]
fn list_text(subs: &[Sub], out: &mut Bytes) -> Result<(), Memory>
    ensures ok { OnOk result (out.new ≡ out.old ++ spec.list_text (subs_of subs.now)) }
    ensures err { OnErr result (AppendsPrefix out.old (spec.list_text (subs_of subs.now)) out.new) }
{
    out.push(b"[")?;
    subs_text(subs, out)?;
    out.push(b"]")
}

/// Appends its parts, with a comma and a blank between two of them.
#[cycle(text)]
fn subs_text(subs: &[Sub], out: &mut Bytes) -> Result<(), Memory>
    ensures ok { OnOk result (out.new ≡ out.old ++ spec.subs_text [] (subs_of subs.now)) }
    ensures err { OnErr result (AppendsPrefix out.old (spec.subs_text [] (subs_of subs.now)) out.new) }
{
    let mut lead: &[u8] = b"";
    for sub in subs {
        out.push(lead)?;
        sub_text(sub, out)?;
        lead = b", ";
    }
    Ok(())
}

#[cycle(text)]
fn pred_text(p: &Pred, out: &mut Bytes) -> Result<(), Memory>
    ensures ok { OnOk result (out.new ≡ out.old ++ spec.pred_text (pred_of p.now)) }
    ensures err { OnErr result (AppendsPrefix out.old (spec.pred_text (pred_of p.now)) out.new) }
{
    match p {
        Pred::Compare(op, a, b) => {
            expr_text(a, out)?;
            compare_text(*op, out)?;
            expr_text(b, out)
        }
        Pred::And(p, q) => {
            group_text(p, is_or(p), out)?;
            out.push(b" && ")?;
            group_text(q, is_and_or_or(q), out)
        }
        Pred::Or(p, q) => {
            pred_text(p, out)?;
            out.push(b" || ")?;
            group_text(q, is_or(q), out)
        }
        Pred::Not(p) => {
            out.push(b"!")?;
            group_text(p, !is_exists(p), out)
        }
        Pred::IsUnknown(p) => {
            group_text(p, true, out)?;
            out.push(b" is unknown")
        }
        Pred::Exists(e) => {
            out.push(b"exists(")?;
            expr_text(e, out)?;
            out.push(b")")
        }
        Pred::StartsWith(e, initial) => {
            expr_text(e, out)?;
            out.push(b" starts with ")?;
            initial_text(initial, out)
        }
    }
}

/// Appends a predicate, in parentheses where `enclosed` says so.
#[cycle(text)]
fn group_text(p: &Pred, enclosed: bool, out: &mut Bytes) -> Result<(), Memory>
    ensures ok { OnOk result (out.new ≡ out.old ++ spec.enclosed enclosed (spec.pred_text (pred_of p.now))) }
    ensures err { OnErr result (AppendsPrefix out.old (spec.enclosed enclosed (spec.pred_text (pred_of p.now))) out.new) }
{
    if !enclosed {
        return pred_text(p, out);
    }
    out.push(b"(")?;
    pred_text(p, out)?;
    out.push(b")")
}
