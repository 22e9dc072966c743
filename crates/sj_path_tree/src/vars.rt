//! The variables that are passed to a path.

ghost use Rattle.std.specs.Prelude.{◌≡◌, ◌++◌, [], ◌∷◌, false, OnOk, OnErr};
ghost use Rattle.std.specs.List.{list_all};
ghost use Rattle.std.specs.Option.{option_copied};
ghost use Rattle.sj_path_tree.specs.View.{path_of, expr_of, step_of, sub_of, subs_of, pred_of};
ghost use Rattle.sj_path_tree.specs.Vars as spec;

use crate::parts::{Initial, Literal};
use crate::tree::{Expr, Path, Pred, Step, Sub};
use sj_base::{Memory, Text};
use std::alloc::Global;
use std::marker::Model;

/// Variables with their values, seen as a list of names and literals.
#[derive(Drop)]
pub struct Vars {
    items: Vec<(Text, Literal)>,
}

impl Model for Vars {
    ghost use Rattle.std.specs.Prelude.{ℕ, List};
    ghost use Rattle.sj_path_tree.specs.declared.parts.Literal.{Literal};

    ghost Value = { List (List ℕ × Literal) };

    ghost view = { λ v. v.items.items };
}

impl Vars {
    /// No variables. It takes no memory; `alloc` serves the calls that add some.
    pub fn new(alloc: Global) -> Vars
        ensures { result ≡ [] }
    {
        Vars {
            items: Vec::new(alloc),
        }
    }

    /// Adds a variable. Where memory runs out, nothing changes.
    pub fn push(&mut self, name: Text, value: Literal) -> Result<(), Memory>
        requires { spec.has_name self.old name ≡ false }
        ensures ok { OnOk result (self.new ≡ self.old ++ (name, value) ∷ []) }
        ensures err { OnErr result (self.new ≡ self.old) }
    {
        self.items.push((name, value))?;
        Ok(())
    }

    /// Whether a variable has this name.
    ///
    /// The program does not call this; its tests do, and a host may.
    pub fn has(&self, name: &str) -> bool
        ensures { result ≡ spec.has_name self.now name.now }
    {
        self.items.iter().any(|v| v.0.as_str() == name)
    }

    /// The value of the variable with this name, if there is one.
    pub fn get(&self, name: &str) -> Option<&Literal>
        ensures { option_copied result ≡ spec.value_of self.now name.now }
    {
        let variable = self.items.iter().find(|v| v.0.as_str() == name)?;
        Some(&variable.1)
    }

    /// Whether each variable that the path names is here.
    ///
    /// The program does not call this, since `bind` tells it of names alone; its tests do, and a host may.
    pub fn covers(&self, path: &Path) -> bool
        ensures { result ≡ spec.covers self.now (path_of path.now) }
    {
        covers_expr(self, &path.expr)
    }
}

#[cycle(covers)]
#[tactic(auto, using(crate::proofs::Names::all_of_both))]
fn covers_expr(vars: &Vars, e: &Expr) -> bool
    ensures { result ≡ list_all (spec.has_name vars.now) (spec.expr_names (expr_of e.now)) }
{
    match e {
        Expr::Root | Expr::Context | Expr::Last | Expr::Lit(_) => true,
        Expr::Var(name) => vars.has(name.as_str()),
        Expr::Access(e, step) => covers_expr(vars, e) && covers_step(vars, step),
        Expr::Plus(e) | Expr::Minus(e) => covers_expr(vars, e),
        Expr::Binary(_, a, b) => covers_expr(vars, a) && covers_expr(vars, b),
    }
}

#[cycle(covers)]
#[tactic(auto, using(crate::proofs::Names::all_of_both, crate::proofs::Rows::elements))]
fn covers_step(vars: &Vars, step: &Step) -> bool
    ensures { result ≡ list_all (spec.has_name vars.now) (spec.step_names (step_of step.now)) }
{
    match step {
        Step::Elements(subs) => covers_subs(vars, subs),
        Step::Filter(p) => covers_pred(vars, p),
        Step::Member(_) | Step::AllMembers | Step::AllElements | Step::Method(_) => true,
    }
}

#[cycle(covers)]
#[tactic(auto, using(crate::proofs::Names::all_of_both))]
fn covers_sub(vars: &Vars, sub: &Sub) -> bool
    ensures { result ≡ list_all (spec.has_name vars.now) (spec.sub_names (sub_of sub.now)) }
{
    match sub {
        Sub::One(e) => covers_expr(vars, e),
        Sub::Range(from, to) => covers_expr(vars, from) && covers_expr(vars, to),
    }
}

#[cycle(covers)]
#[tactic(auto, using(crate::proofs::Names::all_of_both))]
fn covers_subs(vars: &Vars, subs: &[Sub]) -> bool
    ensures { result ≡ list_all (spec.has_name vars.now) (spec.subs_names (subs_of subs.now)) }
{
    for sub in subs {
        if !covers_sub(vars, sub) {
            return false;
        }
    }
    true
}

#[cycle(covers)]
#[tactic(auto, using(crate::proofs::Names::all_of_both))]
fn covers_pred(vars: &Vars, p: &Pred) -> bool
    ensures { result ≡ list_all (spec.has_name vars.now) (spec.pred_names (pred_of p.now)) }
{
    match p {
        Pred::Compare(_, a, b) => covers_expr(vars, a) && covers_expr(vars, b),
        Pred::And(p, q) | Pred::Or(p, q) => covers_pred(vars, p) && covers_pred(vars, q),
        Pred::Not(p) | Pred::IsUnknown(p) => covers_pred(vars, p),
        Pred::Exists(e) => covers_expr(vars, e),
        Pred::StartsWith(e, initial) => covers_expr(vars, e) && covers_initial(vars, initial),
    }
}

fn covers_initial(vars: &Vars, initial: &Initial) -> bool
    ensures { result ≡ list_all (spec.has_name vars.now) (spec.initial_names initial.now) }
{
    match initial {
        Initial::Lit(_) => true,
        Initial::Var(name) => vars.has(name.as_str()),
    }
}
