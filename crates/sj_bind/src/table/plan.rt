//! The plan of a table over the numbers of its paths.

ghost use Rattle.std.specs.Prelude.{◌≡◌, ◌+◌, ◌<◌, ◌≤◌, true, false, length, is_some, option_map, Some, IfOk};
ghost use Rattle.sj_value.specs.Plans.{plan_tree};
ghost use Rattle.sj_sql_tree.specs.View.{plan_of};
ghost use Rattle.sj_bind.specs.FlatView.{paths_at, flat_of};
ghost use Rattle.sj_bind.specs.Tables.{has_too_many};
ghost use Rattle.sj_bind.specs.Plans as spec;
ghost use Rattle.sj_bind.specs.Grown as grown;
ghost use Rattle.sj_bind.specs.Grown.{one_more};

use super::paths::{find_path, is_under};
use crate::flat::{FlatPath, FlatTable};
use sj_base::{Memory, Text, boxed};
use sj_sql_grammar::{InOut, Siblings};
use sj_sql_tree::{NamedPlan, PlanTree};
use sj_value::Plan;
use std::alloc::Global;

/// The plan of the table over the numbers of its paths.
pub fn table_plan(alloc: Global, table: &FlatTable) -> Result<Plan, Memory>
    requires few { has_too_many (flat_of table.now) ≡ false }
    requires matched { spec.has_plan_mismatch (flat_of table.now) ≡ false }
    ensures { IfOk result (λ plan. plan_tree plan ≡ spec.table_plan (flat_of table.now)) }
{
    let paths = table.paths.as_slice();
    match &table.plan {
        PlanTree::Default(in_out, siblings) => {
            default_plan(alloc, paths, 0, 0, *in_out, *siblings)
        }
        PlanTree::Named(plan) => numbered(alloc, plan, paths, None),
    }
}

/// The plan with numbers in the place of names, which are those of paths right under a parent, or that of the row path where
/// there is none.
fn numbered(
    alloc: Global,
    plan: &NamedPlan,
    paths: &[FlatPath],
    parent: Option<usize>,
) -> Result<Plan, Memory>
    requires few { length paths.now ≤ u32.MAX }
    requires fits { spec.fits (paths_at paths.now) (plan_of plan.now) parent ≡ true }
    ensures { IfOk result (λ p. plan_tree p ≡ spec.numbered (paths_at paths.now) (plan_of plan.now) parent) }
{
    match plan {
        NamedPlan::Path(name) => Ok(Plan::Path(known_path(paths, parent, name) as u32)),
        NamedPlan::Outer(name, below) => {
            let path = known_path(paths, parent, name);
            let below = numbered(alloc, below, paths, Some(path))?;
            joined(alloc, InOut::Outer, path as u32, below)
        }
        NamedPlan::Inner(name, below) => {
            let path = known_path(paths, parent, name);
            let below = numbered(alloc, below, paths, Some(path))?;
            joined(alloc, InOut::Inner, path as u32, below)
        }
        NamedPlan::Union(a, b) => {
            let a = numbered(alloc, a, paths, parent)?;
            let b = numbered(alloc, b, paths, parent)?;
            beside(alloc, Siblings::Union, a, b)
        }
        NamedPlan::Cross(a, b) => {
            let a = numbered(alloc, a, paths, parent)?;
            let b = numbered(alloc, b, paths, parent)?;
            beside(alloc, Siblings::Cross, a, b)
        }
    }
}

/// The number of the path of this name right under a parent.
fn known_path(paths: &[FlatPath], parent: Option<usize>, name: &Text) -> usize
    requires { is_some (spec.path_named (paths_at paths.now) parent name.now) ≡ true }
    ensures found { spec.path_named (paths_at paths.now) parent name.now ≡ Some result }
    ensures within { result < length paths.now }
{
    match find_path(paths, parent, name.as_str()) {
        Some(number) => number,
        None => unreachable!(),
    }
}

/// The plan of PLAN DEFAULT for the path of this number. Those that are nested in it stand among the paths, of which the first
/// has the number `next`.
fn default_plan(
    alloc: Global,
    paths: &[FlatPath],
    next: u32,
    number: u32,
    in_out: InOut,
    siblings: Siblings,
) -> Result<Plan, Memory>
    requires { next + length paths.now ≤ u32.MAX }
    ensures { IfOk result (λ plan. plan_tree plan ≡ spec.over in_out siblings number (spec.default_in in_out siblings number next (paths_at paths.now))) }
{
    let mut below = None;
    let mut next = next;
    let mut rest = paths;
    while let Some((path, others)) = rest.split_first() {
        if is_under(path, Some(number as usize)) {
            let plan = default_plan(alloc, others, next + 1, next, in_out, siblings)?;
            below = with_plan(alloc, below, plan, siblings)?;
        }
        next += 1;
        rest = others;
    }
    path_over(alloc, number, below, in_out)
}

/// The plans so far, and one more beside them.
fn with_plan(
    alloc: Global,
    before: Option<Plan>,
    plan: Plan,
    siblings: Siblings,
) -> Result<Option<Plan>, Memory>
    ensures { IfOk result (λ plans. option_map plan_tree plans ≡ one_more siblings (option_map plan_tree before) (plan_tree plan)) }
{
    match before {
        None => Ok(Some(plan)),
        Some(before) => Ok(Some(beside(alloc, siblings, before, plan)?)),
    }
}

/// A path over the plan of its nested paths, if it has some.
fn path_over(alloc: Global, number: u32, below: Option<Plan>, in_out: InOut) -> Result<Plan, Memory>
    ensures { IfOk result (λ plan. plan_tree plan ≡ grown.path_over in_out number (option_map plan_tree below)) }
{
    match below {
        None => Ok(Plan::Path(number)),
        Some(below) => joined(alloc, in_out, number, below),
    }
}

fn joined(alloc: Global, in_out: InOut, number: u32, below: Plan) -> Result<Plan, Memory>
    ensures { IfOk result (λ plan. plan_tree plan ≡ spec.joined in_out number (plan_tree below)) }
{
    let below = boxed(alloc, below)?;
    Ok(match in_out {
        InOut::Outer => Plan::Outer(number, below),
        InOut::Inner => Plan::Inner(number, below),
    })
}

fn beside(alloc: Global, siblings: Siblings, a: Plan, b: Plan) -> Result<Plan, Memory>
    ensures { IfOk result (λ plan. plan_tree plan ≡ spec.beside siblings (plan_tree a) (plan_tree b)) }
{
    let a = boxed(alloc, a)?;
    let b = boxed(alloc, b)?;
    Ok(match siblings {
        Siblings::Union => Plan::Union(a, b),
        Siblings::Cross => Plan::Cross(a, b),
    })
}
