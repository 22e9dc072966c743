//! Whether a plan with names matches the paths of its table.

ghost use Rattle.std.specs.Prelude.{◌≡◌, min};
ghost use Rattle.sj_sql_tree.specs.View.{plan_of};
ghost use Rattle.sj_bind.specs.FlatView.{flat_path_of, paths_at, flat_of};
ghost use Rattle.sj_bind.specs.Plans as spec;
ghost use Rattle.sj_bind.specs.Plans.{standing, name_count};

use super::paths::{find_path, has_nested, is_under};
use crate::flat::{FlatPath, FlatTable};
use sj_base::Text;
use sj_sql_tree::{NamedPlan, PlanTree};

/// Whether the table has a plan with names that does not match its paths.
pub fn has_plan_mismatch(table: &FlatTable) -> bool
    ensures { result ≡ spec.has_plan_mismatch (flat_of table.now) }
{
    match &table.plan {
        PlanTree::Default(_, _) => false,
        PlanTree::Named(plan) => !matches_paths(plan, table.paths.as_slice()),
    }
}

fn matches_paths(plan: &NamedPlan, paths: &[FlatPath]) -> bool
    ensures { result ≡ spec.matches (paths_at paths.now) (plan_of plan.now) }
{
    has_root(plan) && fits(plan, paths, None)
}

/// Whether the root of the plan is one path, alone or as a parent.
fn has_root(plan: &NamedPlan) -> bool
    ensures { result ≡ spec.has_root (plan_of plan.now) }
{
    match plan {
        NamedPlan::Path(_) | NamedPlan::Outer(_, _) | NamedPlan::Inner(_, _) => true,
        NamedPlan::Union(_, _) | NamedPlan::Cross(_, _) => false,
    }
}

/// Whether the plan fits the paths right under a parent, or the row path where there is none.
fn fits(plan: &NamedPlan, paths: &[FlatPath], parent: Option<usize>) -> bool
    ensures { result ≡ spec.fits (paths_at paths.now) (plan_of plan.now) parent }
{
    match plan {
        NamedPlan::Path(name) => {
            let path = find_path(paths, parent, name.as_str());
            path.is_some() && !has_nested(paths, path)
        }
        NamedPlan::Outer(name, below) | NamedPlan::Inner(name, below) => {
            let path = find_path(paths, parent, name.as_str());
            path.is_some() && stand_once(paths, path, below) && fits(below, paths, path)
        }
        NamedPlan::Union(a, b) | NamedPlan::Cross(a, b) => {
            fits(a, paths, parent) && fits(b, paths, parent)
        }
    }
}

/// Whether each path right under a parent has a name, which stands once in the plan.
fn stand_once(paths: &[FlatPath], parent: Option<usize>, plan: &NamedPlan) -> bool
    ensures { result ≡ spec.each_once (paths_at paths.now) (standing (plan_of plan.now)) parent }
{
    for path in paths {
        if is_under(path, parent) && !stands_once(&path.name, plan) {
            return false;
        }
    }
    true
}

fn stands_once(name: &Option<Text>, plan: &NamedPlan) -> bool
    ensures { result ≡ spec.stands_once (standing (plan_of plan.now)) name.now }
{
    match name {
        Some(name) => occurrences(plan, name.as_str()) == 1,
        None => false,
    }
}

/// How often the name stands in the plan, outside the plans below its paths. The count stays at `2^32 - 1`.
#[tactic(auto, using(crate::proofs::PlanNames::count_both))]
fn occurrences(plan: &NamedPlan, name: &str) -> u32
    ensures { result ≡ min (name_count name.now (standing (plan_of plan.now))) u32.MAX }
{
    match plan {
        NamedPlan::Path(own) | NamedPlan::Outer(own, _) | NamedPlan::Inner(own, _) => {
            if name == own.as_str() { 1 } else { 0 }
        }
        NamedPlan::Union(a, b) | NamedPlan::Cross(a, b) => {
            occurrences(a, name).saturating_add(occurrences(b, name))
        }
    }
}
