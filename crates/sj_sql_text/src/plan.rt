//! The pieces of plans.

ghost use Rattle.std.specs.Prelude.{◌≡◌, ◌∷◌, OnOk};
ghost use Rattle.sj_sql_tree.specs.View.{plan_of, plan_tree_of};
ghost use Rattle.sj_sql_text.specs.Adds.{Adds};
ghost use Rattle.sj_sql_text.specs.Pieces as piece;
ghost use Rattle.sj_sql_text.specs.Plans as spec;

use crate::pieces::Pieces;
use sj_base::Memory;
use sj_sql_tree::{InOut, NamedPlan, PlanTree, Siblings};

fn is_name(plan: &NamedPlan) -> bool
    ensures { result ≡ spec.is_name (plan_of plan.now) }
{
    matches!(plan, NamedPlan::Path(_))
}

/// Whether the plan may stand before UNION without parentheses.
fn leads_union(plan: &NamedPlan) -> bool
    ensures { result ≡ spec.leads_union (plan_of plan.now) }
{
    matches!(plan, NamedPlan::Path(_) | NamedPlan::Union(_, _))
}

/// Whether the plan may stand before CROSS without parentheses.
fn leads_cross(plan: &NamedPlan) -> bool
    ensures { result ≡ spec.leads_cross (plan_of plan.now) }
{
    matches!(plan, NamedPlan::Path(_) | NamedPlan::Cross(_, _))
}

#[cycle(plans)]
fn named<'a>(plan: &'a NamedPlan, out: &mut Pieces<'a>) -> Result<(), Memory>
    ensures { OnOk result (Adds out.old out.new (spec.named_on (plan_of plan.now))) }
{
    match plan {
        NamedPlan::Path(name) => out.name(name.as_str()),
        NamedPlan::Outer(name, below) => {
            out.name(name.as_str())?;
            out.word("OUTER")?;
            operand(below, is_name(below), out)
        }
        NamedPlan::Inner(name, below) => {
            out.name(name.as_str())?;
            out.word("INNER")?;
            operand(below, is_name(below), out)
        }
        NamedPlan::Union(first, second) => {
            operand(first, leads_union(first), out)?;
            out.word("UNION")?;
            operand(second, is_name(second), out)
        }
        NamedPlan::Cross(first, second) => {
            operand(first, leads_cross(first), out)?;
            out.word("CROSS")?;
            operand(second, is_name(second), out)
        }
    }
}

/// A plan that an operator joins, in parentheses unless it may stand alone.
#[cycle(plans)]
fn operand<'a>(plan: &'a NamedPlan, alone: bool, out: &mut Pieces<'a>) -> Result<(), Memory>
    ensures { OnOk result (Adds out.old out.new (spec.alone_or_enclosed alone (spec.named_on (plan_of plan.now)))) }
{
    if alone {
        return named(plan, out);
    }
    out.open()?;
    named(plan, out)?;
    out.close()
}

fn in_out(in_out: InOut, out: &mut Pieces<'_>) -> Result<(), Memory>
    ensures { OnOk result (Adds out.old out.new (spec.in_out_on in_out)) }
{
    match in_out {
        InOut::Outer => out.word("OUTER"),
        InOut::Inner => out.word("INNER"),
    }
}

fn siblings(siblings: Siblings, out: &mut Pieces<'_>) -> Result<(), Memory>
    ensures { OnOk result (Adds out.old out.new (spec.siblings_on siblings)) }
{
    match siblings {
        Siblings::Union => out.word("UNION"),
        Siblings::Cross => out.word("CROSS"),
    }
}

fn defaults(joined: InOut, beside: Siblings, out: &mut Pieces<'_>) -> Result<(), Memory>
    ensures { OnOk result (Adds out.old out.new (λ ps. spec.in_out_on joined (piece.Comma ∷ spec.siblings_on beside (piece.Close ∷ ps)))) }
{
    in_out(joined, out)?;
    out.comma()?;
    siblings(beside, out)?;
    out.close()
}

pub(crate) fn plan<'a>(plan: &'a PlanTree, out: &mut Pieces<'a>) -> Result<(), Memory>
    ensures { OnOk result (Adds out.old out.new (spec.plan_on (plan_tree_of plan.now))) }
{
    out.word("PLAN")?;
    match plan {
        PlanTree::Default(joined, beside) => {
            out.word("DEFAULT")?;
            out.open()?;
            defaults(*joined, *beside, out)
        }
        PlanTree::Named(plan) => {
            out.open()?;
            named(plan, out)?;
            out.close()
        }
    }
}
