//! How many operators a plan has.

ghost use Rattle.std.specs.Prelude.{◌≡◌, ◌-◌, ◌≤◌, nat_le, Some, None, if◌then◌else◌};
ghost use Rattle.sj_sql_grammar.specs.Grammar.{operators, max_operators};
ghost use Rattle.sj_sql_tree.specs.View.{plan_of};

use sj_sql_tree::NamedPlan;

/// Operators that a plan may have.
const MAX_OPERATORS: u32 = 63;

/// What is left of a limit behind the operators of a plan, or nothing where these are more. It looks no deeper than the limit
/// and parentheses go.
fn left_of(limit: u32, plan: &NamedPlan) -> Option<u32>
    ensures { result ≡ (if nat_le (operators (plan_of plan.now)) limit then Some (limit - operators (plan_of plan.now)) else None) }
{
    match plan {
        NamedPlan::Path(_) => Some(limit),
        NamedPlan::Outer(_, below) | NamedPlan::Inner(_, below) => left_of(limit, below),
        NamedPlan::Union(a, b) | NamedPlan::Cross(a, b) => {
            if limit == 0 {
                return None;
            }
            let left = left_of(limit - 1, a)?;
            left_of(left, b)
        }
    }
}

/// Whether a plan has no more operators than it may.
pub fn has_few_operators(plan: &NamedPlan) -> bool
    ensures { result ≡ nat_le (operators (plan_of plan.now)) max_operators }
{
    left_of(MAX_OPERATORS, plan).is_some()
}
