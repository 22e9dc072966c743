//! The plan of a table, with a function that reads what stands inside parentheses.

ghost use Rattle.std.specs.Prelude.{◌≡◌, IfOk, length, option_map};
ghost use Rattle.sj_base.specs.Gives.{Gives};
ghost use Rattle.sj_sql_grammar.specs.Phrases as phrase;
ghost use Rattle.sj_sql_grammar.specs.Reading as reading;
ghost use Rattle.sj_sql_grammar.specs.Tree as t;
ghost use Rattle.sj_sql_phrase.specs.Nests.{PlanNests};
ghost use Rattle.sj_sql_phrase.specs.Plans as plans;
ghost use Rattle.sj_sql_tree.specs.View.{plan_of, plan_tree_of};

use crate::meaning::meant;
use crate::operators::has_few_operators;
use crate::single::{Rest, Tokens, close, comma, name, open, word};
use sj_base::{Memory, ParseRefusal, Text, boxed};
use sj_sql_grammar::{InOut, Siblings};
use sj_sql_token::Keyword;
use sj_sql_tree::{NamedPlan, PlanTree};
use std::alloc::Global;

fn union_of(alloc: Global, a: NamedPlan, b: NamedPlan) -> Result<NamedPlan, Memory>
    ensures { IfOk result (λ x. plan_of x ≡ (t.Union (plan_of a) (plan_of b))) }
{
    Ok(NamedPlan::Union(boxed(alloc, a)?, boxed(alloc, b)?))
}

fn cross_of(alloc: Global, a: NamedPlan, b: NamedPlan) -> Result<NamedPlan, Memory>
    ensures { IfOk result (λ x. plan_of x ≡ (t.Cross (plan_of a) (plan_of b))) }
{
    Ok(NamedPlan::Cross(boxed(alloc, a)?, boxed(alloc, b)?))
}

/// What may stand at one level of parentheses.
#[derive(Clone, Copy)]
struct Level<F> {
    alloc: Global,
    /// How deep parentheses may still nest.
    depth: usize,
    inner: F,
}

impl<F: Fn(Global, usize, Tokens<'_>) -> Result<(NamedPlan, Tokens<'_>), ParseRefusal>> Level<F> {
    fn inner<'a>(&self, tokens: Tokens<'a>) -> Result<(NamedPlan, Tokens<'a>), ParseRefusal>
        requires { PlanNests self.now.depth (F.pre self.now.inner) (F.post self.now.inner) }
        ensures { Gives (λ x. (plan_of x.0, x.1.now)) result (reading.plan_expr_at self.now.depth tokens.now) }
    {
        (self.inner)(self.alloc, self.depth, tokens)
    }

    /// Behind an opening parenthesis.
    #[tactic(auto, unfolding(sj_sql_grammar::specs::Reading::plan_parens_at))]
    fn parens<'a>(&self, tokens: Tokens<'a>) -> Result<(NamedPlan, Tokens<'a>), ParseRefusal>
        requires { PlanNests self.now.depth (F.pre self.now.inner) (F.post self.now.inner) }
        ensures { Gives (λ x. (plan_of x.0, x.1.now)) result (reading.plan_parens_at (reading.plan_expr_at self.now.depth) tokens.now) }
    {
        let (plan, rest) = self.inner(tokens)?;
        let Some(rest) = close(rest) else {
            return Err(ParseRefusal::Syntax);
        };
        Ok((plan, rest))
    }

    /// A name, or a plan in parentheses.
    #[tactic(auto, unfolding(sj_sql_grammar::specs::Reading::plan_prim_at))]
    fn operand<'a>(&self, tokens: Tokens<'a>) -> Result<(NamedPlan, Tokens<'a>), ParseRefusal>
        requires { PlanNests self.now.depth (F.pre self.now.inner) (F.post self.now.inner) }
        ensures { Gives (λ x. (plan_of x.0, x.1.now)) result (reading.plan_prim_at (reading.plan_expr_at self.now.depth) tokens.now) }
    {
        if let Some(rest) = open(tokens) {
            return self.parens(rest);
        }
        let (name, rest) = name(self.alloc, tokens)?;
        Ok((NamedPlan::Path(name), rest))
    }

    /// The other operands of UNION.
    #[tactic(auto, unfolding(sj_sql_grammar::specs::Reading::union_from))]
    fn union<'a>(
        &self,
        first: NamedPlan,
        tokens: Tokens<'a>,
    ) -> Result<(NamedPlan, Tokens<'a>), ParseRefusal>
        requires { PlanNests self.now.depth (F.pre self.now.inner) (F.post self.now.inner) }
        ensures { Gives (λ x. (plan_of x.0, x.1.now)) result (reading.union_from (reading.plan_expr_at self.now.depth) (length tokens.now) (plan_of first) tokens.now) }
    {
        let mut plan = first;
        let mut left = Rest { tokens };
        for _turn in 0..tokens.len() {
            let Some(operand) = word(Keyword::Union, left.tokens) else {
                return Ok((plan, left.tokens));
            };
            let (other, after) = self.operand(operand)?;
            plan = union_of(self.alloc, plan, other)?;
            left = Rest { tokens: after };
        }
        Ok((plan, left.tokens))
    }

    /// The other operands of CROSS.
    #[tactic(auto, unfolding(sj_sql_grammar::specs::Reading::cross_from))]
    fn cross<'a>(
        &self,
        first: NamedPlan,
        tokens: Tokens<'a>,
    ) -> Result<(NamedPlan, Tokens<'a>), ParseRefusal>
        requires { PlanNests self.now.depth (F.pre self.now.inner) (F.post self.now.inner) }
        ensures { Gives (λ x. (plan_of x.0, x.1.now)) result (reading.cross_from (reading.plan_expr_at self.now.depth) (length tokens.now) (plan_of first) tokens.now) }
    {
        let mut plan = first;
        let mut left = Rest { tokens };
        for _turn in 0..tokens.len() {
            let Some(operand) = word(Keyword::Cross, left.tokens) else {
                return Ok((plan, left.tokens));
            };
            let (other, after) = self.operand(operand)?;
            plan = cross_of(self.alloc, plan, other)?;
            left = Rest { tokens: after };
        }
        Ok((plan, left.tokens))
    }

    /// Behind a plan, which an operator has to follow.
    #[tactic(auto, unfolding(sj_sql_grammar::specs::Reading::joined_at))]
    fn joined<'a>(
        &self,
        first: NamedPlan,
        tokens: Tokens<'a>,
    ) -> Result<(NamedPlan, Tokens<'a>), ParseRefusal>
        requires { PlanNests self.now.depth (F.pre self.now.inner) (F.post self.now.inner) }
        ensures { Gives (λ x. (plan_of x.0, x.1.now)) result (reading.joined_at (reading.plan_expr_at self.now.depth) (plan_of first) tokens.now) }
    {
        if let Some(rest) = word(Keyword::Union, tokens) {
            let (other, rest) = self.operand(rest)?;
            return self.union(union_of(self.alloc, first, other)?, rest);
        }
        let Some(rest) = word(Keyword::Cross, tokens) else {
            return Err(ParseRefusal::Syntax);
        };
        let (other, rest) = self.operand(rest)?;
        self.cross(cross_of(self.alloc, first, other)?, rest)
    }

    /// Behind a name that stands alone, or an operator follows.
    fn joined_or_lone<'a>(
        &self,
        name: Text,
        tokens: Tokens<'a>,
    ) -> Result<(NamedPlan, Tokens<'a>), ParseRefusal>
        requires { PlanNests self.now.depth (F.pre self.now.inner) (F.post self.now.inner) }
        ensures { Gives (λ x. (plan_of x.0, x.1.now)) result
            (reading.optional (reading.joined_at (reading.plan_expr_at self.now.depth) (t.PathOf name)) (t.PathOf name) tokens.now) }
    {
        let first = NamedPlan::Path(Text::from_str(self.alloc, name.as_str())?);
        match self.joined(first, tokens) {
            Ok(read) => Ok(read),
            Err(ParseRefusal::Syntax) => Ok((NamedPlan::Path(name), tokens)),
            Err(ParseRefusal::Memory) => Err(ParseRefusal::Memory),
        }
    }

    /// Behind a name.
    #[tactic(auto, unfolding(sj_sql_grammar::specs::Reading::named_plan_at))]
    fn named<'a>(
        &self,
        name: Text,
        tokens: Tokens<'a>,
    ) -> Result<(NamedPlan, Tokens<'a>), ParseRefusal>
        requires { PlanNests self.now.depth (F.pre self.now.inner) (F.post self.now.inner) }
        ensures { Gives (λ x. (plan_of x.0, x.1.now)) result (reading.named_plan_at (reading.plan_expr_at self.now.depth) name tokens.now) }
    {
        if let Some(rest) = word(Keyword::Outer, tokens) {
            let (below, rest) = self.operand(rest)?;
            let below = boxed(self.alloc, below)?;
            return Ok((NamedPlan::Outer(name, below), rest));
        }
        if let Some(rest) = word(Keyword::Inner, tokens) {
            let (below, rest) = self.operand(rest)?;
            let below = boxed(self.alloc, below)?;
            return Ok((NamedPlan::Inner(name, below), rest));
        }
        self.joined_or_lone(name, tokens)
    }

    /// A plan.
    #[tactic(auto, unfolding(sj_sql_grammar::specs::Reading::plan_over))]
    fn over<'a>(&self, tokens: Tokens<'a>) -> Result<(NamedPlan, Tokens<'a>), ParseRefusal>
        requires { PlanNests self.now.depth (F.pre self.now.inner) (F.post self.now.inner) }
        ensures { Gives (λ x. (plan_of x.0, x.1.now)) result (reading.plan_over (reading.plan_expr_at self.now.depth) tokens.now) }
    {
        if let Some(rest) = open(tokens) {
            let (first, rest) = self.parens(rest)?;
            return self.joined(first, rest);
        }
        let (name, rest) = name(self.alloc, tokens)?;
        self.named(name, rest)
    }
}

/// A plan that names paths, with parentheses inside one another at most `depth` deep.
fn named_plan(
    alloc: Global,
    depth: usize,
    tokens: Tokens<'_>,
) -> Result<(NamedPlan, Tokens<'_>), ParseRefusal>
    ensures { Gives (λ x. (plan_of x.0, x.1.now)) result (reading.plan_expr_at depth tokens.now) }
{
    if depth == 0 {
        return Err(ParseRefusal::Syntax);
    }
    Level {
        alloc,
        depth: depth - 1,
        inner: named_plan,
    }
    .over(tokens)
}

/// How siblings are joined, behind how paths are joined with those below them.
fn behind_in_out(in_out: InOut, tokens: Tokens<'_>) -> Option<(PlanTree, Tokens<'_>)>
    ensures { option_map (λ x. (plan_tree_of x.0, x.1.now)) result ≡ plans.behind_in_out in_out tokens.now }
{
    let Some(rest) = comma(tokens) else {
        return Some((PlanTree::Default(in_out, Siblings::Union), tokens));
    };
    let (siblings, rest) = meant::<Siblings>(rest)?;
    Some((PlanTree::Default(in_out, siblings), rest))
}

/// How paths are joined with those below them, behind how siblings are joined.
fn behind_siblings(siblings: Siblings, tokens: Tokens<'_>) -> Option<(PlanTree, Tokens<'_>)>
    ensures { option_map (λ x. (plan_tree_of x.0, x.1.now)) result ≡ plans.behind_siblings siblings tokens.now }
{
    let Some(rest) = comma(tokens) else {
        return Some((PlanTree::Default(InOut::Outer, siblings), tokens));
    };
    let (in_out, rest) = meant::<InOut>(rest)?;
    Some((PlanTree::Default(in_out, siblings), rest))
}

/// What stands inside the parentheses of PLAN DEFAULT.
#[tactic(auto, unfolding(sj_sql_grammar::specs::Phrases::default_at))]
fn default_plan(tokens: Tokens<'_>) -> Option<(PlanTree, Tokens<'_>)>
    ensures { option_map (λ x. (plan_tree_of x.0, x.1.now)) result ≡ phrase.default_at tokens.now }
{
    if let Some((in_out, rest)) = meant::<InOut>(tokens) {
        return behind_in_out(in_out, rest);
    }
    let (siblings, rest) = meant::<Siblings>(tokens)?;
    behind_siblings(siblings, rest)
}

/// Behind PLAN DEFAULT.
fn default_clause(tokens: Tokens<'_>) -> Option<(PlanTree, Tokens<'_>)>
    ensures { option_map (λ x. (plan_tree_of x.0, x.1.now)) result ≡ plans.default_clause tokens.now }
{
    let (plan, rest) = default_plan(open(tokens)?)?;
    let rest = close(rest)?;
    Some((plan, rest))
}

/// A plan that names paths, behind PLAN. One with too many operators is refused here, and given up by a loop.
fn named_clause(alloc: Global, tokens: Tokens<'_>) -> Result<(PlanTree, Tokens<'_>), ParseRefusal>
    ensures { Gives (λ x. (plan_tree_of x.0, x.1.now)) result (plans.named_clause tokens.now) }
{
    let Some(rest) = open(tokens) else {
        return Err(ParseRefusal::Syntax);
    };
    let (plan, rest) = named_plan(alloc, rest.len() + 1, rest)?;
    let Some(rest) = close(rest) else {
        return Err(ParseRefusal::Syntax);
    };
    if has_few_operators(&plan) {
        Ok((PlanTree::Named(plan), rest))
    } else {
        Err(ParseRefusal::Syntax)
    }
}

/// The plan of a table: OUTER and UNION, unless a clause says another.
#[tactic(auto, unfolding(sj_sql_grammar::specs::Reading::plan_at))]
pub fn plan(alloc: Global, tokens: Tokens<'_>) -> Result<(PlanTree, Tokens<'_>), ParseRefusal>
    ensures { Gives (λ x. (plan_tree_of x.0, x.1.now)) result (reading.plan_at tokens.now) }
{
    let Some(rest) = word(Keyword::Plan, tokens) else {
        return Ok((PlanTree::Default(InOut::Outer, Siblings::Union), tokens));
    };
    match word(Keyword::Default, rest) {
        Some(rest) => default_clause(rest).ok_or(ParseRefusal::Syntax),
        None => named_clause(alloc, rest),
    }
}
