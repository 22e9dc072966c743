//! What may stand at one level of parentheses, with a function that reads what stands inside them.

ghost use Rattle.std.specs.Prelude.{◌≡◌, length};
ghost use Rattle.sj_base.specs.Gives.{Gives};
ghost use Rattle.sj_path_grammar.specs.Reading as reading;
ghost use Rattle.sj_path_tree.specs.View.{expr_of, step_of, sub_of, subs_of, pred_of};
ghost use Rattle.sj_path.specs.Found.{expr_or_pred_of};
ghost use Rattle.sj_path.specs.Nests.{Nests};

use crate::found::ExprOrPred;
use crate::make::with_first;
use crate::{make, predicate, single, step};
use sj_base::{ParseRefusal, boxed};
use sj_path_token::{Keyword, Token};
use sj_path_tree::{Expr, Pred, Step, Sub};
use std::alloc::Global;

#[derive(Clone, Copy)]
pub struct Level<F> {
    pub alloc: Global,
    /// How deep parentheses may still nest.
    pub depth: usize,
    /// Reads an expression or a predicate inside them.
    pub inner: F,
}

impl<F: Fn(Global, usize, &[Token]) -> Result<(ExprOrPred, &[Token]), ParseRefusal>> Level<F> {
    fn inner<'a>(&self, tokens: &'a [Token]) -> Result<(ExprOrPred, &'a [Token]), ParseRefusal>
        requires { Nests self.now.depth (F.pre self.now.inner) (F.post self.now.inner) }
        ensures { Gives (λ x. (expr_or_pred_of x.0, x.1.now)) result (reading.expr_or_pred_at self.now.depth tokens.now) }
    {
        (self.inner)(self.alloc, self.depth, tokens)
    }

    #[tactic(auto, unfolding(sj_path_grammar::specs::Reading::inner_expr))]
    pub fn inner_expr<'a>(
        &self,
        tokens: &'a [Token],
    ) -> Result<(Box<Expr>, &'a [Token]), ParseRefusal>
        requires { Nests self.now.depth (F.pre self.now.inner) (F.post self.now.inner) }
        ensures { Gives (λ x. (expr_of x.0.value, x.1.now)) result (reading.inner_expr (reading.expr_or_pred_at self.now.depth) tokens.now) }
    {
        let (found, rest) = self.inner(tokens)?;
        match found {
            ExprOrPred::Value(e) => Ok((e, rest)),
            ExprOrPred::Test(_) => Err(ParseRefusal::Syntax),
        }
    }

    #[tactic(auto, unfolding(sj_path_grammar::specs::Reading::sub_at))]
    fn sub<'a>(&self, tokens: &'a [Token]) -> Result<(Box<Sub>, &'a [Token]), ParseRefusal>
        requires { Nests self.now.depth (F.pre self.now.inner) (F.post self.now.inner) }
        ensures { Gives (λ x. (sub_of x.0.value, x.1.now)) result (reading.sub_at (reading.expr_or_pred_at self.now.depth) tokens.now) }
    {
        let (from, rest) = self.inner_expr(tokens)?;
        let Some(rest) = single::to(rest) else {
            return Ok((boxed(self.alloc, Sub::One(Box::into_inner(from)))?, rest));
        };
        let (to, rest) = self.inner_expr(rest)?;
        let range = Sub::Range(Box::into_inner(from), Box::into_inner(to));
        Ok((boxed(self.alloc, range)?, rest))
    }

    /// A list of subscripts, which has at least one. The limit on commas keeps it short.
    #[tactic(auto, unfolding(sj_path_grammar::specs::Reading::subs_at))]
    fn subs<'a>(
        &self,
        turns: usize,
        tokens: &'a [Token],
    ) -> Result<(Vec<Sub>, &'a [Token]), ParseRefusal>
        requires { Nests self.now.depth (F.pre self.now.inner) (F.post self.now.inner) }
        ensures { Gives (λ x. (subs_of x.0.items, x.1.now)) result (reading.subs_at (reading.expr_or_pred_at self.now.depth) turns tokens.now) }
    {
        if turns == 0 {
            return Err(ParseRefusal::Syntax);
        }
        let (sub, rest) = self.sub(tokens)?;
        let Some(rest) = single::comma(rest) else {
            return Ok((with_first(Vec::new(self.alloc), sub)?, rest));
        };
        let (others, rest) = self.subs(turns - 1, rest)?;
        Ok((with_first(others, sub)?, rest))
    }

    #[tactic(auto, using(sj_path_tree::proofs::Rows::elements), unfolding(sj_path_grammar::specs::Reading::after_bracket))]
    fn after_bracket<'a>(&self, tokens: &'a [Token]) -> Result<(Step, &'a [Token]), ParseRefusal>
        requires { Nests self.now.depth (F.pre self.now.inner) (F.post self.now.inner) }
        ensures { Gives (λ x. (step_of x.0, x.1.now)) result (reading.after_bracket (reading.expr_or_pred_at self.now.depth) tokens.now) }
    {
        if let Some(rest) = single::star(tokens) {
            let Some(rest) = single::bracket(rest) else {
                return Err(ParseRefusal::Syntax);
            };
            return Ok((Step::AllElements, rest));
        }
        let (subs, rest) = self.subs(tokens.len(), tokens)?;
        let Some(rest) = single::bracket(rest) else {
            return Err(ParseRefusal::Syntax);
        };
        Ok((Step::Elements(subs), rest))
    }

    /// A predicate, behind the parenthesis that it stands in.
    #[tactic(auto, unfolding(sj_path_grammar::specs::Reading::group_at, sj_path_grammar::specs::Reading::inner_pred))]
    fn group<'a>(&self, tokens: &'a [Token]) -> Result<(Box<Pred>, &'a [Token]), ParseRefusal>
        requires { Nests self.now.depth (F.pre self.now.inner) (F.post self.now.inner) }
        ensures { Gives (λ x. (pred_of x.0.value, x.1.now)) result (reading.group_at (reading.expr_or_pred_at self.now.depth) tokens.now) }
    {
        let (found, rest) = self.inner(tokens)?;
        let ExprOrPred::Test(p) = found else {
            return Err(ParseRefusal::Syntax);
        };
        let Some(rest) = single::close(rest) else {
            return Err(ParseRefusal::Syntax);
        };
        Ok((p, rest))
    }

    #[tactic(auto, unfolding(sj_path_grammar::specs::Reading::after_question, sj_path_grammar::specs::Reading::group_at))]
    fn after_question<'a>(&self, tokens: &'a [Token]) -> Result<(Step, &'a [Token]), ParseRefusal>
        requires { Nests self.now.depth (F.pre self.now.inner) (F.post self.now.inner) }
        ensures { Gives (λ x. (step_of x.0, x.1.now)) result (reading.after_question (reading.expr_or_pred_at self.now.depth) tokens.now) }
    {
        let Some(rest) = single::open(tokens) else {
            return Err(ParseRefusal::Syntax);
        };
        let (p, rest) = self.group(rest)?;
        Ok((Step::Filter(p), rest))
    }

    #[tactic(auto, unfolding(sj_path_grammar::specs::Reading::step_at))]
    fn step<'a>(&self, tokens: &'a [Token]) -> Result<(Step, &'a [Token]), ParseRefusal>
        requires { Nests self.now.depth (F.pre self.now.inner) (F.post self.now.inner) }
        ensures { Gives (λ x. (step_of x.0, x.1.now)) result (reading.step_at (reading.expr_or_pred_at self.now.depth) tokens.now) }
    {
        match tokens {
            [Token::Dot, rest @ ..] => step::after_dot(self.alloc, rest),
            [Token::OpenBracket, rest @ ..] => self.after_bracket(rest),
            [Token::Question, rest @ ..] => self.after_question(rest),
            _ => Err(ParseRefusal::Syntax),
        }
    }

    #[tactic(auto, unfolding(sj_path_grammar::specs::Reading::access_from))]
    fn access_from<'a>(
        &self,
        x: Box<Expr>,
        tokens: &'a [Token],
    ) -> Result<(Box<Expr>, &'a [Token]), ParseRefusal>
        requires { Nests self.now.depth (F.pre self.now.inner) (F.post self.now.inner) }
        ensures { Gives (λ x. (expr_of x.0.value, x.1.now)) result (reading.access_from (reading.expr_or_pred_at self.now.depth) (length tokens.now) (expr_of x.value) tokens.now) }
    {
        let mut e = x;
        let mut rest = tokens;
        for _turn in 0..tokens.len() {
            if !single::begins_step(rest) {
                return Ok((e, rest));
            }
            let (step, after) = self.step(rest)?;
            e = make::access(self.alloc, e, step)?;
            rest = after;
        }
        Ok((e, rest))
    }

    /// An operand and the accessors behind it.
    #[tactic(auto, unfolding(sj_path_grammar::specs::Reading::access_at, sj_path_grammar::specs::Reading::primary_at))]
    fn access<'a>(&self, tokens: &'a [Token]) -> Result<(Box<Expr>, &'a [Token]), ParseRefusal>
        requires { Nests self.now.depth (F.pre self.now.inner) (F.post self.now.inner) }
        ensures { Gives (λ x. (expr_of x.0.value, x.1.now)) result (reading.access_at (reading.expr_or_pred_at self.now.depth) tokens.now) }
    {
        match tokens {
            [] => Err(ParseRefusal::Syntax),
            [Token::Open, rest @ ..] => {
                let (e, rest) = self.inner_expr(rest)?;
                let Some(rest) = single::close(rest) else {
                    return Err(ParseRefusal::Syntax);
                };
                self.access_from(e, rest)
            }
            [token, rest @ ..] => {
                let e = single::expr(self.alloc, token)?;
                self.access_from(boxed(self.alloc, e)?, rest)
            }
        }
    }

    #[tactic(auto, unfolding(sj_path_grammar::specs::Reading::unary_at))]
    fn unary<'a>(&self, tokens: &'a [Token]) -> Result<(Box<Expr>, &'a [Token]), ParseRefusal>
        requires { Nests self.now.depth (F.pre self.now.inner) (F.post self.now.inner) }
        ensures { Gives (λ x. (expr_of x.0.value, x.1.now)) result (reading.unary_at (reading.expr_or_pred_at self.now.depth) tokens.now) }
    {
        match tokens {
            [] => Err(ParseRefusal::Syntax),
            [Token::Plus, rest @ ..] => {
                let (e, rest) = self.unary(rest)?;
                Ok((boxed(self.alloc, Expr::Plus(e))?, rest))
            }
            [Token::Minus, rest @ ..] => {
                let (e, rest) = self.unary(rest)?;
                Ok((boxed(self.alloc, Expr::Minus(e))?, rest))
            }
            _ => self.access(tokens),
        }
    }

    #[tactic(auto, unfolding(sj_path_grammar::specs::Reading::product_from))]
    fn product_from<'a>(
        &self,
        x: Box<Expr>,
        tokens: &'a [Token],
    ) -> Result<(Box<Expr>, &'a [Token]), ParseRefusal>
        requires { Nests self.now.depth (F.pre self.now.inner) (F.post self.now.inner) }
        ensures { Gives (λ x. (expr_of x.0.value, x.1.now)) result (reading.product_from (reading.expr_or_pred_at self.now.depth) (length tokens.now) (expr_of x.value) tokens.now) }
    {
        let mut e = x;
        let mut rest = tokens;
        for _turn in 0..tokens.len() {
            let Some((op, operand)) = single::mul_sign(rest) else {
                return Ok((e, rest));
            };
            let (y, after) = self.unary(operand)?;
            e = make::binary(self.alloc, op, e, y)?;
            rest = after;
        }
        Ok((e, rest))
    }

    #[tactic(auto, unfolding(sj_path_grammar::specs::Reading::term_at))]
    fn term<'a>(&self, tokens: &'a [Token]) -> Result<(Box<Expr>, &'a [Token]), ParseRefusal>
        requires { Nests self.now.depth (F.pre self.now.inner) (F.post self.now.inner) }
        ensures { Gives (λ x. (expr_of x.0.value, x.1.now)) result (reading.term_at (reading.expr_or_pred_at self.now.depth) tokens.now) }
    {
        let (x, rest) = self.unary(tokens)?;
        self.product_from(x, rest)
    }

    #[tactic(auto, unfolding(sj_path_grammar::specs::Reading::sum_from))]
    fn sum_from<'a>(
        &self,
        x: Box<Expr>,
        tokens: &'a [Token],
    ) -> Result<(Box<Expr>, &'a [Token]), ParseRefusal>
        requires { Nests self.now.depth (F.pre self.now.inner) (F.post self.now.inner) }
        ensures { Gives (λ x. (expr_of x.0.value, x.1.now)) result (reading.sum_from (reading.expr_or_pred_at self.now.depth) (length tokens.now) (expr_of x.value) tokens.now) }
    {
        let mut e = x;
        let mut rest = tokens;
        for _turn in 0..tokens.len() {
            let Some((op, operand)) = single::add_sign(rest) else {
                return Ok((e, rest));
            };
            let (y, after) = self.term(operand)?;
            e = make::binary(self.alloc, op, e, y)?;
            rest = after;
        }
        Ok((e, rest))
    }

    #[tactic(auto, unfolding(sj_path_grammar::specs::Reading::expr_at))]
    fn expr<'a>(&self, tokens: &'a [Token]) -> Result<(Box<Expr>, &'a [Token]), ParseRefusal>
        requires { Nests self.now.depth (F.pre self.now.inner) (F.post self.now.inner) }
        ensures { Gives (λ x. (expr_of x.0.value, x.1.now)) result (reading.expr_at (reading.expr_or_pred_at self.now.depth) tokens.now) }
    {
        let (x, rest) = self.term(tokens)?;
        self.sum_from(x, rest)
    }

    /// What stands behind an expression.
    #[tactic(auto, unfolding(sj_path_grammar::specs::Reading::test_from))]
    fn test_from<'a>(
        &self,
        e: Box<Expr>,
        tokens: &'a [Token],
    ) -> Result<(ExprOrPred, &'a [Token]), ParseRefusal>
        requires { Nests self.now.depth (F.pre self.now.inner) (F.post self.now.inner) }
        ensures { Gives (λ x. (expr_or_pred_of x.0, x.1.now)) result (reading.test_from (reading.expr_or_pred_at self.now.depth) (expr_of e.value) tokens.now) }
    {
        match tokens {
            [Token::Compare(op), rest @ ..] => {
                let (b, rest) = self.expr(rest)?;
                let p = boxed(
                    self.alloc,
                    Pred::Compare(*op, Box::into_inner(e), Box::into_inner(b)),
                )?;
                Ok((ExprOrPred::Test(p), rest))
            }
            [Token::Word(Keyword::Starts, _), rest @ ..] => {
                let Some(rest) = single::with(rest) else {
                    return Err(ParseRefusal::Syntax);
                };
                predicate::initial(self.alloc, e, rest)
            }
            [Token::Word(Keyword::LikeRegex, _), rest @ ..] => {
                let (_pattern, rest) = single::quoted(self.alloc, rest)?;
                predicate::flags(self.alloc, e, rest)
            }
            _ => Ok((ExprOrPred::Value(e), tokens)),
        }
    }

    #[tactic(auto, unfolding(sj_path_grammar::specs::Reading::tested))]
    fn tested<'a>(&self, tokens: &'a [Token]) -> Result<(ExprOrPred, &'a [Token]), ParseRefusal>
        requires { Nests self.now.depth (F.pre self.now.inner) (F.post self.now.inner) }
        ensures { Gives (λ x. (expr_or_pred_of x.0, x.1.now)) result (reading.tested (reading.expr_or_pred_at self.now.depth) tokens.now) }
    {
        let (e, rest) = self.expr(tokens)?;
        self.test_from(e, rest)
    }

    /// What stands behind a parenthesis that was closed.
    #[tactic(auto, unfolding(sj_path_grammar::specs::Reading::after_group, sj_path_grammar::specs::Reading::expr_from))]
    fn after_group<'a>(
        &self,
        x: ExprOrPred,
        tokens: &'a [Token],
    ) -> Result<(ExprOrPred, &'a [Token]), ParseRefusal>
        requires { Nests self.now.depth (F.pre self.now.inner) (F.post self.now.inner) }
        ensures { Gives (λ x. (expr_or_pred_of x.0, x.1.now)) result (reading.after_group (reading.expr_or_pred_at self.now.depth) (expr_or_pred_of x) tokens.now) }
    {
        match x {
            ExprOrPred::Value(e) => {
                let (e, rest) = self.access_from(e, tokens)?;
                let (e, rest) = self.product_from(e, rest)?;
                let (e, rest) = self.sum_from(e, rest)?;
                self.test_from(e, rest)
            }
            ExprOrPred::Test(p) => predicate::unknown(self.alloc, p, tokens),
        }
    }

    #[tactic(auto, unfolding(sj_path_grammar::specs::Reading::exists_at))]
    fn exists<'a>(&self, tokens: &'a [Token]) -> Result<(Box<Pred>, &'a [Token]), ParseRefusal>
        requires { Nests self.now.depth (F.pre self.now.inner) (F.post self.now.inner) }
        ensures { Gives (λ x. (pred_of x.0.value, x.1.now)) result (reading.exists_at (reading.expr_or_pred_at self.now.depth) tokens.now) }
    {
        let Some(rest) = single::open(tokens) else {
            return Err(ParseRefusal::Syntax);
        };
        let (e, rest) = self.inner_expr(rest)?;
        let Some(rest) = single::close(rest) else {
            return Err(ParseRefusal::Syntax);
        };
        Ok((boxed(self.alloc, Pred::Exists(Box::into_inner(e)))?, rest))
    }

    #[tactic(auto, unfolding(sj_path_grammar::specs::Reading::delim_at))]
    fn delim<'a>(&self, tokens: &'a [Token]) -> Result<(Box<Pred>, &'a [Token]), ParseRefusal>
        requires { Nests self.now.depth (F.pre self.now.inner) (F.post self.now.inner) }
        ensures { Gives (λ x. (pred_of x.0.value, x.1.now)) result (reading.delim_at (reading.expr_or_pred_at self.now.depth) tokens.now) }
    {
        match tokens {
            [Token::Open, rest @ ..] => self.group(rest),
            [Token::Word(Keyword::Exists, _), rest @ ..] => self.exists(rest),
            _ => Err(ParseRefusal::Syntax),
        }
    }

    /// A predicate with no `&&` and no `||`, or an expression.
    #[tactic(auto, unfolding(sj_path_grammar::specs::Reading::neg_at))]
    fn neg<'a>(&self, tokens: &'a [Token]) -> Result<(ExprOrPred, &'a [Token]), ParseRefusal>
        requires { Nests self.now.depth (F.pre self.now.inner) (F.post self.now.inner) }
        ensures { Gives (λ x. (expr_or_pred_of x.0, x.1.now)) result (reading.neg_at (reading.expr_or_pred_at self.now.depth) tokens.now) }
    {
        match tokens {
            [] => Err(ParseRefusal::Syntax),
            [Token::Not, rest @ ..] => {
                let (p, rest) = self.delim(rest)?;
                let p = boxed(self.alloc, Pred::Not(p))?;
                Ok((ExprOrPred::Test(p), rest))
            }
            [Token::Open, rest @ ..] => {
                let (x, rest) = self.inner(rest)?;
                let Some(rest) = single::close(rest) else {
                    return Err(ParseRefusal::Syntax);
                };
                self.after_group(x, rest)
            }
            [Token::Word(Keyword::Exists, _), rest @ ..] => {
                let (p, rest) = self.exists(rest)?;
                Ok((ExprOrPred::Test(p), rest))
            }
            _ => self.tested(tokens),
        }
    }

    #[tactic(auto, unfolding(sj_path_grammar::specs::Reading::test_at))]
    fn test<'a>(&self, tokens: &'a [Token]) -> Result<(Box<Pred>, &'a [Token]), ParseRefusal>
        requires { Nests self.now.depth (F.pre self.now.inner) (F.post self.now.inner) }
        ensures { Gives (λ x. (pred_of x.0.value, x.1.now)) result (reading.test_at (reading.expr_or_pred_at self.now.depth) tokens.now) }
    {
        let (found, rest) = self.neg(tokens)?;
        match found {
            ExprOrPred::Value(_) => Err(ParseRefusal::Syntax),
            ExprOrPred::Test(p) => Ok((p, rest)),
        }
    }

    #[tactic(auto, unfolding(sj_path_grammar::specs::Reading::and_from))]
    fn and_from<'a>(
        &self,
        p: Box<Pred>,
        tokens: &'a [Token],
    ) -> Result<(Box<Pred>, &'a [Token]), ParseRefusal>
        requires { Nests self.now.depth (F.pre self.now.inner) (F.post self.now.inner) }
        ensures { Gives (λ x. (pred_of x.0.value, x.1.now)) result (reading.and_from (reading.expr_or_pred_at self.now.depth) (length tokens.now) (pred_of p.value) tokens.now) }
    {
        let mut q = p;
        let mut rest = tokens;
        for _turn in 0..tokens.len() {
            let Some(operand) = single::and(rest) else {
                return Ok((q, rest));
            };
            let (other, after) = self.test(operand)?;
            q = make::and(self.alloc, q, other)?;
            rest = after;
        }
        Ok((q, rest))
    }

    #[tactic(auto, unfolding(sj_path_grammar::specs::Reading::conj_at))]
    fn conj<'a>(&self, tokens: &'a [Token]) -> Result<(Box<Pred>, &'a [Token]), ParseRefusal>
        requires { Nests self.now.depth (F.pre self.now.inner) (F.post self.now.inner) }
        ensures { Gives (λ x. (pred_of x.0.value, x.1.now)) result (reading.conj_at (reading.expr_or_pred_at self.now.depth) tokens.now) }
    {
        let (p, rest) = self.test(tokens)?;
        self.and_from(p, rest)
    }

    #[tactic(auto, unfolding(sj_path_grammar::specs::Reading::or_from))]
    fn or_from<'a>(
        &self,
        p: Box<Pred>,
        tokens: &'a [Token],
    ) -> Result<(Box<Pred>, &'a [Token]), ParseRefusal>
        requires { Nests self.now.depth (F.pre self.now.inner) (F.post self.now.inner) }
        ensures { Gives (λ x. (pred_of x.0.value, x.1.now)) result (reading.or_from (reading.expr_or_pred_at self.now.depth) (length tokens.now) (pred_of p.value) tokens.now) }
    {
        let mut q = p;
        let mut rest = tokens;
        for _turn in 0..tokens.len() {
            let Some(operand) = single::or(rest) else {
                return Ok((q, rest));
            };
            let (other, after) = self.conj(operand)?;
            q = make::or(self.alloc, q, other)?;
            rest = after;
        }
        Ok((q, rest))
    }

    #[tactic(auto, unfolding(sj_path_grammar::specs::Reading::pred_from))]
    fn pred_from<'a>(
        &self,
        x: ExprOrPred,
        tokens: &'a [Token],
    ) -> Result<(ExprOrPred, &'a [Token]), ParseRefusal>
        requires { Nests self.now.depth (F.pre self.now.inner) (F.post self.now.inner) }
        ensures { Gives (λ x. (expr_or_pred_of x.0, x.1.now)) result (reading.pred_from (reading.expr_or_pred_at self.now.depth) (expr_or_pred_of x) tokens.now) }
    {
        match x {
            ExprOrPred::Value(e) => Ok((ExprOrPred::Value(e), tokens)),
            ExprOrPred::Test(p) => {
                let (p, rest) = self.and_from(p, tokens)?;
                let (p, rest) = self.or_from(p, rest)?;
                Ok((ExprOrPred::Test(p), rest))
            }
        }
    }

    #[tactic(auto, unfolding(sj_path_grammar::specs::Reading::expr_or_pred_over))]
    fn over<'a>(&self, tokens: &'a [Token]) -> Result<(ExprOrPred, &'a [Token]), ParseRefusal>
        requires { Nests self.now.depth (F.pre self.now.inner) (F.post self.now.inner) }
        ensures { Gives (λ x. (expr_or_pred_of x.0, x.1.now)) result (reading.expr_or_pred_over (reading.expr_or_pred_at self.now.depth) tokens.now) }
    {
        let (x, rest) = self.neg(tokens)?;
        self.pred_from(x, rest)
    }
}

/// An expression or a predicate, with parentheses inside one another at most `depth` deep.
pub fn expr_or_pred(
    alloc: Global,
    depth: usize,
    tokens: &[Token],
) -> Result<(ExprOrPred, &[Token]), ParseRefusal>
    ensures { Gives (λ x. (expr_or_pred_of x.0, x.1.now)) result (reading.expr_or_pred_at depth tokens.now) }
{
    if depth == 0 {
        return Err(ParseRefusal::Syntax);
    }
    Level {
        alloc,
        depth: depth - 1,
        inner: expr_or_pred,
    }
    .over(tokens)
}
