// The cells of a path, made whole: the only place that takes memory for them.
//
// What recurs over a path holds places of cells and no cell, and gives none up: what its frame holds is taken as often as a path
// is nested. Cells are made, and given up where memory runs out, by functions that do not recur and are kept out of line.
ghost use Rattle.std.specs.Prelude.{◌≡◌, IfOk};
ghost use Rattle.sj_path_tree.specs.Tree as tree;
ghost use Rattle.sj_path_tree.specs.View.{expr_of, step_of, sub_of, subs_of, pred_of};
ghost use Rattle.sj_cursor.specs.Cells.{source_expr, simple_on};
ghost use Rattle.sj_cursor.specs.Ends.{ends_core};
ghost use Rattle.sj_cursor.specs.Left.{core, doing, doing_on, part_core, parts_core, range_core, test_core};

use crate::cells::{
    Applied, At, Binary, Both, Bounds, Cell, Comparison, Each, Elements, Filter, MoreParts, One,
    Operand, Operator, Part, Parts, Range, Reached, Results, Simple, Source, Start, Test,
};
use crate::one::made;
use sj_base::{Memory, boxed};
use sj_path_tree::{Arith, Compare, Expr, Initial, Pred, Step, Sub};
use sj_walk::Walk;
use std::alloc::Global;

/// The cells of the subscripts of one part.
#[derive(Drop)]
enum Ends<'d> {
    One(Box<Cell<'d>>),
    Range(Box<Range<'d>>),
}

/// The cells of two expressions.
type TwoCells<'d> = (Box<Cell<'d>>, Box<Cell<'d>>);

// ---- expressions

/// The cells of an expression.
#[cycle(build)]
pub(crate) fn expr_cell<'d>(alloc: Global, expr: &'d Expr) -> Result<Box<Cell<'d>>, Memory>
    ensures { IfOk result (λ c. core c.value ≡ expr_of expr.now) }
{
    match expr {
        Expr::Root => one(alloc, Source::Root),
        Expr::Var(name) => one(alloc, Source::Var(name.as_str())),
        Expr::Context => one(alloc, Source::Context),
        Expr::Last => one(alloc, Source::Last),
        Expr::Lit(literal) => one(alloc, Source::Lit(made(literal))),
        Expr::Access(inner, step) => {
            let input = expr_cell(alloc, inner)?;
            step_cell(alloc, step, input)
        }
        Expr::Plus(inner) => applied(alloc, expr_cell(alloc, inner)?, Simple::Plus),
        Expr::Minus(inner) => applied(alloc, expr_cell(alloc, inner)?, Simple::Minus),
        Expr::Binary(op, left, right) => {
            let operands = two_cells(alloc, left, right)?;
            binary(alloc, *op, operands)
        }
    }
}

// The cells of two expressions.
#[cycle(build)]
#[inline(never)]
fn two_cells<'d>(alloc: Global, left: &'d Expr, right: &'d Expr) -> Result<TwoCells<'d>, Memory>
    ensures left { IfOk result (λ cells. core cells.0.value ≡ expr_of left.now) }
    ensures right { IfOk result (λ cells. core cells.1.value ≡ expr_of right.now) }
{
    let left = expr_cell(alloc, left)?;
    match expr_cell(alloc, right) {
        Ok(right) => Ok((left, right)),
        Err(memory) => Err(give_up(left, memory)),
    }
}

#[inline(never)]
fn one<'d>(alloc: Global, source: Source<'d>) -> Result<Box<Cell<'d>>, Memory>
    ensures { IfOk result (λ c. core c.value ≡ source_expr source.entry) }
{
    let cell = Cell::One(One {
        source,
        given: false,
    });
    boxed(alloc, cell)
}

// A cell that something is done with.
fn operand<'d>(cell: Box<Cell<'d>>) -> Operand<'d>
    ensures { result.cell ≡ cell.entry }
{
    Operand {
        cell,
        opened: Walk::ended(),
    }
}

#[inline(never)]
fn binary<'d>(alloc: Global, op: Arith, operands: TwoCells<'d>) -> Result<Box<Cell<'d>>, Memory>
    ensures { IfOk result (λ c. core c.value ≡ tree.Binary op (core operands.entry.0.value) (core operands.entry.1.value)) }
{
    let (left, right) = operands;
    let binary = Binary {
        op,
        left: operand(left),
        right: operand(right),
        reached: Reached::Unasked,
    };
    let binary = boxed(alloc, binary)?;
    boxed(alloc, Cell::Binary(binary))
}

// Where memory runs out, what was made is given up by one call.
#[inline(never)]
fn give_up<'d>(_cell: Box<Cell<'d>>, memory: Memory) -> Memory {
    memory
}

#[inline(never)]
fn give_up_ends<'d>(_ends: Ends<'d>, memory: Memory) -> Memory {
    memory
}

#[inline(never)]
fn give_up_test<'d>(_test: Box<Test<'d>>, memory: Memory) -> Memory {
    memory
}

// ---- accessors

// An accessor on an expression.
#[cycle(build)]
#[inline(never)]
#[tactic(auto, using(sj_path_tree::proofs::Rows::elements))]
fn step_cell<'d>(
    alloc: Global,
    step: &'d Step,
    input: Box<Cell<'d>>,
) -> Result<Box<Cell<'d>>, Memory>
    ensures { IfOk result (λ c. core c.value ≡ tree.Access (core input.entry.value) (step_of step.now)) }
{
    match step {
        Step::Member(key) => applied(alloc, input, Simple::Member(key.as_str())),
        Step::AllMembers => applied(alloc, input, Simple::AllMembers),
        Step::AllElements => applied(alloc, input, Simple::AllElements),
        Step::Method(method) => applied(alloc, input, Simple::Method(*method)),
        Step::Elements(subs) => match parts_cell(alloc, subs) {
            Ok(parts) => elements(alloc, input, parts),
            Err(memory) => Err(give_up(input, memory)),
        },
        Step::Filter(pred) => match test_cell(alloc, pred) {
            Ok(test) => filter(alloc, input, test),
            Err(memory) => Err(give_up(input, memory)),
        },
    }
}

// Something that is done with each item of an expression.
fn each<'d>(
    alloc: Global,
    input: Box<Cell<'d>>,
    operator: Operator<'d>,
) -> Result<Box<Cell<'d>>, Memory>
    ensures { IfOk result (λ c. core c.value ≡ doing_on (doing operator.entry) (core input.entry.value)) }
{
    let input = operand(input);
    boxed(alloc, Cell::Each(Each { input, operator }))
}

#[inline(never)]
fn applied<'d>(
    alloc: Global,
    input: Box<Cell<'d>>,
    simple: Simple<'d>,
) -> Result<Box<Cell<'d>>, Memory>
    ensures { IfOk result (λ c. core c.value ≡ simple_on simple.entry (core input.entry.value)) }
{
    let left = Results::Walk(Walk::ended());
    each(alloc, input, Operator::Simple(Applied { simple, left }))
}

#[inline(never)]
fn elements<'d>(
    alloc: Global,
    input: Box<Cell<'d>>,
    parts: Box<Parts<'d>>,
) -> Result<Box<Cell<'d>>, Memory>
    ensures { IfOk result (λ c. core c.value ≡ tree.Access (core input.entry.value) (tree.Elements (parts_core parts.entry.value))) }
{
    let at = At::Nothing;
    each(alloc, input, Operator::Elements(Elements { parts, at }))
}

#[inline(never)]
fn filter<'d>(
    alloc: Global,
    input: Box<Cell<'d>>,
    test: Box<Test<'d>>,
) -> Result<Box<Cell<'d>>, Memory>
    ensures { IfOk result (λ c. core c.value ≡ tree.Access (core input.entry.value) (tree.Filter (test_core test.entry.value))) }
{
    each(alloc, input, Operator::Filter(Filter { test }))
}

// ---- subscripts

#[cycle(build)]
#[inline(never)]
fn parts_cell<'d>(alloc: Global, subs: &'d [Sub]) -> Result<Box<Parts<'d>>, Memory>
    ensures { IfOk result (λ p. parts_core p.value ≡ subs_of subs.now) }
{
    match subs {
        [] => no_parts(alloc),
        [sub] => only(alloc, ends_cell(alloc, sub)?),
        [sub, others @ ..] => {
            let first = ends_cell(alloc, sub)?;
            match parts_cell(alloc, others) {
                Ok(others) => more(alloc, first, others),
                Err(memory) => Err(give_up_ends(first, memory)),
            }
        }
    }
}

#[cycle(build)]
#[inline(never)]
fn ends_cell<'d>(alloc: Global, sub: &'d Sub) -> Result<Ends<'d>, Memory>
    ensures { IfOk result (λ e. ends_core e ≡ sub_of sub.now) }
{
    match sub {
        Sub::One(index) => Ok(Ends::One(expr_cell(alloc, index)?)),
        Sub::Range(from, to) => {
            let (from, to) = two_cells(alloc, from, to)?;
            Ok(Ends::Range(range(alloc, from, to)?))
        }
    }
}

#[inline(never)]
fn range<'d>(
    alloc: Global,
    from: Box<Cell<'d>>,
    to: Box<Cell<'d>>,
) -> Result<Box<Range<'d>>, Memory>
    ensures { IfOk result (λ r. range_core r.value ≡ tree.Range (core from.entry.value) (core to.entry.value)) }
{
    let range = Range {
        from: operand(from),
        to: operand(to),
    };
    boxed(alloc, range)
}

fn part<'d>(ends: Ends<'d>) -> Part<'d>
    ensures { part_core result ≡ ends_core ends.entry }
{
    let bounds = match ends {
        Ends::One(index) => Bounds::One(operand(index)),
        Ends::Range(range) => Bounds::Range(range),
    };
    Part {
        bounds,
        reached: Reached::Unasked,
    }
}

#[inline(never)]
fn no_parts<'d>(alloc: Global) -> Result<Box<Parts<'d>>, Memory>
    ensures { IfOk result (λ p. parts_core p.value ≡ tree.NoSubs) }
{
    boxed(alloc, Parts::Empty)
}

#[inline(never)]
fn only<'d>(alloc: Global, ends: Ends<'d>) -> Result<Box<Parts<'d>>, Memory>
    ensures { IfOk result (λ p. parts_core p.value ≡ tree.More (ends_core ends.entry) tree.NoSubs) }
{
    boxed(alloc, Parts::Only(part(ends)))
}

#[inline(never)]
fn more<'d>(
    alloc: Global,
    first: Ends<'d>,
    others: Box<Parts<'d>>,
) -> Result<Box<Parts<'d>>, Memory>
    ensures { IfOk result (λ p. parts_core p.value ≡ tree.More (ends_core first.entry) (parts_core others.entry.value)) }
{
    let parts = Parts::More(MoreParts {
        first: part(first),
        others,
    });
    boxed(alloc, parts)
}

// ---- predicates

#[cycle(build)]
#[inline(never)]
fn test_cell<'d>(alloc: Global, pred: &'d Pred) -> Result<Box<Test<'d>>, Memory>
    ensures { IfOk result (λ x. test_core x.value ≡ pred_of pred.now) }
{
    match pred {
        Pred::Compare(op, left, right) => {
            let operands = two_cells(alloc, left, right)?;
            comparison(alloc, *op, operands)
        }
        Pred::And(left, right) => both_hold(alloc, two_tests(alloc, left, right)?),
        Pred::Or(left, right) => one_holds(alloc, two_tests(alloc, left, right)?),
        Pred::Not(inner) => negation(alloc, test_cell(alloc, inner)?),
        Pred::IsUnknown(inner) => is_unknown(alloc, test_cell(alloc, inner)?),
        Pred::Exists(expr) => exists(alloc, expr_cell(alloc, expr)?),
        Pred::StartsWith(expr, initial) => {
            let text = expr_cell(alloc, expr)?;
            starts_with(alloc, text, initial)
        }
    }
}

// The cells of two predicates.
#[cycle(build)]
#[inline(never)]
fn two_tests<'d>(alloc: Global, left: &'d Pred, right: &'d Pred) -> Result<Both<'d>, Memory>
    ensures left { IfOk result (λ both. test_core both.left.value ≡ pred_of left.now) }
    ensures right { IfOk result (λ both. test_core both.right.value ≡ pred_of right.now) }
{
    let left = test_cell(alloc, left)?;
    match test_cell(alloc, right) {
        Ok(right) => Ok(Both { left, right }),
        Err(memory) => Err(give_up_test(left, memory)),
    }
}

#[inline(never)]
fn comparison<'d>(
    alloc: Global,
    op: Compare,
    operands: TwoCells<'d>,
) -> Result<Box<Test<'d>>, Memory>
    ensures { IfOk result (λ x. test_core x.value ≡ tree.Compares op (core operands.entry.0.value) (core operands.entry.1.value)) }
{
    let (left, right) = operands;
    let right = operand(right);
    let left = operand(left);
    let comparison = boxed(alloc, Comparison { op, left, right })?;
    boxed(alloc, Test::Compare(comparison))
}

#[inline(never)]
fn both_hold<'d>(alloc: Global, both: Both<'d>) -> Result<Box<Test<'d>>, Memory>
    ensures { IfOk result (λ x. test_core x.value ≡ tree.And (test_core both.entry.left.value) (test_core both.entry.right.value)) }
{
    boxed(alloc, Test::And(both))
}

#[inline(never)]
fn one_holds<'d>(alloc: Global, both: Both<'d>) -> Result<Box<Test<'d>>, Memory>
    ensures { IfOk result (λ x. test_core x.value ≡ tree.Or (test_core both.entry.left.value) (test_core both.entry.right.value)) }
{
    boxed(alloc, Test::Or(both))
}

#[inline(never)]
fn negation<'d>(alloc: Global, inner: Box<Test<'d>>) -> Result<Box<Test<'d>>, Memory>
    ensures { IfOk result (λ x. test_core x.value ≡ tree.Not (test_core inner.entry.value)) }
{
    boxed(alloc, Test::Not(inner))
}

#[inline(never)]
fn is_unknown<'d>(alloc: Global, inner: Box<Test<'d>>) -> Result<Box<Test<'d>>, Memory>
    ensures { IfOk result (λ x. test_core x.value ≡ tree.IsUnknown (test_core inner.entry.value)) }
{
    boxed(alloc, Test::IsUnknown(inner))
}

#[inline(never)]
fn exists<'d>(alloc: Global, expr: Box<Cell<'d>>) -> Result<Box<Test<'d>>, Memory>
    ensures { IfOk result (λ x. test_core x.value ≡ tree.Exists (core expr.entry.value)) }
{
    boxed(alloc, Test::Exists(operand(expr)))
}

#[inline(never)]
fn starts_with<'d>(
    alloc: Global,
    expr: Box<Cell<'d>>,
    initial: &'d Initial,
) -> Result<Box<Test<'d>>, Memory>
    ensures { IfOk result (λ x. test_core x.value ≡ tree.StartsWith (core expr.entry.value) initial.now) }
{
    let text = operand(expr);
    boxed(alloc, Test::StartsWith(Start { text, initial }))
}
