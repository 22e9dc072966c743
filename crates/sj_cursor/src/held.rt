// How many items the cells hold.
ghost use Rattle.std.specs.Prelude.{◌≤◌, ◌+◌, ◌*◌};
ghost use Rattle.sj_path_tree.specs.Nodes.{expr_nodes, sub_nodes, subs_nodes, pred_nodes};
ghost use Rattle.sj_cursor.specs.Left as left_of;

use crate::cells::{At, Bounds, Cell, Operand, Operator, Part, Parts, Reached, Test};

// What cells hold, and one more item each.
fn plus(a: u64, b: u64) -> u64
    ensures { result ≤ a + b }
{
    a.saturating_add(b)
}

impl<'d> Cell<'d> {
    /// How many items the cell and those below it hold.
    #[cycle(held)]
    pub(crate) fn held(&self) -> u64
        ensures { result + 2 ≤ 3 * expr_nodes (left_of.core self.now) }
    {
        match self {
            Cell::One(_) => 1,
            Cell::Each(each) => plus(each.input.held(), each.operator.held()),
            Cell::Binary(binary) => {
                let operands = plus(binary.left.held(), binary.right.held());
                plus(operands, binary.reached.held())
            }
        }
    }
}

impl<'d> Operand<'d> {
    // An operand holds the item that it unwraps.
    #[cycle(held)]
    fn held(&self) -> u64
        ensures { result + 1 ≤ 3 * expr_nodes (left_of.operand_core self.now) }
    {
        plus(self.cell.held(), 1)
    }
}

impl<'d> Operator<'d> {
    #[cycle(held)]
    fn held(&self) -> u64
        ensures { result ≤ 3 * left_of.doing_nodes (left_of.doing self.now) + 1 }
    {
        match self {
            Operator::Simple(_) => 1,
            Operator::Filter(filter) => filter.test.held(),
            Operator::Elements(elements) => plus(elements.parts.held(), elements.at.held()),
        }
    }
}

impl<'d> At<'d> {
    // The item at hand.
    fn held(&self) -> u64
        ensures { result ≤ 1 }
    {
        match self {
            At::On(_) => 1,
            At::Nothing | At::Refused(_) => 0,
        }
    }
}

impl<'d> Parts<'d> {
    #[cycle(held)]
    fn held(&self) -> u64
        ensures { result ≤ 3 * subs_nodes (left_of.parts_core self.now) }
    {
        match self {
            Parts::Empty => 0,
            Parts::Only(part) => part.held(),
            Parts::More(more) => plus(more.first.held(), more.others.held()),
        }
    }
}

impl<'d> Reached<'d> {
    fn held(&self) -> u64
        ensures { result ≤ 1 }
    {
        match self {
            Reached::Unasked => 0,
            Reached::Walk(_) => 1,
        }
    }
}

impl<'d> Part<'d> {
    #[cycle(held)]
    fn held(&self) -> u64
        ensures { result ≤ 3 * sub_nodes (left_of.part_core self.now) }
    {
        match &self.bounds {
            Bounds::One(operand) => plus(operand.held(), self.reached.held()),
            Bounds::Range(range) => {
                let operands = plus(range.from.held(), range.to.held());
                plus(operands, self.reached.held())
            }
        }
    }
}

impl<'d> Test<'d> {
    #[cycle(held)]
    fn held(&self) -> u64
        ensures { result ≤ 3 * pred_nodes (left_of.test_core self.now) }
    {
        match self {
            Test::Compare(comparison) => plus(comparison.left.held(), comparison.right.held()),
            Test::And(both) | Test::Or(both) => plus(both.left.held(), both.right.held()),
            Test::Not(test) | Test::IsUnknown(test) => test.held(),
            Test::Exists(operand) => operand.held(),
            Test::StartsWith(start) => start.text.held(),
        }
    }
}
