// Items as numbers, and arithmetic.
ghost use Rattle.std.specs.Prelude.{◌≡◌};
ghost use Rattle.sj_item.specs.Items.{item_value};
ghost use Rattle.sj_method.specs.Numbers.{operand_of, subscript_of, binary_of, fault_state};

use sj_base::State;
use sj_decimal::{Decimal, NumFault};
use sj_doc::{Kind, NodeRef, Num};
use sj_item::Item;
use sj_path_tree::Arith;

/// An item as an operand of arithmetic: its number. An item that is no number is 22036, and a number that is not exact
/// is 22003.
#[tactic(auto, unfolding(crate::specs::Numbers::operand_of))]
#[inline(always)]
pub fn operand<'d>(item: Item<'d>) -> Result<Decimal, State>
    ensures { result ≡ operand_of (item_value item.entry) }
{
    match item {
        Item::Num(number) => Ok(number.value()),
        Item::Node(node) => node_number(node),
        _ => Err(State::S22036),
    }
}

ghost use Rattle.sj_doc.specs.Listed.{node_tree};
ghost use Rattle.sj_method.specs.Numbers.{exact_number};

fn node_number(node: NodeRef<'_>) -> Result<Decimal, State>
    ensures { result ≡ exact_number (node_tree node.entry) }
{
    match node.kind() {
        Kind::Number => match node.number() {
            Num::Exact(number) => Ok(number),
            Num::Wide(_) => Err(State::S22003),
        },
        _ => Err(State::S22036),
    }
}

/// An item as a subscript: its number, cut toward zero. An item that is no exact number is 22033.
#[tactic(auto, unfolding(crate::specs::Numbers::subscript_of))]
pub fn subscript<'d>(item: Item<'d>) -> Result<i128, State>
    ensures { result ≡ subscript_of (item_value item.entry) }
{
    match operand(item) {
        Ok(number) => Ok(number.to_whole()),
        Err(_) => Err(State::S22033),
    }
}

/// The sum, difference, product, quotient or remainder of two numbers. A zero divisor is 22012, and a result or a
/// coefficient out of the limits of exact decimals is 22003.
#[tactic(auto, unfolding(crate::specs::Numbers::binary_of))]
pub fn binary(op: Arith, a: Decimal, b: Decimal) -> Result<Decimal, State>
    ensures { result ≡ binary_of op a b }
{
    let result = match op {
        Arith::Add => a.add(b),
        Arith::Sub => a.sub(b),
        Arith::Mul => a.mul(b),
        Arith::Div => a.div(b),
        Arith::Rem => a.rem(b),
    };
    match result {
        Ok(number) => Ok(number),
        Err(fault) => Err(state_of(fault)),
    }
}

fn state_of(fault: NumFault) -> State
    ensures { result ≡ fault_state fault }
{
    match fault {
        NumFault::Range => State::S22003,
        NumFault::ZeroDivide => State::S22012,
    }
}
