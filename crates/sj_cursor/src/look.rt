// The only item of what was found, as an operand or a subscript.
ghost use Rattle.std.specs.Prelude.{◌≡◌};
ghost use Rattle.sj_plain_path.specs.Looks.{look_value};
ghost use Rattle.sj_cursor.specs.Looks.{single_in};
ghost use Rattle.sj_cursor.specs.Numbers.{operand_in, subscript_in};

use sj_base::State;
use sj_decimal::Decimal;
use sj_method::{operand, subscript};
use sj_plain_path::{Found, Look};

/// The one item as an operand: what is no single number is a fault.
#[inline(always)]
pub(crate) fn single_operand(look: Look<'_>) -> Result<Decimal, State>
    ensures { result ≡ operand_in (single_in State.S22038 (look_value look.entry)) }
{
    match (look.fault, look.found) {
        (Some(state), _) => Err(state),
        (None, Found::One(item)) => operand(item),
        (None, _) => Err(State::S22038),
    }
}

/// The one item as a subscript: what is no single number is a fault.
pub(crate) fn single_subscript(look: Look<'_>) -> Result<i128, State>
    ensures { result ≡ subscript_in (single_in State.S22033 (look_value look.entry)) }
{
    match (look.fault, look.found) {
        (Some(state), _) => Err(state),
        (None, Found::One(item)) => subscript(item),
        (None, _) => Err(State::S22033),
    }
}
