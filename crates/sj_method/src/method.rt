// Item methods and signs.
ghost use Rattle.std.specs.Prelude.{◌≡◌, ◌≢◌};
ghost use Rattle.sj_item.specs.Items.{item_value};
ghost use Rattle.sj_method.specs.Methods.{outcome, type_name, method_of, sign_of};

use crate::number::operand;
use sj_base::State;
use sj_decimal::Decimal;
use sj_doc::Kind;
use sj_item::{
    BIGINT_HIGH, BIGINT_LOW, Exact, INTEGER_HIGH, INTEGER_LOW, Item, kind, size, to_number,
    to_text, to_truth, to_whole,
};
use sj_path_tree::Method;
use sj_step::whole_number;

/// What a method other than `keyvalue` gives of an item: one item, or a fault (ISO/IEC 9075-2:2023, SQL/JSON path
/// language, item methods).
///
/// The methods `bigint`, `boolean`, `decimal`, `integer`, `number` and `string` give the casts of [`to_whole`],
/// [`to_truth`], [`to_number`] and [`to_text`], which are this project's own: `integer` a whole number from -2^31 to
/// 2^31 - 1, `bigint` one from -2^63 to 2^63 - 1, and `decimal` the same as `number`.
///
/// # Errors
/// `abs`, `floor` and `ceiling` give 22036 where the item is no number, and 22003 where it is not exact. The six that
/// cast give 2203F on an array or an object, 2203G on null and where the item is refused otherwise, and 22003 where a
/// number is not exact or a whole number is out of range. `type` and `size` have none.
#[tactic(auto, using(crate::proofs::Casts::text_outcome), unfolding(crate::specs::Methods::method_of))]
pub fn apply<'d>(method: Method, item: Item<'d>) -> Result<Item<'d>, State>
    requires { method ≢ Method.KeyValue }
    ensures { outcome result ≡ method_of method (item_value item.entry) }
{
    match method {
        Method::TypeOf => Ok(Item::Text(type_name(kind(item)))),
        Method::Size => Ok(Item::Num(whole_number(size(item) as i128))),
        Method::Ceiling => Ok(number_item(operand(item)?.ceiling())),
        Method::Floor => Ok(number_item(operand(item)?.floor())),
        Method::Abs => Ok(number_item(operand(item)?.abs())),
        Method::KeyValue => unreachable!(),
        Method::Bigint => Ok(number_item(to_whole(item, BIGINT_LOW, BIGINT_HIGH)?)),
        Method::Boolean => Ok(Item::Bool(to_truth(item)?)),
        Method::Decimal | Method::Number => Ok(number_item(to_number(item)?)),
        Method::Integer => Ok(number_item(to_whole(item, INTEGER_LOW, INTEGER_HIGH)?)),
        Method::Text => to_text(item),
    }
}

/// A number with a sign before it: 22036 where the item is no number, and 22003 where it is not exact. With `minus` the
/// sign turns.
#[tactic(auto, unfolding(crate::specs::Methods::sign_of))]
pub fn sign<'d>(minus: bool, item: Item<'d>) -> Result<Item<'d>, State>
    ensures { outcome result ≡ sign_of minus (item_value item.entry) }
{
    let number = operand(item)?;
    Ok(number_item(if minus { number.neg() } else { number }))
}

ghost use Rattle.sj_item.specs.Items.{made_number};

fn number_item<'d>(number: Decimal) -> Item<'d>
    ensures { item_value result ≡ made_number number }
{
    Item::Num(Exact::new(number))
}

fn type_name(kind: Kind) -> &'static str
    ensures { result.now ≡ type_name kind }
{
    match kind {
        Kind::Null => "null",
        Kind::Truth => "boolean",
        Kind::Number => "number",
        Kind::String => "string",
        Kind::Array => "array",
        Kind::Object => "object",
    }
}
