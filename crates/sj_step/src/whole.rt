// Whole numbers as items hold them.
ghost use Rattle.std.specs.Prelude.{◌≡◌, ◌<◌, unsigned_abs};
ghost use Rattle.sj_decimal.specs.Limits.{magnitude_limit};
ghost use Rattle.sj_item.specs.MadeValues.{exact_value};

use sj_decimal::Decimal;
use sj_item::Exact;

/// A whole number that is exact, as an item holds it.
pub fn whole_number(number: i128) -> Exact
    requires { unsigned_abs number < magnitude_limit }
    ensures { exact_value result ≡ (number, 0) }
{
    match Decimal::from_parts(number, 0) {
        Some(whole) => Exact::new(whole),
        None => unreachable!(),
    }
}
