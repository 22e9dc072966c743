//! The order of decimals.
ghost use Rattle.std.specs.Prelude.{◌≡◌, ◌↔◌, ◌*◌, ◌^◌, ◌<◌, refl};
ghost use Rattle.std.specs.declared.cmp.Ordering.TheVariants.{Equal};
ghost use Rattle.std.specs.Ordering.{nat_cmp};
ghost use Rattle.sj_decimal.specs.Limits.{magnitude_limit};
ghost use Rattle.sj_decimal.specs.Normal.{IsDecimal};
ghost use Rattle.sj_decimal.specs.Compare.{decimal_cmp, decimal_eq, decimal_partial_cmp, decimal_total, decimal_equivalence, decimal_partial_equivalence, decimal_partial_order};

use crate::decimal::Decimal;
use crate::magnitude::scaled;
use std::cmp::Ordering;

/// How two values are to compare, as in a comparison predicate (ISO/IEC 9075-2, 8.2) or in a path.
#[derive(Clone, Copy, Debug, PartialEq, Eq)]
pub enum Compare {
    /// Equal.
    Eq,
    /// Not equal.
    Ne,
    /// Less.
    Lt,
    /// Less or equal.
    Le,
    /// Greater.
    Gt,
    /// Greater or equal.
    Ge,
}

impl Decimal {
    /// Compares the two numbers. The answer is `Equal` exactly where they are one decimal.
    ///
    /// Example: 0.5 is greater than 0.25 (`sj_document_tests::examples::numbers_are_read`).
    pub fn cmp(self, other: Decimal) -> Ordering
        ensures value { result ≡ decimal_cmp self other }
        ensures equal { (result ≡ Equal) ↔ (self ≡ other) }
    {
        self.order(other)
    }

    fn order(self, other: Decimal) -> Ordering
        ensures value { result ≡ decimal_cmp self other }
        ensures left { IsDecimal self }
        ensures right { IsDecimal other }
    {
        if self.negative != other.negative {
            return if self.negative {
                Ordering::Less
            } else {
                Ordering::Greater
            };
        }
        let order = compare_magnitudes(
            self.magnitude.value(),
            self.scale,
            other.magnitude.value(),
            other.scale,
        );
        if self.negative {
            order.reverse()
        } else {
            order
        }
    }
}

impl PartialEq for Decimal {
    ghost eq = { decimal_eq };

    ghost laws = { decimal_partial_equivalence };

    fn eq(&self, other: &Decimal) -> bool {
        Decimal::cmp(*self, *other).is_eq()
    }
}

impl Eq for Decimal {
    ghost laws = { decimal_equivalence };
}

impl Ord for Decimal {
    ghost cmp = { decimal_cmp };

    ghost total = { decimal_total };

    ghost matches_partial_cmp = { λ _ _. refl };

    ghost matches_eq = { λ _ _. refl };

    fn cmp(&self, other: &Decimal) -> Ordering {
        Decimal::cmp(*self, *other)
    }
}

impl PartialOrd for Decimal {
    ghost partial_cmp = { decimal_partial_cmp };

    ghost laws = { decimal_partial_order };

    fn partial_cmp(&self, other: &Decimal) -> Option<Ordering> {
        Some(Decimal::cmp(*self, *other))
    }
}

/// Compares `left / 10^left_scale` with `right / 10^right_scale`, where both magnitudes are below the limit.
fn compare_magnitudes(left: u128, left_scale: u32, right: u128, right_scale: u32) -> Ordering
    requires left { left < magnitude_limit }
    requires right { right < magnitude_limit }
    ensures { result ≡ nat_cmp (left * 10 ^ right_scale) (right * 10 ^ left_scale) }
{
    if left_scale == right_scale {
        return left.cmp(&right);
    }
    if left_scale < right_scale {
        match scaled(left, right_scale - left_scale) {
            Some(left) => left.cmp(&right),
            None => Ordering::Greater,
        }
    } else {
        match scaled(right, left_scale - right_scale) {
            Some(right) => left.cmp(&right),
            None => Ordering::Less,
        }
    }
}
