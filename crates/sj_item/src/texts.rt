// Texts by their code points. Their bytes have the same order.
ghost use Rattle.std.specs.Prelude.{◌≡◌};
ghost use Rattle.sj_item.specs.Orders.{text_cmp, begins_with};

use std::cmp::Ordering;

pub(crate) fn order_of_texts(left: &str, right: &str) -> Ordering
    ensures { result ≡ text_cmp left.now right.now }
{
    left.cmp(right)
}

pub(crate) fn text_begins_with(text: &str, start: &str) -> bool
    ensures { result ≡ begins_with text.now start.now }
{
    text.as_bytes().starts_with(start.as_bytes())
}
