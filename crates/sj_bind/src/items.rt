//! The rules on the items of a SELECT list with a table.

ghost use Rattle.std.specs.Prelude.{◌≡◌, ◌&&◌, not};
ghost use Rattle.std.specs.List.{list_any};
ghost use Rattle.sj_sql_tree.specs.View.{item_of, items_of};
ghost use Rattle.sj_bind.specs.Rules as spec;

use sj_sql_tree::Item;

fn is_aggregate(item: &Item) -> bool
    ensures { result ≡ spec.is_aggregate (item_of item.now) }
{
    match item {
        Item::Single(_) => false,
        Item::ArrayAgg(_, _) | Item::ObjectAgg(_, _, _, _) => true,
    }
}

fn some_is_aggregate(items: &[Item]) -> bool
    ensures { result ≡ list_any spec.is_aggregate (items_of items.now) }
{
    for item in items {
        if is_aggregate(item) {
            return true;
        }
    }
    false
}

fn some_is_plain(items: &[Item]) -> bool
    ensures { result ≡ list_any (λ x. not (spec.is_aggregate x)) (items_of items.now) }
{
    for item in items {
        if !is_aggregate(item) {
            return true;
        }
    }
    false
}

/// Whether one item is an aggregate and another is none.
pub fn are_mixed(items: &[Item]) -> bool
    ensures { result ≡ (list_any spec.is_aggregate (items_of items.now) && list_any (λ x. not (spec.is_aggregate x)) (items_of items.now)) }
{
    some_is_aggregate(items) && some_is_plain(items)
}
