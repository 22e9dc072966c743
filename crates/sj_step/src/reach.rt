// What is reached of an item, and the last index of an array.
ghost use Rattle.std.specs.Prelude.{◌≡◌, ◌<◌, ◌^◌, IfSome, unsigned_abs};
ghost use Rattle.sj_item.specs.Items.{item_value};
ghost use Rattle.sj_step.specs.Reach.{last};

use sj_doc::Kind;
use sj_item::{Item, kind, size};
use sj_path_tree::Mode;

/// What is reached of one item (ISO/IEC 9075-2, SQL/JSON path language, accessors).
#[derive(Clone, Copy)]
pub enum Reach<'d> {
    /// The members of an object that have this key.
    Member(&'d str),
    /// All members of an object.
    AllMembers,
    /// All elements of an array.
    AllElements,
    /// The elements of an array from one index to another, both among them, where the first element has the index 0.
    Range(i128, i128),
    /// The elements of an array in lax mode, and else the item itself.
    Unwrap,
}

/// The greatest index of an array. In lax mode it is 0 of an item that is no array; in strict mode exactly such an item
/// has none. An empty array has the index -1. An index is below 2^64.
#[tactic(auto, unfolding(crate::specs::Reach::last))]
pub fn last_index(item: Item<'_>, mode: Mode) -> Option<i128>
    ensures is { result ≡ last mode (item_value item.entry) }
    ensures small { IfSome result (λ n. unsigned_abs n < 2 ^ 64) }
{
    match (kind(item), mode) {
        (Kind::Array, _) => Some(size(item) as i128 - 1),
        (_, Mode::Lax) => Some(0),
        (_, Mode::Strict) => None,
    }
}
