// What a path gives, item by item.
ghost use Rattle.std.specs.Prelude.{◌≡◌};
ghost use Rattle.sj_doc.specs.Kinds.{kind_of};
ghost use Rattle.sj_item.specs.Items.{item_value, item_tree, size_of};

use crate::made::Exact;
use crate::pair::Pair;
use sj_base::State;
use sj_doc::{Kind, NodeRef};

/// An SQL/JSON item (ISO/IEC 9075-2, SQL/JSON data model): a node of the line's document, or a value that the
/// path made. What it doesn't hold itself it borrows; it never owns memory of the heap.
///
/// Contracts see an item as its `item_value`, in which there are no pointers. Two items are the same where
/// these are equal.
#[derive(Clone, Copy)]
pub enum Item<'d> {
    /// A node of the document.
    Node(NodeRef<'d>),
    /// A made number.
    Num(Exact),
    /// A made text, which lies elsewhere.
    Text(&'d str),
    /// The text of an exact number, which is written where it is read.
    NumberText(Exact),
    /// A made truth value.
    Bool(bool),
    /// A made null.
    Null,
    /// A pair that the method `keyvalue` made.
    Pair(Pair<'d>),
}

// An item is copied at each step of an evaluation, so its size is kept small.
const _: () = prove!(size_of::<Item<'static>>() == 32);

/// The next answer of a sequence of items.
#[derive(Clone, Copy)]
pub enum Pull<'d> {
    /// One more item.
    Item(Item<'d>),
    /// There is none left.
    End,
    /// The sequence ends here, in this state.
    Fault(State),
}

impl<'d> Item<'d> {
    /// The same item. It takes no memory.
    ///
    /// The program does not call this; its tests do, and a host may.
    pub fn copy(&self) -> Item<'d>
        ensures same { result ≡ self.now }
        ensures value { item_value result ≡ item_value self.now }
    {
        *self
    }
}

/// The kind of an item. A pair is an object.
pub fn kind(item: Item<'_>) -> Kind
    ensures { result ≡ kind_of (item_tree (item_value item.entry)) }
{
    match item {
        Item::Node(node) => node.kind(),
        Item::Num(_) => Kind::Number,
        Item::Text(_) | Item::NumberText(_) => Kind::String,
        Item::Bool(_) => Kind::Truth,
        Item::Null => Kind::Null,
        Item::Pair(_) => Kind::Object,
    }
}

/// The number of elements of an array, and 1 for any other item (ISO/IEC 9075-2, the item method `size`).
pub fn size(item: Item<'_>) -> u64
    ensures { result ≡ size_of (item_tree (item_value item.entry)) }
{
    match item {
        Item::Node(node) => match node.kind() {
            Kind::Array => node.len(),
            _ => 1,
        },
        _ => 1,
    }
}
