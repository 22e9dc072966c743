// What a path has in the row at hand.
ghost use Rattle.std.specs.Prelude.{◌≡◌, ◌∷◌, [], option_map};
ghost use Rattle.sj_table.specs.Cells as cells_of;
ghost use Rattle.sj_table.specs.Rows.{entry, entry_value};

use crate::cells::{At, Cell, Cross, Hand, Nested, PathCell, Side, Union};
use sj_item::Item;

impl<'d> Cell<'d> {
    /// The item and the ordinal of a path in the row at hand, where it has an entry there. Most plans are one path, which is looked at
    /// in place.
    #[inline(always)]
    pub(crate) fn entry(&self, path: u32) -> Option<(Item<'d>, u64)>
        ensures { option_map entry_value result ≡ entry path (cells_of.row_of self.now) }
    {
        match self {
            Cell::Single(own) => own.at(path),
            Cell::Nested(_) | Cell::Union(_) | Cell::Cross(_) => self.at(path),
        }
    }

    // The same of any plan.
    #[cycle(at)]
    fn at(&self, path: u32) -> Option<(Item<'d>, u64)>
        ensures { option_map entry_value result ≡ entry path (cells_of.row_of self.now) }
    {
        match self {
            Cell::Single(own) => own.at(path),
            Cell::Nested(nested) => nested.at(path),
            Cell::Union(union) => union.at(path),
            Cell::Cross(cross) => cross.at(path),
        }
    }
}

impl<'d> PathCell<'d> {
    #[inline(always)]
    fn at(&self, path: u32) -> Option<(Item<'d>, u64)>
        ensures { option_map entry_value result ≡ entry path (cells_of.entry_at self.now ∷ []) }
    {
        if path == self.number {
            Some((self.item, self.ordinal))
        } else {
            None
        }
    }
}

impl<'d> Nested<'d> {
    #[cycle(at)]
    fn at(&self, path: u32) -> Option<(Item<'d>, u64)>
        ensures { option_map entry_value result ≡ entry path (cells_of.nested_row self.now) }
    {
        match self.at {
            At::Nothing | At::Before => None,
            At::Alone => self.parent.at(path),
            At::Among => match self.parent.at(path) {
                Some(found) => Some(found),
                None => self.below.at(path),
            },
        }
    }
}

impl<'d> Union<'d> {
    #[cycle(at)]
    fn at(&self, path: u32) -> Option<(Item<'d>, u64)>
        ensures { option_map entry_value result ≡ entry path (cells_of.union_row self.now) }
    {
        match self.side {
            Side::Left => self.left.at(path),
            Side::Right => self.right.at(path),
        }
    }
}

impl<'d> Cross<'d> {
    #[cycle(at)]
    #[tactic(auto, using(crate::proofs::Lookups::entry_behind, crate::proofs::Lookups::entry_first))]
    fn at(&self, path: u32) -> Option<(Item<'d>, u64)>
        ensures { option_map entry_value result ≡ entry path (cells_of.cross_row self.now) }
    {
        match self.hand {
            Hand::Empty => None,
            Hand::Row => match self.left.at(path) {
                Some(found) => Some(found),
                None => self.right.at(path),
            },
        }
    }
}
