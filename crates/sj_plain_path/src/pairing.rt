// What was seen of pairs of items.
ghost use Rattle.std.specs.Prelude.{◌≡◌, ◌||◌, ◌&&◌};
ghost use Rattle.sj_item.specs.Items.{item_value};
ghost use Rattle.sj_item.specs.Pairs.{item_starts_with};
ghost use Rattle.sj_plain_path.specs.Truths.{is_true, is_unknown};
ghost use Rattle.sj_plain_path.specs.Pairings.{beside_truth, pairing_truth};

use sj_item::{Item, Truth};
use sj_path_tree::Compare;

/// What stands beside the items of a pairing.
#[derive(Clone, Copy)]
pub enum Beside<'a, 'd> {
    /// The left item of a comparison.
    Left(Compare, &'a Item<'d>),
    /// The right item of a comparison.
    Right(Compare, &'a Item<'d>),
    /// The string that the items are to start with.
    Initial(&'a Item<'d>),
}

impl<'a, 'd> Beside<'a, 'd> {
    /// The truth of the pair with an item.
    #[inline(always)]
    pub fn truth(self, item: &Item<'d>) -> Truth
        ensures { result ≡ beside_truth self.entry (item_value item.now) }
    {
        match self {
            Beside::Left(op, left) => left.compare(op, item),
            Beside::Right(op, right) => item.compare(op, right),
            Beside::Initial(initial) => starts_with(item, initial),
        }
    }
}

// Whether an item starts with a string. It is kept out of the way of comparisons, which need far less room.
#[inline(never)]
fn starts_with(item: &Item<'_>, start: &Item<'_>) -> Truth
    ensures { result ≡ item_starts_with (item_value item.now) (item_value start.now) }
{
    item.starts_with(start)
}

/// What was seen of the pairs of one item.
#[derive(Clone, Copy)]
pub struct Pairing {
    /// A pair is true.
    pub found: bool,
    /// A pair has no answer, or the items end in a fault.
    pub doubt: bool,
}

impl Pairing {
    /// With the truth of one more pair.
    pub fn saw(self, truth: Truth) -> Pairing
        ensures found { result.found ≡ (self.found || is_true truth) }
        ensures doubt { result.doubt ≡ (self.doubt || is_unknown truth) }
    {
        match truth {
            Truth::True => Pairing {
                found: true,
                doubt: self.doubt,
            },
            Truth::False => self,
            Truth::Unknown => Pairing {
                found: self.found,
                doubt: true,
            },
        }
    }

    /// Whether nothing further is to be seen: with `early`, a true pair decides.
    pub fn halts(self, early: bool) -> bool
        ensures { result ≡ (early && self.found) }
    {
        early && self.found
    }

    /// The truth of a comparison of which this was seen: with `early`, a true pair decides.
    pub fn truth(self, early: bool) -> Truth
        ensures { result ≡ pairing_truth early self.found self.doubt }
    {
        if self.halts(early) {
            Truth::True
        } else if self.doubt {
            Truth::Unknown
        } else {
            Truth::from_bool(self.found)
        }
    }
}
