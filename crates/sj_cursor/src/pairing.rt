// What was seen of all pairs of two operands.
ghost use Rattle.std.specs.Prelude.{◌≡◌, ◌||◌, ◌&&◌, true};
ghost use Rattle.sj_plain_path.specs.Pairings.{decided_truth};
ghost use Rattle.sj_cursor.specs.Cells.{is_lax};

use sj_item::Truth;
use sj_path_tree::Mode;
use sj_plain_path::Pairing;

/// In lax mode the first true pair decides.
pub(crate) fn is_early(mode: Mode) -> bool
    ensures { result ≡ is_lax mode }
{
    match mode {
        Mode::Lax => true,
        Mode::Strict => false,
    }
}

/// What was seen of all pairs so far.
#[derive(Clone, Copy)]
pub(crate) struct Pairings {
    pub(crate) found: bool,
    pub(crate) doubt: bool,
    /// There was a left item.
    pub(crate) some: bool,
}

impl Pairings {
    pub(crate) fn saw(self, pairing: Pairing) -> Pairings
        ensures found { result.found ≡ (self.found || pairing.found) }
        ensures doubt { result.doubt ≡ (self.doubt || pairing.doubt) }
        ensures some { result.some ≡ true }
    {
        Pairings {
            found: self.found || pairing.found,
            doubt: self.doubt || pairing.doubt,
            some: true,
        }
    }

    pub(crate) fn halts(self, early: bool) -> bool
        ensures { result ≡ (early && self.found) }
    {
        early && self.found
    }

    /// The truth of the comparison, where a fault of the right operand is told apart if there was no left item.
    pub(crate) fn truth(self, faulty: bool) -> Truth
        ensures { result ≡ decided_truth self.found (self.doubt || faulty) }
    {
        if self.doubt || faulty {
            Truth::Unknown
        } else {
            Truth::from_bool(self.found)
        }
    }
}
