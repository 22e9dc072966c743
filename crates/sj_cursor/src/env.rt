// Where an expression of a path is evaluated.
ghost use Rattle.std.specs.Prelude.{◌<◌, unsigned_abs};
ghost use Rattle.sj_decimal.specs.Limits.{magnitude_limit};

use sj_item::Item;
use sj_path_tree::{Mode, Vars};

/// Where an expression is evaluated. It lends its items, since each item that a filter tests makes one. Contracts see it as the `Env`
/// of the meaning, by `env_value`.
#[derive(Clone, Copy, Drop)]
pub(crate) struct Env<'e, 'd> {
    pub(crate) mode: Mode,
    pub(crate) vars: &'d Vars,
    /// `$`
    pub(crate) root: &'e Item<'d>,
    /// `@`
    pub(crate) context: &'e Item<'d>,
    /// `last`
    pub(crate) last: i128,
    ghost small: { unsigned_abs last < magnitude_limit },
}

impl<'e, 'd> Env<'e, 'd> {
    ghost use Rattle.std.specs.Prelude.{◌≡◌};
    ghost use Rattle.sj_cursor.specs.Cells.{env_value};
    ghost use Rattle.sj_cursor.specs.Meaning.{at_last};

    /// The same inside the subscripts of an array whose last index is `last`.
    pub(crate) fn at_last(&self, last: i128) -> Env<'e, 'd>
        requires { unsigned_abs last < magnitude_limit }
        ensures { env_value result ≡ at_last (env_value self.now) last }
    {
        Env {
            mode: self.mode,
            vars: self.vars,
            root: self.root,
            context: self.context,
            last,
        }
    }
}
