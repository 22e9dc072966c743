//! The path of one member.

ghost use Rattle.std.specs.Prelude.{◌≡◌, IfOk};
ghost use Rattle.sj_path_tree.specs.View.{path_of};
ghost use Rattle.sj_path_tree.specs.Member.{member_path};

use crate::parts::Mode;
use crate::tree::{Expr, Path, Step};
use sj_base::{Memory, Text};
use std::alloc::Global;

/// The path `lax $.key`, whatever characters the key has.
pub fn member_path(alloc: Global, key: &str) -> Result<Path, Memory>
    ensures { IfOk result (λ p. path_of p ≡ member_path key.now) }
{
    let step = Step::Member(Text::from_str(alloc, key)?);
    Ok(Path {
        mode: Mode::Lax,
        expr: Expr::Access(Box::new(alloc, Expr::Root)?, step),
    })
}
