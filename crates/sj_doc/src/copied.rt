// A line that is copied before it is checked.
ghost use Rattle.std.specs.Prelude.{◌≡◌, [], IsUtf8, IfOk};
ghost use Rattle.sj_json.specs.Building.{fresh};
ghost use Rattle.sj_doc.specs.Builders.{held};

use crate::builder::DocBuilder;
use crate::node::Node;
use sj_base::Memory;
use std::marker::Model;

// What stands behind a line that a builder holds.
const LINE_FEEDS: &str = "\n\n\n\n\n\n\n\n\n\n\n\n\n\n\n\n";

/// The memory of a builder, into which a line was copied, with 16 line feeds behind it. Contracts see the bytes of the
/// line. It may be no UTF-8: `hold` asks that it is, and `give_up` does not.
///
/// It is there so that a line can be checked between its copying and its reading. The first bytes that are read would
/// else have to wait for the copy.
#[derive(Drop)]
pub struct CopiedLine {
    // the line, and behind it the line feeds
    arena: Vec<u8>,
    // no node yet
    nodes: Vec<Node>,
}

impl Model for CopiedLine {
    ghost use Rattle.std.specs.Prelude.{ℕ, List};
    ghost use Rattle.sj_doc.specs.Builders.{IsCopied, line_in};

    ghost Value = { List ℕ };

    ghost view = { λ c. line_in c.arena.items };

    ghost invariant = { λ c. IsCopied c.arena.items c.nodes.items };
}

impl CopiedLine {
    // The line, copied into the memory of these vectors.
    #[inline(always)]
    pub(crate) fn over(
        mut arena: Vec<u8>,
        mut nodes: Vec<Node>,
        line: &[u8],
    ) -> Result<CopiedLine, Memory>
        ensures { IfOk result (λ copied. copied ≡ line.now) }
    {
        arena.clear();
        nodes.clear();
        if line.len() > u32::MAX as usize - LINE_FEEDS.len() {
            return Err(Memory);
        }
        arena.extend_from_slice(line)?;
        arena.extend_from_slice(LINE_FEEDS.as_bytes())?;
        Ok(CopiedLine { arena, nodes })
    }

    /// An empty builder over the memory, which holds the line, and 16 line feeds behind it. Strings, keys and numbers
    /// that stand in the line are then given by their places, and are not copied one by one. It takes no memory.
    #[inline(always)]
    pub fn hold(self) -> DocBuilder
        requires utf8 { IsUtf8 self }
        ensures { result ≡ (fresh, held self) }
    {
        let CopiedLine { arena, nodes } = self;
        DocBuilder::over_line(arena, nodes)
    }

    /// An empty builder over the memory, which holds no line. It takes no memory.
    pub fn give_up(self) -> DocBuilder
        ensures { result ≡ (fresh, []) }
    {
        let CopiedLine { mut arena, nodes } = self;
        arena.clear();
        DocBuilder::over(arena, nodes)
    }
}
