// The text of a group.
ghost use Rattle.std.specs.Prelude.{◌≡◌, ◌++◌, OnOk, OnErr};
ghost use Rattle.sj_text.specs.Prefixes.{AppendsPrefix};
ghost use Rattle.sj_group.specs.Grouping as spec;

use itoa::Buffer;
use sj_base::{Bytes, Memory};
use sj_rows::escaped_text;

// Appends `G`, the key, the number of rows and the text that was gathered of them, with TABs between them, and LF. The key
// is a field already.
pub(crate) fn entry_text(
    out: &mut Bytes,
    key: &[u8],
    count: u64,
    gathered: &[u8],
) -> Result<(), Memory>
    ensures ok { OnOk result (out.new ≡ out.old ++ spec.entry_text key.now count gathered.now) }
    ensures err { OnErr result (AppendsPrefix out.old (spec.entry_text key.now count gathered.now) out.new) }
{
    out.push(b"G\t")?;
    out.push(key)?;
    out.push(b"\t")?;
    out.push(Buffer::new().format(count).as_bytes())?;
    out.push(b"\t")?;
    escaped_text(out, gathered)?;
    out.push(b"\n")
}
