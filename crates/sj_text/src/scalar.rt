// The texts of numbers and truth values.
ghost use Rattle.std.specs.Prelude.{◌≡◌, ◌++◌, OnOk, OnErr};
ghost use Rattle.sj_json.specs.Tree.{truth};
ghost use Rattle.sj_json.specs.Printing.{printed};
ghost use Rattle.sj_decimal.specs.Text.{decimal_text as decimal_printed};
ghost use Rattle.sj_doc.specs.Kinds.{kind_of};
ghost use Rattle.sj_doc.specs.Listed.{node_tree};

use crate::numeral::is_decimal_text;
use crate::window::push_front;
use sj_base::{Bytes, Memory};
use sj_decimal::Decimal;
use sj_doc::{Kind, NodeRef, Num};

pub(crate) fn truth_text(holds: bool, out: &mut Bytes) -> Result<(), Memory>
    ensures ok { OnOk result (out.new ≡ out.old ++ printed (truth holds)) }
    ensures err { OnErr result (out.new ≡ out.old) }
{
    if holds {
        out.push(b"true")
    } else {
        out.push(b"false")
    }
}

// Most numerals are printed as they are spelled, and so is a number that is not exact. Any other one is printed by its value.
#[tactic(auto, using(crate::proofs::Numerals::printed_as_spelled))]
pub(crate) fn number_text(node: NodeRef<'_>, out: &mut Bytes) -> Result<(), Memory>
    requires { kind_of (node_tree node) ≡ Kind.Number }
    ensures ok { OnOk result (out.new ≡ out.old ++ printed (node_tree node.entry)) }
    ensures err { OnErr result (out.new ≡ out.old) }
{
    let numeral = node.stored_numeral();
    if !is_decimal_text(numeral.text.as_bytes()) {
        return value_text(node, out);
    }
    match numeral.window {
        Some(window) => push_front(out, window, numeral.text.len()),
        None => out.push(numeral.text.as_bytes()),
    }
}

// The text of a number by its value. Few need it.
#[inline(never)]
fn value_text(node: NodeRef<'_>, out: &mut Bytes) -> Result<(), Memory>
    requires { kind_of (node_tree node) ≡ Kind.Number }
    ensures ok { OnOk result (out.new ≡ out.old ++ printed (node_tree node.entry)) }
    ensures err { OnErr result (out.new ≡ out.old) }
{
    match node.number() {
        Num::Exact(value) => decimal_text(value, out),
        Num::Wide(spelling) => out.push(spelling.as_bytes()),
    }
}

pub(crate) fn decimal_text(value: Decimal, out: &mut Bytes) -> Result<(), Memory>
    ensures ok { OnOk result (out.new ≡ out.old ++ decimal_printed value) }
    ensures err { OnErr result (out.new ≡ out.old) }
{
    out.push(value.text().as_str().as_bytes())
}

pub(crate) fn whole_text(value: i64, out: &mut Bytes) -> Result<(), Memory>
    ensures ok { OnOk result (out.new ≡ out.old ++ decimal_printed (value, 0)) }
    ensures err { OnErr result (out.new ≡ out.old) }
{
    match Decimal::from_parts(i128::from(value), 0) {
        Some(value) => decimal_text(value, out),
        None => unreachable!(),
    }
}
