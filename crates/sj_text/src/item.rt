// The text of an item.
ghost use Rattle.std.specs.Prelude.{◌≡◌, ◌++◌, ◌≤◌, OnOk, OnErr, codes};
ghost use Rattle.sj_base.specs.Count.{raised};
ghost use Rattle.sj_json.specs.Printing.{printed, printed_string};
ghost use Rattle.sj_decimal.specs.Text.{decimal_text as decimal_printed};
ghost use Rattle.sj_item.specs.Items.{item_value, pair_name, pair_held, pair_id, item_tree, nodes_below};
ghost use Rattle.sj_text.specs.Prefixes.{AppendsPrefix};

use crate::node::node_text;
use crate::scalar::{decimal_text, truth_text, whole_text};
use crate::string::string_text;
use sj_base::{Bytes, Memory, Steps};
use sj_item::{Item, Pair, PairValue};

/// Appends the printed text of an item: the JSON text of the tree that it stands for, without white space.
///
/// The counter rises by one for each node of the document below the item's node, or below that of a pair's value.
/// Where memory runs out, `out` has grown by a first part of the text, and the counter by some of these steps.
#[inline(always)]
pub fn item_text<'d>(item: Item<'d>, out: &mut Bytes, steps: &mut Steps) -> Result<(), Memory>
    ensures ok { OnOk result (out.new ≡ out.old ++ printed (item_tree (item_value item.entry))) }
    ensures err { OnErr result (AppendsPrefix out.old (printed (item_tree (item_value item.entry))) out.new) }
    ensures steps { OnOk result (steps.new ≡ raised steps.old (nodes_below (item_value item.entry))) }
    ensures at_most { OnErr result (steps.new ≤ raised steps.old (nodes_below (item_value item.entry))) }
{
    match item {
        Item::Node(node) => node_text(node, out, steps),
        Item::Num(number) => decimal_text(number.value(), out),
        Item::Text(text) => string_text(text, out),
        Item::NumberText(number) => string_text(number.value().text().as_str(), out),
        Item::Bool(truth) => truth_text(truth, out),
        Item::Null => out.push(b"null"),
        Item::Pair(pair) => pair_text(pair, out, steps),
    }
}

// Appends the object that a pair stands for.
fn pair_text(pair: Pair<'_>, out: &mut Bytes, steps: &mut Steps) -> Result<(), Memory>
    ensures ok { OnOk result (out.new ≡ out.old ++ printed (item_tree (item_value (Item.Pair pair.entry)))) }
    ensures err { OnErr result (AppendsPrefix out.old (printed (item_tree (item_value (Item.Pair pair.entry)))) out.new) }
    ensures steps { OnOk result (steps.new ≡ raised steps.old (nodes_below (item_value (Item.Pair pair.entry)))) }
    ensures at_most { OnErr result (steps.new ≤ raised steps.old (nodes_below (item_value (Item.Pair pair.entry)))) }
{
    name_text(pair, out)?;
    value_text(pair, out, steps)?;
    id_text(pair, out)
}

// Appends the first member of a pair, and the brace before it.
fn name_text(pair: Pair<'_>, out: &mut Bytes) -> Result<(), Memory>
    ensures ok { OnOk result (out.new ≡ out.old ++ (codes "{\"name\":" ++ printed_string (pair_name pair.entry))) }
    ensures err { OnErr result (AppendsPrefix out.old (codes "{\"name\":" ++ printed_string (pair_name pair.entry)) out.new) }
{
    out.push(b"{\"name\":")?;
    string_text(pair.name(), out)
}

// Appends the second member.
fn value_text(pair: Pair<'_>, out: &mut Bytes, steps: &mut Steps) -> Result<(), Memory>
    ensures ok { OnOk result (out.new ≡ out.old ++ (codes ",\"value\":" ++ printed (item_tree (pair_held pair.entry)))) }
    ensures err { OnErr result (AppendsPrefix out.old (codes ",\"value\":" ++ printed (item_tree (pair_held pair.entry))) out.new) }
    ensures steps { OnOk result (steps.new ≡ raised steps.old (nodes_below (pair_held pair.entry))) }
    ensures at_most { OnErr result (steps.new ≤ raised steps.old (nodes_below (pair_held pair.entry))) }
{
    out.push(b",\"value\":")?;
    match pair.value() {
        PairValue::Node(node) => node_text(node, out, steps),
        PairValue::Text(text) => string_text(text, out),
        PairValue::Num(number) => whole_text(number, out),
    }
}

// Appends the third member, and the brace behind it.
fn id_text(pair: Pair<'_>, out: &mut Bytes) -> Result<(), Memory>
    ensures ok { OnOk result (out.new ≡ out.old ++ (codes ",\"id\":" ++ (decimal_printed (pair_id pair.entry, 0) ++ codes "}"))) }
    ensures err { OnErr result (AppendsPrefix out.old (codes ",\"id\":" ++ (decimal_printed (pair_id pair.entry, 0) ++ codes "}")) out.new) }
{
    out.push(b",\"id\":")?;
    whole_text(pair.id(), out)?;
    out.push(b"}")
}
