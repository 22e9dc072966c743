//! The rules on the names and the keys in a SELECT list with a table.

ghost use Rattle.std.specs.Prelude.{◌≡◌, ◌||◌};
ghost use Rattle.std.specs.List.{list_any};
ghost use Rattle.sj_sql_tree.specs.View.{item_of, items_of, value_of, values_of, members_of};
ghost use Rattle.sj_bind.specs.Names.{names_of};
ghost use Rattle.sj_bind.specs.Parts as spec;
ghost use Rattle.sj_bind.specs.RowRules.{is_unknown, is_wrong_key};

use crate::covered::has_name;
use crate::keys::is_key;
use crate::name_set::NameSet;
use sj_sql_tree::{Item, Member, Value};

/// The names that a list is held against: those of the columns, and of these the ones that are texts.
#[derive(Clone, Copy)]
pub struct KnownNames<'a, 's> {
    pub columns: &'a NameSet<'s>,
    pub texts: &'a NameSet<'s>,
}

/// Which of the two rules are broken.
#[derive(Clone, Copy)]
pub struct Broken {
    /// A name is that of no column.
    pub unknown_name: bool,
    /// A key is none of those that are allowed beside the columns.
    pub wrong_key: bool,
}

/// The rules that the items of a list break.
#[tactic(auto, using(crate::proofs::RowRules::broken_steps))]
pub fn broken_by_items(items: &[Item], known: KnownNames<'_, '_>) -> Broken
    ensures unknown { result.unknown_name ≡ list_any (is_unknown (names_of known.entry.columns.now)) (spec.names_in_items (items_of items.now)) }
    ensures wrong { result.wrong_key ≡ list_any (is_wrong_key (names_of known.entry.texts.now)) (spec.keys_in_items (items_of items.now)) }
{
    let mut broken = Broken {
        unknown_name: false,
        wrong_key: false,
    };
    for item in items {
        broken = with_item(broken, item, known);
    }
    broken
}

#[tactic(auto, using(crate::proofs::RowRules::broken_steps))]
fn with_item(before: Broken, item: &Item, known: KnownNames<'_, '_>) -> Broken
    ensures unknown { result.unknown_name ≡ (before.unknown_name || list_any (is_unknown (names_of known.entry.columns.now)) (spec.names_in_item (item_of item.now))) }
    ensures wrong { result.wrong_key ≡ (before.wrong_key || list_any (is_wrong_key (names_of known.entry.texts.now)) (spec.keys_in_item (item_of item.now))) }
{
    match item {
        Item::Single(value) | Item::ArrayAgg(value, _) => with_value(before, value, known),
        Item::ObjectAgg(key, value, _, _) => {
            let at_key = with_key(before, key, known);
            with_value(with_value(at_key, key, known), value, known)
        }
    }
}

/// The rules that were broken before, and that on keys where a key breaks it. What stands in the key is not looked at.
fn with_key(before: Broken, key: &Value, known: KnownNames<'_, '_>) -> Broken
    ensures unknown { result.unknown_name ≡ before.unknown_name }
    ensures wrong { result.wrong_key ≡ (before.wrong_key || is_wrong_key (names_of known.entry.texts.now) (value_of key.now)) }
{
    Broken {
        unknown_name: before.unknown_name,
        wrong_key: before.wrong_key || !is_key(key, known.texts),
    }
}

/// The rules that were broken before, and those that a value breaks.
#[cycle(broken)]
#[tactic(auto, using(crate::proofs::RowRules::broken_steps))]
fn with_value(before: Broken, value: &Value, known: KnownNames<'_, '_>) -> Broken
    ensures unknown { result.unknown_name ≡ (before.unknown_name || list_any (is_unknown (names_of known.entry.columns.now)) (spec.names_in (value_of value.now))) }
    ensures wrong { result.wrong_key ≡ (before.wrong_key || list_any (is_wrong_key (names_of known.entry.texts.now)) (spec.keys_in (value_of value.now))) }
{
    match value {
        Value::Lit(_) | Value::Exists(_) | Value::ValueOf(_) | Value::Query(_) | Value::IsJson(_) =>
            before,
        Value::Column(name) => Broken {
            unknown_name: before.unknown_name || !has_name(known.columns, name.as_str()),
            wrong_key: before.wrong_key,
        },
        Value::Object(members, _, _) => with_members(before, members, known),
        Value::Array(values, _) => with_values(before, values, known),
    }
}

#[cycle(broken)]
#[tactic(auto, using(crate::proofs::RowRules::broken_steps))]
fn with_values(before: Broken, values: &[Value], known: KnownNames<'_, '_>) -> Broken
    ensures unknown { result.unknown_name ≡ (before.unknown_name || list_any (is_unknown (names_of known.entry.columns.now)) (spec.names_in_values (values_of values.now))) }
    ensures wrong { result.wrong_key ≡ (before.wrong_key || list_any (is_wrong_key (names_of known.entry.texts.now)) (spec.keys_in_values (values_of values.now))) }
{
    let mut broken = before;
    for value in values {
        broken = with_value(broken, value, known);
    }
    broken
}

#[cycle(broken)]
#[tactic(auto, using(crate::proofs::RowRules::broken_steps))]
fn with_members(before: Broken, members: &[Member], known: KnownNames<'_, '_>) -> Broken
    ensures unknown { result.unknown_name ≡ (before.unknown_name || list_any (is_unknown (names_of known.entry.columns.now)) (spec.names_in_members (members_of members.now))) }
    ensures wrong { result.wrong_key ≡ (before.wrong_key || list_any (is_wrong_key (names_of known.entry.texts.now)) (spec.keys_in_members (members_of members.now))) }
{
    let mut broken = before;
    for member in members {
        let at_key = with_key(broken, &member.key, known);
        broken = with_value(with_value(at_key, &member.key, known), &member.value, known);
    }
    broken
}
