//! The pieces of values, and of the items of a SELECT list with a table.

ghost use Rattle.std.specs.Prelude.{OnOk, false};
ghost use Rattle.sj_sql_grammar.specs.Tree as t;
ghost use Rattle.sj_sql_tree.specs.View.{value_of, values_of, members_of, item_of};
ghost use Rattle.sj_sql_text.specs.Adds.{Adds};
ghost use Rattle.sj_sql_text.specs.Statements as spec;

use crate::call;
use crate::phrase::{comma_behind, is_json, literal, nulls, unique};
use crate::pieces::Pieces;
use sj_base::Memory;
use sj_sql_tree::{Item, Member, Value};
use sj_value::Nulls;

#[cycle(values)]
pub(crate) fn value<'a>(value: &'a Value, out: &mut Pieces<'a>) -> Result<(), Memory>
    ensures { OnOk result (Adds out.old out.new (spec.value_on (value_of value.now))) }
{
    match value {
        Value::Lit(value) => literal(value, out),
        Value::Column(name) => out.name(name.as_str()),
        Value::Exists(call) => call::exists(call, out),
        Value::ValueOf(call) => call::value(call, out),
        Value::Query(call) => call::query(call, out),
        Value::IsJson(call) => is_json(*call, out),
        Value::Object(members, nulls, unique) => object(members, *nulls, *unique, out),
        Value::Array(values, nulls) => array(values, *nulls, out),
    }
}

#[cycle(values)]
fn object<'a>(
    members: &'a [Member],
    on_null: Nulls,
    keys: bool,
    out: &mut Pieces<'a>,
) -> Result<(), Memory>
    ensures { OnOk result (Adds out.old out.new (spec.value_on (t.Object (members_of members.now) on_null keys))) }
{
    out.call("JSON_OBJECT")?;
    listed_members(members, out)?;
    object_clauses(members, on_null, keys, out)?;
    out.close()
}

#[cycle(values)]
fn array<'a>(values: &'a [Value], on_null: Nulls, out: &mut Pieces<'a>) -> Result<(), Memory>
    ensures { OnOk result (Adds out.old out.new (spec.value_on (t.Array (values_of values.now) on_null))) }
{
    out.call("JSON_ARRAY")?;
    listed_values(values, out)?;
    array_clause(values, on_null, out)?;
    out.close()
}

fn object_clauses(
    members: &[Member],
    on_null: Nulls,
    keys: bool,
    out: &mut Pieces<'_>,
) -> Result<(), Memory>
    ensures { OnOk result (Adds out.old out.new (spec.object_clauses_on (members_of members.now) on_null keys)) }
{
    if members.is_empty() {
        return Ok(());
    }
    nulls(on_null, out)?;
    unique(keys, out)
}

fn array_clause(values: &[Value], on_null: Nulls, out: &mut Pieces<'_>) -> Result<(), Memory>
    ensures { OnOk result (Adds out.old out.new (spec.array_clause_on (values_of values.now) on_null)) }
{
    if values.is_empty() {
        Ok(())
    } else {
        nulls(on_null, out)
    }
}

#[cycle(values)]
fn member<'a>(member: &'a Member, out: &mut Pieces<'a>) -> Result<(), Memory>
    ensures { OnOk result (Adds out.old out.new (spec.member_on (value_of member.now.key) (value_of member.now.value))) }
{
    value(&member.key, out)?;
    out.word("VALUE")?;
    value(&member.value, out)
}

/// Members with commas between them.
#[cycle(values)]
fn listed_members<'a>(members: &'a [Member], out: &mut Pieces<'a>) -> Result<(), Memory>
    ensures { OnOk result (Adds out.old out.new (spec.members_on false (members_of members.now))) }
{
    let mut behind = false;
    for one in members {
        comma_behind(behind, out)?;
        member(one, out)?;
        behind = true;
    }
    Ok(())
}

/// Values with commas between them.
#[cycle(values)]
fn listed_values<'a>(values: &'a [Value], out: &mut Pieces<'a>) -> Result<(), Memory>
    ensures { OnOk result (Adds out.old out.new (spec.values_on false (values_of values.now))) }
{
    let mut behind = false;
    for one in values {
        comma_behind(behind, out)?;
        value(one, out)?;
        behind = true;
    }
    Ok(())
}

fn aggregated_member<'a>(key: &'a Value, of: &'a Value, out: &mut Pieces<'a>) -> Result<(), Memory>
    ensures { OnOk result (Adds out.old out.new (spec.member_on (value_of key.now) (value_of of.now))) }
{
    value(key, out)?;
    out.word("VALUE")?;
    value(of, out)
}

pub(crate) fn item<'a>(item: &'a Item, out: &mut Pieces<'a>) -> Result<(), Memory>
    ensures { OnOk result (Adds out.old out.new (spec.item_on (item_of item.now))) }
{
    match item {
        Item::Single(one) => value(one, out),
        Item::ArrayAgg(one, on_null) => {
            out.call("JSON_ARRAYAGG")?;
            value(one, out)?;
            nulls(*on_null, out)?;
            out.close()
        }
        Item::ObjectAgg(key, one, on_null, keys) => {
            out.call("JSON_OBJECTAGG")?;
            aggregated_member(key, one, out)?;
            nulls(*on_null, out)?;
            unique(*keys, out)?;
            out.close()
        }
    }
}
