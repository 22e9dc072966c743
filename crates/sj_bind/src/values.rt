//! The binding of the values of a SELECT list.

ghost use Rattle.std.specs.Prelude.{◌≡◌, ◌≤◌, true, [], IfOk, length};
ghost use Rattle.sj_base.specs.Names.{is_among};
ghost use Rattle.sj_sql_tree.specs.View.{value_of, values_of, members_of, item_of, exists_of, value_call_of, query_of};
ghost use Rattle.sj_sql_grammar.specs.Tree as t;
ghost use Rattle.sj_bound.specs.Limits.{most_columns};
ghost use Rattle.sj_bound.specs.View as view;
ghost use Rattle.sj_bind.specs.Fits.{IsFit, AreFit, AreFitMembers, IsItemFit, IsFitCall, PassesOnce};
ghost use Rattle.sj_bind.specs.Meaning.{column_number, bound_value, bound_values, bound_members, bound_item};
ghost use Rattle.sj_bind.specs.Names.{names_of};

use crate::clauses::{query_clauses, value_clauses};
use crate::name_set::NameSet;
use crate::variables::bound_path;
use sj_base::{Memory, boxed, push};
use sj_bound::{BoundItem, BoundMember, BoundValue};
use sj_sql_tree::{ExistsCall, Item, Member, QueryCall, Value, ValueCall};
use std::alloc::Global;

/// The number of the column with this name.
fn number_of(columns: &NameSet<'_>, name: &str) -> u32
    requires known { is_among (names_of columns.now) name.now ≡ true }
    requires few { length (names_of columns.now) ≤ most_columns }
    ensures { result ≡ column_number (names_of columns.now) name.now }
{
    match columns.names.get_index_of(name) {
        Some(number) => number as u32,
        None => unreachable!(),
    }
}

// The functions that have a path are bound apart from the calls that recur over values, which then take little stack.
#[inline(never)]
fn bind_exists(alloc: Global, call: Box<ExistsCall>) -> Result<BoundValue, Memory>
    requires { PassesOnce (exists_of call.value).common }
    ensures { IfOk result (λ b. view.value_of b ≡ bound_value [] (t.Exists (exists_of call.value))) }
{
    let ExistsCall { common, on_error } = Box::into_inner(call);
    let path = bound_path(alloc, common)?;
    Ok(BoundValue::Exists(path, on_error))
}

#[inline(never)]
fn bind_value_call(alloc: Global, call: Box<ValueCall>) -> Result<BoundValue, Memory>
    requires { IsFitCall (value_call_of call.value) }
    ensures { IfOk result (λ b. view.value_of b ≡ bound_value [] (t.ValueOf (value_call_of call.value))) }
{
    let clauses = value_clauses(alloc, call.ty, &call.on_empty, &call.on_error)?;
    let ValueCall { common, .. } = Box::into_inner(call);
    let path = bound_path(alloc, common)?;
    Ok(BoundValue::Value(path, clauses))
}

#[inline(never)]
fn bind_query(alloc: Global, call: Box<QueryCall>) -> Result<BoundValue, Memory>
    requires { PassesOnce (query_of call.value).common }
    ensures { IfOk result (λ b. view.value_of b ≡ bound_value [] (t.Query (query_of call.value))) }
{
    let QueryCall { common, clauses } = Box::into_inner(call);
    let clauses = query_clauses(clauses);
    let path = bound_path(alloc, common)?;
    Ok(BoundValue::Query(path, clauses))
}

/// A bound value, beside these columns.
#[cycle(bind_values)]
pub fn bind_value(alloc: Global, value: Value, columns: &NameSet<'_>) -> Result<BoundValue, Memory>
    requires fit { IsFit (names_of columns.now) (value_of value) }
    requires few { length (names_of columns.now) ≤ most_columns }
    ensures { IfOk result (λ b. view.value_of b ≡ bound_value (names_of columns.now) (value_of value)) }
{
    match value {
        Value::Lit(literal) => Ok(BoundValue::Lit(literal)),
        Value::Column(name) => Ok(BoundValue::Column(number_of(columns, name.as_str()))),
        Value::Exists(call) => bind_exists(alloc, call),
        Value::ValueOf(call) => bind_value_call(alloc, call),
        Value::Query(call) => bind_query(alloc, call),
        Value::IsJson(call) => Ok(BoundValue::IsJson(call)),
        Value::Object(members, nulls, unique) => {
            let members = bind_members(alloc, members, columns)?;
            Ok(BoundValue::Object(members, nulls, unique))
        }
        Value::Array(values, nulls) => {
            let values = bind_values(alloc, values, columns)?;
            Ok(BoundValue::Array(values, nulls))
        }
    }
}

#[cycle(bind_values)]
#[tactic(auto, using(crate::proofs::BoundLists::bound_lists))]
fn bind_values(
    alloc: Global,
    values: Vec<Value>,
    columns: &NameSet<'_>,
) -> Result<Vec<BoundValue>, Memory>
    requires fit { AreFit (names_of columns.now) (values_of values.items) }
    requires few { length (names_of columns.now) ≤ most_columns }
    ensures { IfOk result (λ b. view.values_of b.items ≡ bound_values (names_of columns.now) (values_of values.items)) }
{
    let mut bound = Vec::with_capacity(alloc, values.len())?;
    for value in values {
        push(&mut bound, bind_value(alloc, value, columns)?)?;
    }
    Ok(bound)
}

#[cycle(bind_values)]
#[tactic(auto, using(crate::proofs::BoundLists::bound_lists))]
fn bind_members(
    alloc: Global,
    members: Vec<Member>,
    columns: &NameSet<'_>,
) -> Result<Vec<BoundMember>, Memory>
    requires fit { AreFitMembers (names_of columns.now) (members_of members.items) }
    requires few { length (names_of columns.now) ≤ most_columns }
    ensures { IfOk result (λ b. view.members_of b.items ≡ bound_members (names_of columns.now) (members_of members.items)) }
{
    let mut bound = Vec::with_capacity(alloc, members.len())?;
    for member in members {
        let Member { key, value } = member;
        let key = bind_value(alloc, key, columns)?;
        let value = bind_value(alloc, value, columns)?;
        push(&mut bound, BoundMember { key, value })?;
    }
    Ok(bound)
}

/// A bound item, beside these columns.
pub fn bind_item(alloc: Global, item: Item, columns: &NameSet<'_>) -> Result<BoundItem, Memory>
    requires fit { IsItemFit (names_of columns.now) (item_of item) }
    requires few { length (names_of columns.now) ≤ most_columns }
    ensures { IfOk result (λ b. view.item_of b ≡ bound_item (names_of columns.now) (item_of item)) }
{
    match item {
        Item::Single(value) => {
            let value = bind_value(alloc, value, columns)?;
            Ok(BoundItem::Value(value))
        }
        Item::ArrayAgg(value, nulls) => {
            let value = boxed(alloc, bind_value(alloc, value, columns)?)?;
            Ok(BoundItem::ArrayAgg(value, nulls))
        }
        Item::ObjectAgg(key, value, nulls, unique) => {
            let key = boxed(alloc, bind_value(alloc, key, columns)?)?;
            let value = boxed(alloc, bind_value(alloc, value, columns)?)?;
            Ok(BoundItem::ObjectAgg(key, value, nulls, unique))
        }
    }
}
