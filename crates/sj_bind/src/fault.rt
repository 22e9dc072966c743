//! The rules, one after another in their order.

ghost use Rattle.std.specs.Prelude.{◌≡◌, ◌||◌, false, nat_lt, length, IfOk, All};
ghost use Rattle.sj_sql_grammar.specs.Tree as t;
ghost use Rattle.sj_sql_tree.specs.View.{plain_of, items_of};
ghost use Rattle.sj_bound.specs.Limits.{most_items};
ghost use Rattle.sj_bind.specs.Faults as group;
ghost use Rattle.sj_bind.specs.FlatView.{flat_of};
ghost use Rattle.sj_bind.specs.Names.{names_of};
ghost use Rattle.sj_bind.specs.PartsView.{calls_of};
ghost use Rattle.sj_bind.specs.Rules as spec;
ghost use Rattle.sj_bind.specs.Tables as tables;
ghost use Rattle.sj_bind.specs.Bindable.{IsBindable, IsBindableCall, IsBindableColumn};
ghost use Rattle.sj_bind.specs.Variables.{HaveSame};

use crate::calls::{some_default_fails, some_lacks_variable, some_passes_twice, some_quotes_clash};
use crate::flat::FlatTable;
use crate::items::are_mixed;
use crate::keys::{some_key_is_wrong, text_names};
use crate::name_set::NameSet;
use crate::parts::{Call, find_all};
use crate::row_rules::{Broken, KnownNames, broken_by_items};
use crate::table::{
    column_index, has_column_twice, has_path_name_twice, has_plan_mismatch, has_too_many,
    lacks_path_name,
};
use crate::table_rules::{
    some_column_default_fails, some_column_quotes_clash, table_lacks_variable,
};
use crate::variables::has_name_twice;
use sj_base::Memory;
use sj_sql_grammar::BindKind;
use sj_sql_tree::{Item, Seq, Value};
use std::alloc::Global;

/// The most items that a SELECT list may have.
pub const MOST_ITEMS: u32 = 1000;

/// The first rule that functions break.
fn calls_fault(alloc: Global, calls: &[Call<'_>]) -> Result<Option<BindKind>, Memory>
    requires { All IsBindableCall (calls_of calls.now) }
    ensures { IfOk result (λ f. f ≡ group.calls_fault (calls_of calls.now)) }
{
    if some_passes_twice(alloc, calls)? {
        return Ok(Some(BindKind::VariableTwice));
    }
    if some_lacks_variable(alloc, calls)? {
        return Ok(Some(BindKind::UnknownVariable));
    }
    if some_quotes_clash(calls) {
        return Ok(Some(BindKind::QuotesWithWrapper));
    }
    if some_default_fails(alloc, calls)? {
        return Ok(Some(BindKind::DefaultCast));
    }
    Ok(None)
}

/// The first rule that a list without a table breaks.
#[tactic(auto, using(crate::proofs::Groups::groups))]
pub fn plain_fault(alloc: Global, values: &Seq<Value>) -> Result<Option<BindKind>, Memory>
    requires { IsBindable (t.Plain (plain_of values.now)) }
    ensures { IfOk result (λ f. f ≡ spec.bind_fault (t.Plain (plain_of values.now))) }
{
    if values.len() > MOST_ITEMS {
        return Ok(Some(BindKind::TooMany));
    }
    let parts = find_all(alloc, values.as_slice())?;
    let fault = calls_fault(alloc, parts.calls.as_slice())?;
    if fault.is_some() {
        return Ok(fault);
    }
    if some_key_is_wrong(alloc, parts.keys.as_slice()) {
        return Ok(Some(BindKind::KeyType));
    }
    Ok(None)
}

/// The first rule on names and the plan that a table breaks.
fn names_fault(alloc: Global, table: &FlatTable) -> Result<Option<BindKind>, Memory>
    ensures { IfOk result (λ f. f ≡ group.names_fault (flat_of table.now)) }
{
    if has_column_twice(alloc, table)? {
        return Ok(Some(BindKind::ColumnTwice));
    }
    if has_path_name_twice(alloc, table)? {
        return Ok(Some(BindKind::PathNameTwice));
    }
    if lacks_path_name(table) {
        return Ok(Some(BindKind::PathNameMissing));
    }
    if has_plan_mismatch(table) {
        return Ok(Some(BindKind::PlanMismatch));
    }
    Ok(None)
}

/// The first rule on variables and columns that a table breaks.
fn columns_fault(alloc: Global, table: &FlatTable) -> Result<Option<BindKind>, Memory>
    requires { All IsBindableColumn (spec.all_columns (flat_of table.now)) }
    ensures { IfOk result (λ f. f ≡ group.columns_fault (flat_of table.now)) }
{
    if has_name_twice(alloc, table.passing.as_slice())? {
        return Ok(Some(BindKind::VariableTwice));
    }
    if table_lacks_variable(alloc, table)? {
        return Ok(Some(BindKind::UnknownVariable));
    }
    if some_column_quotes_clash(table.columns.as_slice()) {
        return Ok(Some(BindKind::QuotesWithWrapper));
    }
    if some_column_default_fails(alloc, table.columns.as_slice())? {
        return Ok(Some(BindKind::DefaultCast));
    }
    Ok(None)
}

/// The first rule that `SELECT *` breaks.
pub fn all_fault(alloc: Global, table: &FlatTable) -> Result<Option<BindKind>, Memory>
    requires { All IsBindableColumn (spec.all_columns (flat_of table.now)) }
    ensures { IfOk result (λ f. f ≡ group.all_fault (flat_of table.now)) }
{
    if has_too_many(table) {
        return Ok(Some(BindKind::TooMany));
    }
    table_fault(alloc, table)
}

fn table_fault(alloc: Global, table: &FlatTable) -> Result<Option<BindKind>, Memory>
    requires { All IsBindableColumn (spec.all_columns (flat_of table.now)) }
    ensures { IfOk result (λ f. f ≡ group.table_fault (flat_of table.now)) }
{
    let fault = names_fault(alloc, table)?;
    if fault.is_some() {
        return Ok(fault);
    }
    columns_fault(alloc, table)
}

/// The rules on names and on keys that the list breaks beside a table.
fn broken_beside(alloc: Global, items: &[Item], table: &FlatTable) -> Result<Broken, Memory>
    requires { tables.has_column_twice (flat_of table.now) ≡ false }
    ensures unknown { IfOk result (λ b. b.unknown_name ≡ spec.names_unknown (items_of items.now) (flat_of table.now)) }
    ensures wrong { IfOk result (λ b. b.wrong_key ≡ spec.keys_wrong (items_of items.now) (flat_of table.now)) }
{
    let columns = column_index(alloc, table)?;
    let texts = text_names(alloc, table.columns.as_slice())?;
    let known = KnownNames {
        columns: &columns,
        texts: &texts,
    };
    Ok(broken_by_items(items, known))
}

/// The first rule on the list that it breaks beside a table.
fn items_fault(alloc: Global, items: &[Item], table: &FlatTable) -> Result<Option<BindKind>, Memory>
    requires { tables.has_column_twice (flat_of table.now) ≡ false }
    ensures { IfOk result (λ f. f ≡ group.items_fault (items_of items.now) (flat_of table.now)) }
{
    let broken = broken_beside(alloc, items, table)?;
    if broken.unknown_name {
        return Ok(Some(BindKind::UnknownColumn));
    }
    if are_mixed(items) {
        return Ok(Some(BindKind::AggregateMixed));
    }
    if broken.wrong_key {
        return Ok(Some(BindKind::KeyType));
    }
    Ok(None)
}

#[tactic(auto, using(crate::proofs::Groups::groups))]
fn has_too_many_parts(items: &Seq<Item>, table: &FlatTable) -> bool
    ensures { result ≡ (nat_lt most_items (length (items_of items.now)) || tables.has_too_many (flat_of table.now)) }
{
    items.len() > MOST_ITEMS || has_too_many(table)
}

/// The first rule that a list with a table breaks.
pub fn listed_fault(
    alloc: Global,
    items: &Seq<Item>,
    table: &FlatTable,
) -> Result<Option<BindKind>, Memory>
    requires { All IsBindableColumn (spec.all_columns (flat_of table.now)) }
    ensures { IfOk result (λ f. f ≡ group.listed_fault (items_of items.now) (flat_of table.now)) }
{
    if has_too_many_parts(items, table) {
        return Ok(Some(BindKind::TooMany));
    }
    let fault = table_fault(alloc, table)?;
    if fault.is_some() {
        return Ok(fault);
    }
    items_fault(alloc, items.as_slice(), table)
}
