//! The binding of statements.

ghost use Rattle.std.specs.Prelude.{◌≡◌, ◌≤◌, false, length, IfOk, All};
ghost use Rattle.sj_sql_grammar.specs.Tree as t;
ghost use Rattle.sj_sql_tree.specs.View.{plain_of, items_of, table_of, statement_of};
ghost use Rattle.sj_bind.specs.Answer.{Binds};
ghost use Rattle.sj_bind.specs.Fits.{AreItemsFit, AreListFit};
ghost use Rattle.sj_bind.specs.FlatView.{flat_of};
ghost use Rattle.sj_bind.specs.Meaning.{bound_items, bound_list, columns_below};
ghost use Rattle.sj_bind.specs.Names.{names_of};
ghost use Rattle.sj_bind.specs.Bindable.{IsBindable, IsBindableTable, AsksNothing};
ghost use Rattle.sj_bound.specs.Limits.{most_items, most_columns};
ghost use Rattle.sj_bound.specs.Sound.{IsSound};
ghost use Rattle.sj_bind.specs.Tables.{column_names, has_column_twice};
ghost use Rattle.sj_bound.specs.View as view;

use crate::fault::{all_fault, listed_fault, plain_fault};
use crate::flat::{FlatTable, flatten};
use crate::name_set::NameSet;
use crate::refusal::BindRefusal;
use crate::table::{bind_table, column_index};
use crate::values::{bind_item, bind_value};
use sj_base::Memory;
use sj_bound::{Bound, BoundItem, BoundValue};
use sj_sql_tree::{Item, Seq, Statement, Table, Value};
use std::alloc::Global;

/// Binds a statement, which has no type and no encoding that this implementation lacks, and whose types meet the condition of a
/// cast. Its list names a column only beside a table, and calls a function that has a path only where there is none. The
/// statement is spent.
///
/// # Errors
/// `Kind` exactly where the statement breaks a rule, with the first that it breaks, and `Memory` where memory ran out.
#[tactic(auto, using(crate::proofs::SoundStatements::sound_answer))]
pub fn bind(alloc: Global, statement: Statement) -> Result<Bound, BindRefusal>
    requires { IsBindable (statement_of statement) }
    ensures binds { Binds (statement_of statement) result }
    ensures sound { IfOk result (λ b. IsSound (view.bound_of b)) }
{
    match statement {
        Statement::Plain(values) => bind_plain(alloc, values),
        Statement::All(table) => bind_all(alloc, table),
        Statement::Listed(items, table) => bind_listed(alloc, items, table),
    }
}

fn bind_plain(alloc: Global, values: Seq<Value>) -> Result<Bound, BindRefusal>
    requires { IsBindable (t.Plain (plain_of values)) }
    ensures { Binds (t.Plain (plain_of values)) result }
{
    if let Some(kind) = plain_fault(alloc, &values)? {
        return Err(BindRefusal::Kind(kind));
    }
    let items = bind_list(alloc, values)?;
    Ok(Bound { items, table: None })
}

fn bind_list(alloc: Global, values: Seq<Value>) -> Result<Seq<BoundItem>, Memory>
    requires fit { AreListFit (plain_of values) }
    requires few { length values ≤ most_items }
    ensures { IfOk result (λ items. view.items_of items ≡ bound_list (plain_of values)) }
{
    let no_columns = NameSet::new(alloc);
    let mut items = Seq::with_room(alloc, values.len())?;
    for value in values.into_vec() {
        items.push(BoundItem::Value(bind_value(alloc, value, &no_columns)?))?;
    }
    Ok(items)
}

fn bind_all(alloc: Global, table: Table) -> Result<Bound, BindRefusal>
    requires { IsBindableTable (table_of table) }
    ensures { Binds (t.All (table_of table)) result }
{
    let flat = flatten(alloc, table)?;
    if let Some(kind) = all_fault(alloc, &flat)? {
        return Err(BindRefusal::Kind(kind));
    }
    let items = first_columns(alloc, flat.columns.len() as u32)?;
    let table = bind_table(alloc, flat)?;
    Ok(Bound {
        items,
        table: Some(table),
    })
}

fn first_columns(alloc: Global, count: u32) -> Result<Seq<BoundItem>, Memory>
    requires { count ≤ most_columns }
    ensures { IfOk result (λ items. view.items_of items ≡ columns_below count) }
{
    let mut items = Seq::with_room(alloc, count)?;
    for number in 0..count {
        items.push(BoundItem::Value(BoundValue::Column(number)))?;
    }
    Ok(items)
}

fn bind_listed(alloc: Global, items: Seq<Item>, table: Table) -> Result<Bound, BindRefusal>
    requires bindable { IsBindableTable (table_of table) }
    requires asks_nothing { All AsksNothing (items_of items) }
    ensures { Binds (t.Listed (items_of items) (table_of table)) result }
{
    let flat = flatten(alloc, table)?;
    if let Some(kind) = listed_fault(alloc, &items, &flat)? {
        return Err(BindRefusal::Kind(kind));
    }
    let items = bind_beside(alloc, items, &flat)?;
    let table = bind_table(alloc, flat)?;
    Ok(Bound {
        items,
        table: Some(table),
    })
}

fn bind_beside(alloc: Global, items: Seq<Item>, table: &FlatTable) -> Result<Seq<BoundItem>, Memory>
    requires once { has_column_twice (flat_of table.now) ≡ false }
    requires few_columns { length (column_names (flat_of table.now)) ≤ most_columns }
    requires fit { AreItemsFit (column_names (flat_of table.now)) (items_of items) }
    requires few { length items ≤ most_items }
    ensures { IfOk result (λ bound. view.items_of bound ≡ bound_items (column_names (flat_of table.now)) (items_of items)) }
{
    let columns = column_index(alloc, table)?;
    bind_items(alloc, items, &columns)
}

fn bind_items(
    alloc: Global,
    items: Seq<Item>,
    columns: &NameSet<'_>,
) -> Result<Seq<BoundItem>, Memory>
    requires fit { AreItemsFit (names_of columns.now) (items_of items) }
    requires few_columns { length (names_of columns.now) ≤ most_columns }
    requires few { length items ≤ most_items }
    ensures { IfOk result (λ bound. view.items_of bound ≡ bound_items (names_of columns.now) (items_of items)) }
{
    let mut bound = Seq::with_room(alloc, items.len())?;
    for item in items.into_vec() {
        bound.push(bind_item(alloc, item, columns)?)?;
    }
    Ok(bound)
}
