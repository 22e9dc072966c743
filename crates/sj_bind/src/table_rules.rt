//! The rules on the variables and the columns of a table.

ghost use Rattle.std.specs.Prelude.{◌≡◌, IfOk, All};
ghost use Rattle.std.specs.List.{list_any};
ghost use Rattle.sj_sql_tree.specs.View.{column_of};
ghost use Rattle.sj_bind.specs.Names.{names_of};
ghost use Rattle.sj_bind.specs.FlatView.{columns_at, paths_at, flat_of};
ghost use Rattle.sj_bind.specs.Rules as spec;
ghost use Rattle.sj_bind.specs.Bindable.{IsBindableColumn};
ghost use Rattle.sj_bind.specs.Variables.{column_misses, misses};

use crate::calls::defaults_fail;
use crate::clauses::quotes_clash;
use crate::covered::covers;
use crate::flat::{FlatColumn, FlatPath, FlatTable};
use crate::name_set::NameSet;
use crate::variables::variable_names;
use sj_base::Memory;
use sj_sql_tree::Column;
use std::alloc::Global;

fn some_path_misses(names: &NameSet<'_>, paths: &[FlatPath]) -> bool
    ensures { result ≡ list_any (misses (names_of names.now)) (spec.paths_alone (paths_at paths.now)) }
{
    for path in paths {
        if !covers(names, &path.path) {
            return true;
        }
    }
    false
}

fn one_column_misses(names: &NameSet<'_>, column: &Column) -> bool
    ensures { result ≡ column_misses (names_of names.now) (column_of column.now) }
{
    match column {
        Column::Ordinality(_) | Column::Nested(_, _, _) => false,
        Column::Regular(column) => !covers(names, &column.path),
        Column::Formatted(column) => !covers(names, &column.path),
        Column::Exists(_, path, _) => !covers(names, path),
    }
}

fn some_column_misses(names: &NameSet<'_>, columns: &[FlatColumn]) -> bool
    ensures { result ≡ list_any (column_misses (names_of names.now)) (spec.columns_alone (columns_at columns.now)) }
{
    for column in columns {
        if one_column_misses(names, &column.column) {
            return true;
        }
    }
    false
}

/// Whether the row path, a nested path or the path of a column has a variable that the PASSING clause does not name.
pub fn table_lacks_variable(alloc: Global, table: &FlatTable) -> Result<bool, Memory>
    ensures { IfOk result (λ b. b ≡ spec.table_lacks_variable (flat_of table.now)) }
{
    let names = variable_names(alloc, table.passing.as_slice())?;
    if some_path_misses(&names, table.paths.as_slice()) {
        return Ok(true);
    }
    Ok(some_column_misses(&names, table.columns.as_slice()))
}

fn column_quotes_clash(column: &Column) -> bool
    ensures { result ≡ spec.column_quotes_clash (column_of column.now) }
{
    match column {
        Column::Ordinality(_)
        | Column::Regular(_)
        | Column::Exists(_, _, _)
        | Column::Nested(_, _, _) => false,
        Column::Formatted(column) => quotes_clash(column.clauses),
    }
}

/// Whether a QUOTES clause of a column stands beside WITH WRAPPER.
pub fn some_column_quotes_clash(columns: &[FlatColumn]) -> bool
    ensures { result ≡ list_any spec.column_quotes_clash (spec.columns_alone (columns_at columns.now)) }
{
    for column in columns {
        if column_quotes_clash(&column.column) {
            return true;
        }
    }
    false
}

fn column_default_fails(alloc: Global, column: &Column) -> Result<bool, Memory>
    requires { IsBindableColumn (column_of column.now) }
    ensures { IfOk result (λ b. b ≡ spec.column_default_fails (column_of column.now)) }
{
    match column {
        Column::Ordinality(_)
        | Column::Formatted(_)
        | Column::Exists(_, _, _)
        | Column::Nested(_, _, _) => Ok(false),
        Column::Regular(column) => {
            defaults_fail(alloc, column.ty, &column.on_empty, &column.on_error)
        }
    }
}

/// Whether a DEFAULT literal of a column cannot be cast to its type.
pub fn some_column_default_fails(alloc: Global, columns: &[FlatColumn]) -> Result<bool, Memory>
    requires { All IsBindableColumn (spec.columns_alone (columns_at columns.now)) }
    ensures { IfOk result (λ b. b ≡ list_any spec.column_default_fails (spec.columns_alone (columns_at columns.now))) }
{
    for column in columns {
        if column_default_fails(alloc, &column.column)? {
            return Ok(true);
        }
    }
    Ok(false)
}
