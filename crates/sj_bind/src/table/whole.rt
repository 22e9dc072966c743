//! The binding of a table that breaks no rule.

ghost use Rattle.std.specs.Prelude.{◌≡◌, ◌≤◌, false, length, IfOk};
ghost use Rattle.sj_sql_tree.specs.View.{column_of, regular_of, formatted_of};
ghost use Rattle.sj_sql_grammar.specs.Tree as t;
ghost use Rattle.sj_bind.specs.FlatView.{flat_of, paths_at, columns_at, flat_column_of};
ghost use Rattle.sj_bind.specs.Tables.{has_too_many};
ghost use Rattle.sj_bind.specs.Plans.{has_plan_mismatch};
ghost use Rattle.sj_bind.specs.Rules.{table_passes_twice, paths_alone};
ghost use Rattle.sj_bind.specs.Meaning as spec;
ghost use Rattle.sj_bind.specs.FitColumns.{CanBind, CanBindAll, IsFitColumn};
ghost use Rattle.sj_bound.specs.Limits.{most_columns, most_paths};
ghost use Rattle.sj_bound.specs.View as bound;

use super::plan::table_plan;
use crate::clauses::{query_clauses, value_clauses};
use crate::flat::{FlatColumn, FlatPath, FlatTable};
use crate::variables::passed_vars;
use sj_base::{Memory, boxed};
use sj_bound::{BoundColumn, BoundTable};
use sj_path_tree::Path;
use sj_sql_tree::{Column, FormattedColumn, RegularColumn, Seq};
use std::alloc::Global;

/// The table, bound.
pub fn bind_table(alloc: Global, table: FlatTable) -> Result<Box<BoundTable>, Memory>
    requires few { has_too_many (flat_of table) ≡ false }
    requires matched { has_plan_mismatch (flat_of table) ≡ false }
    requires once { table_passes_twice (flat_of table) ≡ false }
    requires columns { CanBindAll (flat_of table).columns }
    ensures { IfOk result (λ b. bound.table_of b.value ≡ spec.bound_table (flat_of table)) }
{
    let plan = table_plan(alloc, &table)?;
    let FlatTable {
        passing,
        paths,
        columns,
        plan: _,
        on_error,
    } = table;
    let bound = BoundTable {
        paths: bound_paths(alloc, paths)?,
        vars: passed_vars(alloc, passing)?,
        plan,
        on_error,
        columns: bound_columns(alloc, columns)?,
    };
    boxed(alloc, bound)
}

fn bound_paths(alloc: Global, paths: Vec<FlatPath>) -> Result<Seq<Path>, Memory>
    requires { length paths.items ≤ most_paths }
    ensures { IfOk result (λ made. bound.paths_of made ≡ paths_alone (paths_at paths.items)) }
{
    let mut bound = Seq::with_room(alloc, paths.len() as u32)?;
    for path in paths {
        bound.push(path.path)?;
    }
    Ok(bound)
}

fn bound_columns(alloc: Global, columns: Vec<FlatColumn>) -> Result<Seq<BoundColumn>, Memory>
    requires few { length columns.items ≤ most_columns }
    requires fit { CanBindAll (columns_at columns.items) }
    ensures { IfOk result (λ made. bound.columns_of made ≡ spec.bound_columns (columns_at columns.items)) }
{
    let mut bound = Seq::with_room(alloc, columns.len() as u32)?;
    for column in columns {
        bound.push(bound_column(alloc, column)?)?;
    }
    Ok(bound)
}

fn bound_column(alloc: Global, column: FlatColumn) -> Result<BoundColumn, Memory>
    requires { CanBind (flat_column_of column) }
    ensures { IfOk result (λ c. bound.column_of c ≡ spec.bound_column (flat_column_of column)) }
{
    let FlatColumn { path, column } = column;
    column_under(alloc, path as u32, column)
}

/// A column of the path of this number. A nested path stands in no list of columns.
fn column_under(alloc: Global, path: u32, column: Column) -> Result<BoundColumn, Memory>
    requires { IsFitColumn (column_of column) }
    ensures { IfOk result (λ c. bound.column_of c ≡ spec.column_under path (column_of column)) }
{
    match column {
        Column::Ordinality(_) | Column::Nested(_, _, _) => Ok(BoundColumn::Ordinality(path)),
        Column::Regular(column) => bound_regular(alloc, column, path),
        Column::Formatted(column) => Ok(bound_formatted(column, path)),
        Column::Exists(_, own, on_error) => Ok(BoundColumn::Exists(path, own, on_error)),
    }
}

fn bound_regular(alloc: Global, column: RegularColumn, path: u32) -> Result<BoundColumn, Memory>
    requires { IsFitColumn (t.Regular (regular_of column)) }
    ensures { IfOk result (λ c. bound.column_of c ≡ spec.column_under path (t.Regular (regular_of column))) }
{
    let clauses = value_clauses(alloc, column.ty, &column.on_empty, &column.on_error)?;
    Ok(BoundColumn::Regular(path, column.path, clauses))
}

fn bound_formatted(column: FormattedColumn, path: u32) -> BoundColumn
    ensures { bound.column_of result ≡ spec.column_under path (t.Formatted (formatted_of column)) }
{
    BoundColumn::Formatted(path, column.path, query_clauses(column.clauses))
}
