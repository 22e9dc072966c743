//! Tables read flat: the paths and the columns at any depth, each in the order of the text.

ghost use Rattle.std.specs.Prelude.{◌≡◌, ◌+◌, ◌++◌, ◌∷◌, [], Some, length, IfOk, OnOk};
ghost use Rattle.sj_path_tree.specs.View.{path_of};
ghost use Rattle.sj_sql_tree.specs.View.{column_of, columns_of, table_of};
ghost use Rattle.sj_bind.specs.Flat as spec;
ghost use Rattle.sj_bind.specs.FlatView.{paths_at, columns_at, flat_of};

use sj_base::{Memory, Text};
use sj_path_tree::Path;
use sj_sql_grammar::Passed;
use sj_sql_tree::{Column, Columns, Common, PlanTree, Seq, Table};
use sj_value::TableAction;
use std::alloc::Global;

/// A path of a table.
#[derive(Drop)]
pub struct FlatPath {
    pub path: Path,
    pub name: Option<Text>,
    /// The number of the path that it is nested in. The row path is nested in none.
    pub parent: Option<usize>,
}

/// A column of a table, which is no nested path.
#[derive(Drop)]
pub struct FlatColumn {
    /// The number of the path whose rows it is a column of.
    pub path: usize,
    pub column: Column,
}

/// A table, whose paths are numbered from 0 in the order of the text. The row path is the first.
#[derive(Drop)]
pub struct FlatTable {
    pub passing: Seq<Passed>,
    pub paths: Vec<FlatPath>,
    pub columns: Vec<FlatColumn>,
    pub plan: PlanTree,
    pub on_error: TableAction,
}

/// The paths and columns so far.
#[derive(Drop)]
struct Parts {
    paths: Vec<FlatPath>,
    columns: Vec<FlatColumn>,
}

/// The table, read flat. It may have any number of paths and columns: the rule on numbers is asked later.
pub fn flatten(alloc: Global, table: Table) -> Result<FlatTable, Memory>
    ensures { IfOk result (λ t. flat_of t ≡ spec.flat (table_of table)) }
{
    let Table {
        common,
        name,
        columns,
        plan,
        on_error,
    } = table;
    let Common {
        encoding: _,
        path,
        passing,
    } = common;
    let mut parts = Parts {
        paths: Vec::new(alloc),
        columns: Vec::new(alloc),
    };
    let row_path = FlatPath {
        path,
        name,
        parent: None,
    };
    parts.paths.push(row_path)?;
    add_columns(columns, 0, &mut parts)?;
    let Parts { paths, columns } = parts;
    Ok(FlatTable {
        passing,
        paths,
        columns,
        plan,
        on_error,
    })
}

/// Adds the columns that stand under the path of this number, and the paths that are nested in it.
#[cycle(add_columns)]
fn add_columns(columns: Columns, parent: usize, parts: &mut Parts) -> Result<(), Memory>
    ensures paths { OnOk result (paths_at parts.new.paths.items ≡ paths_at parts.old.paths.items ++ spec.paths_below parent (length parts.old.paths.items) (columns_of columns)) }
    ensures columns { OnOk result (columns_at parts.new.columns.items ≡ columns_at parts.old.columns.items ++ spec.columns_below parent (length parts.old.paths.items) (columns_of columns)) }
    ensures count { OnOk result (length parts.new.paths.items ≡ length parts.old.paths.items + length (spec.paths_below parent (length parts.old.paths.items) (columns_of columns))) }
{
    for column in columns.before {
        add_column(column, parent, parts)?;
    }
    add_column(columns.last, parent, parts)
}

/// Adds one column, or a nested path with its columns.
#[cycle(add_columns)]
#[tactic(auto, using(crate::proofs::Constructed::nests))]
fn add_column(column: Column, parent: usize, parts: &mut Parts) -> Result<(), Memory>
    ensures paths { OnOk result (paths_at parts.new.paths.items ≡ paths_at parts.old.paths.items ++ spec.paths_in parent (length parts.old.paths.items) (column_of column)) }
    ensures columns { OnOk result (columns_at parts.new.columns.items ≡ columns_at parts.old.columns.items ++ spec.columns_in parent (length parts.old.paths.items) (column_of column)) }
    ensures count { OnOk result (length parts.new.paths.items ≡ length parts.old.paths.items + length (spec.paths_in parent (length parts.old.paths.items) (column_of column))) }
{
    match column {
        Column::Ordinality(_)
        | Column::Regular(_)
        | Column::Formatted(_)
        | Column::Exists(_, _, _) => put_column(column, parent, parts),
        Column::Nested(path, name, columns) => {
            let number = parts.paths.len();
            put_path(path, name, parent, parts)?;
            add_columns(Box::into_inner(columns), number, parts)
        }
    }
}

fn put_column(column: Column, parent: usize, parts: &mut Parts) -> Result<(), Memory>
    ensures paths { OnOk result (parts.new.paths ≡ parts.old.paths) }
    ensures columns { OnOk result (columns_at parts.new.columns.items ≡ columns_at parts.old.columns.items ++ record { path = parent; column = column_of column } ∷ []) }
{
    let column = FlatColumn {
        path: parent,
        column,
    };
    Ok(parts.columns.push(column)?)
}

fn put_path(path: Path, name: Option<Text>, parent: usize, parts: &mut Parts) -> Result<(), Memory>
    ensures paths { OnOk result (paths_at parts.new.paths.items ≡ paths_at parts.old.paths.items ++ record { path = path_of path; name = name; parent = Some parent } ∷ []) }
    ensures columns { OnOk result (parts.new.columns ≡ parts.old.columns) }
    ensures count { OnOk result (length parts.new.paths.items ≡ length parts.old.paths.items + 1) }
{
    let path = FlatPath {
        path,
        name,
        parent: Some(parent),
    };
    Ok(parts.paths.push(path)?)
}
