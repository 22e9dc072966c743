//! How many columns and paths a table has, and the rules on their names.

ghost use Rattle.std.specs.Prelude.{◌≡◌, false, ◌++◌, ◌∷◌, [], IfOk};
ghost use Rattle.sj_sql_tree.specs.View.{column_of};
ghost use Rattle.sj_bind.specs.FlatView.{paths_at, columns_at, flat_of};
ghost use Rattle.sj_bind.specs.Tables as spec;
ghost use Rattle.sj_bind.specs.Tables.{names_of_columns, names_of_paths, has_twice};
ghost use Rattle.sj_bind.specs.Names.{names_of};

use crate::flat::{FlatColumn, FlatPath, FlatTable};
use crate::name_set::NameSet;
use sj_base::Memory;
use sj_sql_tree::{Column, PlanTree};
use std::alloc::Global;

/// The most columns that a table may have.
const MOST_COLUMNS: usize = 1000;

/// The most paths that a table may have, with the row path.
const MOST_PATHS: usize = 64;

/// Whether the table has too many columns or paths.
pub fn has_too_many(table: &FlatTable) -> bool
    ensures { result ≡ spec.has_too_many (flat_of table.now) }
{
    table.columns.len() > MOST_COLUMNS || table.paths.len() > MOST_PATHS
}

/// Whether two columns have equal names. The names are kept in a set, which takes memory.
pub fn has_column_twice(alloc: Global, table: &FlatTable) -> Result<bool, Memory>
    ensures { IfOk result (λ b. b ≡ spec.has_column_twice (flat_of table.now)) }
{
    let mut seen = NameSet::new(alloc);
    note_columns(table.columns.as_slice(), &mut seen)
}

/// The names of the columns, each at its number.
pub fn column_index<'a>(alloc: Global, table: &'a FlatTable) -> Result<NameSet<'a>, Memory>
    requires { spec.has_column_twice (flat_of table.now) ≡ false }
    ensures { IfOk result (λ names. names_of names ≡ spec.column_names (flat_of table.now)) }
{
    let mut names = NameSet::new(alloc);
    note_columns(table.columns.as_slice(), &mut names)?;
    Ok(names)
}

/// Notes the names of columns, up to the first that was seen before. Whether there was one.
#[tactic(auto, using(crate::proofs::NameLists::twice_from))]
fn note_columns<'a>(columns: &'a [FlatColumn], seen: &mut NameSet<'a>) -> Result<bool, Memory>
    requires { has_twice (names_of seen.old) ≡ false }
    ensures twice { IfOk result (λ b. b ≡ has_twice (names_of seen.old ++ names_of_columns (columns_at columns.now))) }
    ensures noted { IfOk result (λ b. b ≡ false → names_of seen.new ≡ (names_of seen.old ++ names_of_columns (columns_at columns.now))) }
{
    for column in columns {
        if note(column_name(&column.column), seen)? {
            return Ok(true);
        }
    }
    Ok(false)
}

/// The name of a column. A nested path stands in no list of columns.
fn column_name(column: &Column) -> &str
    ensures { result.now ≡ spec.column_name (column_of column.now) }
{
    match column {
        Column::Ordinality(name) | Column::Exists(name, _, _) => name.as_str(),
        Column::Regular(column) => column.name.as_str(),
        Column::Formatted(column) => column.name.as_str(),
        Column::Nested(_, _, _) => "",
    }
}

/// Notes one name. Whether it was seen before.
pub fn note<'a>(name: &'a str, seen: &mut NameSet<'a>) -> Result<bool, Memory>
    requires { has_twice (names_of seen.old) ≡ false }
    ensures twice { IfOk result (λ b. b ≡ has_twice (names_of seen.old ++ name.now ∷ [])) }
    ensures noted { IfOk result (λ b. b ≡ false → names_of seen.new ≡ (names_of seen.old ++ name.now ∷ [])) }
{
    Ok(!seen.names.insert(name)?)
}

/// Whether two paths have equal names. The names are kept in a set, which takes memory.
pub fn has_path_name_twice(alloc: Global, table: &FlatTable) -> Result<bool, Memory>
    ensures { IfOk result (λ b. b ≡ spec.has_path_name_twice (flat_of table.now)) }
{
    let mut seen = NameSet::new(alloc);
    note_paths(table.paths.as_slice(), &mut seen)
}

/// Notes the names of paths, up to the first that was seen before. Whether there was one.
#[tactic(auto, using(crate::proofs::NameLists::twice_from))]
fn note_paths<'a>(paths: &'a [FlatPath], seen: &mut NameSet<'a>) -> Result<bool, Memory>
    requires { has_twice (names_of seen.old) ≡ false }
    ensures { IfOk result (λ b. b ≡ has_twice (names_of seen.old ++ names_of_paths (paths_at paths.now))) }
{
    for path in paths {
        if let Some(name) = &path.name {
            if note(name.as_str(), seen)? {
                return Ok(true);
            }
        }
    }
    Ok(false)
}

/// Whether the table has a plan with names, and a path that has none.
pub fn lacks_path_name(table: &FlatTable) -> bool
    ensures { result ≡ spec.lacks_path_name (flat_of table.now) }
{
    match &table.plan {
        PlanTree::Default(_, _) => false,
        PlanTree::Named(_) => has_unnamed(table.paths.as_slice()),
    }
}

fn has_unnamed(paths: &[FlatPath]) -> bool
    ensures { result ≡ spec.has_unnamed (paths_at paths.now) }
{
    for path in paths {
        if path.name.is_none() {
            return true;
        }
    }
    false
}
