//! The pieces of tables and their columns.

ghost use Rattle.std.specs.Prelude.{◌∷◌, OnOk, codes};
ghost use Rattle.sj_path_tree.specs.View.{path_of};
ghost use Rattle.sj_sql_grammar.specs.Tree as t;
ghost use Rattle.sj_sql_tree.specs.View.{common_of, regular_of, formatted_of, column_of, columns_of, plan_tree_of, table_of};
ghost use Rattle.sj_sql_text.specs.Adds.{Adds};
ghost use Rattle.sj_sql_text.specs.Pieces as piece;
ghost use Rattle.sj_sql_text.specs.Phrases as phrase;
ghost use Rattle.sj_sql_text.specs.Plans.{plan_on};
ghost use Rattle.sj_sql_text.specs.Statements as spec;

use crate::phrase::{
    document, encoding, exists_clause, passing, path, path_name, query_clauses, table_clause,
    type_name, value_clauses,
};
use crate::pieces::Pieces;
use crate::plan::plan;
use sj_base::{Memory, Text};
use sj_path_tree::Path;
use sj_sql_tree::{Column, Columns, FormattedColumn, RegularColumn, Table};
use sj_value::ExistsAction;

fn column_path<'a>(own: &'a Path, out: &mut Pieces<'a>) -> Result<(), Memory>
    ensures { OnOk result (Adds out.old out.new (spec.column_path_on (path_of own.now))) }
{
    out.word("PATH")?;
    path(own, out)
}

fn regular<'a>(column: &'a RegularColumn, out: &mut Pieces<'a>) -> Result<(), Memory>
    ensures { OnOk result (Adds out.old out.new (spec.regular_on (regular_of column.now))) }
{
    out.name(column.name.as_str())?;
    type_name(column.ty, out)?;
    column_path(&column.path, out)?;
    value_clauses(&column.on_empty, &column.on_error, out)
}

fn format_json(out: &mut Pieces<'_>) -> Result<(), Memory>
    ensures { OnOk result (Adds out.old out.new (λ ps. phrase.word (codes "VARCHAR") (phrase.word (codes "FORMAT") (phrase.word (codes "JSON") ps)))) }
{
    out.word("VARCHAR")?;
    out.word("FORMAT")?;
    out.word("JSON")
}

fn formatted<'a>(column: &'a FormattedColumn, out: &mut Pieces<'a>) -> Result<(), Memory>
    ensures { OnOk result (Adds out.old out.new (spec.formatted_on (formatted_of column.now))) }
{
    out.name(column.name.as_str())?;
    format_json(out)?;
    encoding(column.encoding, out)?;
    column_path(&column.path, out)?;
    query_clauses(column.clauses, out)
}

fn existence<'a>(
    name: &'a Text,
    own: &'a Path,
    on_error: ExistsAction,
    out: &mut Pieces<'a>,
) -> Result<(), Memory>
    ensures { OnOk result (Adds out.old out.new (spec.existence_on name.now (path_of own.now) on_error)) }
{
    out.name(name.as_str())?;
    out.word("BOOLEAN")?;
    out.word("EXISTS")?;
    column_path(own, out)?;
    exists_clause(on_error, out)
}

fn ordinality<'a>(name: &'a Text, out: &mut Pieces<'a>) -> Result<(), Memory>
    ensures { OnOk result (Adds out.old out.new (spec.column_on (t.Ordinality name.now))) }
{
    out.name(name.as_str())?;
    for_ordinality(out)
}

fn for_ordinality(out: &mut Pieces<'_>) -> Result<(), Memory>
    ensures { OnOk result (Adds out.old out.new (λ ps. phrase.word (codes "FOR") (phrase.word (codes "ORDINALITY") ps))) }
{
    out.word("FOR")?;
    out.word("ORDINALITY")
}

/// A nested path, with its columns.
#[cycle(columns)]
fn nested<'a>(
    own: &'a Path,
    name: &'a Option<Text>,
    inside: &'a Columns,
    out: &mut Pieces<'a>,
) -> Result<(), Memory>
    ensures { OnOk result (Adds out.old out.new (spec.column_on (t.Nested (path_of own.now) name.now (columns_of inside.now)))) }
{
    out.word("NESTED")?;
    column_path(own, out)?;
    path_name(name, out)?;
    columns(inside, out)
}

#[cycle(columns)]
fn column<'a>(column: &'a Column, out: &mut Pieces<'a>) -> Result<(), Memory>
    ensures { OnOk result (Adds out.old out.new (spec.column_on (column_of column.now))) }
{
    match column {
        Column::Ordinality(name) => ordinality(name, out),
        Column::Regular(column) => regular(column, out),
        Column::Formatted(column) => formatted(column, out),
        Column::Exists(name, own, on_error) => existence(name, own, *on_error, out),
        Column::Nested(own, name, inside) => nested(own, name, inside, out),
    }
}

#[cycle(columns)]
fn columns<'a>(columns: &'a Columns, out: &mut Pieces<'a>) -> Result<(), Memory>
    ensures { OnOk result (Adds out.old out.new (spec.columns_on (columns_of columns.now))) }
{
    out.word("COLUMNS")?;
    out.open()?;
    listed(columns, out)?;
    out.close()
}

/// Columns with commas between them.
#[cycle(columns)]
fn listed<'a>(columns: &'a Columns, out: &mut Pieces<'a>) -> Result<(), Memory>
    ensures { OnOk result (Adds out.old out.new (spec.listed_columns_on (columns_of columns.now))) }
{
    for one in &columns.before {
        column(one, out)?;
        out.comma()?;
    }
    column(&columns.last, out)
}

/// The document, the row path with its name, and the variables.
fn row_path<'a>(table: &'a Table, out: &mut Pieces<'a>) -> Result<(), Memory>
    ensures { OnOk result (Adds out.old out.new (λ ps. phrase.document_on table.now.common.encoding (piece.Comma ∷ phrase.path_on (path_of table.now.common.path) (phrase.path_name_on table.now.name (phrase.passing_on table.now.common.passing ps))))) }
{
    document(table.common.encoding, out)?;
    out.comma()?;
    path(&table.common.path, out)?;
    path_name(&table.name, out)?;
    passing(table.common.passing.as_slice(), out)
}

pub(crate) fn table<'a>(table: &'a Table, out: &mut Pieces<'a>) -> Result<(), Memory>
    ensures { OnOk result (Adds out.old out.new (spec.table_on (table_of table.now))) }
{
    out.call("JSON_TABLE")?;
    row_path(table, out)?;
    columns(&table.columns, out)?;
    plan(&table.plan, out)?;
    table_clause(table.on_error, out)?;
    out.close()
}
