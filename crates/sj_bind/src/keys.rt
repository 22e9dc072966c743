//! The rule on keys, and the names that it looks up.

ghost use Rattle.std.specs.Prelude.{◌≡◌, ◌∷◌, [], not, IfOk, OnOk};
ghost use Rattle.std.specs.List.{list_any};
ghost use Rattle.sj_sql_tree.specs.View.{column_of, value_of};
ghost use Rattle.sj_bind.specs.Names.{names_of};
ghost use Rattle.sj_bind.specs.FlatView.{columns_at};
ghost use Rattle.sj_bind.specs.PartsView.{keys_of};
ghost use Rattle.sj_bind.specs.Rules as spec;
ghost use Rattle.sj_bind.specs.Variables.{AddsNames, HaveSame};

use crate::clauses::names_text;
use crate::covered::has_name;
use crate::flat::FlatColumn;
use crate::name_set::NameSet;
use sj_base::Memory;
use sj_path_tree::Literal;
use sj_sql_tree::{Column, Value};
use std::alloc::Global;

fn is_key_literal(literal: &Literal) -> bool
    ensures { result ≡ spec.is_key_literal literal.now }
{
    match literal {
        Literal::Text(_) | Literal::Null => true,
        Literal::Num(_) | Literal::Bool(_) => false,
    }
}

/// Whether a value is allowed as a key beside columns, of which these are texts.
pub fn is_key(value: &Value, texts: &NameSet<'_>) -> bool
    ensures { result ≡ spec.is_key (names_of texts.now) (value_of value.now) }
{
    match value {
        Value::Lit(literal) => is_key_literal(literal),
        Value::Column(name) => has_name(texts, name.as_str()),
        Value::ValueOf(call) => names_text(call.ty),
        Value::Exists(_)
        | Value::Query(_)
        | Value::IsJson(_)
        | Value::Object(_, _, _)
        | Value::Array(_, _) => false,
    }
}

/// Whether a key is none of those that are allowed without a table. `alloc` is not asked for memory.
pub fn some_key_is_wrong(alloc: Global, keys: &[&Value]) -> bool
    ensures { result ≡ list_any (λ key. not (spec.is_key [] key)) (keys_of keys.now) }
{
    let no_columns = NameSet::new(alloc);
    for key in keys {
        if !is_key(key, &no_columns) {
            return true;
        }
    }
    false
}

/// The names of the columns that are texts. A name that stands there twice is there once.
pub fn text_names<'t>(alloc: Global, columns: &'t [FlatColumn]) -> Result<NameSet<'t>, Memory>
    ensures { IfOk result (λ names. HaveSame (names_of names) (spec.text_names (spec.columns_alone (columns_at columns.now)))) }
{
    let mut names = NameSet::new(alloc);
    for column in columns {
        note_text(&column.column, &mut names)?;
    }
    Ok(names)
}

// Adds the name of the column, if that is a text.
fn note_text<'t>(column: &'t Column, names: &mut NameSet<'t>) -> Result<(), Memory>
    ensures { OnOk result (AddsNames (names_of names.old) (spec.text_name (column_of column.now)) (names_of names.new)) }
{
    match column {
        Column::Ordinality(_)
        | Column::Formatted(_)
        | Column::Exists(_, _, _)
        | Column::Nested(_, _, _) => Ok(()),
        Column::Regular(column) => {
            if !names_text(column.ty) {
                return Ok(());
            }
            note_name(column.name.as_str(), names)
        }
    }
}

fn note_name<'t>(name: &'t str, names: &mut NameSet<'t>) -> Result<(), Memory>
    ensures { OnOk result (AddsNames (names_of names.old) (name.now ∷ []) (names_of names.new)) }
{
    names.names.insert(name)?;
    Ok(())
}
