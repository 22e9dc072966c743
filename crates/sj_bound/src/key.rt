// Which values are keys: a string literal, NULL, a column of a text type and a JSON_VALUE of a text type.
ghost use Rattle.std.specs.Prelude.{◌≡◌, ◌↔◌, IsTrue, [], IsSomeAnd, slice_get};
ghost use Rattle.sj_bound.specs.Bound as b;
ghost use Rattle.sj_bound.specs.Sound as sound;
ghost use Rattle.sj_bound.specs.View.{value_of, item_of, column_of, columns_of};

use crate::bound::{BoundColumn, BoundItem, BoundValue};
use sj_path_tree::Literal;
use sj_value::SqlType;

/// Whether it is VARCHAR or VARCHAR(n).
pub fn is_text_type(ty: SqlType) -> bool
    ensures { result ≡ sound.is_text_type ty }
{
    match ty {
        SqlType::Varchar | SqlType::VarcharMax(_) => true,
        SqlType::Numeric
        | SqlType::NumericFixed(_, _)
        | SqlType::Integer
        | SqlType::Bigint
        | SqlType::Boolean => false,
    }
}

// Whether it is a regular column of a text type.
fn is_text_column(column: &BoundColumn) -> bool
    ensures { IsTrue result ↔ sound.IsTextColumn (column_of column.now) }
{
    match column {
        BoundColumn::Regular(_, _, clauses) => is_text_type(clauses.ty),
        BoundColumn::Ordinality(_)
        | BoundColumn::Formatted(_, _, _)
        | BoundColumn::Exists(_, _, _) => false,
    }
}

// Whether the column of this number is one.
fn is_text_at(columns: &[BoundColumn], number: u32) -> bool
    ensures { IsTrue result ↔ IsSomeAnd (slice_get (columns_of columns.now) number) sound.IsTextColumn }
{
    match columns.get(number as usize) {
        Some(column) => is_text_column(column),
        None => false,
    }
}

fn is_key_literal(literal: &Literal) -> bool
    ensures { IsTrue result ↔ sound.IsKey [] (b.Lit literal.now) }
{
    match literal {
        Literal::Text(_) | Literal::Null => true,
        Literal::Num(_) | Literal::Bool(_) => false,
    }
}

// Whether a value is a key beside these columns.
fn is_key(value: &BoundValue, columns: &[BoundColumn]) -> bool
    ensures { IsTrue result ↔ sound.IsKey (columns_of columns.now) (value_of value.now) }
{
    match value {
        BoundValue::Lit(literal) => is_key_literal(literal),
        BoundValue::Column(number) => is_text_at(columns, *number),
        BoundValue::Value(_, clauses) => is_text_type(clauses.ty),
        BoundValue::Exists(_, _)
        | BoundValue::Query(_, _)
        | BoundValue::IsJson(_)
        | BoundValue::Object(_, _, _)
        | BoundValue::Array(_, _) => false,
    }
}

// Whether an item is a single value that is a key.
pub(crate) fn is_key_item(item: &BoundItem, columns: &[BoundColumn]) -> bool
    ensures { IsTrue result ↔ sound.IsKeyItem (columns_of columns.now) (item_of item.now) }
{
    match item {
        BoundItem::Value(value) => is_key(value, columns),
        BoundItem::ArrayAgg(_, _) | BoundItem::ObjectAgg(_, _, _, _) => false,
    }
}
