//! Bound statements. A repeated part of a value is a vector, since a recursive type holds no sequence; any other repeated part
//! is a sequence. A large part that few statements have stands in a box, since a file may have very many statements, and
//! all are kept.
//!
//! The `drop` of a statement, an item, a value and a column is written out. So whoever holds one, alone or in a list,
//! gives it up by one call. A derived one is laid open, with all variants, at each place where a holder may return
//! early, and each crate proves it once more.

use crate::key::is_key_item;
use sj_path_tree::{Literal, Path, Vars};
use sj_sql_grammar::IsJsonCall;
use sj_sql_tree::Seq;
use sj_value::{ExistsAction, Nulls, Plan, QuerySpec, TableAction, ValueSpec};

/// A bound statement.
pub struct Bound {
    /// The SELECT list, in which `*` stands as all columns.
    pub items: Seq<BoundItem>,
    /// The table, where there is one.
    pub table: Option<Box<BoundTable>>,
}

impl Drop for Bound {
    fn drop(self) {
        let Bound {
            items: _items,
            table: _table,
        } = self;
    }
}

impl Bound {
    ghost use Rattle.std.specs.Prelude.{◌≡◌, ◌↔◌, IsTrue, length};
    ghost use Rattle.sj_bound.specs.Sound as sound;
    ghost use Rattle.sj_bound.specs.View.{bound_of, columns_of};

    /// How many fields a row has: as many as the SELECT list has items, where each column is counted in the place of `*`.
    ///
    /// The program does not call this; its tests do, and a host may.
    pub fn width(&self) -> u32
        ensures { result ≡ length (bound_of self.now).items }
    {
        self.items.len()
    }

    /// Whether the item of this number, counted from 0, is a single value that is a key: a string literal, NULL, a column of
    /// a text type or a JSON_VALUE of a text type. No aggregate is one, and behind the last item there is none.
    pub fn is_key(&self, number: u32) -> bool
        ensures { IsTrue result ↔ sound.HasKeyAt (bound_of self.now) number }
    {
        match self.items.get(number) {
            Some(item) => is_key_item(item, self.columns()),
            None => false,
        }
    }

    // The columns of its table, and none without one.
    fn columns(&self) -> &[BoundColumn]
        ensures { columns_of result.now ≡ sound.columns_of (bound_of self.now).table }
    {
        match &self.table {
            Some(table) => table.columns.as_slice(),
            None => &[],
        }
    }
}

/// An item of a SELECT list.
pub enum BoundItem {
    Value(BoundValue),
    /// JSON_ARRAYAGG.
    ArrayAgg(Box<BoundValue>, Nulls),
    /// JSON_OBJECTAGG: its key, its value, and whether WITH UNIQUE KEYS stands there.
    ObjectAgg(Box<BoundValue>, Box<BoundValue>, Nulls, bool),
}

impl Drop for BoundItem {
    fn drop(self) {
        match self {
            BoundItem::Value(_value) => {}
            BoundItem::ArrayAgg(_value, _) => {}
            BoundItem::ObjectAgg(_key, _value, _, _) => {}
        }
    }
}

/// A value of a SELECT list.
#[cycle(values)]
pub enum BoundValue {
    Lit(Literal),
    /// The column of this number.
    Column(u32),
    Exists(Box<BoundPath>, ExistsAction),
    Value(Box<BoundPath>, Box<ValueSpec>),
    Query(Box<BoundPath>, QuerySpec),
    IsJson(IsJsonCall),
    /// JSON_OBJECT: its members, and whether WITH UNIQUE KEYS stands there.
    Object(Vec<BoundMember>, Nulls, bool),
    /// JSON_ARRAY.
    Array(Vec<BoundValue>, Nulls),
}

/// A member of JSON_OBJECT.
#[cycle(values)]
#[derive(Drop)]
pub struct BoundMember {
    pub key: BoundValue,
    pub value: BoundValue,
}

impl Drop for BoundValue {
    #[cycle(give_up_values)]
    fn drop(self) {
        match self {
            BoundValue::Lit(_literal) => {}
            BoundValue::Column(_) | BoundValue::IsJson(_) => {}
            BoundValue::Exists(_path, _) => {}
            BoundValue::Value(_path, _clauses) => {}
            BoundValue::Query(_path, _) => {}
            BoundValue::Object(_members, _, _) => {}
            BoundValue::Array(_values, _) => {}
        }
    }
}

/// The path of a function, with the variables that are passed to it.
#[derive(Drop)]
pub struct BoundPath {
    pub path: Path,
    pub vars: Vars,
}

/// A bound JSON_TABLE. Paths and columns are numbered in the order of the text from 0, and the row path is the first.
#[derive(Drop)]
pub struct BoundTable {
    /// The row path and the nested paths.
    pub paths: Seq<Path>,
    /// The variables that are passed to all paths.
    pub vars: Vars,
    /// How the rows of the paths are joined.
    pub plan: Plan,
    pub on_error: TableAction,
    pub columns: Seq<BoundColumn>,
}

/// A column, with the number of the path to which it belongs.
pub enum BoundColumn {
    /// FOR ORDINALITY.
    Ordinality(u32),
    Regular(u32, Path, Box<ValueSpec>),
    /// FORMAT JSON.
    Formatted(u32, Path, QuerySpec),
    /// EXISTS: the number of its path, the column's own path, and what an error gives.
    Exists(u32, Path, ExistsAction),
}

impl Drop for BoundColumn {
    fn drop(self) {
        match self {
            BoundColumn::Ordinality(_) => {}
            BoundColumn::Regular(_, _path, _clauses) => {}
            BoundColumn::Formatted(_, _path, _) => {}
            BoundColumn::Exists(_, _path, _) => {}
        }
    }
}
