// The statement that a scan is.
ghost use Rattle.std.specs.Prelude.{◌≡◌, IfOk, MatchResult};
ghost use Rattle.sj_path_tree.specs.View.{path_of};
ghost use Rattle.sj_bound.specs.View.{bound_of, table_of, column_of};
ghost use Rattle.sj_bound.specs.Sound.{IsSound};
ghost use Rattle.sj_scan_statement.specs.Statement as spec;
ghost use Rattle.sj_scan_statement.specs.Answers.{IsScanOf, IsUnscanned};

use crate::refusal::{ScanRefusal, of_path};
use sj_base::{Memory, boxed};
use sj_bound::{Bound, BoundColumn, BoundItem, BoundTable, BoundValue};
use sj_forward::forward;
use sj_path::parse_path;
use sj_path_tree::{Expr, Mode, Path, Vars};
use sj_sql_grammar::FileKind;
use sj_sql_tree::Seq;
use sj_value::{Plan, QueryAction, QuerySpec, TableAction, Wrapper};
use std::alloc::Global;

/// The statement that gives a row for each item of a path, in which the item is a JSON value.
///
/// # Errors
/// - [`ScanRefusal::Refused`]: the text is no path, with the kind of that refusal; or it is a path that is not forward, with
///   [`FileKind::NotForward`].
/// - [`ScanRefusal::Memory`]: memory ran out, which says nothing of the text.
pub fn scan_statement(alloc: Global, text: &str) -> Result<Bound, ScanRefusal>
    ensures taken { MatchResult result (λ statement. IsScanOf text.now (bound_of statement)) (IsUnscanned text.now) }
    ensures sound { IfOk result (λ statement. IsSound (bound_of statement)) }
{
    let path = match parse_path(alloc, text) {
        Ok(path) => path,
        Err(refusal) => return Err(of_path(refusal)),
    };
    if !forward(&path) {
        return Err(ScanRefusal::Refused(FileKind::NotForward));
    }
    match items_of(alloc, path) {
        Ok(statement) => Ok(statement),
        Err(_) => Err(ScanRefusal::Memory),
    }
}

// SELECT * FROM JSON_TABLE(doc, 'PATH' COLUMNS (v VARCHAR FORMAT JSON PATH '$') ERROR ON ERROR)
fn items_of(alloc: Global, path: Path) -> Result<Bound, Memory>
    ensures { IfOk result (λ statement. bound_of statement ≡ spec.scan_statement (path_of path)) }
{
    let mut items = Seq::new(alloc);
    items.push(BoundItem::Value(BoundValue::Column(0)))?;
    let table = table_over(alloc, path)?;
    Ok(Bound {
        items,
        table: Some(boxed(alloc, table)?),
    })
}

fn table_over(alloc: Global, path: Path) -> Result<BoundTable, Memory>
    ensures { IfOk result (λ table. table_of table ≡ spec.item_table (path_of path)) }
{
    let mut paths = Seq::new(alloc);
    paths.push(path)?;
    let mut columns = Seq::new(alloc);
    columns.push(item_column())?;
    Ok(BoundTable {
        paths,
        vars: Vars::new(alloc),
        plan: Plan::Path(0),
        on_error: TableAction::Error,
        columns,
    })
}

// The item itself, as a JSON value.
fn item_column() -> BoundColumn
    ensures { column_of result ≡ spec.item_column }
{
    let itself = Path {
        mode: Mode::Lax,
        expr: Expr::Root,
    };
    BoundColumn::Formatted(
        0,
        itself,
        QuerySpec {
            wrapper: Wrapper::Without,
            omit_quotes: false,
            on_empty: QueryAction::Null,
            on_error: QueryAction::Null,
        },
    )
}
