//! The columns of a table, with a function that reads the columns inside them.

ghost use Rattle.std.specs.Prelude.{◌≡◌, length};
ghost use Rattle.sj_base.specs.Gives.{Gives};
ghost use Rattle.sj_path_tree.specs.View.{path_of};
ghost use Rattle.sj_sql_grammar.specs.Faults.{parsing};
ghost use Rattle.sj_sql_grammar.specs.Reading as reading;
ghost use Rattle.sj_sql_grammar.specs.Tree as t;
ghost use Rattle.sj_sql.specs.Nests.{ColumnNests};
ghost use Rattle.sj_sql.specs.Noted.{faults_of};
ghost use Rattle.sj_sql_tree.specs.View.{column_of, columns_of};

use crate::faults::Faults;
use crate::path::{column_path, nested_path, path};
use sj_base::{ParseRefusal, Text, boxed};
use sj_path::Path;
use sj_sql_grammar::Encoding;
use sj_sql_phrase::optional::{name_of_path, value_action};
use sj_sql_phrase::passing::put;
use sj_sql_phrase::phrase::{
    encoding_clause, existence_type, exists_clause, formatted_type, query_clauses, type_name,
};
use sj_sql_phrase::single::{Rest, Tokens, close, comma, name, open, word};
use sj_sql_token::Keyword;
use sj_sql_tree::{Column, Columns, FormattedColumn, RegularColumn, Seq};
use sj_value::ExistsAction;
use std::alloc::Global;

/// A column that is JSON_VALUE, behind its name.
#[tactic(auto, unfolding(sj_sql_grammar::specs::Reading::regular_at))]
fn regular(
    alloc: Global,
    name: Text,
    faults: Faults,
    tokens: Tokens<'_>,
) -> Result<(Column, Faults, Tokens<'_>), ParseRefusal>
    ensures { Gives (λ x. (column_of x.0, faults_of x.1, x.2.now)) result (reading.regular_at parsing name (faults_of faults) tokens.now) }
{
    let Some((ty, rest)) = type_name(tokens) else {
        return Err(ParseRefusal::Syntax);
    };
    let (path, faults, rest) = column_path(alloc, &name, faults.with_type(ty), rest)?;
    let (on_empty, rest) = value_action(alloc, Keyword::Empty, rest)?;
    let (on_error, rest) = value_action(alloc, Keyword::Error, rest)?;
    let column = RegularColumn {
        name,
        ty,
        path,
        on_empty,
        on_error,
    };
    Ok((Column::Regular(column), faults, rest))
}

/// A column that is JSON_QUERY, behind its name and type.
#[tactic(auto, unfolding(sj_sql_grammar::specs::Reading::formatted_from))]
fn formatted(
    alloc: Global,
    name: Text,
    faults: Faults,
    tokens: Tokens<'_>,
) -> Result<(Column, Faults, Tokens<'_>), ParseRefusal>
    ensures { Gives (λ x. (column_of x.0, faults_of x.1, x.2.now)) result (reading.formatted_from parsing name (faults_of faults) tokens.now) }
{
    let (encoding, rest) = encoding_clause(tokens).unwrap_or((Encoding::Read, tokens));
    let (path, faults, rest) = column_path(alloc, &name, faults.with_encoding(encoding), rest)?;
    let (clauses, rest) = query_clauses(rest);
    let column = FormattedColumn {
        name,
        encoding,
        path,
        clauses,
    };
    Ok((Column::Formatted(column), faults, rest))
}

/// A column that is JSON_EXISTS, behind its name and BOOLEAN EXISTS.
#[tactic(auto, unfolding(sj_sql_grammar::specs::Reading::existence_from))]
fn existence(
    alloc: Global,
    name: Text,
    faults: Faults,
    tokens: Tokens<'_>,
) -> Result<(Column, Faults, Tokens<'_>), ParseRefusal>
    ensures { Gives (λ x. (column_of x.0, faults_of x.1, x.2.now)) result (reading.existence_from parsing name (faults_of faults) tokens.now) }
{
    let (path, faults, rest) = column_path(alloc, &name, faults, tokens)?;
    let (on_error, rest) = exists_clause(rest).unwrap_or((ExistsAction::False, rest));
    Ok((Column::Exists(name, path, on_error), faults, rest))
}

/// A column, behind its name.
#[tactic(auto, unfolding(sj_sql_grammar::specs::Reading::named_column_at))]
fn named_column(
    alloc: Global,
    name: Text,
    faults: Faults,
    tokens: Tokens<'_>,
) -> Result<(Column, Faults, Tokens<'_>), ParseRefusal>
    ensures { Gives (λ x. (column_of x.0, faults_of x.1, x.2.now)) result (reading.named_column_at parsing name (faults_of faults) tokens.now) }
{
    if let Some(rest) = word(Keyword::For, tokens) {
        let Some(rest) = word(Keyword::Ordinality, rest) else {
            return Err(ParseRefusal::Syntax);
        };
        return Ok((Column::Ordinality(name), faults, rest));
    }
    if let Some(rest) = formatted_type(tokens) {
        return formatted(alloc, name, faults, rest);
    }
    match existence_type(tokens) {
        Some(rest) => existence(alloc, name, faults, rest),
        None => regular(alloc, name, faults, tokens),
    }
}

/// A nested path with its columns, as the definitions have it.
fn nested_of(path: Path, name: Option<Text>, columns: Box<Columns>) -> Column
    ensures { column_of result ≡ t.Nested (path_of path) name (columns_of columns.value) }
{
    Column::Nested(path, name, columns)
}

/// What may stand at one level of columns.
#[derive(Clone, Copy)]
pub struct Level<F> {
    pub alloc: Global,
    /// How deep columns may still nest.
    pub depth: usize,
    pub inner: F,
}

impl<
    F: Fn(Global, usize, Faults, Tokens<'_>) -> Result<(Columns, Faults, Tokens<'_>), ParseRefusal>,
> Level<F> {
    fn inner<'a>(
        &self,
        faults: Faults,
        tokens: Tokens<'a>,
    ) -> Result<(Columns, Faults, Tokens<'a>), ParseRefusal>
        requires { ColumnNests self.now.depth (F.pre self.now.inner) (F.post self.now.inner) }
        ensures { Gives (λ x. (columns_of x.0, faults_of x.1, x.2.now)) result (reading.columns_at parsing self.now.depth (faults_of faults) tokens.now) }
    {
        (self.inner)(self.alloc, self.depth, faults, tokens)
    }

    /// Nested columns, behind NESTED.
    #[tactic(auto, unfolding(sj_sql_grammar::specs::Reading::nested_from))]
    fn nested<'a>(
        &self,
        faults: Faults,
        tokens: Tokens<'a>,
    ) -> Result<(Column, Faults, Tokens<'a>), ParseRefusal>
        requires { ColumnNests self.now.depth (F.pre self.now.inner) (F.post self.now.inner) }
        ensures { Gives (λ x. (column_of x.0, faults_of x.1, x.2.now)) result
            (reading.nested_from parsing (reading.columns_at parsing self.now.depth) (faults_of faults) tokens.now) }
    {
        let Some((text, rest)) = nested_path(tokens) else {
            return Err(ParseRefusal::Syntax);
        };
        let (path, faults) = path(self.alloc, faults, text)?;
        let (name, rest) = name_of_path(self.alloc, rest)?;
        let (columns, faults, rest) = self.inner(faults, rest)?;
        let columns = boxed(self.alloc, columns)?;
        Ok((nested_of(path, name, columns), faults, rest))
    }

    #[tactic(auto, unfolding(sj_sql_grammar::specs::Reading::column_at))]
    fn column<'a>(
        &self,
        faults: Faults,
        tokens: Tokens<'a>,
    ) -> Result<(Column, Faults, Tokens<'a>), ParseRefusal>
        requires { ColumnNests self.now.depth (F.pre self.now.inner) (F.post self.now.inner) }
        ensures { Gives (λ x. (column_of x.0, faults_of x.1, x.2.now)) result
            (reading.column_at parsing (reading.columns_at parsing self.now.depth) (faults_of faults) tokens.now) }
    {
        if let Some(rest) = word(Keyword::Nested, tokens) {
            return self.nested(faults, rest);
        }
        let (name, rest) = name(self.alloc, tokens)?;
        named_column(self.alloc, name, faults, rest)
    }

    /// Columns with commas between them.
    #[tactic(auto, unfolding(sj_sql_grammar::specs::Reading::columns_from))]
    fn columns<'a>(
        &self,
        faults: Faults,
        tokens: Tokens<'a>,
    ) -> Result<(Columns, Faults, Tokens<'a>), ParseRefusal>
        requires { ColumnNests self.now.depth (F.pre self.now.inner) (F.post self.now.inner) }
        ensures { Gives (λ x. (columns_of x.0, faults_of x.1, x.2.now)) result
            (reading.columns_from parsing (reading.columns_at parsing self.now.depth) (length tokens.now) (faults_of faults) tokens.now) }
    {
        let mut before = Seq::new(self.alloc);
        let mut so_far = faults;
        let mut left = Rest { tokens };
        for _turn in 0..tokens.len() {
            let (column, noted, after) = self.column(so_far, left.tokens)?;
            let Some(next) = comma(after) else {
                let columns = Columns {
                    before: before.into_vec(),
                    last: column,
                };
                return Ok((columns, noted, after));
            };
            put(&mut before, column)?;
            so_far = noted;
            left = Rest { tokens: next };
        }
        Err(ParseRefusal::Syntax)
    }

    #[tactic(auto, unfolding(sj_sql_grammar::specs::Reading::columns_over))]
    fn over<'a>(
        &self,
        faults: Faults,
        tokens: Tokens<'a>,
    ) -> Result<(Columns, Faults, Tokens<'a>), ParseRefusal>
        requires { ColumnNests self.now.depth (F.pre self.now.inner) (F.post self.now.inner) }
        ensures { Gives (λ x. (columns_of x.0, faults_of x.1, x.2.now)) result
            (reading.columns_over parsing (reading.columns_at parsing self.now.depth) (faults_of faults) tokens.now) }
    {
        let Some(rest) = word(Keyword::Columns, tokens) else {
            return Err(ParseRefusal::Syntax);
        };
        let Some(rest) = open(rest) else {
            return Err(ParseRefusal::Syntax);
        };
        let (columns, faults, rest) = self.columns(faults, rest)?;
        let Some(rest) = close(rest) else {
            return Err(ParseRefusal::Syntax);
        };
        Ok((columns, faults, rest))
    }
}

/// Columns, with columns inside one another at most `depth` deep.
pub fn columns(
    alloc: Global,
    depth: usize,
    faults: Faults,
    tokens: Tokens<'_>,
) -> Result<(Columns, Faults, Tokens<'_>), ParseRefusal>
    ensures { Gives (λ x. (columns_of x.0, faults_of x.1, x.2.now)) result (reading.columns_at parsing depth (faults_of faults) tokens.now) }
{
    if depth == 0 {
        return Err(ParseRefusal::Syntax);
    }
    Level {
        alloc,
        depth: depth - 1,
        inner: columns,
    }
    .over(faults, tokens)
}
