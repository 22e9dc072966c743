//! The pieces of what a statement has but values, columns and plans.

ghost use Rattle.std.specs.Prelude.{OnOk, codes};
ghost use Rattle.sj_path_tree.specs.View.{path_of};
ghost use Rattle.sj_sql_tree.specs.View.{common_of};
ghost use Rattle.sj_sql_text.specs.Adds.{Adds};
ghost use Rattle.sj_sql_text.specs.Phrases as spec;

use crate::pieces::Pieces;
use sj_base::{Memory, Text};
use sj_path_tree::{Literal, Path};
use sj_sql_grammar::Quotes;
use sj_sql_tree::{Common, Encoding, IsJsonCall, Passed, QueryClauses, TypeName, ValueDo};
use sj_value::{ExistsAction, JsonKind, Nulls, QueryAction, SqlType, TableAction, Wrapper};

/// A comma, behind another part.
pub(crate) fn comma_behind(behind: bool, out: &mut Pieces<'_>) -> Result<(), Memory>
    ensures { OnOk result (Adds out.old out.new (spec.comma_behind behind)) }
{
    if behind { out.comma() } else { Ok(()) }
}

pub(crate) fn literal<'a>(literal: &'a Literal, out: &mut Pieces<'a>) -> Result<(), Memory>
    ensures { OnOk result (Adds out.old out.new (spec.literal_on literal.now)) }
{
    match literal {
        Literal::Text(text) => out.text(text.as_str()),
        Literal::Num(number) => out.number(*number),
        Literal::Bool(true) => out.word("TRUE"),
        Literal::Bool(false) => out.word("FALSE"),
        Literal::Null => out.word("NULL"),
    }
}

fn sql_type(ty: SqlType, out: &mut Pieces<'_>) -> Result<(), Memory>
    ensures { OnOk result (Adds out.old out.new (spec.sql_type_on ty)) }
{
    match ty {
        SqlType::Varchar => out.word("VARCHAR"),
        SqlType::VarcharMax(characters) => {
            out.call("VARCHAR")?;
            out.count(characters)?;
            out.close()
        }
        SqlType::Numeric => out.word("NUMERIC"),
        SqlType::NumericFixed(digits, decimals) => {
            out.call("NUMERIC")?;
            out.count(digits)?;
            out.comma()?;
            out.count(decimals)?;
            out.close()
        }
        SqlType::Integer => out.word("INTEGER"),
        SqlType::Bigint => out.word("BIGINT"),
        SqlType::Boolean => out.word("BOOLEAN"),
    }
}

pub(crate) fn type_name(ty: TypeName, out: &mut Pieces<'_>) -> Result<(), Memory>
    ensures { OnOk result (Adds out.old out.new (spec.type_on ty)) }
{
    match ty {
        TypeName::Known(ty) => sql_type(ty, out),
        TypeName::Approximate => out.word("FLOAT"),
        TypeName::Datetime => out.word("DATE"),
    }
}

pub(crate) fn returning(ty: TypeName, out: &mut Pieces<'_>) -> Result<(), Memory>
    ensures { OnOk result (Adds out.old out.new (spec.returning_on ty)) }
{
    out.word("RETURNING")?;
    type_name(ty, out)
}

pub(crate) fn encoding(encoding: Encoding, out: &mut Pieces<'_>) -> Result<(), Memory>
    ensures { OnOk result (Adds out.old out.new (spec.encoding_on encoding)) }
{
    match encoding {
        Encoding::Read => Ok(()),
        Encoding::Refused => {
            out.word("ENCODING")?;
            out.word("UTF16")
        }
    }
}

pub(crate) fn document(format: Encoding, out: &mut Pieces<'_>) -> Result<(), Memory>
    ensures { OnOk result (Adds out.old out.new (spec.document_on format)) }
{
    match format {
        Encoding::Read => out.word("doc"),
        Encoding::Refused => {
            out.word("doc")?;
            out.word("FORMAT")?;
            out.word("JSON")?;
            encoding(format, out)
        }
    }
}

/// A path, in a string.
pub(crate) fn path<'a>(path: &'a Path, out: &mut Pieces<'a>) -> Result<(), Memory>
    ensures { OnOk result (Adds out.old out.new (spec.path_on (path_of path.now))) }
{
    out.path(path)
}

pub(crate) fn path_name<'a>(name: &'a Option<Text>, out: &mut Pieces<'a>) -> Result<(), Memory>
    ensures { OnOk result (Adds out.old out.new (spec.path_name_on name.now)) }
{
    match name {
        None => Ok(()),
        Some(name) => {
            out.word("AS")?;
            out.name(name.as_str())
        }
    }
}

fn passed<'a>(variable: &'a Passed, out: &mut Pieces<'a>) -> Result<(), Memory>
    ensures { OnOk result (Adds out.old out.new (spec.passed_on variable.now)) }
{
    literal(&variable.value, out)?;
    out.word("AS")?;
    out.name(variable.name.as_str())
}

/// The variables behind the first.
fn passed_behind<'a>(variables: &'a [Passed], out: &mut Pieces<'a>) -> Result<(), Memory>
    ensures { OnOk result (Adds out.old out.new (spec.each_behind spec.passed_on variables.now)) }
{
    for variable in variables {
        out.comma()?;
        passed(variable, out)?;
    }
    Ok(())
}

pub(crate) fn passing<'a>(variables: &'a [Passed], out: &mut Pieces<'a>) -> Result<(), Memory>
    ensures { OnOk result (Adds out.old out.new (spec.passing_on variables.now)) }
{
    let Some((first, others)) = variables.split_first() else {
        return Ok(());
    };
    out.word("PASSING")?;
    passed(first, out)?;
    passed_behind(others, out)
}

/// The document, the path and the variables of a function.
pub(crate) fn common<'a>(common: &'a Common, out: &mut Pieces<'a>) -> Result<(), Memory>
    ensures { OnOk result (Adds out.old out.new (spec.common_on (common_of common.now))) }
{
    document(common.encoding, out)?;
    out.comma()?;
    path(&common.path, out)?;
    passing(common.passing.as_slice(), out)
}

fn on_empty(out: &mut Pieces<'_>) -> Result<(), Memory>
    ensures { OnOk result (Adds out.old out.new (spec.on_empty)) }
{
    out.word("ON")?;
    out.word("EMPTY")
}

fn on_error(out: &mut Pieces<'_>) -> Result<(), Memory>
    ensures { OnOk result (Adds out.old out.new (spec.on_error)) }
{
    out.word("ON")?;
    out.word("ERROR")
}

fn exists_action(action: ExistsAction, out: &mut Pieces<'_>) -> Result<(), Memory>
    ensures { OnOk result (Adds out.old out.new (spec.exists_action_on action)) }
{
    match action {
        ExistsAction::True => out.word("TRUE"),
        ExistsAction::False => out.word("FALSE"),
        ExistsAction::Unknown => out.word("UNKNOWN"),
        ExistsAction::Error => out.word("ERROR"),
    }
}

pub(crate) fn exists_clause(action: ExistsAction, out: &mut Pieces<'_>) -> Result<(), Memory>
    ensures { OnOk result (Adds out.old out.new (spec.exists_clause_on action)) }
{
    exists_action(action, out)?;
    on_error(out)
}

fn value_action<'a>(action: &'a ValueDo, out: &mut Pieces<'a>) -> Result<(), Memory>
    ensures { OnOk result (Adds out.old out.new (spec.value_action_on action.now)) }
{
    match action {
        ValueDo::Error => out.word("ERROR"),
        ValueDo::Null => out.word("NULL"),
        ValueDo::Default(value) => {
            out.word("DEFAULT")?;
            literal(value, out)
        }
    }
}

/// What JSON_VALUE gives where there is no item, and where an error comes.
pub(crate) fn value_clauses<'a>(
    empty: &'a ValueDo,
    error: &'a ValueDo,
    out: &mut Pieces<'a>,
) -> Result<(), Memory>
    ensures { OnOk result (Adds out.old out.new (spec.value_clauses_on empty.now error.now)) }
{
    value_action(empty, out)?;
    on_empty(out)?;
    value_action(error, out)?;
    on_error(out)
}

/// A wrapper of this kind.
fn with_wrapper<'a>(kind: &'a str, out: &mut Pieces<'a>) -> Result<(), Memory>
    ensures { OnOk result (Adds out.old out.new (λ ps. spec.word (codes "WITH") (spec.word kind.now (spec.word (codes "WRAPPER") ps)))) }
{
    out.word("WITH")?;
    out.word(kind)?;
    out.word("WRAPPER")
}

fn wrapper(wrapper: Wrapper, out: &mut Pieces<'_>) -> Result<(), Memory>
    ensures { OnOk result (Adds out.old out.new (spec.wrapper_on wrapper)) }
{
    match wrapper {
        Wrapper::Without => {
            out.word("WITHOUT")?;
            out.word("WRAPPER")
        }
        Wrapper::Conditional => with_wrapper("CONDITIONAL", out),
        Wrapper::Unconditional => with_wrapper("UNCONDITIONAL", out),
    }
}

fn quotes(quotes: Quotes, out: &mut Pieces<'_>) -> Result<(), Memory>
    ensures { OnOk result (Adds out.old out.new (spec.quotes_on quotes)) }
{
    match quotes {
        Quotes::Absent => Ok(()),
        Quotes::Keep => {
            out.word("KEEP")?;
            out.word("QUOTES")
        }
        Quotes::Omit => {
            out.word("OMIT")?;
            out.word("QUOTES")
        }
    }
}

fn query_action(action: QueryAction, out: &mut Pieces<'_>) -> Result<(), Memory>
    ensures { OnOk result (Adds out.old out.new (spec.query_action_on action)) }
{
    match action {
        QueryAction::Error => out.word("ERROR"),
        QueryAction::Null => out.word("NULL"),
        QueryAction::EmptyArray => {
            out.word("EMPTY")?;
            out.word("ARRAY")
        }
        QueryAction::EmptyObject => {
            out.word("EMPTY")?;
            out.word("OBJECT")
        }
    }
}

pub(crate) fn query_clauses(clauses: QueryClauses, out: &mut Pieces<'_>) -> Result<(), Memory>
    ensures { OnOk result (Adds out.old out.new (spec.query_clauses_on clauses)) }
{
    wrapper(clauses.wrapper, out)?;
    quotes(clauses.quotes, out)?;
    query_action(clauses.on_empty, out)?;
    on_empty(out)?;
    query_action(clauses.on_error, out)?;
    on_error(out)
}

pub(crate) fn unique(unique: bool, out: &mut Pieces<'_>) -> Result<(), Memory>
    ensures { OnOk result (Adds out.old out.new (spec.unique_on unique)) }
{
    out.word(if unique { "WITH" } else { "WITHOUT" })?;
    out.word("UNIQUE")?;
    out.word("KEYS")
}

pub(crate) fn nulls(nulls: Nulls, out: &mut Pieces<'_>) -> Result<(), Memory>
    ensures { OnOk result (Adds out.old out.new (spec.nulls_on nulls)) }
{
    match nulls {
        Nulls::Null => out.word("NULL")?,
        Nulls::Absent => out.word("ABSENT")?,
    }
    out.word("ON")?;
    out.word("NULL")
}

fn not(negated: bool, out: &mut Pieces<'_>) -> Result<(), Memory>
    ensures { OnOk result (Adds out.old out.new (spec.not_on negated)) }
{
    if negated { out.word("NOT") } else { Ok(()) }
}

fn kind(kind: JsonKind, out: &mut Pieces<'_>) -> Result<(), Memory>
    ensures { OnOk result (Adds out.old out.new (spec.kind_on kind)) }
{
    match kind {
        JsonKind::Value => out.word("VALUE"),
        JsonKind::Array => out.word("ARRAY"),
        JsonKind::Object => out.word("OBJECT"),
        JsonKind::Scalar => out.word("SCALAR"),
    }
}

pub(crate) fn is_json(call: IsJsonCall, out: &mut Pieces<'_>) -> Result<(), Memory>
    ensures { OnOk result (Adds out.old out.new (spec.is_json_on call)) }
{
    out.word("doc")?;
    out.word("IS")?;
    not(call.negated, out)?;
    out.word("JSON")?;
    kind(call.kind, out)?;
    unique(call.unique, out)
}

pub(crate) fn table_clause(action: TableAction, out: &mut Pieces<'_>) -> Result<(), Memory>
    ensures { OnOk result (Adds out.old out.new (spec.table_clause_on action)) }
{
    match action {
        TableAction::Empty => out.word("EMPTY")?,
        TableAction::Error => out.word("ERROR")?,
    }
    on_error(out)
}
