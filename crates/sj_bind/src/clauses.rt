//! What the clauses of a function or a column become.

ghost use Rattle.std.specs.Prelude.{◌≡◌, false, is_err, IfOk};
ghost use Rattle.sj_value.specs.Casts.{GivesCast};
ghost use Rattle.sj_value.specs.Types.{IsCastType};
ghost use Rattle.sj_bind.specs.Clauses as spec;

use sj_base::{Memory, boxed};
use sj_bound::is_text_type;
use sj_item::{Exact, Item};
use sj_path_tree::Literal;
use sj_sql_grammar::{QueryClauses, Quotes, TypeName, ValueDo};
use sj_value::{CastRefusal, QuerySpec, SqlType, SqlValue, ValueAction, ValueSpec, Wrapper, cast};
use std::alloc::Global;

/// The type that a name names.
pub fn sql_type(ty: TypeName) -> SqlType
    requires { spec.IsBindableType ty }
    ensures same { result ≡ spec.sql_type ty }
    ensures castable { IsCastType result }
{
    match ty {
        TypeName::Known(ty) => ty,
        TypeName::Approximate | TypeName::Datetime => unreachable!(),
    }
}

/// Whether it names VARCHAR or VARCHAR(n).
pub fn names_text(ty: TypeName) -> bool
    ensures { result ≡ spec.names_text ty }
{
    match ty {
        TypeName::Known(ty) => is_text_type(ty),
        TypeName::Approximate | TypeName::Datetime => false,
    }
}

fn cast_literal(alloc: Global, literal: &Literal, ty: SqlType) -> Result<SqlValue, CastRefusal>
    requires { IsCastType ty }
    ensures { GivesCast (spec.literal_cast literal.now ty) result }
{
    match literal {
        Literal::Text(text) => cast(alloc, Item::Text(text.as_str()), ty),
        Literal::Num(number) => cast(alloc, Item::Num(Exact::new(*number)), ty),
        Literal::Bool(truth) => cast(alloc, Item::Bool(*truth), ty),
        Literal::Null => cast(alloc, Item::Null, ty),
    }
}

/// Whether it is a DEFAULT literal that cannot be cast to the type.
pub fn default_fails(alloc: Global, ty: SqlType, action: &ValueDo) -> Result<bool, Memory>
    requires { IsCastType ty }
    ensures { IfOk result (λ b. b ≡ spec.default_fails ty action.now) }
{
    match action {
        ValueDo::Error | ValueDo::Null => Ok(false),
        ValueDo::Default(literal) => is_refused(alloc, literal, ty),
    }
}

fn is_refused(alloc: Global, literal: &Literal, ty: SqlType) -> Result<bool, Memory>
    requires { IsCastType ty }
    ensures { IfOk result (λ b. b ≡ is_err (spec.literal_cast literal.now ty)) }
{
    match cast_literal(alloc, literal, ty) {
        Ok(_) => Ok(false),
        Err(CastRefusal::State(_)) => Ok(true),
        Err(CastRefusal::Memory) => Err(Memory),
    }
}

fn value_action(alloc: Global, ty: SqlType, action: &ValueDo) -> Result<ValueAction, Memory>
    requires castable { IsCastType ty }
    requires casts { spec.default_fails ty action.now ≡ false }
    ensures { IfOk result (λ a. a ≡ spec.value_action ty action.now) }
{
    match action {
        ValueDo::Error => Ok(ValueAction::Error),
        ValueDo::Null => Ok(ValueAction::Null),
        ValueDo::Default(literal) => default_action(alloc, literal, ty),
    }
}

fn default_action(alloc: Global, literal: &Literal, ty: SqlType) -> Result<ValueAction, Memory>
    requires castable { IsCastType ty }
    requires casts { is_err (spec.literal_cast literal.now ty) ≡ false }
    ensures { IfOk result (λ a. a ≡ ValueAction.Default (spec.default_value literal.now ty)) }
{
    match cast_literal(alloc, literal, ty) {
        Ok(value) => Ok(ValueAction::Default(value)),
        Err(CastRefusal::State(_)) => unreachable!(),
        Err(CastRefusal::Memory) => Err(Memory),
    }
}

/// The clauses of a JSON_VALUE or of a regular column.
pub fn value_clauses(
    alloc: Global,
    ty: TypeName,
    on_empty: &ValueDo,
    on_error: &ValueDo,
) -> Result<Box<ValueSpec>, Memory>
    requires bindable { spec.IsBindableType ty }
    requires empty_casts { spec.default_fails (spec.sql_type ty) on_empty.now ≡ false }
    requires error_casts { spec.default_fails (spec.sql_type ty) on_error.now ≡ false }
    ensures { IfOk result (λ c. c.value ≡ spec.value_clauses ty on_empty.now on_error.now) }
{
    let ty = sql_type(ty);
    let on_empty = value_action(alloc, ty, on_empty)?;
    let on_error = value_action(alloc, ty, on_error)?;
    let clauses = ValueSpec {
        ty,
        on_empty,
        on_error,
    };
    boxed(alloc, clauses)
}

/// Whether a QUOTES clause stands beside WITH WRAPPER.
pub fn quotes_clash(clauses: QueryClauses) -> bool
    ensures { result ≡ spec.quotes_clash clauses }
{
    match (clauses.wrapper, clauses.quotes) {
        (Wrapper::Without, _) | (_, Quotes::Absent) => false,
        (Wrapper::Conditional | Wrapper::Unconditional, Quotes::Keep | Quotes::Omit) => true,
    }
}

/// The clauses of a JSON_QUERY or of a column FORMAT JSON.
pub fn query_clauses(clauses: QueryClauses) -> QuerySpec
    ensures { result ≡ spec.query_clauses clauses }
{
    QuerySpec {
        wrapper: clauses.wrapper,
        omit_quotes: is_omit(clauses.quotes),
        on_empty: clauses.on_empty,
        on_error: clauses.on_error,
    }
}

fn is_omit(quotes: Quotes) -> bool
    ensures { result ≡ spec.is_omit quotes }
{
    match quotes {
        Quotes::Absent | Quotes::Keep => false,
        Quotes::Omit => true,
    }
}
