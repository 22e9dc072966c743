//! The texts of what holds no other part of a path.

ghost use Rattle.std.specs.Prelude.{◌≡◌, ◌++◌, OnOk, OnErr};
ghost use Rattle.sj_json.specs.Printing.{truth_text as truth_printed};
ghost use Rattle.sj_text.specs.Prefixes.{AppendsPrefix};
ghost use Rattle.sj_path_text.specs.Text as spec;

use sj_base::{Bytes, Memory};
use sj_path_tree::{Arith, Compare, Initial, Literal, Method, Mode};
use sj_text::string_text;

pub(crate) fn mode_text(mode: Mode, out: &mut Bytes) -> Result<(), Memory>
    ensures ok { OnOk result (out.new ≡ out.old ++ spec.mode_text mode) }
    ensures err { OnErr result (out.new ≡ out.old) }
{
    match mode {
        Mode::Lax => out.push(b"lax"),
        Mode::Strict => out.push(b"strict"),
    }
}

/// The sign of an operator, between blanks.
pub(crate) fn arith_text(op: Arith, out: &mut Bytes) -> Result<(), Memory>
    ensures ok { OnOk result (out.new ≡ out.old ++ spec.arith_text op) }
    ensures err { OnErr result (out.new ≡ out.old) }
{
    match op {
        Arith::Add => out.push(b" + "),
        Arith::Sub => out.push(b" - "),
        Arith::Mul => out.push(b" * "),
        Arith::Div => out.push(b" / "),
        Arith::Rem => out.push(b" % "),
    }
}

/// The sign of a comparison, between blanks.
pub(crate) fn compare_text(op: Compare, out: &mut Bytes) -> Result<(), Memory>
    ensures ok { OnOk result (out.new ≡ out.old ++ spec.compare_text op) }
    ensures err { OnErr result (out.new ≡ out.old) }
{
    match op {
        Compare::Eq => out.push(b" == "),
        Compare::Ne => out.push(b" != "),
        Compare::Lt => out.push(b" < "),
        Compare::Le => out.push(b" <= "),
        Compare::Gt => out.push(b" > "),
        Compare::Ge => out.push(b" >= "),
    }
}

pub(crate) fn method_name(method: Method, out: &mut Bytes) -> Result<(), Memory>
    ensures ok { OnOk result (out.new ≡ out.old ++ spec.method_name method) }
    ensures err { OnErr result (out.new ≡ out.old) }
{
    match method {
        Method::TypeOf => out.push(b"type"),
        Method::Size => out.push(b"size"),
        Method::Ceiling => out.push(b"ceiling"),
        Method::Floor => out.push(b"floor"),
        Method::Abs => out.push(b"abs"),
        Method::KeyValue => out.push(b"keyvalue"),
        Method::Bigint => out.push(b"bigint"),
        Method::Boolean => out.push(b"boolean"),
        Method::Decimal => out.push(b"decimal"),
        Method::Integer => out.push(b"integer"),
        Method::Number => out.push(b"number"),
        Method::Text => out.push(b"string"),
    }
}

fn truth_text(holds: bool) -> &'static [u8]
    ensures { result.now ≡ truth_printed holds }
{
    if holds { b"true" } else { b"false" }
}

pub(crate) fn literal_text(literal: &Literal, out: &mut Bytes) -> Result<(), Memory>
    ensures ok { OnOk result (out.new ≡ out.old ++ spec.literal_text literal.now) }
    ensures err { OnErr result (AppendsPrefix out.old (spec.literal_text literal.now) out.new) }
{
    match literal {
        Literal::Text(text) => string_text(text.as_str(), out),
        Literal::Num(number) => out.push(number.text().as_str().as_bytes()),
        Literal::Bool(holds) => out.push(truth_text(*holds)),
        Literal::Null => out.push(b"null"),
    }
}

pub(crate) fn variable_text(name: &str, out: &mut Bytes) -> Result<(), Memory>
    ensures ok { OnOk result (out.new ≡ out.old ++ spec.variable_text name.now) }
    ensures err { OnErr result (AppendsPrefix out.old (spec.variable_text name.now) out.new) }
{
    out.push(b"$")?;
    out.push(name.as_bytes())
}

pub(crate) fn initial_text(initial: &Initial, out: &mut Bytes) -> Result<(), Memory>
    ensures ok { OnOk result (out.new ≡ out.old ++ spec.initial_text initial.now) }
    ensures err { OnErr result (AppendsPrefix out.old (spec.initial_text initial.now) out.new) }
{
    match initial {
        Initial::Lit(text) => string_text(text.as_str(), out),
        Initial::Var(name) => variable_text(name.as_str(), out),
    }
}
