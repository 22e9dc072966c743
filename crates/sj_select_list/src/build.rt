// The operations of a statement.
ghost use Rattle.std.specs.Prelude.{◌≡◌, ◌++◌, IfOk, OnOk};
ghost use Rattle.sj_bound.specs.View.{bound_of, items_of, value_of, values_of, members_of, path_with_of};
ghost use Rattle.sj_select_list.specs.Operations.{steps_of, steps_to, steps_to_values, steps_to_members, steps_to_all, asked_path, path_with};
ghost use Rattle.sj_select_list.specs.Values.{values_in};

use crate::operation::{ExistsCall, Operation, QueryCall, ValueCall};
use sj_base::{Memory, boxed, push};
use sj_bound::{Bound, BoundItem, BoundMember, BoundPath, BoundValue};
use sj_cursor::{Cursor, Inquiry};
use sj_item::Item;
use sj_path_tree::{Path, Vars};
use std::alloc::Global;

/// The operations that find the values of a statement's SELECT list. The inquiries and the cursors of its paths take their memory here.
///
/// # Errors
/// [`Memory`] where memory runs out.
pub fn operations_of<'d>(alloc: Global, bound: &'d Bound) -> Result<Vec<Operation<'d>>, Memory>
    ensures { IfOk result (λ operations. steps_of operations.items ≡ steps_to_all (values_in (bound_of bound.now).items)) }
{
    operations_in(alloc, bound.items.as_slice())
}

/// The operations that find one value.
///
/// # Errors
/// [`Memory`] where memory runs out.
pub(crate) fn operations_to<'d>(
    alloc: Global,
    value: &'d BoundValue,
) -> Result<Vec<Operation<'d>>, Memory>
    ensures { IfOk result (λ operations. steps_of operations.items ≡ steps_to (value_of value.now)) }
{
    let mut operations = Vec::with_capacity(alloc, 1)?;
    push_value(alloc, value, &mut operations)?;
    Ok(operations)
}

// Those of the items of a list. An aggregate has none.
fn operations_in<'d>(alloc: Global, items: &'d [BoundItem]) -> Result<Vec<Operation<'d>>, Memory>
    ensures { IfOk result (λ operations. steps_of operations.items ≡ steps_to_all (values_in (items_of items.now))) }
{
    let mut operations = Vec::with_capacity(alloc, items.len())?;
    for item in items {
        match item {
            BoundItem::Value(value) => push_value(alloc, value, &mut operations)?,
            BoundItem::ArrayAgg(_, _) | BoundItem::ObjectAgg(_, _, _, _) => {}
        }
    }
    Ok(operations)
}

// An inquiry of the path.
fn inquiry_of<'d>(alloc: Global, path: &'d BoundPath) -> Result<Inquiry<'d>, Memory>
    ensures { IfOk result (λ inquiry. asked_path inquiry ≡ path_with_of path.now) }
{
    inquiry_on(alloc, &path.path, &path.vars)
}

/// An inquiry of a path with its variables.
///
/// # Errors
/// [`Memory`] where memory runs out.
pub fn inquiry_on<'d>(alloc: Global, path: &'d Path, vars: &'d Vars) -> Result<Inquiry<'d>, Memory>
    ensures path { IfOk result (λ inquiry. inquiry.path ≡ path.now) }
    ensures vars { IfOk result (λ inquiry. inquiry.vars ≡ vars.now) }
{
    Inquiry::new(alloc, path, vars)
}

// A cursor of the path, which is to be moved to a line.
fn cursor_of<'d>(alloc: Global, path: &'d BoundPath) -> Result<Box<Cursor<'d>>, Memory>
    ensures { IfOk result (λ cursor. path_with cursor.value ≡ path_with_of path.now) }
{
    boxed_cursor(alloc, &path.path, &path.vars)
}

/// A cursor of a path with its variables, on no item yet.
///
/// # Errors
/// [`Memory`] where memory runs out.
#[inline(never)]
pub fn boxed_cursor<'d>(
    alloc: Global,
    path: &'d Path,
    vars: &'d Vars,
) -> Result<Box<Cursor<'d>>, Memory>
    ensures path { IfOk result (λ cursor. cursor.value.path ≡ path.now) }
    ensures vars { IfOk result (λ cursor. cursor.value.vars ≡ vars.now) }
{
    let cursor = Cursor::new(alloc, path, vars, Item::Null)?;
    boxed(alloc, cursor)
}

// Appends the operations that find a value: what it is made of first.
#[cycle(push_value)]
fn push_value<'d>(
    alloc: Global,
    value: &'d BoundValue,
    operations: &mut Vec<Operation<'d>>,
) -> Result<(), Memory>
    ensures { OnOk result (steps_of operations.new.items ≡ steps_of operations.old.items ++ steps_to (value_of value.now)) }
{
    let operation = match value {
        BoundValue::Lit(literal) => Operation::Literal(literal),
        BoundValue::Column(number) => Operation::Column(*number),
        BoundValue::Exists(path, on_error) => Operation::Exists(ExistsCall {
            inquiry: inquiry_of(alloc, path)?,
            on_error: *on_error,
        }),
        BoundValue::Value(path, clauses) => Operation::Value(ValueCall {
            inquiry: inquiry_of(alloc, path)?,
            clauses,
        }),
        BoundValue::Query(path, clauses) => Operation::Query(QueryCall {
            cursor: cursor_of(alloc, path)?,
            clauses: *clauses,
        }),
        BoundValue::IsJson(call) => Operation::IsJson(*call),
        BoundValue::Object(members, nulls, unique) => {
            push_members(alloc, members, operations)?;
            Operation::Object(members.len(), *nulls, *unique)
        }
        BoundValue::Array(values, nulls) => {
            push_values(alloc, values, operations)?;
            Operation::Array(values.len(), *nulls)
        }
    };
    push(operations, operation)
}

// The same for the values of an array.
#[cycle(push_value)]
fn push_values<'d>(
    alloc: Global,
    values: &'d [BoundValue],
    operations: &mut Vec<Operation<'d>>,
) -> Result<(), Memory>
    ensures { OnOk result (steps_of operations.new.items ≡ steps_of operations.old.items ++ steps_to_values (values_of values.now)) }
{
    for value in values {
        push_value(alloc, value, operations)?;
    }
    Ok(())
}

// The same for the members of an object: the key and the value of each, which then become a member.
#[cycle(push_value)]
fn push_members<'d>(
    alloc: Global,
    members: &'d [BoundMember],
    operations: &mut Vec<Operation<'d>>,
) -> Result<(), Memory>
    ensures { OnOk result (steps_of operations.new.items ≡ steps_of operations.old.items ++ steps_to_members (members_of members.now)) }
{
    for member in members {
        push_value(alloc, &member.key, operations)?;
        push_value(alloc, &member.value, operations)?;
        push(operations, Operation::Member)?;
    }
    Ok(())
}
