//! What stands in the values of a SELECT list without a table, at any depth.

ghost use Rattle.std.specs.Prelude.{◌≡◌, ◌++◌, IfOk, OnOk};
ghost use Rattle.sj_sql_tree.specs.View.{value_of, values_of, members_of, plain_of};
ghost use Rattle.sj_bind.specs.Parts as spec;
ghost use Rattle.sj_bind.specs.PartsView.{calls_of, keys_of};

use sj_base::{Memory, push};
use sj_sql_tree::{ExistsCall, Member, QueryCall, Value, ValueCall};
use std::alloc::Global;

/// A function that has a path.
#[derive(Clone, Copy)]
pub enum Call<'s> {
    Exists(&'s ExistsCall),
    Value(&'s ValueCall),
    Query(&'s QueryCall),
}

/// The functions that have a path, and the keys of objects.
///
/// Its `drop` is written out, so that whoever holds one gives it up by one call.
pub struct Parts<'s> {
    pub calls: Vec<Call<'s>>,
    pub keys: Vec<&'s Value>,
}

impl<'s> Drop for Parts<'s> {
    fn drop(self) {
        let Parts {
            calls: _calls,
            keys: _keys,
        } = self;
    }
}

/// The parts of the values of a list.
#[tactic(auto, using(crate::proofs::Found::found))]
pub fn find_all<'s>(alloc: Global, values: &'s [Value]) -> Result<Parts<'s>, Memory>
    ensures calls { IfOk result (λ p. calls_of p.calls.items ≡ spec.calls_in_list (plain_of values.now)) }
    ensures keys { IfOk result (λ p. keys_of p.keys.items ≡ spec.keys_in_list (plain_of values.now)) }
{
    let mut parts = Parts {
        calls: Vec::new(alloc),
        keys: Vec::new(alloc),
    };
    for value in values {
        find_parts(value, &mut parts)?;
    }
    Ok(parts)
}

#[cycle(find_parts)]
#[tactic(auto, using(crate::proofs::Found::found))]
fn find_parts<'s>(value: &'s Value, parts: &mut Parts<'s>) -> Result<(), Memory>
    ensures calls { OnOk result (calls_of parts.new.calls.items ≡ calls_of parts.old.calls.items ++ spec.calls_in (value_of value.now)) }
    ensures keys { OnOk result (keys_of parts.new.keys.items ≡ keys_of parts.old.keys.items ++ spec.keys_in (value_of value.now)) }
{
    match value {
        Value::Lit(_) | Value::Column(_) | Value::IsJson(_) => Ok(()),
        Value::Exists(call) => push(&mut parts.calls, Call::Exists(call)),
        Value::ValueOf(call) => push(&mut parts.calls, Call::Value(call)),
        Value::Query(call) => push(&mut parts.calls, Call::Query(call)),
        Value::Object(members, _, _) => find_in_members(members, parts),
        Value::Array(values, _) => find_in_values(values, parts),
    }
}

#[cycle(find_parts)]
#[tactic(auto, using(crate::proofs::Found::found))]
fn find_in_values<'s>(values: &'s [Value], parts: &mut Parts<'s>) -> Result<(), Memory>
    ensures calls { OnOk result (calls_of parts.new.calls.items ≡ calls_of parts.old.calls.items ++ spec.calls_in_values (values_of values.now)) }
    ensures keys { OnOk result (keys_of parts.new.keys.items ≡ keys_of parts.old.keys.items ++ spec.keys_in_values (values_of values.now)) }
{
    for value in values {
        find_parts(value, parts)?;
    }
    Ok(())
}

#[cycle(find_parts)]
#[tactic(auto, using(crate::proofs::Found::found))]
fn find_in_members<'s>(members: &'s [Member], parts: &mut Parts<'s>) -> Result<(), Memory>
    ensures calls { OnOk result (calls_of parts.new.calls.items ≡ calls_of parts.old.calls.items ++ spec.calls_in_members (members_of members.now)) }
    ensures keys { OnOk result (keys_of parts.new.keys.items ≡ keys_of parts.old.keys.items ++ spec.keys_in_members (members_of members.now)) }
{
    for member in members {
        parts.keys.push(&member.key)?;
        find_parts(&member.key, parts)?;
        find_parts(&member.value, parts)?;
    }
    Ok(())
}
