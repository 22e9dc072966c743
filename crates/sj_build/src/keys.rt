// The keys of members, in a set where no two may be equal.
ghost use Rattle.std.specs.Prelude.{◌≡◌, ◌++◌, ◌∷◌, [], ◌&&◌, not, is_some, true, false, IfOk, IfErr, OnOk, OnErr};
ghost use Rattle.sj_base.specs.declared.state.State.TheVariants.{S22030};
ghost use Rattle.sj_base.specs.Names.{is_among};
ghost use Rattle.sj_build.specs.declared.refusal.BuildRefusal.TheVariants as refused;
ghost use Rattle.sj_build.specs.Answers.{RefusesRepeated};
ghost use Rattle.sj_build.specs.Keys.{lent, lent_keys, owned, owned_keys, noted};

use crate::refusal::BuildRefusal;
use indexmap::IndexSet;
use sj_base::{Memory, State};
use std::alloc::Global;

// No keys yet, in a set where no two may be equal.
pub(crate) fn no_keys<'k>(alloc: Global, unique: bool) -> Option<IndexSet<&'k str>>
    ensures unique { is_some result ≡ unique }
    ensures none { lent_keys result ≡ [] }
{
    if unique {
        Some(IndexSet::new(alloc))
    } else {
        None
    }
}

// Notes a key that outlives the set, where there is a set.
pub(crate) fn note_lent<'k>(
    keys: &mut Option<IndexSet<&'k str>>,
    key: &'k str,
) -> Result<(), BuildRefusal>
    ensures ok { OnOk result (lent_keys keys.new ≡ noted (is_some keys.old) (lent_keys keys.old) key.now) }
    ensures fresh { OnOk result ((is_some keys.old && is_among (lent_keys keys.old) key.now) ≡ false) }
    ensures refusal { IfErr result (RefusesRepeated (is_some keys.old && is_among (lent_keys keys.old) key.now)) }
    ensures unique { is_some keys.new ≡ is_some keys.old }
{
    match keys {
        None => Ok(()),
        Some(keys) => unless_repeated(insert_lent(keys, key)?),
    }
}

// Notes a copy of a key, where there is a set. It is made before the key is looked up.
pub(crate) fn note_copy(
    alloc: Global,
    keys: &mut Option<IndexSet<String>>,
    key: &str,
) -> Result<(), BuildRefusal>
    ensures ok { OnOk result (owned_keys keys.new ≡ noted (is_some keys.old) (owned_keys keys.old) key.now) }
    ensures fresh { OnOk result ((is_some keys.old && is_among (owned_keys keys.old) key.now) ≡ false) }
    ensures refusal { IfErr result (RefusesRepeated (is_some keys.old && is_among (owned_keys keys.old) key.now)) }
    ensures err { OnErr result (owned_keys keys.new ≡ owned_keys keys.old) }
    ensures unique { is_some keys.new ≡ is_some keys.old }
{
    match keys {
        None => Ok(()),
        Some(keys) => unless_repeated(insert_copy(alloc, keys, key)?),
    }
}

// Whether the key was new; then it is in the set.
fn insert_lent<'k>(keys: &mut IndexSet<&'k str>, key: &'k str) -> Result<bool, Memory>
    ensures new { IfOk result (λ new. new ≡ not (is_among (lent keys.old) key.now)) }
    ensures noted { IfOk result (λ new. new ≡ true → lent keys.new ≡ lent keys.old ++ key.now ∷ []) }
{
    Ok(keys.insert(key)?)
}

// The same for a copy of the key.
fn insert_copy(alloc: Global, keys: &mut IndexSet<String>, key: &str) -> Result<bool, Memory>
    ensures new { IfOk result (λ new. new ≡ not (is_among (owned keys.old) key.now)) }
    ensures noted { IfOk result (λ new. new ≡ true → owned keys.new ≡ owned keys.old ++ key.now ∷ []) }
    ensures same { IfOk result (λ new. new ≡ false → owned keys.new ≡ owned keys.old) }
    ensures err { OnErr result (owned keys.new ≡ owned keys.old) }
{
    Ok(keys.insert(String::from_str(alloc, key)?)?)
}

// Ok where a key was new, else the refusal of a repeated one.
fn unless_repeated(new: bool) -> Result<(), BuildRefusal>
    ensures ok { OnOk result (new ≡ true) }
    ensures refusal { IfErr result (λ r. (r ≡ refused.State S22030) × (new ≡ false)) }
{
    if new {
        Ok(())
    } else {
        Err(BuildRefusal::State(State::S22030))
    }
}
