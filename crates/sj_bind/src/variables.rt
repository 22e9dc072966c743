//! The variables of PASSING clauses.

ghost use Rattle.std.specs.Prelude.{◌≡◌, false, IfOk};
ghost use Rattle.sj_path_tree.specs.View.{path_of};
ghost use Rattle.sj_sql_tree.specs.View.{common_of};
ghost use Rattle.sj_bind.specs.Clauses.{passed, passed_names, path_with};
ghost use Rattle.sj_bind.specs.Rules as spec;
ghost use Rattle.sj_bind.specs.Names.{names_of};
ghost use Rattle.sj_bind.specs.Tables.{has_twice};
ghost use Rattle.sj_bind.specs.Variables.{AreNamesOf};
ghost use Rattle.sj_bound.specs.View.{path_with_of};

use crate::covered::covers;
use crate::name_set::NameSet;
use crate::table::note;
use sj_base::{Memory, boxed};
use sj_bound::BoundPath;
use sj_path_tree::Vars;
use sj_sql_grammar::Passed;
use sj_sql_tree::{Common, Seq};
use std::alloc::Global;

/// Whether a PASSING clause names a variable twice.
pub fn passes_twice(alloc: Global, common: &Common) -> Result<bool, Memory>
    ensures { IfOk result (λ b. b ≡ spec.passes_twice (common_of common.now)) }
{
    has_name_twice(alloc, common.passing.as_slice())
}

/// Whether the same name is given twice.
#[tactic(auto, using(crate::proofs::NameLists::twice_from))]
pub fn has_name_twice(alloc: Global, passing: &[Passed]) -> Result<bool, Memory>
    ensures { IfOk result (λ b. b ≡ has_twice (passed_names passing.now)) }
{
    let mut seen = NameSet::new(alloc);
    let mut left = passing;
    while let Some((variable, others)) = left.split_first() {
        if note(variable.name.as_str(), &mut seen)? {
            return Ok(true);
        }
        left = others;
    }
    Ok(false)
}

/// The names of the variables of a PASSING clause. A name that stands there twice is there once.
pub fn variable_names<'s>(alloc: Global, passing: &'s [Passed]) -> Result<NameSet<'s>, Memory>
    ensures { IfOk result (λ names. AreNamesOf passing.now (names_of names)) }
{
    let mut names = NameSet::new(alloc);
    let mut left = passing;
    while let Some((variable, others)) = left.split_first() {
        names.names.insert(variable.name.as_str())?;
        left = others;
    }
    Ok(names)
}

/// Whether a path has a variable that its PASSING clause does not name.
pub fn lacks_variable(alloc: Global, common: &Common) -> Result<bool, Memory>
    ensures { IfOk result (λ b. b ≡ spec.lacks_variable common.now.passing (path_of common.now.path)) }
{
    let names = variable_names(alloc, common.passing.as_slice())?;
    Ok(!covers(&names, &common.path))
}

/// The variables of a PASSING clause.
pub fn passed_vars(alloc: Global, passing: Seq<Passed>) -> Result<Vars, Memory>
    requires { has_twice (passed_names passing) ≡ false }
    ensures { IfOk result (λ v. v ≡ passed passing) }
{
    let mut vars = Vars::new(alloc);
    for variable in passing.into_vec() {
        let Passed { name, value } = variable;
        vars.push(name, value)?;
    }
    Ok(vars)
}

/// A path with its variables.
pub fn bound_path(alloc: Global, common: Common) -> Result<Box<BoundPath>, Memory>
    requires { spec.passes_twice (common_of common) ≡ false }
    ensures { IfOk result (λ p. path_with_of p.value ≡ path_with (common_of common)) }
{
    let Common {
        encoding: _,
        path,
        passing,
    } = common;
    let bound = BoundPath {
        path,
        vars: passed_vars(alloc, passing)?,
    };
    boxed(alloc, bound)
}
