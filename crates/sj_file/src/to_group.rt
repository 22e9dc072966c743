// The one statement of a file whose rows are grouped.
ghost use Rattle.std.specs.Prelude.{map, IfOk, MatchOption, MatchResult};
ghost use Rattle.sj_bound.specs.View.{bound_of};
ghost use Rattle.sj_group.specs.declared.aggregate.Aggregate.{Aggregate as AggregateValue};
ghost use Rattle.sj_file.specs.File.{shelf_at};
ghost use Rattle.sj_file.specs.Accepted.{IsUntaken};
ghost use Rattle.sj_file.specs.Job.{AreSound};
ghost use Rattle.sj_file.specs.ToGroup.{AcceptedToGroup, CanGroup, IsOnly, IsReadyToGroup, RefusesToGroup};

use crate::statements::accept;
use crate::status::Status;
use sj_bind::Bound;
use sj_group::Aggregate;
use sj_outside::Shelf;
use sj_sql::FileKind;
use std::alloc::Global;

/// The one statement of a file, whose rows are grouped, and what is made of them.
#[derive(Drop)]
pub struct ToGroup {
    /// What is made of the rows of a group.
    pub aggregate: Aggregate,
    /// The statement as it is bound. Its rows have two values, or three of which the second is a text or NULL.
    pub statement: Bound,
}

/// Reads a file whole, and takes its one statement, whose rows are to be grouped; or says how the command ends that names
/// it. A statement of two items is grouped into arrays, and one of three of which the second is a key into objects.
///
/// # Errors
/// Those of [`accept`], and behind them all:
///
/// - [`Status::Refused`] with [`FileKind::Group`]: the file is not one such statement. The number is 2 where there is a
///   second one, and otherwise 1.
pub fn accept_to_group<H: Shelf>(
    alloc: Global,
    name: &str,
    shelf: &mut H,
) -> Result<ToGroup, Status>
    ensures taken { let old = shelf_at H.Shelf shelf.old in
        let new = shelf_at H.Shelf shelf.new in
        MatchResult result (λ x. AcceptedToGroup name.now old new x.aggregate (bound_of x.statement)) (λ status. IsUntaken RefusesToGroup name.now old new status) }
    ensures ready { IfOk result IsReadyToGroup }
{
    let statements = match accept(alloc, name, shelf) {
        Ok(statements) => statements,
        Err(status) => return Err(status),
    };
    match only(statements) {
        Ok(to_group) => Ok(to_group),
        Err(number) => Err(Status::Refused(number, FileKind::Group)),
    }
}

/// The only one of these statements, where its rows can be grouped; or the number of the one that shows that there is none:
/// the second, or the first if there is no second.
fn only(mut statements: Vec<Bound>) -> Result<ToGroup, u32>
    requires { AreSound statements.items }
    ensures only { IsOnly (map bound_of statements.items) result }
    ensures ready { IfOk result IsReadyToGroup }
{
    let Some(statement) = statements.pop() else {
        return Err(1);
    };
    if !statements.is_empty() {
        return Err(2);
    }
    match aggregate_for(&statement) {
        Some(aggregate) => Ok(ToGroup {
            aggregate,
            statement,
        }),
        None => Err(1),
    }
}

/// What can be made of the rows of a statement, if it can be grouped.
fn aggregate_for(statement: &Bound) -> Option<Aggregate>
    ensures { MatchOption result ((aggregate : AggregateValue) → CanGroup aggregate (bound_of statement.now) → ⊥) (λ aggregate. CanGroup aggregate (bound_of statement.now)) }
{
    match statement.width() {
        2 => Some(Aggregate::Array),
        3 => {
            if statement.is_key(1) {
                Some(Aggregate::Object)
            } else {
                None
            }
        }
        _ => None,
    }
}
