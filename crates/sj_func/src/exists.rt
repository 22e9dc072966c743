// JSON_EXISTS.
ghost use Rattle.std.specs.Prelude.{◌≡◌, ◌≤◌};
ghost use Rattle.sj_base.specs.Count.{raised};
ghost use Rattle.sj_func.specs.Functions.{context_value, trace_asked, exists_outcome, exists_cost, exists_given};

use crate::context::{Context, Outcome};
use sj_base::{State, Steps};
use sj_cursor::Inquiry;
use sj_value::{ExistsAction, SqlValue};

/// JSON_EXISTS: whether the path gives an item on the context item (ISO/IEC 9075-2, JSON exists predicate).
///
/// In lax mode the first item decides, and nothing is asked behind it, so a later fault is no error. In strict mode all
/// items are asked, and a fault anywhere is an error. An error gives what ON ERROR says: TRUE, FALSE, UNKNOWN as NULL,
/// or with ERROR its state is raised.
///
/// The path and the variables of the inquiry stay. It takes no memory. The counter rises by no more than the children
/// of nodes that are handed out before the first item, in strict mode by no more than all of them, and not at all on a
/// bad context.
///
/// Example: on `{"a":[1,2],"b":"x"}` the path `$.a[*]` gives TRUE, and `$.c` gives FALSE
/// (`sj_row_tests::examples::query_functions`).
#[inline(always)]
pub fn json_exists<'d>(
    inquiry: &mut Inquiry<'d>,
    context: Context<'d>,
    on_error: ExistsAction,
    steps: &mut Steps,
) -> Outcome
    ensures outcome { result ≡ exists_outcome on_error inquiry.old.path.mode (context_value context.entry) (trace_asked inquiry.old) }
    ensures costs { steps.new ≤ raised steps.old (exists_cost inquiry.old.path.mode (context_value context.entry) (trace_asked inquiry.old)) }
    ensures path { inquiry.new.path ≡ inquiry.old.path }
    ensures vars { inquiry.new.vars ≡ inquiry.old.vars }
{
    match context {
        Context::Item(item) => given(inquiry.exists(item, steps), on_error),
        Context::Bad(state) => given(Err(state), on_error),
    }
}

// The outcome of an answer, or of an error.
fn given(answer: Result<bool, State>, on_error: ExistsAction) -> Outcome
    ensures { result ≡ exists_given on_error answer }
{
    match answer {
        Ok(exists) => Outcome::Value(SqlValue::Bool(exists)),
        Err(state) => caught(state, on_error),
    }
}

// What ON ERROR gives.
fn caught(state: State, on_error: ExistsAction) -> Outcome
    ensures { result ≡ exists_given on_error (Err state) }
{
    match on_error {
        ExistsAction::True => Outcome::Value(SqlValue::Bool(true)),
        ExistsAction::False => Outcome::Value(SqlValue::Bool(false)),
        ExistsAction::Unknown => Outcome::Value(SqlValue::Null),
        ExistsAction::Error => Outcome::Raised(state),
    }
}
