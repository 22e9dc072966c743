// What a query function is called on, and what it gives.

use sj_base::State;
use sj_item::Item;
use sj_value::SqlValue;

/// The context item of a query function (ISO/IEC 9075-2, JSON API common syntax), or the error that stands in its
/// place.
#[derive(Clone, Copy)]
pub enum Context<'d> {
    /// The item on which the path is evaluated.
    Item(Item<'d>),
    /// There is no item, and the function has this error: 22032 where the text is not JSON, 22037 where some object of
    /// it has two equal keys and keys are to be unique.
    Bad(State),
}

/// What a query function gives.
///
/// Contracts see it as it is written: two outcomes are the same where they are equal.
#[derive(Debug, Drop)]
pub enum Outcome {
    /// A value.
    Value(SqlValue),
    /// No value: the state is raised.
    Raised(State),
}
