// How the paths of a JSON_TABLE are joined.

/// The plan of a JSON_TABLE (ISO/IEC 9075-2, JSON table). Paths are named by their numbers.
///
/// Contracts see it as its `plan_tree`, in which there are no pointers.
#[derive(Drop)]
pub enum Plan {
    /// The rows of a path.
    Path(u32),
    /// OUTER: each row of a path with the rows of a plan below it, or alone where there are none.
    Outer(u32, Box<Plan>),
    /// INNER: each row of a path with the rows of a plan below it.
    Inner(u32, Box<Plan>),
    /// UNION: the rows of the one plan, and then those of the other.
    Union(Box<Plan>, Box<Plan>),
    /// CROSS: each row of the one plan with each row of the other.
    Cross(Box<Plan>, Box<Plan>),
}
