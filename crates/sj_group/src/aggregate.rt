// What is made of the rows of a group.
ghost use Rattle.std.specs.Prelude.{◌≡◌, length};
ghost use Rattle.sj_group.specs.Grouping as spec;
ghost use Rattle.sj_group.specs.Grouping.{columns_of};

use sj_value::SqlValue;

/// What is made of the rows of a group. A row has a value for the key, and then those that are gathered.
#[derive(Clone, Copy, Debug, PartialEq, Eq)]
pub enum Aggregate {
    /// An array of the second values.
    Array,
    /// An object: the second values are the names of its members, and the third ones their values.
    Object,
}

impl Aggregate {
    /// Whether a row can be gathered: where an object is made, its name is not NULL.
    pub fn takes(self, row: &[SqlValue]) -> bool
        requires { length row.now ≡ columns_of self }
        ensures { result ≡ spec.takes self row.now }
    {
        match self {
            Aggregate::Array => true,
            Aggregate::Object => !matches!(row[1], SqlValue::Null),
        }
    }
}
