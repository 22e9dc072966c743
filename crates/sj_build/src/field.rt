// The members of objects that are made.

use sj_value::SqlValue;

/// A member of an object that is to be made. Its `drop` is written out, so that whoever holds one gives it up by one
/// call.
#[derive(Debug)]
pub struct Field {
    /// The key. What is no text is refused, as NULL is.
    pub key: SqlValue,
    /// The value.
    pub value: SqlValue,
}

impl Drop for Field {
    fn drop(self) {
        let Field {
            key: _key,
            value: _value,
        } = self;
    }
}
