//! The parts of a path's tree that hold no other part.

use sj_base::Text;
use sj_decimal::Decimal;

/// How structural errors are met (ISO/IEC 9075-2, 9.46): lax mode repairs them, strict mode raises them.
#[derive(Clone, Copy, Debug, PartialEq, Eq)]
pub enum Mode {
    Lax,
    Strict,
}

/// The operator of an expression with two operands.
#[derive(Clone, Copy, Debug, PartialEq, Eq)]
pub enum Arith {
    Add,
    Sub,
    Mul,
    Div,
    Rem,
}

/// An item method (ISO/IEC 9075-2:2023, SQL/JSON path language, item methods).
///
/// The last six came with the edition of 2023. What they give is by this project's own table of casts. They give 2203F
/// of an array or an object, and 2203G of null. Lax mode unwraps arrays before every method but `type` and `size`.
#[derive(Clone, Copy, Debug, PartialEq, Eq)]
pub enum Method {
    /// `type()`: the name of the kind: `null`, `boolean`, `number`, `string`, `array` or `object`.
    TypeOf,
    /// `size()`: the number of elements of an array, and 1 of any other item.
    Size,
    /// `ceiling()`: the least whole number that is not below a number. 22036 where the item is no number, and 22003
    /// where it is not exact.
    Ceiling,
    /// `floor()`: the greatest whole number that is not above a number. 22036 and 22003 as `ceiling`.
    Floor,
    /// `abs()`: a number without its sign. 22036 and 22003 as `ceiling`.
    Abs,
    /// `keyvalue()`: for each member of an object its `name`, its `value` and the `id` of the object. 2203C where the
    /// item is no object.
    KeyValue,
    /// `bigint()`: a number, or a string that is a number, rounded half away from zero to a whole number. 22003 where
    /// that is not from -2^63 to 2^63 - 1, or the number is not exact. 2203G where it is another string, or a truth
    /// value.
    Bigint,
    /// `boolean()`: a truth value, or one of the strings `true` and `false`. 2203G where it is another string, or a
    /// number.
    Boolean,
    /// `decimal()`: the same as `number`.
    Decimal,
    /// `integer()`: as `bigint`, from -2^31 to 2^31 - 1.
    Integer,
    /// `number()`: an exact number, or a string that is one. 22003 where the number is not exact. 2203G where it is
    /// another string, or a truth value.
    Number,
    /// `string()`: a string as it is, a number by its text, or by its spelling where it is not exact, and a truth value
    /// as `true` or `false`.
    Text,
}

/// A literal of a path.
#[derive(Drop)]
pub enum Literal {
    Text(Text),
    Num(Decimal),
    Bool(bool),
    Null,
}

/// What stands behind `starts with`: a string or the name of a variable.
#[derive(Debug, Drop)]
pub enum Initial {
    Lit(Text),
    Var(Text),
}
