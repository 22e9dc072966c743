// The reader: a loop over the tokens that drives a `DocBuilder`.
ghost use Rattle.std.specs.Prelude.{◌≡◌, ◌≢◌, ◌+◌, ◌-◌, ◌<◌, ◌≤◌, length, slice_index, IsUtf8, true, false, IfSome, MatchResult, IfOk, Ok, Err};
ghost use Rattle.sj_base.specs.ByteClasses.{is_blank as blank_byte};
ghost use Rattle.sj_decimal.specs.Number.{begins_number as beginning_byte};
ghost use Rattle.sj_decimal.specs.Shorts.{between};
ghost use Rattle.sj_json.specs.Machine.{value as value_mode, key as key_mode, colon as colon_mode, after_value as after_mode};
ghost use Rattle.sj_doc.specs.Builders.{feeds_behind, EndsInFeeds, node_total};
ghost use Rattle.sj_read.specs.Numerals.{IsPlainNumber};
ghost use Rattle.sj_read.specs.Scans.{EndsPlain};
ghost use Rattle.sj_read.specs.Turns.{most_held, mode_of, closes_at, Poised, Token, StandsIn, StoodIn, Led, TookValue};

use crate::numeral::{Numeral, is_one_digit, judged, plain_number_end};
use crate::scan::{begins_number, follows, key_end, number_end, string_end, token_at};
use crate::unescape::unescape;
use sj_base::{Memory, is_blank};
use sj_doc::{DocBuilder, Want};
use thiserror::Error;

/// The greatest length of a text, in bytes.
pub const MAX_LENGTH: usize = sj_json::MAX_LENGTH;

/// The greatest number of arrays and objects that may be open at one place.
pub const MAX_DEPTH: u64 = 100_000;

/// Why a line was not read.
#[derive(Clone, Copy, Debug, Drop, PartialEq, Eq, Error)]
pub enum ReadRefusal {
    /// The line is no JSON text within the limits.
    #[error("refused")]
    NotJson,
    /// Memory ran out.
    #[error("refused")]
    Memory,
}

// What may come next.
#[derive(Clone, Copy, Drop)]
pub(crate) enum Mode {
    Value,
    ValueOrClose,
    Key,
    KeyOrClose,
    Colon,
    AfterValue,
}

// What is known where the code stands of where a value stands.
#[derive(Clone, Copy, Drop)]
enum Place {
    // It is the value of a member.
    Member,
    Anywhere,
}

// Where to go on.
type Advance = Result<usize, ReadRefusal>;

// A call of the builder, and where to go on if it had memory.
#[inline(always)]
fn after(done: Result<(), Memory>, to: usize) -> Advance
    ensures { MatchResult done (λ _. result ≡ Ok to) (λ _. result ≡ Err ReadRefusal.Memory) }
{
    match done {
        Ok(()) => Ok(to),
        Err(_) => Err(ReadRefusal::Memory),
    }
}

// The answer of a function that is called and not inlined, which lies in memory. Put together anew, it leaves the answers of
// the other ways in registers.
#[inline(always)]
fn anew(turn: Advance) -> Advance
    ensures { result ≡ turn }
{
    match turn {
        Ok(to) => Ok(to),
        Err(refusal) => Err(refusal),
    }
}

// The bytes of the line that the builder holds, with the line feeds behind it.
#[inline(always)]
fn bytes(builder: &DocBuilder) -> &[u8]
    ensures line { result.now ≡ builder.now.1 }
    ensures feeds { EndsInFeeds result.now }
{
    builder.line().as_bytes()
}

// Where a string ends that begins at `from`, behind its quotation mark, if it has no escape.
#[inline(always)]
fn text_end(text: &str, from: usize) -> Option<usize>
    requires within { (0 < from) × (from + feeds_behind ≤ length text.now) }
    requires feeds { EndsInFeeds text.now }
    requires quote { slice_index text.now (from - 1) ≡ 34 }
    ensures { IfSome result (λ end. EndsPlain text.now from end × IsUtf8 (between text.now from end)) }
{
    string_end(text.as_bytes(), from)
}

// The same of a key.
#[inline(always)]
fn key_text_end(text: &str, from: usize) -> Option<usize>
    requires within { (0 < from) × (from + feeds_behind ≤ length text.now) }
    requires feeds { EndsInFeeds text.now }
    requires quote { slice_index text.now (from - 1) ≡ 34 }
    ensures { IfSome result (λ end. EndsPlain text.now from end × IsUtf8 (between text.now from end)) }
{
    key_end(text.as_bytes(), from)
}

// The string that begins with the byte c at the place, where it may have escapes.
#[inline(never)]
fn escaped_value(builder: &mut DocBuilder, buffer: &mut Vec<u8>, at: usize, c: u8) -> Advance
    requires token { Token value_mode builder.old at c }
    requires quote { c ≡ 34 }
    ensures { TookValue MAX_DEPTH Mode.AfterValue result value_mode builder.old at builder.new }
{
    match unescape(builder.line(), at + 1, buffer) {
        Ok(Some(found)) => after(
            builder.text_bytes(&buffer.as_slice()[..found.len]),
            found.end + 1,
        ),
        Ok(None) => Err(ReadRefusal::NotJson),
        Err(_) => Err(ReadRefusal::Memory),
    }
}

// The same of a key.
#[inline(never)]
fn escaped_key(builder: &mut DocBuilder, buffer: &mut Vec<u8>, at: usize, c: u8) -> Advance
    requires token { Token key_mode builder.old at c }
    requires quote { c ≡ 34 }
    ensures { Led MAX_DEPTH Mode.Colon result key_mode builder.old at builder.new }
{
    match unescape(builder.line(), at + 1, buffer) {
        Ok(Some(found)) => after(
            builder.key_bytes(&buffer.as_slice()[..found.len]),
            found.end + 1,
        ),
        Ok(None) => Err(ReadRefusal::NotJson),
        Err(_) => Err(ReadRefusal::Memory),
    }
}

// `escaped_value`, from where it is rarely called. The place in memory for its answer is cleared here, and not on each
// of the other ways.
#[inline(always)]
fn rare_value(builder: &mut DocBuilder, buffer: &mut Vec<u8>, at: usize, c: u8) -> Advance
    requires token { Token value_mode builder.old at c }
    requires quote { c ≡ 34 }
    ensures { TookValue MAX_DEPTH Mode.AfterValue result value_mode builder.old at builder.new }
{
    anew(escaped_value(builder, buffer, at, c))
}

// `escaped_key`, from where it is rarely called. The place in memory for its answer is cleared here, and not on each
// of the other ways.
#[inline(always)]
fn rare_key(builder: &mut DocBuilder, buffer: &mut Vec<u8>, at: usize, c: u8) -> Advance
    requires token { Token key_mode builder.old at c }
    requires quote { c ≡ 34 }
    ensures { Led MAX_DEPTH Mode.Colon result key_mode builder.old at builder.new }
{
    anew(escaped_key(builder, buffer, at, c))
}

// The number that begins with the byte c at the place, with an exponent or without.
#[inline(never)]
fn any_number(builder: &mut DocBuilder, at: usize, c: u8) -> Advance
    requires token { Token value_mode builder.old at c }
    requires begins { beginning_byte c ≡ true }
    ensures { TookValue MAX_DEPTH Mode.AfterValue result value_mode builder.old at builder.new }
{
    let end = number_end(bytes(builder), at + 1);
    match judged(&bytes(builder)[at..end]) {
        Numeral::Kept => after(builder.number_at(at, end), end),
        Numeral::Exact(n) => after(builder.exact(n), end),
        Numeral::NotNumber => Err(ReadRefusal::NotJson),
    }
}

// `any_number` in the same way.
#[inline(always)]
fn rare_number(builder: &mut DocBuilder, at: usize, c: u8) -> Advance
    requires token { Token value_mode builder.old at c }
    requires begins { beginning_byte c ≡ true }
    ensures { TookValue MAX_DEPTH Mode.AfterValue result value_mode builder.old at builder.new }
{
    anew(any_number(builder, at, c))
}

// The number from the place up to the end, which begins with the byte c.
#[inline(always)]
fn plain_number(builder: &mut DocBuilder, at: usize, c: u8, end: usize) -> Advance
    requires token { Token value_mode builder.old at c }
    requires plain { IsPlainNumber builder.old.1 at c end }
    requires feeds { EndsInFeeds builder.old.1 }
    ensures { TookValue MAX_DEPTH Mode.AfterValue result value_mode builder.old at builder.new }
{
    after(builder.number_at(at, end), end)
}

// The value that begins with the byte c at the place, where that opens no container.
#[inline(always)]
fn scalar(builder: &mut DocBuilder, buffer: &mut Vec<u8>, at: usize, c: u8) -> Advance
    requires token { Token value_mode builder.old at c }
    requires no_array { c ≢ 91 }
    requires no_object { c ≢ 123 }
    ensures { TookValue MAX_DEPTH Mode.AfterValue result value_mode builder.old at builder.new }
{
    match c {
        b'"' => match text_end(builder.line(), at + 1) {
            Some(end) => after(builder.text_at(at + 1, end), end + 1),
            None => rare_value(builder, buffer, at, c),
        },
        b'n' => {
            if !follows(bytes(builder), at + 1, b"ull") {
                return Err(ReadRefusal::NotJson);
            }
            after(builder.null(), at + 4)
        }
        b't' => {
            if !follows(bytes(builder), at + 1, b"rue") {
                return Err(ReadRefusal::NotJson);
            }
            after(builder.truth(true), at + 4)
        }
        b'f' => {
            if !follows(bytes(builder), at + 1, b"alse") {
                return Err(ReadRefusal::NotJson);
            }
            after(builder.truth(false), at + 5)
        }
        _ => {
            // A number of one digit has a way of its own, on which nothing behind it waits for a search.
            if is_one_digit(bytes(builder), at, c) {
                return plain_number(builder, at, c, at + 1);
            }
            if let Some(end) = plain_number_end(bytes(builder), at, c) {
                return plain_number(builder, at, c, end);
            }
            if !begins_number(c) {
                return Err(ReadRefusal::NotJson);
            }
            rare_number(builder, at, c)
        }
    }
}

// What stands at the place, right behind a scalar: a comma, or closing brackets as `separators` takes them. Behind the value of a
// member a comma has a key behind it, so the builder is not asked.
#[inline(always)]
fn behind_scalar(
    builder: &mut DocBuilder,
    mode: &mut Mode,
    at: usize,
    c: u8,
    place: Place,
) -> Advance
    requires token { Token after_mode builder.old at c }
    requires stood { StoodIn place builder.old.0 }
    ensures { Led MAX_DEPTH mode.new result after_mode builder.old at builder.new }
{
    match place {
        Place::Member if c == b',' => {
            *mode = Mode::Key;
            Ok(at + 1)
        }
        _ => separators(builder, mode, at, c),
    }
}

// The scalar that begins with the byte c at the place, and the separators as far as they stand right behind. One turn for
// them is faster than several.
#[inline(always)]
fn scalar_and_separator(
    builder: &mut DocBuilder,
    buffer: &mut Vec<u8>,
    mode: &mut Mode,
    at: usize,
    c: u8,
    place: Place,
) -> Advance
    requires token { Token value_mode builder.old at c }
    requires no_array { c ≢ 91 }
    requires no_object { c ≢ 123 }
    requires stands { StandsIn place builder.old.0 }
    ensures { Led MAX_DEPTH mode.new result value_mode builder.old at builder.new }
{
    match scalar(builder, buffer, at, c) {
        Ok(end) => match token_at(bytes(builder), end) {
            Some(next) => behind_scalar(builder, mode, end, next, place),
            None => {
                *mode = Mode::AfterValue;
                Ok(end)
            }
        },
        Err(refusal) => Err(refusal),
    }
}

// The value that begins with the byte c at the place: the bracket that opens it, or a scalar and what stands right
// behind it.
#[inline(always)]
fn value(
    builder: &mut DocBuilder,
    buffer: &mut Vec<u8>,
    mode: &mut Mode,
    at: usize,
    c: u8,
    place: Place,
) -> Advance
    requires token { Token value_mode builder.old at c }
    requires stands { StandsIn place builder.old.0 }
    ensures { Led MAX_DEPTH mode.new result value_mode builder.old at builder.new }
{
    match c {
        b'[' => {
            if builder.depth() >= MAX_DEPTH {
                return Err(ReadRefusal::NotJson);
            }
            *mode = Mode::ValueOrClose;
            after(builder.open_array(), at + 1)
        }
        b'{' => {
            if builder.depth() >= MAX_DEPTH {
                return Err(ReadRefusal::NotJson);
            }
            *mode = Mode::KeyOrClose;
            after(builder.open_object(), at + 1)
        }
        _ => scalar_and_separator(builder, buffer, mode, at, c, place),
    }
}

// The key that begins with the byte c at the place.
#[inline(always)]
fn quoted_key(builder: &mut DocBuilder, buffer: &mut Vec<u8>, at: usize, c: u8) -> Advance
    requires { Token key_mode builder.old at c }
    ensures { Led MAX_DEPTH Mode.Colon result key_mode builder.old at builder.new }
{
    if c != b'"' {
        return Err(ReadRefusal::NotJson);
    }
    match key_text_end(builder.line(), at + 1) {
        Some(end) => {
            builder.key_at(at + 1, end);
            Ok(end + 1)
        }
        None => rare_key(builder, buffer, at, c),
    }
}

// The colon at the place, and the value if it stands right behind: the bracket that opens it, or a scalar and what stands
// right behind that.
#[inline(always)]
fn colon_and_value(
    builder: &mut DocBuilder,
    buffer: &mut Vec<u8>,
    mode: &mut Mode,
    at: usize,
) -> Advance
    requires { Token colon_mode builder.old at 58 }
    ensures { Led MAX_DEPTH mode.new result colon_mode builder.old at builder.new }
{
    if let Some(c) = token_at(bytes(builder), at + 1) {
        return value(builder, buffer, mode, at + 1, c, Place::Member);
    }
    *mode = Mode::Value;
    Ok(at + 1)
}

// The key that begins with the byte c at the place, and the colon and the value as far as they stand right behind. One
// turn for a member is faster than several.
#[inline(always)]
fn member(
    builder: &mut DocBuilder,
    buffer: &mut Vec<u8>,
    mode: &mut Mode,
    at: usize,
    c: u8,
) -> Advance
    requires { Token key_mode builder.old at c }
    ensures { Led MAX_DEPTH mode.new result key_mode builder.old at builder.new }
{
    match quoted_key(builder, buffer, at, c) {
        Ok(end) => match token_at(bytes(builder), end) {
            Some(b':') => colon_and_value(builder, buffer, mode, end),
            _ => {
                *mode = Mode::Colon;
                Ok(end)
            }
        },
        Err(refusal) => Err(refusal),
    }
}

// Members one right behind another, the first of which begins with the byte c at the place. Behind the bracket that opens an
// object as the value of a member, those of that object come next. What comes next is known where the code stands, so one
// turn for all of them is faster than one for each.
#[inline(always)]
#[tactic(auto, using(crate::proofs::Steps::first_key_run))]
fn members(
    builder: &mut DocBuilder,
    buffer: &mut Vec<u8>,
    mode: &mut Mode,
    at: usize,
    c: u8,
) -> Advance
    requires { Token key_mode builder.old at c }
    ensures { Led MAX_DEPTH mode.new result key_mode builder.old at builder.new }
{
    let mut from = at;
    let mut first = c;
    'members: loop {
        let to = match member(builder, buffer, mode, from, first) {
            Ok(to) => to,
            Err(refusal) => return Err(refusal),
        };
        match *mode {
            Mode::Key => match token_at(bytes(builder), to) {
                Some(next) => {
                    from = to;
                    first = next;
                }
                None => return Ok(to),
            },
            // An object was opened. Where a key stands right behind the bracket, it comes next, too.
            Mode::KeyOrClose => match token_at(bytes(builder), to) {
                Some(b'"') => {
                    from = to;
                    first = b'"';
                }
                _ => return Ok(to),
            },
            _ => return Ok(to),
        }
    }
}

// Elements one right behind another, of which all but the last are scalars.
#[inline(always)]
fn elements(
    builder: &mut DocBuilder,
    buffer: &mut Vec<u8>,
    mode: &mut Mode,
    at: usize,
    c: u8,
) -> Advance
    requires { Token value_mode builder.old at c }
    ensures { Led MAX_DEPTH mode.new result value_mode builder.old at builder.new }
{
    let mut from = at;
    let mut first = c;
    'elements: loop {
        let to = match value(builder, buffer, mode, from, first, Place::Anywhere) {
            Ok(to) => to,
            Err(refusal) => return Err(refusal),
        };
        match *mode {
            Mode::Value => match token_at(bytes(builder), to) {
                Some(next) => {
                    from = to;
                    first = next;
                }
                None => return Ok(to),
            },
            _ => return Ok(to),
        }
    }
}

// A comma or a closing bracket.
#[inline(always)]
fn separator(builder: &mut DocBuilder, mode: &mut Mode, at: usize, c: u8) -> Advance
    requires { Token after_mode builder.old at c }
    ensures { Led MAX_DEPTH mode.new result after_mode builder.old at builder.new }
{
    match builder.wants() {
        Want::ValueOrClose => {
            if c == b',' {
                *mode = Mode::Value;
                return Ok(at + 1);
            }
            if c != b']' {
                return Err(ReadRefusal::NotJson);
            }
            builder.close();
            *mode = Mode::AfterValue;
            Ok(at + 1)
        }
        Want::KeyOrClose => {
            if c == b',' {
                *mode = Mode::Key;
                return Ok(at + 1);
            }
            if c != b'}' {
                return Err(ReadRefusal::NotJson);
            }
            builder.close();
            *mode = Mode::AfterValue;
            Ok(at + 1)
        }
        _ => Err(ReadRefusal::NotJson),
    }
}

// Closing brackets one right behind another, and a comma if one stands right behind them.
#[inline(always)]
fn separators(builder: &mut DocBuilder, mode: &mut Mode, at: usize, c: u8) -> Advance
    requires { Token after_mode builder.old at c }
    ensures { Led MAX_DEPTH mode.new result after_mode builder.old at builder.new }
{
    let mut from = at;
    let mut first = c;
    'separators: loop {
        let to = match separator(builder, mode, from, first) {
            Ok(to) => to,
            Err(refusal) => return Err(refusal),
        };
        match *mode {
            Mode::AfterValue => match token_at(bytes(builder), to) {
                Some(next) => {
                    from = to;
                    first = next;
                }
                None => return Ok(to),
            },
            _ => return Ok(to),
        }
    }
}

// Whether c closes a container right behind the bracket that opens it.
#[inline(always)]
fn closes_empty(mode: Mode, c: u8) -> bool
    ensures { result ≡ closes_at mode c }
{
    match mode {
        Mode::ValueOrClose => c == b']',
        Mode::KeyOrClose => c == b'}',
        _ => false,
    }
}

// What stands at the place, or one byte of white space.
#[inline(always)]
pub(crate) fn turn(
    builder: &mut DocBuilder,
    buffer: &mut Vec<u8>,
    mode: &mut Mode,
    at: usize,
) -> Advance
    requires poised { Poised (mode_of mode.old) builder.old at }
    ensures { Led MAX_DEPTH mode.new result (mode_of mode.old) builder.old at builder.new }
{
    let c = bytes(builder)[at];
    if is_blank(c) {
        return Ok(at + 1);
    }
    if closes_empty(*mode, c) {
        builder.close();
        *mode = Mode::AfterValue;
        return Ok(at + 1);
    }
    match *mode {
        Mode::Value | Mode::ValueOrClose => elements(builder, buffer, mode, at, c),
        Mode::Key | Mode::KeyOrClose => members(builder, buffer, mode, at, c),
        Mode::Colon => {
            if c != b':' {
                return Err(ReadRefusal::NotJson);
            }
            *mode = Mode::Value;
            Ok(at + 1)
        }
        Mode::AfterValue => separators(builder, mode, at, c),
    }
}
