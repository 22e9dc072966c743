// What one byte does in a mode, with the open containers.
ghost use Rattle.std.specs.Prelude.{◌≡◌, ℕ, List, reverse, MatchResult, Some, None};
ghost use Rattle.sj_json.specs.Spelling.{max_depth};
ghost use Rattle.sj_scan.specs.Numerals.{numeral_step};
ghost use Rattle.sj_scan.specs.Modes as modes;
ghost use Rattle.sj_scan.specs.Modes.{first};
ghost use Rattle.sj_scan.specs.Views.{rest_of, mode_of, LedTo, Refuses, IsOutside};
ghost use Rattle.sj_scan.specs.declared.mode.Container.{Container};

use crate::escape::{Escape, Escaped};
use crate::mode::{Container, Mode, Word};
use crate::numeral::Numeral;
use crate::{escape, numeral};
use sj_base::{Memory, is_blank, is_plain, push};

// The greatest number of arrays and objects that may be open at one place.
const MAX_DEPTH: usize = 100_000;

// Why a byte leads nowhere.
#[derive(Clone, Copy, Drop)]
pub(crate) enum Stop {
    NotJson,
    Memory,
}

type Turn = Result<Mode, Stop>;

#[inline(always)]
fn open_container(containers: &mut Vec<Container>, container: Container) -> Turn
    ensures { MatchResult result (LedTo (modes.open_turn max_depth container (reverse containers.old.items)) containers.new.items)
        (Refuses (modes.open_turn max_depth container (reverse containers.old.items))) }
{
    if containers.len() >= MAX_DEPTH {
        return Err(Stop::NotJson);
    }
    match push(containers, container) {
        Ok(()) => Ok(match container {
            Container::Array => Mode::ValueOrClose,
            Container::Object => Mode::KeyOrClose,
        }),
        Err(Memory) => Err(Stop::Memory),
    }
}

// The innermost container ends.
#[inline(always)]
fn close_container(containers: &mut Vec<Container>) -> Turn
    ensures { MatchResult result (LedTo (modes.close_turn (reverse containers.old.items)) containers.new.items)
        (Refuses (modes.close_turn (reverse containers.old.items))) }
{
    match containers.pop() {
        Some(_) => Ok(Mode::AfterValue),
        None => Err(Stop::NotJson),
    }
}

#[inline(always)]
fn number(came: Numeral, byte: u8) -> Turn
    ensures { (cs : List Container) → MatchResult result (λ m. modes.number_turn (reverse cs) (numeral_step came byte) ≡ Some (mode_of m, reverse cs))
        (Refuses (modes.number_turn (reverse cs) (numeral_step came byte))) }
{
    match numeral::step(came, byte) {
        Some(next) => Ok(Mode::Number(next)),
        None => Err(Stop::NotJson),
    }
}

// A value begins with the byte.
fn begin_value(containers: &mut Vec<Container>, byte: u8) -> Turn
    ensures { MatchResult result (LedTo (modes.start max_depth (reverse containers.old.items) byte) containers.new.items)
        (Refuses (modes.start max_depth (reverse containers.old.items) byte)) }
{
    if numeral::begins_number(byte) {
        return number(Numeral::Nothing, byte);
    }
    match byte {
        b'"' => Ok(Mode::Quoted(false)),
        b'[' => open_container(containers, Container::Array),
        b'{' => open_container(containers, Container::Object),
        b'n' => Ok(Mode::Word(Word::Ull)),
        b't' => Ok(Mode::Word(Word::Rue)),
        b'f' => Ok(Mode::Word(Word::Alse)),
        _ => Err(Stop::NotJson),
    }
}

// A comma, or the end of the innermost container.
fn separate(containers: &mut Vec<Container>, byte: u8) -> Turn
    ensures { MatchResult result (LedTo (modes.separate (reverse containers.old.items) byte) containers.new.items)
        (Refuses (modes.separate (reverse containers.old.items) byte)) }
{
    match innermost(containers) {
        None => Err(Stop::NotJson),
        Some(container) => separate_in(containers, container, byte),
    }
}

#[inline(always)]
fn innermost(containers: &[Container]) -> Option<Container>
    ensures { result ≡ first (reverse containers.now) }
{
    containers.last().copied()
}

fn separate_in(containers: &mut Vec<Container>, container: Container, byte: u8) -> Turn
    requires { first (reverse containers.old.items) ≡ Some container }
    ensures { MatchResult result (LedTo (modes.separate (reverse containers.old.items) byte) containers.new.items)
        (Refuses (modes.separate (reverse containers.old.items) byte)) }
{
    let (end, next) = match container {
        Container::Array => (b']', Mode::Value),
        Container::Object => (b'}', Mode::Key),
    };
    if byte == b',' {
        Ok(next)
    } else if byte == end {
        close_container(containers)
    } else {
        Err(Stop::NotJson)
    }
}

// A byte of a word behind its first one.
fn word(word: Word, byte: u8) -> Turn
    ensures { (cs : List Container) → MatchResult result (λ m. modes.word_turn (rest_of word) cs byte ≡ Some (mode_of m, cs))
        (Refuses (modes.word_turn (rest_of word) cs byte)) }
{
    let (wanted, next) = match word {
        Word::Ull => (b'u', Mode::Word(Word::Ll)),
        Word::Ll => (b'l', Mode::Word(Word::L)),
        Word::L => (b'l', Mode::AfterValue),
        Word::Rue => (b'r', Mode::Word(Word::Ue)),
        Word::Ue => (b'u', Mode::Word(Word::E)),
        Word::E => (b'e', Mode::AfterValue),
        Word::Alse => (b'a', Mode::Word(Word::Lse)),
        Word::Lse => (b'l', Mode::Word(Word::Se)),
        Word::Se => (b's', Mode::Word(Word::E)),
    };
    if byte == wanted {
        Ok(next)
    } else {
        Err(Stop::NotJson)
    }
}

#[inline(always)]
fn quoted(is_key: bool, byte: u8) -> Turn
    ensures { (cs : List Container) → MatchResult result (λ m. modes.turn max_depth (modes.quoted is_key) cs byte ≡ Some (mode_of m, cs))
        (Refuses (modes.turn max_depth (modes.quoted is_key) cs byte)) }
{
    if byte == b'"' {
        Ok(if is_key {
            Mode::Colon
        } else {
            Mode::AfterValue
        })
    } else if is_plain(byte) {
        Ok(Mode::Quoted(is_key))
    } else if byte == b'\\' {
        Ok(Mode::Escaped(is_key, Escape::Begun))
    } else {
        Err(Stop::NotJson)
    }
}

fn escaped(is_key: bool, escape: Escape, byte: u8) -> Turn
    ensures { (cs : List Container) → MatchResult result (λ m. modes.turn max_depth (modes.escaped is_key escape) cs byte ≡ Some (mode_of m, cs))
        (Refuses (modes.turn max_depth (modes.escaped is_key escape) cs byte)) }
{
    match escape::step(escape, byte) {
        Some(Escaped::GoesOn(next)) => Ok(Mode::Escaped(is_key, next)),
        Some(Escaped::Ended) => Ok(Mode::Quoted(is_key)),
        None => Err(Stop::NotJson),
    }
}

#[inline(always)]
fn after_value(containers: &mut Vec<Container>, byte: u8) -> Turn
    ensures { MatchResult result (LedTo (modes.after_value_turn (reverse containers.old.items) byte) containers.new.items)
        (Refuses (modes.after_value_turn (reverse containers.old.items) byte)) }
{
    if is_blank(byte) {
        return Ok(Mode::AfterValue);
    }
    separate(containers, byte)
}

// A byte of a number, or the first one behind it.
#[inline(always)]
fn in_number(containers: &mut Vec<Container>, came: Numeral, byte: u8) -> Turn
    ensures { MatchResult result (LedTo (modes.turn max_depth (modes.number came) (reverse containers.old.items) byte) containers.new.items)
        (Refuses (modes.turn max_depth (modes.number came) (reverse containers.old.items) byte)) }
{
    if numeral::is_number_byte(byte) {
        number(came, byte)
    } else if numeral::may_end(came) {
        after_value(containers, byte)
    } else {
        Err(Stop::NotJson)
    }
}

// A byte that is not white space, before a key or the end of an object.
#[inline(always)]
fn begin_key(byte: u8) -> Turn
    ensures { (cs : List Container) → MatchResult result (λ m. modes.quote_turn cs byte ≡ Some (mode_of m, cs))
        (Refuses (modes.quote_turn cs byte)) }
{
    if byte == b'"' {
        Ok(Mode::Quoted(true))
    } else {
        Err(Stop::NotJson)
    }
}

// A byte that is not white space, between two tokens.
fn token(mode: Mode, containers: &mut Vec<Container>, byte: u8) -> Turn
    requires { IsOutside mode }
    ensures { MatchResult result (LedTo (modes.token_turn max_depth (mode_of mode) (reverse containers.old.items) byte) containers.new.items)
        (Refuses (modes.token_turn max_depth (mode_of mode) (reverse containers.old.items) byte)) }
{
    match mode {
        Mode::Value => begin_value(containers, byte),
        Mode::ValueOrClose => if byte == b']' {
            close_container(containers)
        } else {
            begin_value(containers, byte)
        },
        Mode::Key => begin_key(byte),
        Mode::KeyOrClose => if byte == b'}' {
            close_container(containers)
        } else {
            begin_key(byte)
        },
        Mode::Colon => if byte == b':' {
            Ok(Mode::Value)
        } else {
            Err(Stop::NotJson)
        },
        Mode::AfterValue => separate(containers, byte),
        _ => Err(Stop::NotJson),
    }
}

// The mode behind the byte.
pub(crate) fn turn(mode: Mode, containers: &mut Vec<Container>, byte: u8) -> Turn
    ensures { MatchResult result (LedTo (modes.turn max_depth (mode_of mode) (reverse containers.old.items) byte) containers.new.items)
        (Refuses (modes.turn max_depth (mode_of mode) (reverse containers.old.items) byte)) }
{
    match mode {
        Mode::Quoted(is_key) => quoted(is_key, byte),
        Mode::Escaped(is_key, escape) => escaped(is_key, escape, byte),
        Mode::Number(came) => in_number(containers, came, byte),
        Mode::Word(rest) => word(rest, byte),
        Mode::Value
        | Mode::ValueOrClose
        | Mode::Key
        | Mode::KeyOrClose
        | Mode::Colon
        | Mode::AfterValue => {
            if is_blank(byte) {
                Ok(mode)
            } else {
                token(mode, containers, byte)
            }
        }
    }
}
