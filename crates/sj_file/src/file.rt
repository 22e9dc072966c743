// The words, and the statement file that they name.
ghost use Rattle.std.specs.Prelude.{◌≡◌, ◌<◌, ◌≤◌, ◌+◌, length, option_map, IfSome, MatchResult};
ghost use Rattle.sj_generated.specs.Lines.{most_lines};
ghost use Rattle.sj_file.specs.File as spec;
ghost use Rattle.sj_sql_grammar.specs.Answers.{max_file};
ghost use Rattle.sj_file.specs.File.{command, form_value, form_with, is_file_name, shelf_at, IsNoFile, IsWithin, Holds};
ghost use Rattle.sj_file.specs.Piece.{max_piece};

use crate::job::Keys;
use crate::piece::{MAX_PIECE, front, piece_len};
use crate::status::Status;
use sj_base::Bytes;
use sj_outside::Shelf;
use std::alloc::Global;

/// How many bytes a statement file may have.
const MAX_FILE: usize = 1_048_576;

/// How many digits a number of lines may have.
const MAX_DIGITS: usize = 6;

/// What the words ask for, with the name of a file of statements, or with the text of a path. Both are words, lent. A
/// name is not empty and does not begin with a minus; a path may be any word.
#[derive(Clone, Copy)]
pub enum Form<'a> {
    /// `run FILE` or `run --unique-keys FILE`: its statements are run over the input.
    Run(Keys, &'a str),
    /// `check FILE`: it is told whether its statements are accepted.
    Check(&'a str),
    /// `selfrun N FILE`: its statements are run over so many generated lines, 999,999 at most.
    Generated(u32, &'a str),
    /// `show FILE`: the canonical text of its statements is written.
    Show(&'a str),
    /// `group FILE`: the rows of its one statement are gathered over the input.
    Group(&'a str),
    /// `scan PATH`: the items of a path are told for each line of the input.
    Scan(&'a str),
}

/// What the words ask for, or nothing if they are of none of the forms. The words are those behind the name of the
/// program.
///
/// Example: `run f` asks for a run, and `selfrun 1234567 f` for nothing (`checks/rows/words.txt`).
pub fn form_of(words: &[String]) -> Option<Form<'_>>
    ensures form { option_map form_value result ≡ command words.now }
    ensures within { IfSome result IsWithin }
{
    match words {
        [word, name] => form_of_two(word.as_str(), name.as_str()),
        [word, middle, name] => form_of_three(word.as_str(), middle.as_str(), name.as_str()),
        _ => None,
    }
}

fn form_of_two<'a>(word: &str, other: &'a str) -> Option<Form<'a>>
    ensures form { option_map form_value result ≡ spec.form_of word.now other.now }
    ensures within { IfSome result IsWithin }
{
    if word == "scan" {
        Some(Form::Scan(other))
    } else {
        form_of_file(word, other)
    }
}

fn form_of_file<'a>(word: &str, name: &'a str) -> Option<Form<'a>>
    ensures form { option_map form_value result ≡ spec.form_of_file word.now name.now }
    ensures within { IfSome result IsWithin }
{
    if !may_be_file(name) {
        return None;
    }
    if word == "run" {
        Some(Form::Run(Keys::Any, name))
    } else if word == "check" {
        Some(Form::Check(name))
    } else if word == "show" {
        Some(Form::Show(name))
    } else if word == "group" {
        Some(Form::Group(name))
    } else {
        None
    }
}

fn form_of_three<'a>(word: &str, middle: &str, name: &'a str) -> Option<Form<'a>>
    ensures form { option_map form_value result ≡ form_with word.now middle.now name.now }
    ensures within { IfSome result IsWithin }
{
    if !may_be_file(name) {
        return None;
    }
    if word == "run" {
        if middle == "--unique-keys" {
            Some(Form::Run(Keys::Unique, name))
        } else {
            None
        }
    } else if word == "selfrun" {
        match number_of(middle) {
            Some(number) => Some(Form::Generated(number, name)),
            None => None,
        }
    } else {
        None
    }
}

/// A number of one to six decimal digits.
fn number_of(word: &str) -> Option<u32>
    ensures value { result ≡ spec.number_of word.now }
    ensures small { IfSome result (λ number. number ≤ most_lines) }
{
    let digits = word.as_bytes();
    if digits.is_empty() || digits.len() > MAX_DIGITS {
        return None;
    }
    let mut number: u32 = 0;
    for digit in digits {
        if !digit.is_ascii_digit() {
            return None;
        }
        number = 10 * number + (*digit - b'0') as u32;
    }
    Some(number)
}

fn may_be_file(name: &str) -> bool
    ensures { result ≡ is_file_name name.now }
{
    match name.as_bytes() {
        [] => false,
        [first, ..] => *first != b'-',
    }
}

/// Reads a file whole. Of one that is too long it reads no more than the first byte past the limit.
pub(crate) fn load<H: Shelf>(alloc: Global, name: &str, shelf: &mut H) -> Result<Bytes, Status>
    ensures { let old = shelf_at H.Shelf shelf.old in
        let new = shelf_at H.Shelf shelf.new in
        MatchResult result (λ file. Holds name.now old new file) (λ status. IsNoFile name.now old new status) }
{
    match vec![in alloc; 0u8; MAX_PIECE] {
        Ok(mut buffer) => load_by(alloc, name, shelf, buffer.as_mut_slice()),
        Err(_) => Err(Status::Memory),
    }
}

/// The same, in pieces of the buffer's length.
fn load_by<H: Shelf>(
    alloc: Global,
    name: &str,
    shelf: &mut H,
    buffer: &mut [u8],
) -> Result<Bytes, Status>
    requires { length buffer.old ≡ max_piece }
    ensures { let old = shelf_at H.Shelf shelf.old in
        let new = shelf_at H.Shelf shelf.new in
        MatchResult result (λ file. Holds name.now old new file) (λ status. IsNoFile name.now old new status) }
{
    match shelf.pick(name) {
        Ok(()) => {}
        Err(_) => return Err(Status::ShelfFault),
    }
    let mut file = Bytes::new(alloc);
    'reading: while file.as_slice().len() <= MAX_FILE {
        let room = room_behind(file.as_slice().len());
        let piece = &mut buffer[..room];
        let n = match shelf.read(piece) {
            Ok(n) => n,
            Err(_) => return Err(Status::ShelfFault),
        };
        if n == 0 {
            return Ok(file);
        }
        match file.push(front(piece, n)) {
            Ok(()) => {}
            Err(_) => return Err(Status::Memory),
        }
    }
    Err(Status::FileTooLong)
}

/// How many bytes are read next, behind so many of a file: the byte past the limit shows that it is too long.
fn room_behind(taken: usize) -> usize
    requires { taken ≤ max_file }
    ensures some { 0 < result }
    ensures a_piece { result ≤ max_piece }
    ensures within { taken + result ≤ max_file + 1 }
{
    piece_len((MAX_FILE + 1 - taken) as u64)
}
