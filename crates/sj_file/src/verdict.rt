// What is made of a file of statements, which are read and bound one after the other.
ghost use Rattle.std.specs.Prelude.{◌≡◌, ◌<◌, ◌≤◌, ◌++◌, length, map, codes, IfOk, IfErr, OnOk};
ghost use Rattle.sj_sql_tree.specs.View.{statement_of};
ghost use Rattle.sj_sql_text.specs.Statements.{statement_text as statement_printed};
ghost use Rattle.sj_bound.specs.View.{bound_of};
ghost use Rattle.sj_sql_grammar.specs.Answers.{max_file};
ghost use Rattle.sj_file.specs.Job.{AreSound, statement_limit};
ghost use Rattle.sj_file.specs.Verdict.{Accepts};
ghost use Rattle.sj_bind.specs.Bindable.{IsBindable};
ghost use Rattle.sj_file.specs.Refusals.{AcceptsSoMany, AcceptsWithText, IsBoundAs, IsNextBound, IsNextWithText, IsRefused, refusal_of};

use crate::job::FileRefusal;
use sj_base::{Bytes, Memory};
use sj_bind::{BindRefusal, Bound, bind};
use sj_sql::{FileKind, NextStatement, Refused, Statement, next_statement};
use sj_sql_text::statement_text;
use std::alloc::Global;

/// What is left of a file begins with.
#[derive(Drop)]
enum NextBound<'a> {
    /// A statement, and what is behind it.
    Statement(Bound, &'a [u8]),
    /// Nothing: the file ends.
    End,
}

/// The refusal of a file whose statement of this number is refused.
fn refusal_of(number: u32, refused: Refused) -> FileRefusal
    ensures { result ≡ refusal_of number refused }
{
    match refused {
        Refused::For(kind) => FileRefusal::Refused(number, kind),
        Refused::Memory => FileRefusal::Memory,
    }
}

/// A statement as it is bound, where it has this number.
fn bound_as(alloc: Global, statement: Statement, number: u32) -> Result<Bound, FileRefusal>
    requires { IsBindable (statement_of statement) }
    ensures { IsBoundAs number (statement_of statement) result }
{
    match bind(alloc, statement) {
        Ok(bound) => Ok(bound),
        Err(BindRefusal::Kind(why)) => Err(FileRefusal::Refused(number, FileKind::Bind(why))),
        Err(BindRefusal::Memory) => Err(FileRefusal::Memory),
    }
}

/// The first statement of what is left of a file as it is bound, where it has this number.
fn next_bound<'a>(alloc: Global, rest: &'a [u8], number: u32) -> Result<NextBound<'a>, FileRefusal>
    ensures { IsNextBound number rest.now result }
{
    match next_statement(alloc, rest) {
        Ok(NextStatement::Statement(statement, behind)) => {
            match bound_as(alloc, statement, number) {
                Ok(bound) => Ok(NextBound::Statement(bound, behind)),
                Err(refusal) => Err(refusal),
            }
        }
        Ok(NextStatement::End) => Ok(NextBound::End),
        Err(refused) => Err(refusal_of(number, refused)),
    }
}

/// The statements of a file as they are bound, or why the file is refused.
pub(crate) fn statements_of(alloc: Global, file: &[u8]) -> Result<Vec<Bound>, FileRefusal>
    requires { length file.now ≤ max_file }
    ensures accepted { IfOk result (λ statements. Accepts file.now (map bound_of statements.items)) }
    ensures few { IfOk result (λ statements. length statements.items < statement_limit) }
    ensures sound { IfOk result (λ statements. AreSound statements.items) }
    ensures refused { IfErr result (λ refusal. IsRefused file.now refusal) }
{
    let mut statements = Vec::new(alloc);
    let mut rest = file;
    let mut number: u32 = 1;
    loop {
        match next_bound(alloc, rest, number) {
            Ok(NextBound::Statement(bound, behind)) => {
                match statements.push(bound) {
                    Ok(()) => {}
                    Err(_) => return Err(FileRefusal::Memory),
                }
                number += 1;
                rest = behind;
            }
            Ok(NextBound::End) => return Ok(statements),
            Err(refusal) => return Err(refusal),
        }
    }
}

/// Puts the canonical text of a statement behind `text`, on a line of its own.
fn put_line(alloc: Global, statement: &Statement, text: &mut Bytes) -> Result<(), Memory>
    ensures { OnOk result (text.new ≡ text.old ++ (statement_printed (statement_of statement.now) ++ codes "\n")) }
{
    statement_text(alloc, statement, text)?;
    text.push(b"\n")
}

/// The first statement of what is left of a file as it is bound, where it has this number, and its canonical text behind
/// `text`.
fn next_with_text<'a>(
    alloc: Global,
    rest: &'a [u8],
    number: u32,
    text: &mut Bytes,
) -> Result<NextBound<'a>, FileRefusal>
    ensures { IsNextWithText number rest.now text.old text.new result }
{
    match next_statement(alloc, rest) {
        Ok(NextStatement::Statement(statement, behind)) => {
            match put_line(alloc, &statement, text) {
                Ok(()) => {}
                Err(Memory) => return Err(FileRefusal::Memory),
            }
            match bound_as(alloc, statement, number) {
                Ok(bound) => Ok(NextBound::Statement(bound, behind)),
                Err(refusal) => Err(refusal),
            }
        }
        Ok(NextStatement::End) => Ok(NextBound::End),
        Err(refused) => Err(refusal_of(number, refused)),
    }
}

/// The canonical text of the statements of a file, each on a line, or why the file is refused. Each statement is given up
/// before the next is read.
pub(crate) fn text_of(alloc: Global, file: &[u8]) -> Result<Bytes, FileRefusal>
    requires { length file.now ≤ max_file }
    ensures accepted { IfOk result (λ text. AcceptsWithText file.now text) }
    ensures refused { IfErr result (λ refusal. IsRefused file.now refusal) }
{
    let mut text = Bytes::new(alloc);
    let mut rest = file;
    let mut count: u32 = 0;
    loop {
        match next_with_text(alloc, rest, count + 1, &mut text) {
            Ok(NextBound::Statement(bound, behind)) => {
                drop(bound);
                count += 1;
                rest = behind;
            }
            Ok(NextBound::End) => return Ok(text),
            Err(refusal) => return Err(refusal),
        }
    }
}

/// How many statements a file has, or why it is refused. Each statement is given up before the next is read.
pub(crate) fn count_of(alloc: Global, file: &[u8]) -> Result<u32, FileRefusal>
    requires { length file.now ≤ max_file }
    ensures accepted { IfOk result (λ count. AcceptsSoMany file.now count) }
    ensures refused { IfErr result (λ refusal. IsRefused file.now refusal) }
{
    let mut rest = file;
    let mut count: u32 = 0;
    loop {
        match next_bound(alloc, rest, count + 1) {
            Ok(NextBound::Statement(bound, behind)) => {
                drop(bound);
                count += 1;
                rest = behind;
            }
            Ok(NextBound::End) => return Ok(count),
            Err(refusal) => return Err(refusal),
        }
    }
}
