//! Files of statements, which are read one after the other.

ghost use Rattle.std.specs.Prelude.{◌≡◌, IfOk};
ghost use Rattle.sj_sql.specs.File.{IsGathered, IsNext, is_semicolon};

use crate::answer::{Refused, answer};
use sj_base::Memory;
use sj_sql_grammar::FileKind;
use sj_sql_token::{Next, Token, next_token};
use sj_sql_tree::Statement;
use std::alloc::Global;

/// What a file begins with.
#[derive(Drop)]
pub enum NextStatement<'a> {
    /// A statement, and what is behind its semicolon.
    Statement(Statement, &'a [u8]),
    /// Nothing: the file ends.
    End,
}

/// What stands at the front of a file.
enum Gathered<'a> {
    /// A statement with its semicolon, and what is behind it.
    Statement(&'a [u8]),
    /// Nothing: the file ends.
    End,
    /// A statement without its semicolon: the file ends.
    CutOff,
    /// Tokens of a statement and a piece that is none.
    Broken,
}

fn is_semicolon(token: &Token<'_>) -> bool
    ensures { result ≡ is_semicolon token.now }
{
    matches!(token, Token::Semicolon)
}

/// Puts the tokens of the first statement, up to its semicolon, in place of those that stood there.
fn gather<'a>(file: &'a [u8], tokens: &mut Vec<Token<'a>>) -> Result<Gathered<'a>, Memory>
    ensures { IfOk result (λ x. IsGathered file.now tokens.new.items x) }
{
    tokens.clear();
    let mut rest = file;
    loop {
        match next_token(rest) {
            Next::Token(token, behind) => {
                if is_semicolon(&token) {
                    return Ok(Gathered::Statement(behind));
                }
                tokens.push(token)?;
                rest = behind;
            }
            Next::End => {
                if tokens.is_empty() {
                    return Ok(Gathered::End);
                }
                return Ok(Gathered::CutOff);
            }
            Next::Fault => return Ok(Gathered::Broken),
        }
    }
}

/// Takes the first statement of a file, or says why it is refused. Whoever takes what is behind it as a file again, and so
/// on, reads the file whole, with one statement at a time in memory, in time linear in the file.
///
/// # Errors
/// The first reason to refuse the first statement, or that memory ran out, which says nothing of it.
pub fn next_statement<'a>(alloc: Global, file: &'a [u8]) -> Result<NextStatement<'a>, Refused>
    ensures { IsNext file.now result }
{
    let mut tokens = Vec::new(alloc);
    match gather(file, &mut tokens) {
        Ok(Gathered::Statement(behind)) => match answer(alloc, tokens.as_slice()) {
            Ok(statement) => Ok(NextStatement::Statement(statement, behind)),
            Err(refused) => Err(refused),
        },
        Ok(Gathered::End) => Ok(NextStatement::End),
        Ok(Gathered::CutOff) => Err(Refused::For(FileKind::Syntax)),
        Ok(Gathered::Broken) => Err(Refused::For(FileKind::Lex)),
        Err(Memory) => Err(Refused::Memory),
    }
}
