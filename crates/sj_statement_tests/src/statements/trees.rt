//! Statements that mean the same have one tree, however they are spelt.

use super::super::cases::expect;
use super::same::same_statement;
use super::spellings::SPELLINGS;
use sj_sql::{NextStatement, Refused, Statement, next_statement};
use std::alloc::Global;
use std::test::Fail;

/// The statement of a file that has one and is accepted.
fn statement_of(alloc: Global, file: &str) -> Result<Option<Statement>, Fail> {
    let (statement, behind) = match next_statement(alloc, file.as_bytes()) {
        Ok(NextStatement::Statement(statement, behind)) => (statement, behind),
        Ok(NextStatement::End) | Err(Refused::For(_)) => return Ok(None),
        Err(Refused::Memory) => return Err(Fail::from("memory")),
    };
    match next_statement(alloc, behind) {
        Ok(NextStatement::End) => Ok(Some(statement)),
        Ok(NextStatement::Statement(_, _)) | Err(Refused::For(_)) => Ok(None),
        Err(Refused::Memory) => Err(Fail::from("memory")),
    }
}

/// `=` where two files of one statement have one tree, and `!` where they do not. There is no other answer where one of
/// them is refused.
fn is_same(alloc: Global, first: &str, second: &str) -> Result<&'static str, Fail> {
    let Some(first) = statement_of(alloc, first)? else {
        return Ok("refused");
    };
    match statement_of(alloc, second)? {
        Some(second) if same_statement(&first, &second) => Ok("="),
        Some(_) => Ok("!"),
        None => Ok("refused"),
    }
}

#[test]
fn spellings_of_one_tree(rt: HostRuntime) -> Result<(), Fail> {
    for group in SPELLINGS.split("\n\n") {
        let Some((head, others)) = group.split_once('\n') else {
            return Err(Fail::from("a statement alone"));
        };
        for line in others.lines() {
            let Some((mark, other)) = line.split_once(' ') else {
                return Err(Fail::from("a line without a mark"));
            };
            let found = is_same(rt.alloc(), head, other)?;
            expect(&rt, found, mark, line);
        }
    }
    Ok(())
}

// With white space and comments between the tokens.
#[test]
fn comments_leave_no_trace(rt: HostRuntime) -> Result<(), Fail> {
    for (plain, commented) in [
        ("SELECT 1;", "\tSELECT\r\n1\n\n;\r"),
        ("SELECT 2;", "SELECT --1\n2;"),
        (
            "SELECT 1, 2;",
            "--a\nSELECT--'\n1--\r\n,--;\n2-- \"\n;--end",
        ),
        ("SELECT '--', 1;", "SELECT '--' -- '--'\n, 1;\n--"),
        (
            "SELECT JSON_EXISTS(doc, '$.a');",
            "SELECT JSON_EXISTS(doc, '\t$\r\n.a ');",
        ),
        (
            "SELECT * FROM JSON_TABLE(doc, '$' COLUMNS (a INT));",
            "SELECT--\n*--\nFROM--\nJSON_TABLE--\n(--\ndoc--\n,--\n'$'--\nCOLUMNS--\n(--\na--\nINT--\n)--\n)--\n;--",
        ),
    ] {
        expect(&rt, is_same(rt.alloc(), plain, commented)?, "=", plain);
    }
    Ok(())
}
