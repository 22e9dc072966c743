//! The trees that statements are read as, and the lists that hold them. Which files are refused, and why, is in
//! `checks/rows/syntax.txt`.
mod same;
mod spellings;
mod trees;

use sj_base::Text;
use sj_sql::{
    FileFault, FileKind, NamedPlan, NextStatement, Refused, Seq, Statement, Statements,
    next_statement, parse_file,
};
use std::test::Fail;

#[test]
fn long_plans_are_given_up_by_a_loop(rt: HostRuntime) -> Result<(), Fail> {
    let mut plan = NamedPlan::Path(Text::from_str(rt.alloc(), "p")?);
    for _turn in 0..1_000_000u32 {
        let name = Text::from_str(rt.alloc(), "p")?;
        plan = NamedPlan::Outer(name, Box::new(rt.alloc(), plan)?);
    }
    Ok(())
}

#[test]
fn sequences(rt: HostRuntime) -> Result<(), Fail> {
    let mut numbers = Seq::new(rt.alloc());
    for n in 0..3u32 {
        if numbers.len() < 10 {
            numbers.push(n * n).map_err(|_| "memory")?;
        }
    }
    assert!(rt; numbers.len() == 3);
    assert!(rt; numbers.get(2).copied() == Some(4));
    assert!(rt; numbers.get(3).is_none());
    assert!(rt; numbers.as_slice() == [0, 1, 4].as_slice());
    assert!(rt; numbers.into_vec().len() == 3);
    Ok(())
}

#[test]
fn statements_are_taken_in_their_order(rt: HostRuntime) -> Result<(), Fail> {
    let file = "SELECT 1; SELECT * FROM JSON_TABLE(doc, '$' COLUMNS (a INT)); SELECT a";
    let first = next_statement(rt.alloc(), file.as_bytes());
    let Ok(NextStatement::Statement(Statement::Plain(_), behind)) = first else {
        return Err(Fail::from("another statement is the first"));
    };
    let second = next_statement(rt.alloc(), behind);
    let Ok(NextStatement::Statement(Statement::All(_), behind)) = second else {
        return Err(Fail::from("another statement is the second"));
    };
    let third = next_statement(rt.alloc(), behind);
    assert!(rt; matches!(third, Err(Refused::For(FileKind::Syntax))));
    Ok(())
}

#[test]
fn a_file_is_read_whole(rt: HostRuntime) -> Result<(), Fail> {
    let file = "SELECT 1; SELECT * FROM JSON_TABLE(doc, '$' COLUMNS (a INT)); SELECT a";
    let mut script = parse_file(rt.alloc(), file.as_bytes()).map_err(|_| "memory")?;
    let statements: &mut Statements = &mut script.statements;
    assert!(rt; statements.len() == 2);
    assert!(rt; matches!(statements.get(1), Some(Statement::All(_))));
    assert!(rt; statements.get(2).is_none());
    assert!(rt; matches!(statements.take_first(), Some(Statement::Plain(_))));
    assert!(rt; statements.len() == 1);
    assert!(rt; matches!(statements.take_first(), Some(Statement::All(_))));
    assert!(rt; statements.take_first().is_none());
    let fault = FileFault {
        statement: 3,
        kind: FileKind::Syntax,
    };
    assert!(rt; script.fault == Some(fault));
    Ok(())
}
