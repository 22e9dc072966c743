//! The nodes of a path, its variables, and the longest path. What paths are read as is shown by `sj_statement_tests`, which
//! compares the trees of statements, and which are refused by the tables of `checks/rows/`.

use super::cases::expect_count;
use sj_base::Text;
use sj_path::{Path, Vars, member_path, nodes, parse_path};
use sj_path_tree::Literal;
use std::alloc::Global;
use std::process::Abort;
use std::test::Fail;

fn expect_nodes(rt: &impl Abort, alloc: Global, text: &str, want: u64) -> Result<(), Fail> {
    let path = parse_path(alloc, text)?;
    expect_count(rt, nodes(&path), want);
    Ok(())
}

#[test]
fn counts_nodes(rt: HostRuntime) -> Result<(), Fail> {
    let alloc = rt.alloc();
    expect_nodes(&rt, alloc, "lax $.a.b", 5)?;
    expect_nodes(&rt, alloc, "$[0, 1 to 2] ? (@ == 1)", 13)?;
    let mut longest = String::from_str(alloc, "$")?;
    for _ in 0..256 {
        longest.push_str(".a")?;
    }
    expect_nodes(&rt, alloc, longest.as_str(), 513)?;
    expect_count(&rt, nodes(&member_path(alloc, "a\"b")?), 3);
    Ok(())
}

fn push_variable(alloc: Global, vars: &mut Vars, name: &str, value: Literal) -> Result<(), Fail> {
    if vars.has(name) {
        return Err("passed twice")?;
    }
    Ok(vars.push(Text::from_str(alloc, name)?, value)?)
}

fn passes_variables(rt: &impl Abort, alloc: Global, path: &Path) -> Result<(), Fail> {
    let mut vars = Vars::new(alloc);
    push_variable(alloc, &mut vars, "x", Literal::Bool(true))?;
    assert!(rt; vars.has("x") && !vars.has("y") && !vars.covers(path));
    push_variable(alloc, &mut vars, "y", Literal::Null)?;
    assert!(rt; vars.covers(path) && matches!(vars.get("x"), Some(Literal::Bool(true))));
    assert!(rt; vars.get("z").is_none());
    Ok(())
}

#[test]
fn variables(rt: HostRuntime) -> Result<(), Fail> {
    let path = parse_path(rt.alloc(), "$x ? (@ starts with $y)")?;
    passes_variables(&rt, rt.alloc(), &path)
}
