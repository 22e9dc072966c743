//! The calls of a decimal that show its parts. What is computed is in `checks/decimals.py` and the tables of
//! `checks/rows/`.

use crate::cases::expect;
use sj_decimal::{Compare, Decimal};
use std::test::Fail;

#[test]
fn parts(rt: HostRuntime) -> Result<(), Fail> {
    let number = Decimal::from_parts(-1500, 3).ok_or("inexact")?;
    let (coefficient, scale) = number.parts();
    assert!(rt; coefficient == -15 && scale == 1);
    assert!(rt; Decimal::from_normal(coefficient, scale) == number);
    assert!(rt; Decimal::from_short(true, 1500, 3) == number);
    assert!(rt; Decimal::from_parts(1, 39).is_none());
    Ok(())
}

#[test]
fn signs(rt: HostRuntime) -> Result<(), Fail> {
    let number = Decimal::from_parts(-1500, 3).ok_or("inexact")?;
    expect(&rt, number.text().as_str(), "-1.5", "as it is");
    expect(&rt, number.neg().text().as_str(), "1.5", "neg");
    expect(&rt, number.abs().text().as_str(), "1.5", "abs");
    assert!(rt; number.to_whole() == -1);
    assert!(rt; number < number.neg());
    assert!(rt; Compare::Lt != Compare::Ge);
    Ok(())
}

#[test]
fn is_displayed(rt: HostRuntime) -> Result<(), Fail> {
    let tenth = Decimal::from_parts(1, 1).ok_or("inexact")?;
    let shown = format!(in rt.alloc(); "{tenth}")?;
    expect(&rt, shown.as_str(), "0.1", "a tenth");
    Ok(())
}
