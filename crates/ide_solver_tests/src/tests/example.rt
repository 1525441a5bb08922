//! An analysis of one's own: which variables may hold what came from an input.
use ide_example::{Place, may_be_input};
use ide_wire::Refused;
use ide_worked::INPUTS;
use std::alloc::Global;
use std::process::Abort;
use std::test::Fail;

/// What is answered of a variable of `main` at a position.
fn answer(alloc: Global, position: u32, variable: &str) -> Result<bool, Refused> {
    let place = Place {
        procedure: b"main",
        position,
        variable: variable.as_bytes(),
    };
    let told = may_be_input(alloc, INPUTS.as_bytes(), b"main", place)?;
    Ok(told)
}

/// Asserts what is answered.
fn expect(
    rt: &(impl Abort + AllocGlobal),
    position: u32,
    variable: &str,
    expected: bool,
) -> Result<(), Fail> {
    let told = answer(rt.alloc(), position, variable)?;
    assert!(rt; told == expected, "{variable} at {position}");
    Ok(())
}

#[test]
fn inputs_are_followed_through_calls(rt: HostRuntime) -> Result<(), Fail> {
    expect(&rt, 1, "x", false)?;
    expect(&rt, 2, "x", true)?;
    expect(&rt, 7, "x", true)?;
    expect(&rt, 7, "y", false)?;
    expect(&rt, 7, "z", true)
}
