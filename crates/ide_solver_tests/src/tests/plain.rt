//! The worked programs, and some made by chance: the solver's values are those of their paths,
//! under each analysis.
use super::generated;
use ide_instances::{CopyConst, Reach, ShiftConst, Uninit};
use ide_plain::agrees;
use ide_problem::Problem;
use ide_wire::Refused;
use ide_worked::{
    ADDS_IN_CALLEE, BRANCH_OF_TWO, CALLEES, COPIES, LOOP, RECURSION, SUM_OR_NUMBER, TWO_CALLS,
    UNREACHABLE,
};
use std::alloc::Global;
use std::process::Abort;
use std::test::Fail;

/// The most edges of the paths that are walked.
const LONGEST: usize = 40;

/// Whether solver and paths agree on a program with these roots.
fn agree<P: Problem>(
    alloc: Global,
    text: &[u8],
    roots: &[&[u8]],
    longest: usize,
) -> Result<bool, Refused> {
    let same = agrees::<P>(alloc, text, roots, longest)?;
    Ok(same)
}

/// Asserts that solver and paths agree on a program, with `main` as the root.
fn expect_of(rt: &(impl Abort + AllocGlobal), text: &[u8], longest: usize) -> Result<(), Fail> {
    let roots = [b"main".as_slice()];
    assert!(rt; agree::<Uninit>(rt.alloc(), text, &roots, longest)?);
    assert!(rt; agree::<CopyConst>(rt.alloc(), text, &roots, longest)?);
    assert!(rt; agree::<ShiftConst>(rt.alloc(), text, &roots, longest)?);
    assert!(rt; agree::<Reach>(rt.alloc(), text, &roots, longest)?);
    Ok(())
}

/// Asserts that they agree on each of these worked programs.
fn expect_each(rt: &(impl Abort + AllocGlobal), texts: &[&str]) -> Result<(), Fail> {
    for text in texts {
        expect_of(rt, text.as_bytes(), LONGEST)?;
    }
    Ok(())
}

#[test]
fn programs_of_one_procedure(rt: HostRuntime) -> Result<(), Fail> {
    expect_each(&rt, &[COPIES, BRANCH_OF_TWO, UNREACHABLE, LOOP])
}

#[test]
fn programs_with_calls(rt: HostRuntime) -> Result<(), Fail> {
    expect_each(&rt, &[TWO_CALLS, SUM_OR_NUMBER, CALLEES])
}

#[test]
fn programs_with_recursion(rt: HostRuntime) -> Result<(), Fail> {
    expect_each(&rt, &[RECURSION, ADDS_IN_CALLEE])
}

#[test]
fn paths_that_are_too_short_give_more(rt: HostRuntime) -> Result<(), Fail> {
    let roots = [b"main".as_slice()];
    assert!(rt; !agree::<ShiftConst>(rt.alloc(), RECURSION.as_bytes(), &roots, 5)?);
    Ok(())
}

#[test]
fn without_a_root_nothing_is_reached(rt: HostRuntime) -> Result<(), Fail> {
    assert!(rt; agree::<CopyConst>(rt.alloc(), TWO_CALLS.as_bytes(), &[], LONGEST)?);
    Ok(())
}

#[test]
fn programs_made_by_chance(rt: HostRuntime) -> Result<(), Fail> {
    for seed in 0..100u64 {
        let text = generated::text(rt.alloc(), seed)?;
        expect_of(&rt, text.as_slice(), 24)?;
    }
    Ok(())
}
