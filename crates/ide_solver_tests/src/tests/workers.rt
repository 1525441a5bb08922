//! Values by several workers: the dump is the same for any number of them.
use super::generated;
use ide_instances::{CopyConst, ShiftConst, Uninit};
use ide_problem::Problem;
use ide_solver::{solve, solve_shared};
use ide_wire::Refused;
use ide_worked::{
    ADDS_IN_CALLEE, BRANCH, CALLEES, COPIES, EMPTY, INPUTS, LOOP, PASSES_GLOBAL, RECURSION,
    STATEMENTS, TWO_CALLS, UNREACHABLE,
};
use std::alloc::Global;
use std::process::Abort;
use std::test::Fail;
use std::thread::Threads;

/// Worked programs, from one with two nodes on.
const WORKED: [&str; 12] = [
    EMPTY,
    BRANCH,
    COPIES,
    UNREACHABLE,
    LOOP,
    STATEMENTS,
    INPUTS,
    TWO_CALLS,
    CALLEES,
    ADDS_IN_CALLEE,
    PASSES_GLOBAL,
    RECURSION,
];

/// How many workers fill the values of each text.
const WORKERS: [usize; 4] = [1, 2, 3, 64];

/// The dump of a text by one thread.
fn dump<P: Problem>(alloc: Global, text: &[u8]) -> Result<Vec<u8>, Refused> {
    let mut out = Vec::new(alloc);
    solve::<P>(alloc, text, &[b"main".as_slice()], &mut out)?;
    Ok(out)
}

/// The dump of a text by so many workers.
fn dump_shared<R: Threads + Sync, P: Problem>(
    rt: &R,
    alloc: Global,
    text: &[u8],
    workers: usize,
) -> Result<Vec<u8>, Refused>
where
    P::F: Sync,
    P::L: Send + Sync,
{
    let mut out = Vec::new(alloc);
    solve_shared::<R, P>(rt, alloc, text, &[b"main".as_slice()], workers, &mut out)?;
    Ok(out)
}

/// Asserts that so many workers give the dump of one thread.
fn expect_same<R: Threads + Sync + Abort + AllocGlobal, P: Problem>(
    rt: &R,
    text: &[u8],
    workers: usize,
) -> Result<(), Fail>
where
    P::F: Sync,
    P::L: Send + Sync,
{
    let alone = dump::<P>(rt.alloc(), text)?;
    let shared = dump_shared::<R, P>(rt, rt.alloc(), text, workers)?;
    assert!(rt; shared.as_slice() == alone.as_slice(), "by {workers}");
    Ok(())
}

/// Asserts that a text's dump by each analysis is the same for any number of workers.
fn expect_any<R: Threads + Sync + Abort + AllocGlobal>(rt: &R, text: &[u8]) -> Result<(), Fail> {
    for workers in WORKERS {
        expect_same::<R, Uninit>(rt, text, workers)?;
        expect_same::<R, CopyConst>(rt, text, workers)?;
        expect_same::<R, ShiftConst>(rt, text, workers)?;
    }
    Ok(())
}

#[test]
fn workers_fill_worked_programs(rt: HostRuntime) -> Result<(), Fail> {
    for text in WORKED {
        expect_any(&rt, text.as_bytes())?;
    }
    Ok(())
}

#[test]
fn workers_fill_generated_programs(rt: HostRuntime) -> Result<(), Fail> {
    for seed in 0..32u64 {
        let text = generated::text(rt.alloc(), seed)?;
        expect_any(&rt, text.as_slice())?;
    }
    Ok(())
}

#[test]
fn each_number_of_workers_fills_two_calls(rt: HostRuntime) -> Result<(), Fail> {
    for workers in 1..65usize {
        expect_same::<HostRuntime, CopyConst>(&rt, TWO_CALLS.as_bytes(), workers)?;
    }
    Ok(())
}

/// Asserts that so many workers are refused, before the text is read.
fn expect_limit<R: Threads + Sync + Abort + AllocGlobal>(rt: &R, workers: usize) {
    match dump_shared::<R, CopyConst>(rt, rt.alloc(), b"no text", workers) {
        Ok(_) => panic!(rt; "{workers} workers"),
        Err(refused) => assert!(rt; refused == Refused::Limit, "{workers} workers"),
    }
}

#[test]
fn workers_have_a_limit(rt: HostRuntime) {
    expect_limit(&rt, 0);
    expect_limit(&rt, 65);
}
