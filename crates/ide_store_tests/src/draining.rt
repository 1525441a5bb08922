//! Draining: all that is left is done by one hand, and batches that are full are sealed on the way.
use crate::half::{add_locals, expect_sealed, given};
use ide_engines::{begin, items_of, load, root, seal};
use ide_instances::{CopyConst, ShiftConst, Uninit};
use ide_journal::Version;
use ide_problem::Problem;
use ide_steps::Claimed;
use ide_store::TableHalf;
use ide_wire::Refused;
use ide_worked::{EMPTY, RECURSION, TWO_CALLS};
use std::alloc::{AllocError, AllocGlobal};
use std::process::Abort;

/// How many locals and how many statements the wide procedure has.
const SIDE: usize = 300;

/// Drains, and answers how many tasks were claimed.
fn drain<P: Problem>(table: &mut TableHalf<P>) -> Result<u64, Refused> {
    let tasks = table.drain()?;
    Ok(tasks)
}

/// Drains up to so many keys, and answers how many.
fn drain_some<P: Problem>(table: &mut TableHalf<P>, most: usize) -> Result<usize, Refused> {
    let count = table.drain_some(most)?;
    Ok(count)
}

/// Adds so many statements that do nothing.
fn add_skips(text: &mut String, count: usize) -> Result<(), AllocError> {
    for _ in 0..count {
        text.push_str("skip\n")?;
    }
    Ok(())
}

/// Adds a `main` with so many locals and as many statements that do nothing.
fn add_square(text: &mut String, side: usize) -> Result<(), AllocError> {
    text.push_str("proc main\n")?;
    add_locals(text, side)?;
    add_skips(text, side)?;
    text.push_str("end\n")?;
    Ok(())
}

/// Asserts that a drain does the three tasks of an empty main, and that a second one does none: what they
/// changed is one record.
fn expect_three_tasks<P: Problem>(rt: &(impl Abort + AllocGlobal), table: &mut TableHalf<P>) {
    given(rt, begin(rt.alloc(), table, EMPTY));
    assert!(rt; drain(table) == Ok(3));
    assert!(rt; table.core().is_quiet());
    assert!(rt; drain(table) == Ok(0));
    assert!(rt; seal(table) == Ok(Some(2)));
    expect_sealed(rt, table, 3);
}

// It claims as many tasks as the same run in memory.
#[test]
fn drains_what_is_left(rt: HostRuntime) {
    let mut table: TableHalf<Uninit> = TableHalf::new(rt.alloc(), Version::Two);
    expect_three_tasks(&rt, &mut table);
}

/// Asserts that the three tasks of an empty main are done by drains of up to two, and that a drain of no task does none.
fn expect_two_and_one<P: Problem>(rt: &(impl Abort + AllocGlobal), table: &mut TableHalf<P>) {
    given(rt, begin(rt.alloc(), table, EMPTY));
    assert!(rt; drain_some(table, 0) == Ok(0));
    assert!(rt; drain_some(table, 2) == Ok(2));
    assert!(rt; !table.core().is_quiet());
    assert!(rt; drain_some(table, 2) == Ok(1));
    assert!(rt; table.core().is_quiet());
    assert!(rt; seal(table) == Ok(Some(2)));
}

// Drains of some tasks do those of one drain.
#[test]
fn drains_some_at_a_time(rt: HostRuntime) {
    let mut table: TableHalf<Uninit> = TableHalf::new(rt.alloc(), Version::Two);
    expect_two_and_one(&rt, &mut table);
}

/// Asserts that a root behind a drain is record 3, and that there is a drain behind it.
fn expect_root<P: Problem>(rt: &(impl Abort + AllocGlobal), table: &mut TableHalf<P>) {
    given(rt, begin(rt.alloc(), table, RECURSION));
    assert!(rt; drain(table).is_ok());
    assert!(rt; root(table, "rec") == Ok(3));
    assert!(rt; drain(table).is_ok());
}

// A root behind it seals what it did, under the number before its own.
#[test]
fn a_root_seals_what_was_drained(rt: HostRuntime) {
    let mut table: TableHalf<ShiftConst> = TableHalf::new(rt.alloc(), Version::One);
    expect_root(&rt, &mut table);
}

/// Asserts that a drain is refused for that reason.
fn expect_refused<P: Problem>(rt: &impl Abort, table: &mut TableHalf<P>, want: Refused) {
    assert!(rt; drain(table) == Err(want));
}

/// Claims a key for the hand of that number.
fn claims<P: Problem>(table: &mut TableHalf<P>, hand: usize) -> Result<bool, Refused> {
    match table.claim(hand)? {
        Claimed::Task(_) => Ok(true),
        _ => Ok(false),
    }
}

/// Asserts that a drain is refused while the hand of that number has a claim.
fn expect_refused_beside<P: Problem>(
    rt: &impl Abort,
    table: &mut TableHalf<P>,
    hand: usize,
    want: Refused,
) {
    assert!(rt; claims(table, hand) == Ok(true));
    expect_refused(rt, table, want);
    assert!(rt; drain_some(table, 1) == Err(want));
    assert!(rt; table.release(hand) == Ok(()));
}

/// Asserts when a drain is refused, and that it is not once no hand has a claim.
fn expect_no_claims<P: Problem>(rt: &(impl Abort + AllocGlobal), table: &mut TableHalf<P>) {
    expect_refused(rt, table, Refused::NoProgram);
    given(rt, begin(rt.alloc(), table, TWO_CALLS));
    expect_refused_beside(rt, table, 3, Refused::Unfinished);
    expect_refused_beside(rt, table, 0, Refused::Busy);
    assert!(rt; drain(table).is_ok());
}

// It is refused with no program, and where a hand has a claim.
#[test]
fn drains_with_no_claim_alone(rt: HostRuntime) {
    let mut table: TableHalf<CopyConst> = TableHalf::new(rt.alloc(), Version::Two);
    expect_no_claims(&rt, &mut table);
}

/// Asserts that a drain of the wide procedure seals one batch, and leaves another to be sealed.
fn expect_two_batches<P: Problem>(rt: &(impl Abort + AllocGlobal), table: &mut TableHalf<P>) {
    let mut text = String::new(rt.alloc());
    assert!(rt; add_square(&mut text, SIDE).is_ok());
    assert!(rt; load(rt.alloc(), table, text.as_str()) == Ok(0));
    assert!(rt; root(table, "main") == Ok(1));
    assert!(rt; drain(table).is_ok());
    assert!(rt; given(rt, items_of(table)).len() == 90_903);
    assert!(rt; seal(table) == Ok(Some(3)));
}

// Of a run of more keys than a batch may have, one batch is sealed on the way.
#[test]
fn a_full_batch_is_sealed_on_the_way(rt: HostRuntime) {
    let mut table: TableHalf<CopyConst> = TableHalf::new(rt.alloc(), Version::Two);
    expect_two_batches(&rt, &mut table);
}

/// Asserts that a drain of any number of keys of the wide procedure stops at a full batch, seals none, and goes on behind a
/// seal.
fn expect_stop_at_full<P: Problem>(rt: &(impl Abort + AllocGlobal), table: &mut TableHalf<P>) {
    let mut text = String::new(rt.alloc());
    assert!(rt; add_square(&mut text, SIDE).is_ok());
    assert!(rt; load(rt.alloc(), table, text.as_str()) == Ok(0));
    assert!(rt; root(table, "main") == Ok(1));
    assert!(rt; drain_some(table, usize::MAX) == Err(Refused::Limit));
    assert!(rt; table.sealed() == 2 && table.core().changed_count() == 65_536);
    assert!(rt; seal(table) == Ok(Some(2)));
    assert!(rt; drain_some(table, usize::MAX).is_ok());
    assert!(rt; table.core().is_quiet() && table.core().key_count() == 90_903);
    assert!(rt; seal(table) == Ok(Some(3)));
}

// A full batch is left to be sealed.
#[test]
fn a_full_batch_stops_a_drain_of_some(rt: HostRuntime) {
    let mut table: TableHalf<CopyConst> = TableHalf::new(rt.alloc(), Version::Two);
    expect_stop_at_full(&rt, &mut table);
}
