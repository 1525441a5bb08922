//! What a store keeps: the same records, items and roots are there when its disks are opened again.
use crate::engine::{create, disk, expect_calls, given, open_after_crash};
use crate::versions::create_of;
use ide_disk::{Leave, MemDisk};
use ide_engines::{Given, Hand, begin, items_of, seal};
use ide_instances::{ConstFn, ConstValue, CopyConst, Uninit};
use ide_journal::Version;
use ide_lattice::EdgeFn;
use ide_problem::Problem;
use ide_slot_store::SlotEngine;
use ide_steps::Parted;
use ide_store::TableHalf;
use ide_values::ValuePhase;
use ide_wire::{Fact, Key, Node, Refused};
use ide_worked::{EMPTY, NUMBER, TWO_CALLS};
use std::alloc::{AllocGlobal, Global};
use std::process::Abort;

/// What a store has: how many records are stored, its items and its roots.
#[derive(Drop)]
pub(crate) struct Left<F: EdgeFn> {
    records: u64,
    items: Vec<(Key, F, bool)>,
    roots: Vec<usize>,
}

/// A copy of the roots.
fn roots_of<P: Problem>(alloc: Global, table: &TableHalf<P>) -> Result<Vec<usize>, Refused> {
    let roots = table.core().roots().to_vec(alloc)?;
    Ok(roots)
}

/// What the store has.
pub(crate) fn left_by<P: Problem>(
    rt: &(impl Abort + AllocGlobal),
    engine: &SlotEngine<P, MemDisk>,
) -> Left<P::F> {
    Left {
        records: engine.acked(),
        items: given(rt, items_of(&engine.table)),
        roots: given(rt, roots_of(rt.alloc(), &engine.table)),
    }
}

/// Asserts that the store has that.
pub(crate) fn expect_left<P: Problem>(
    rt: &impl Abort,
    engine: &SlotEngine<P, MemDisk>,
    left: &Left<P::F>,
) {
    assert!(rt; engine.acked() == left.records);
    assert!(rt; engine.table.sealed() == left.records);
    assert!(rt; engine.table.core().roots() == left.roots.as_slice());
    let items = given(rt, items_of(&engine.table));
    assert!(rt; items.as_slice() == left.items.as_slice());
}

/// Stores all that was sealed by so many disk calls, and gives what the store has then.
fn stored<P: Problem>(
    rt: &(impl Abort + AllocGlobal),
    engine: &mut SlotEngine<P, MemDisk>,
    calls: u64,
) -> Left<P::F> {
    expect_calls(rt, engine, calls);
    left_by(rt, engine)
}

/// The store as it is opened after a crash, which has that.
fn reopened<P: Problem>(
    rt: &(impl Abort + AllocGlobal),
    engine: SlotEngine<P, MemDisk>,
    left: &Left<P::F>,
) -> SlotEngine<P, MemDisk> {
    let again = open_after_crash(rt, engine, Leave::Old);
    expect_left(rt, &again, left);
    again
}

/// Stores all that was sealed, by so many disk calls, and asserts that the store as it is opened after a crash
/// has as many records, the same items and the same roots.
pub(crate) fn expect_kept<P: Problem>(
    rt: &(impl Abort + AllocGlobal),
    mut engine: SlotEngine<P, MemDisk>,
    calls: u64,
) -> SlotEngine<P, MemDisk> {
    let left = stored(rt, &mut engine, calls);
    reopened(rt, engine, &left)
}

/// Seals what changed behind a load and a root, and asserts that these three records are kept.
fn expect_three_kept<P: Problem>(
    rt: &(impl Abort + AllocGlobal),
    mut engine: SlotEngine<P, MemDisk>,
) -> SlotEngine<P, MemDisk> {
    assert!(rt; seal(&mut engine.table) == Ok(Some(2)));
    expect_kept(rt, engine, 12)
}

/// Asserts that a drain does the three tasks of an empty main.
fn drain_empty<P: Problem>(rt: &(impl Abort + AllocGlobal), table: &mut TableHalf<P>) {
    given(rt, begin(rt.alloc(), table, EMPTY));
    match table.drain() {
        Ok(tasks) => assert!(rt; tasks == 3),
        Err(refused) => panic!(rt; "{refused}"),
    }
}

// The records give back what a drain did.
#[test]
fn what_was_drained_is_kept(rt: HostRuntime) {
    let mut engine: SlotEngine<Uninit, MemDisk> = create(&rt);
    drain_empty(&rt, &mut engine.table);
    let again = expect_three_kept(&rt, engine);
    assert!(rt; again.table.core().is_quiet());
}

/// Runs the program with two calls.
fn run_two_calls<P: Problem>(rt: &(impl Abort + AllocGlobal), table: &mut TableHalf<P>) {
    given(rt, begin(rt.alloc(), table, TWO_CALLS));
    given(rt, Hand::new(0).drain(rt.alloc(), table));
}

// So they do of a program with two procedures.
#[test]
fn a_run_with_two_calls_is_kept(rt: HostRuntime) {
    let mut engine: SlotEngine<CopyConst, MemDisk> = create(&rt);
    run_two_calls(&rt, &mut engine.table);
    let again = expect_three_kept(&rt, engine);
    assert!(rt; again.acked() == 3);
}

/// Loads a program behind another of which a task is under way.
fn load_behind<P: Problem>(rt: &(impl Abort + AllocGlobal), table: &mut TableHalf<P>) {
    given(rt, begin(rt.alloc(), table, TWO_CALLS));
    let mut hand = Hand::new(0);
    assert!(rt; hand.claim(rt.alloc(), table) == Ok(Given::Task));
    assert!(rt; hand.part(table) == Ok(Parted::Lowered));
    given(rt, begin(rt.alloc(), table, EMPTY));
}

// The program that was loaded last is the store's.
#[test]
fn a_load_behind_another_is_kept(rt: HostRuntime) {
    let mut engine: SlotEngine<Uninit, MemDisk> = create(&rt);
    load_behind(&rt, &mut engine.table);
    let mut again = expect_kept(&rt, engine, 16);
    assert!(rt; Hand::new(0).drain(rt.alloc(), &mut again.table) == Ok(3));
}

/// Does two of the three parts of the first task of a main with one number.
fn do_two_parts<P: Problem>(rt: &(impl Abort + AllocGlobal), table: &mut TableHalf<P>) {
    given(rt, begin(rt.alloc(), table, NUMBER));
    let mut hand = Hand::new(0);
    assert!(rt; hand.claim(rt.alloc(), table) == Ok(Given::Task));
    assert!(rt; hand.part(table) == Ok(Parted::Lowered));
    assert!(rt; hand.part(table) == Ok(Parted::Lowered));
}

/// Asserts that the first task and what its two parts lowered are pending, that nothing else is there, and
/// that no hand has a claim.
fn expect_two_parts(rt: &impl Abort, table: &TableHalf<CopyConst>) {
    let expected = [
        (Key::Jump(0, 0, 0), ConstFn::Shift(0), true),
        (Key::Jump(1, 0, 0), ConstFn::Shift(0), true),
        (Key::Jump(1, 0, 1), ConstFn::Bottom, true),
    ];
    let items = given(rt, items_of(table));
    assert!(rt; items.as_slice() == expected.as_slice());
    assert!(rt; table.core().get(Key::Jump(1, 0, 2)) == None);
    assert!(rt; table.core().claim_of(0).is_none());
}

/// The value of the fact at the node, of an image in which all tasks are done.
fn value_at<P: Problem>(
    alloc: Global,
    table: &TableHalf<P>,
    node: Node,
    fact: Fact,
) -> Result<P::L, Refused> {
    let closed = table.freeze()?;
    let values = closed.values_alone(alloc)?;
    let value = values.at(node, fact)?;
    Ok(value)
}

/// Asserts that the variable is known behind all tasks.
fn expect_five(rt: &(impl Abort + AllocGlobal), table: &TableHalf<CopyConst>) {
    let value = given(rt, value_at(rt.alloc(), table, 2, 2));
    assert!(rt; value == ConstValue::Const(5));
}

/// Asserts that the run goes on with seven tasks from what its two parts left.
fn expect_seven_tasks(rt: &(impl Abort + AllocGlobal), table: &mut TableHalf<CopyConst>) {
    expect_two_parts(rt, table);
    assert!(rt; Hand::new(0).drain(rt.alloc(), table) == Ok(7));
    assert!(rt; seal(table) == Ok(Some(3)));
    expect_five(rt, table);
}

/// The store of that version as it is opened behind a crash in the middle of the first task.
fn stopped_in_a_task(
    rt: &(impl Abort + AllocGlobal),
    version: Version,
) -> SlotEngine<CopyConst, MemDisk> {
    let mut engine: SlotEngine<CopyConst, MemDisk> = create_of(rt, version, disk(rt), disk(rt));
    do_two_parts(rt, &mut engine.table);
    expect_three_kept(rt, engine)
}

/// Asserts that it goes on, and that what it does then is kept.
fn expect_goes_on(rt: &(impl Abort + AllocGlobal), version: Version) {
    let mut engine = stopped_in_a_task(rt, version);
    expect_seven_tasks(rt, &mut engine.table);
    let again = expect_kept(rt, engine, 4);
    expect_five(rt, &again.table);
}

// A store that crashed in the middle of a task goes on: the task is done again, and its part that was not.
#[test]
fn a_run_goes_on_behind_a_crash(rt: HostRuntime) {
    expect_goes_on(&rt, Version::One);
    expect_goes_on(&rt, Version::Two);
}
