//! A gate whose write fails: all work stops.
use crate::engine::{create_on, disk, expect_some_calls, given, open_after_crash};
use crate::stops::{go_on, leaves_gate};
use ide_disk::{Leave, MemDisk};
use ide_engines::{Given, Hand, begin, load, root, seal};
use ide_instances::CopyConst;
use ide_problem::Problem;
use ide_slot_store::SlotEngine;
use ide_steps::Parted;
use ide_store::TableHalf;
use ide_wire::Refused;
use ide_worked::{EMPTY, NUMBER};
use std::alloc::AllocGlobal;
use std::process::Abort;

type Engine = SlotEngine<CopyConst, MemDisk>;

/// A disk that fails, in its call of that number, the write of the second gate. Three calls make a slot, and four
/// store the first record.
fn failing_disk(rt: &(impl Abort + AllocGlobal)) -> MemDisk {
    let mut disk = disk(rt);
    disk.fail_at(10);
    disk
}

/// Seals a load and a root, and does a part with a hand.
fn begin_work<P: Problem>(
    rt: &(impl Abort + AllocGlobal),
    table: &mut TableHalf<P>,
    hand: &mut Hand<P>,
) {
    given(rt, begin(rt.alloc(), table, NUMBER));
    assert!(rt; hand.claim(rt.alloc(), table) == Ok(Given::Task));
    assert!(rt; hand.part(table) == Ok(Parted::Lowered));
}

/// Asserts that the write of the second gate fails, and that each disk call is refused from then on.
fn expect_failed_write<P: Problem>(rt: &impl Abort, engine: &mut SlotEngine<P, MemDisk>) {
    expect_some_calls(rt, engine, 6);
    assert!(rt; engine.disk_step() == Err(Refused::Disk));
    assert!(rt; engine.disk_step() == Err(Refused::Failed));
    assert!(rt; engine.writer.disk_step() == Err(Refused::Failed));
}

/// Asserts that each call of the half that works is refused, and that its image is as it was.
fn expect_no_work<P: Problem>(
    rt: &(impl Abort + AllocGlobal),
    table: &mut TableHalf<P>,
    hand: &mut Hand<P>,
) {
    let mut other = Hand::new(1);
    assert!(rt; other.claim(rt.alloc(), table) == Err(Refused::Failed));
    assert!(rt; hand.part(table) == Err(Refused::Failed));
    assert!(rt; hand.finish(table) == Err(Refused::Failed));
    assert!(rt; hand.release(table) == Err(Refused::Failed));
    assert!(rt; seal(table) == Err(Refused::Failed));
    assert!(rt; load(rt.alloc(), table, EMPTY) == Err(Refused::Failed));
    assert!(rt; root(table, "main") == Err(Refused::Failed));
    assert!(rt; table.core().key_count() == 2);
    assert!(rt; table.core().claim_of(0).is_some());
    assert!(rt; table.core().claim_of(1).is_none());
}

/// Asserts that the write of the second gate stops both halves, with a part done that is not sealed.
fn expect_failure<P: Problem>(
    rt: &(impl Abort + AllocGlobal),
    engine: &mut SlotEngine<P, MemDisk>,
) {
    let mut hand = Hand::new(0);
    begin_work(rt, &mut engine.table, &mut hand);
    expect_failed_write(rt, engine);
    expect_no_work(rt, &mut engine.table, &mut hand);
    assert!(rt; engine.disk_step() == Err(Refused::Failed));
    assert!(rt; engine.acked() == 1);
}

/// The store behind it.
fn failed(rt: &(impl Abort + AllocGlobal)) -> Engine {
    let mut engine: Engine = create_on(rt, failing_disk(rt));
    expect_failure(rt, &mut engine);
    engine
}

/// Asserts that the store has the first record, and the second where its gate was left, and works again.
fn expect_works_again(
    rt: &(impl Abort + AllocGlobal),
    engine: &mut SlotEngine<CopyConst, MemDisk>,
    leave: Leave,
) {
    assert!(rt;
        engine.acked() == if leaves_gate(leave) { 2 } else { 1 },
        "{leave:?}"
    );
    go_on(rt, &mut engine.table);
    assert!(rt; engine.table.core().key_count() == 7);
}

/// Asserts what a crash of that kind leaves behind it.
fn expect_left_by_failure(rt: &(impl Abort + AllocGlobal), leave: Leave) {
    let mut again = open_after_crash(rt, failed(rt), leave);
    expect_works_again(rt, &mut again, leave);
}

// A gate whose write failed stops all work: nothing is done or answered from then on but by an opening.
#[test]
fn a_failed_call_stops_both_halves(rt: HostRuntime) {
    expect_left_by_failure(&rt, Leave::Old);
    expect_left_by_failure(&rt, Leave::New);
    expect_left_by_failure(&rt, Leave::Half);
    expect_left_by_failure(&rt, Leave::Fill(0));
    expect_left_by_failure(&rt, Leave::Fill(7));
}
