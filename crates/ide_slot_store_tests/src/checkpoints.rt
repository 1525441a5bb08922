//! Checkpoints of a store on two disks.
use crate::engine::{create, expect_calls, expect_step, open, open_after_crash};
use ide_disk::{Disk, Leave, MemDisk};
use ide_engines::{load, seal_empty_main};
use ide_instances::Uninit;
use ide_problem::Problem;
use ide_slot_store::SlotEngine;
use ide_worked::EMPTY;
use std::alloc::AllocGlobal;
use std::process::Abort;

/// Asserts whether a checkpoint begins.
pub(crate) fn expect_begin<P: Problem>(
    rt: &(impl Abort + AllocGlobal),
    engine: &mut SlotEngine<P, MemDisk>,
    begins: bool,
) {
    assert!(rt;
        engine.checkpoint(rt.alloc()) == Ok(begins),
        "{} records",
        engine.acked()
    );
}

/// Asserts that so many records are stored, in a slot of that generation.
pub(crate) fn expect_stored<P: Problem>(
    rt: &impl Abort,
    engine: &SlotEngine<P, MemDisk>,
    records: u64,
    generation: u32,
) {
    assert!(rt; engine.acked() == records);
    assert!(rt; engine.generation() == generation);
}

/// Makes a checkpoint of three records, and asserts that it takes ten disk calls, between which no other
/// begins.
pub(crate) fn expect_ten_calls<P: Problem>(
    rt: &(impl Abort + AllocGlobal),
    engine: &mut SlotEngine<P, MemDisk>,
) {
    expect_begin(rt, engine, true);
    for _ in 0..10 {
        expect_begin(rt, engine, false);
        expect_stored(rt, engine, 3, 0);
        expect_step(rt, engine, true);
    }
    expect_step(rt, engine, false);
    expect_stored(rt, engine, 3, 1);
}

/// Asserts that a store with no program has nothing to make a checkpoint of, one of three records takes
/// ten calls, and there is no other until one record more is sealed.
fn expect_checkpoint<P: Problem>(
    rt: &(impl Abort + AllocGlobal),
    engine: &mut SlotEngine<P, MemDisk>,
) {
    expect_begin(rt, engine, false);
    assert!(rt; seal_empty_main(rt.alloc(), &mut engine.table) == Ok(true));
    expect_calls(rt, engine, 12);
    expect_ten_calls(rt, engine);
    expect_begin(rt, engine, false);
}

/// The disks of the store, of which the second has so many bytes.
fn expect_length(
    rt: &impl Abort,
    engine: SlotEngine<Uninit, MemDisk>,
    bytes: u64,
) -> (MemDisk, MemDisk) {
    let (a, mut b) = engine.into_disks();
    assert!(rt; b.len() == Ok(bytes));
    (a, b)
}

/// Asserts that the store goes on behind its checkpoint: a load is record 3, which four calls store.
fn expect_load<P: Problem>(rt: &(impl Abort + AllocGlobal), engine: &mut SlotEngine<P, MemDisk>) {
    expect_stored(rt, engine, 3, 1);
    assert!(rt; engine.table.core().is_quiet());
    assert!(rt; load(rt.alloc(), &mut engine.table, EMPTY) == Ok(3));
    for _ in 0..4 {
        expect_step(rt, engine, true);
    }
    expect_stored(rt, engine, 4, 1);
}

#[test]
fn a_checkpoint_takes_ten_calls(rt: HostRuntime) {
    let mut engine: SlotEngine<Uninit, MemDisk> = create(&rt);
    expect_checkpoint(&rt, &mut engine);
    let (a, b) = expect_length(&rt, engine, 16_385);
    let mut again: SlotEngine<Uninit, MemDisk> = open(&rt, a, b);
    expect_load(&rt, &mut again);
    let _ = expect_length(&rt, again, 20_481);
}

/// Asserts that records which wait are stored before the calls of a checkpoint that stands for them.
fn expect_waiting_first<P: Problem>(
    rt: &(impl Abort + AllocGlobal),
    engine: &mut SlotEngine<P, MemDisk>,
) {
    assert!(rt; seal_empty_main(rt.alloc(), &mut engine.table) == Ok(true));
    expect_step(rt, engine, true);
    expect_begin(rt, engine, true);
    for _ in 0..11 {
        expect_step(rt, engine, true);
    }
    expect_stored(rt, engine, 3, 0);
    for _ in 0..10 {
        expect_step(rt, engine, true);
    }
    expect_step(rt, engine, false);
    assert!(rt; engine.writer.base() == 3);
}

#[test]
fn a_checkpoint_stands_for_records_that_wait(rt: HostRuntime) {
    let mut engine: SlotEngine<Uninit, MemDisk> = create(&rt);
    expect_waiting_first(&rt, &mut engine);
    let again = open_after_crash(&rt, engine, Leave::Old);
    expect_stored(&rt, &again, 3, 1);
}
