//! Runs of a store on two disks in memory. A test ends where a call is refused that is not to be.
use crate::kept::{expect_kept, expect_left, left_by};
use crate::versions::create_of;
use ide_disk::{Disk, Leave, MemDisk};
use ide_engines::{Hand, begin, root, seal, seal_empty_main};
use ide_instances::{ShiftConst, Uninit};
use ide_journal::Version;
use ide_problem::Problem;
use ide_slot_store::SlotEngine;
use ide_wire::Refused;
use ide_worked::RECURSION;
use std::alloc::AllocGlobal;
use std::process::Abort;

/// What a call gave that is not to be refused.
pub(crate) fn given<T>(rt: &impl Abort, found: Result<T, Refused>) -> T {
    found.expect(rt, "this is not to be refused")
}

/// A new disk.
pub(crate) fn disk(rt: &(impl Abort + AllocGlobal)) -> MemDisk {
    match MemDisk::new(rt.alloc(), 40_000, 80_000) {
        Ok(disk) => disk,
        Err(_) => panic!(rt; "no memory"),
    }
}

/// A store that was made or opened, where that is not to be refused.
pub(crate) fn engine_of<P: Problem>(
    rt: &impl Abort,
    found: Result<SlotEngine<P, MemDisk>, (Refused, MemDisk, MemDisk)>,
) -> SlotEngine<P, MemDisk> {
    match found {
        Ok(engine) => engine,
        Err((refused, _, _)) => panic!(rt; "{refused}"),
    }
}

/// A new store on a disk, and on one beside it.
pub(crate) fn create_on<P: Problem>(
    rt: &(impl Abort + AllocGlobal),
    a: MemDisk,
) -> SlotEngine<P, MemDisk> {
    engine_of(rt, SlotEngine::create(rt.alloc(), a, disk(rt)))
}

/// A new store.
pub(crate) fn create<P: Problem>(rt: &(impl Abort + AllocGlobal)) -> SlotEngine<P, MemDisk> {
    create_on(rt, disk(rt))
}

/// The store that the disks hold.
pub(crate) fn open<P: Problem>(
    rt: &(impl Abort + AllocGlobal),
    a: MemDisk,
    b: MemDisk,
) -> SlotEngine<P, MemDisk> {
    engine_of(rt, SlotEngine::open(rt.alloc(), a, b))
}

/// The disks of a store, after a crash of that kind of both.
pub(crate) fn crashed<P: Problem>(
    engine: SlotEngine<P, MemDisk>,
    leave: Leave,
) -> (MemDisk, MemDisk) {
    let (mut a, mut b) = engine.into_disks();
    a.crash(leave);
    b.crash(leave);
    (a, b)
}

/// The store as it is opened after a crash of that kind.
pub(crate) fn open_after_crash<P: Problem>(
    rt: &(impl Abort + AllocGlobal),
    engine: SlotEngine<P, MemDisk>,
    leave: Leave,
) -> SlotEngine<P, MemDisk> {
    let (a, b) = crashed(engine, leave);
    open(rt, a, b)
}

/// Asserts what the next disk call answers.
pub(crate) fn expect_step<P: Problem>(
    rt: &impl Abort,
    engine: &mut SlotEngine<P, MemDisk>,
    called: bool,
) {
    assert!(rt;
        engine.disk_step() == Ok(called),
        "{} records",
        engine.acked()
    );
}

/// Asserts that so many disk calls are made, of which every fourth stores a record.
pub(crate) fn expect_some_calls<P: Problem>(
    rt: &impl Abort,
    engine: &mut SlotEngine<P, MemDisk>,
    calls: u64,
) {
    let before = engine.acked();
    for number in 0..calls {
        assert!(rt;
            engine.acked() == before.saturating_add(number / 4),
            "call {number}"
        );
        expect_step(rt, engine, true);
    }
    assert!(rt; engine.acked() == before.saturating_add(calls / 4));
}

/// Asserts that so many disk calls store all that was sealed.
pub(crate) fn expect_calls<P: Problem>(
    rt: &impl Abort,
    engine: &mut SlotEngine<P, MemDisk>,
    calls: u64,
) {
    expect_some_calls(rt, engine, calls);
    expect_step(rt, engine, false);
}

/// Asserts that a new store of that version has nothing to store, and seals the run of an empty main.
fn seal_first<P: Problem>(
    rt: &(impl Abort + AllocGlobal),
    engine: &mut SlotEngine<P, MemDisk>,
    version: Version,
) {
    expect_step(rt, engine, false);
    assert!(rt; engine.version() == version);
    assert!(rt; seal_empty_main(rt.alloc(), &mut engine.table) == Ok(true));
}

/// Asserts that a store of that version stands where the run of an empty main ended.
fn expect_end<P: Problem>(rt: &impl Abort, engine: &SlotEngine<P, MemDisk>, version: Version) {
    assert!(rt; engine.acked() == 3);
    assert!(rt; engine.generation() == 0);
    assert!(rt; engine.version() == version);
    assert!(rt; engine.table.sealed() == 3);
    assert!(rt; engine.table.core().is_quiet());
}

/// Asserts that the store's three records are three pages behind the first, and that B is of its first page.
fn expect_pages(rt: &impl Abort, engine: SlotEngine<Uninit, MemDisk>) {
    let (mut a, mut b) = engine.into_disks();
    assert!(rt; a.len() == Ok(16_385));
    assert!(rt; b.len() == Ok(4_097));
}

/// The run of an empty main in a store of that version, stored by twelve disk calls, and opened after a crash.
fn twelve_calls(rt: &(impl Abort + AllocGlobal), version: Version) -> SlotEngine<Uninit, MemDisk> {
    let mut engine: SlotEngine<Uninit, MemDisk> = create_of(rt, version, disk(rt), disk(rt));
    seal_first(rt, &mut engine, version);
    expect_kept(rt, engine, 12)
}

/// Asserts what is there then.
fn expect_twelve_calls(rt: &(impl Abort + AllocGlobal), version: Version) {
    let again = twelve_calls(rt, version);
    expect_end(rt, &again, version);
    expect_pages(rt, again);
}

// Three records take twelve disk calls and as many pages, and are there after a crash, in each version.
#[test]
fn a_run_of_three_records_takes_twelve_calls(rt: HostRuntime) {
    expect_twelve_calls(&rt, Version::Two);
    expect_twelve_calls(&rt, Version::One);
}

/// Seals what becomes of a recursive program, whose other procedure is made a root at the end, and asserts
/// that it is stored as four records.
fn store_recursion<P: Problem>(
    rt: &(impl Abort + AllocGlobal),
    engine: &mut SlotEngine<P, MemDisk>,
) {
    given(rt, begin(rt.alloc(), &mut engine.table, RECURSION));
    given(rt, Hand::new(0).drain(rt.alloc(), &mut engine.table));
    assert!(rt; root(&mut engine.table, "rec") == Ok(3));
    assert!(rt; seal(&mut engine.table) == Ok(None));
    expect_calls(rt, engine, 16);
    assert!(rt; engine.table.core().roots() == [1, 0].as_slice());
}

/// Asserts that the image of a run is given back after a crash of that kind.
fn expect_image_back(rt: &(impl Abort + AllocGlobal), leave: Leave) {
    let mut engine: SlotEngine<ShiftConst, MemDisk> = create(rt);
    store_recursion(rt, &mut engine);
    let left = left_by(rt, &engine);
    let again = open_after_crash(rt, engine, leave);
    expect_left(rt, &again, &left);
}

// An image with its functions, pending keys and roots is given back by the records after both kinds of crashes.
#[test]
fn an_opening_gives_the_image_back(rt: HostRuntime) {
    expect_image_back(&rt, Leave::Old);
    expect_image_back(&rt, Leave::New);
}
