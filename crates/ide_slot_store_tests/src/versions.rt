//! Stores whose current slot is of the first version: they go on in it until a checkpoint.
use crate::checkpoints::{expect_begin, expect_stored};
use crate::engine::{create, engine_of, expect_step, given, open};
use crate::harms::overwrite;
use ide_disk::{Disk, MemDisk};
use ide_engines::{Hand, begin, seal, seal_empty_main};
use ide_instances::Uninit;
use ide_journal::Version;
use ide_problem::Problem;
use ide_slot_store::SlotEngine;
use ide_worked::EMPTY;
use std::alloc::AllocGlobal;
use std::process::Abort;

type Engine = SlotEngine<Uninit, MemDisk>;

/// Where a slot tells its version.
const VERSION: u64 = 7;
/// Where the third record of a slot tells the length of its body.
const THIRD_LENGTH: u64 = 12_298;

/// The length of a part of the three keys of an empty main, and the part, as the first version spells them, and the
/// zeros that stand in the place of the rest of what the second version spells.
const OLD_PART: [u8; 44] = [
    37, 0, 0, 0, //
    3, 0, 0, 0, //
    0, 0, 0, 0, 0, 0, 0, 0, 0, 1, 0, //
    0, 1, 0, 0, 0, 0, 0, 0, 0, 1, 0, //
    0, 1, 0, 0, 0, 0, 0, 1, 0, 1, 0, //
    0, 0, 0, //
];

/// Has the slot on the disk say that it is of the first version.
fn make_old(rt: &impl Abort, disk: &mut MemDisk) {
    overwrite(rt, disk, VERSION, b"1");
}

/// The new store, whose current slot is made to say that it is of the first version.
fn made_old<P: Problem>(
    rt: &(impl Abort + AllocGlobal),
    engine: SlotEngine<P, MemDisk>,
) -> SlotEngine<P, MemDisk> {
    let (mut a, b) = engine.into_disks();
    make_old(rt, &mut a);
    open(rt, a, b)
}

/// A new store of that version on these disks.
pub(crate) fn create_of<P: Problem>(
    rt: &(impl Abort + AllocGlobal),
    version: Version,
    a: MemDisk,
    b: MemDisk,
) -> SlotEngine<P, MemDisk> {
    let engine = engine_of(rt, SlotEngine::create(rt.alloc(), a, b));
    match version {
        Version::Two => engine,
        Version::One => made_old(rt, engine),
    }
}

/// Makes all disk calls that are left, and asserts how many these are.
fn expect_calls<P: Problem>(rt: &impl Abort, engine: &mut SlotEngine<P, MemDisk>, calls: usize) {
    for _ in 0..calls {
        expect_step(rt, engine, true);
    }
    expect_step(rt, engine, false);
}

/// The disks of a store of an empty main with a checkpoint.
fn checkpointed(rt: &(impl Abort + AllocGlobal)) -> (MemDisk, MemDisk) {
    let mut engine: Engine = create(rt);
    assert!(rt; seal_empty_main(rt.alloc(), &mut engine.table) == Ok(true));
    expect_begin(rt, &mut engine, true);
    expect_calls(rt, &mut engine, 22);
    engine.into_disks()
}

/// Asserts that the store is of that version and generation, with the three records of an empty main.
fn expect_empty_main(rt: &impl Abort, engine: &Engine, version: Version, generation: u32) {
    expect_stored(rt, engine, 3, generation);
    assert!(rt; engine.version() == version);
    assert!(rt; engine.table.core().is_quiet());
    assert!(rt; engine.table.core().key_count() == 3);
}

/// Asserts that a slot of the first version has a checkpoint that no record came behind, and another is of
/// the second.
fn expect_migrated(rt: &(impl Abort + AllocGlobal), engine: &mut Engine) {
    expect_empty_main(rt, engine, Version::One, 1);
    expect_begin(rt, engine, true);
    expect_calls(rt, engine, 10);
    expect_empty_main(rt, engine, Version::Two, 2);
    expect_begin(rt, engine, false);
}

#[test]
fn a_checkpoint_of_the_first_version_is_written_anew(rt: HostRuntime) {
    let (a, mut b) = checkpointed(&rt);
    make_old(&rt, &mut b);
    overwrite(&rt, &mut b, THIRD_LENGTH, &OLD_PART);
    let mut engine: Engine = open(&rt, a, b);
    expect_migrated(&rt, &mut engine);
    let (mut a, b) = engine.into_disks();
    assert!(rt; a.len() == Ok(16_385));
    let again: Engine = open(&rt, a, b);
    expect_empty_main(&rt, &again, Version::Two, 2);
}

/// The disks of a store that says that it is of the first version, with a program and a root.
fn begun(rt: &(impl Abort + AllocGlobal)) -> (MemDisk, MemDisk) {
    let mut engine: Engine = create(rt);
    given(rt, begin(rt.alloc(), &mut engine.table, EMPTY));
    expect_calls(rt, &mut engine, 8);
    let (mut a, b) = engine.into_disks();
    make_old(rt, &mut a);
    (a, b)
}

/// Does what is pending, and seals it as record 2.
fn expect_done<P: Problem>(rt: &(impl Abort + AllocGlobal), engine: &mut SlotEngine<P, MemDisk>) {
    given(rt, Hand::new(0).drain(rt.alloc(), &mut engine.table));
    assert!(rt; seal(&mut engine.table) == Ok(Some(2)));
}

/// Does what is pending, makes all disk calls that are left, and asserts how many these are, and of which version and
/// generation the store is as it is opened then.
fn expect_run_stored(
    rt: &(impl Abort + AllocGlobal),
    mut engine: Engine,
    calls: usize,
    version: Version,
    generation: u32,
) {
    expect_done(rt, &mut engine);
    expect_calls(rt, &mut engine, calls);
    let (a, b) = engine.into_disks();
    let again: Engine = open(rt, a, b);
    expect_empty_main(rt, &again, version, generation);
}

// What is sealed while a checkpoint is under way is stored in the slot that this turns to, as that spells it.
#[test]
fn records_behind_a_checkpoint_are_of_its_version(rt: HostRuntime) {
    let (a, b) = begun(&rt);
    let mut engine: Engine = open(&rt, a, b);
    assert!(rt; engine.version() == Version::One);
    expect_begin(&rt, &mut engine, true);
    expect_run_stored(&rt, engine, 14, Version::Two, 1);
}

// Without a checkpoint it goes on in its version.
#[test]
fn records_of_the_first_version_go_on_in_it(rt: HostRuntime) {
    let (a, b) = begun(&rt);
    let engine: Engine = open(&rt, a, b);
    expect_run_stored(&rt, engine, 4, Version::One, 0);
}

// A store of the first version with no program has nothing to write anew.
#[test]
fn an_empty_store_stays_of_the_first_version(rt: HostRuntime) {
    let engine: Engine = create(&rt);
    let (mut a, b) = engine.into_disks();
    make_old(&rt, &mut a);
    let mut again: Engine = open(&rt, a, b);
    expect_begin(&rt, &mut again, false);
    assert!(rt; again.version() == Version::One);
}
