//! Stores on one disk that are adopted.
//!
//! No engine makes one any more. The slot on A of a new store on two disks, of generation 0, has byte for byte
//! the form of a store on one disk, in either version: so a store is made, and its disk A is taken alone, with
//! a fresh disk beside it. A journal on one disk reads it.
use crate::checkpoints::{expect_begin, expect_stored, expect_ten_calls};
use crate::engine::{disk, engine_of, expect_calls, open};
use crate::versions::create_of;
use ide_disk::{Disk, MemDisk};
use ide_engines::seal_empty_main;
use ide_instances::Uninit;
use ide_journal::{Journal, Version};
use ide_problem::Problem;
use ide_slot_store::SlotEngine;
use ide_wire::Refused;
use std::alloc::AllocGlobal;
use std::process::Abort;

/// The disk of a journal on one disk of that version, in which three records are.
fn expect_journal(rt: &(impl Abort + AllocGlobal), version: Version, disk: MemDisk) -> MemDisk {
    match Journal::open(rt.alloc(), disk, 1) {
        Ok((journal, records)) => {
            assert!(rt; records.len() == 3);
            assert!(rt; journal.version() == version);
            journal.into_disk()
        }
        Err((refused, _)) => panic!(rt; "{refused}"),
    }
}

/// Seals the run of an empty main, three records, and stores it.
fn store_empty_main<P: Problem>(
    rt: &(impl Abort + AllocGlobal),
    engine: &mut SlotEngine<P, MemDisk>,
) {
    assert!(rt; seal_empty_main(rt.alloc(), &mut engine.table) == Ok(true));
    expect_calls(rt, engine, 12);
}

/// The disk of a store of that version with the run of an empty main.
fn expect_one_disk(rt: &(impl Abort + AllocGlobal), version: Version) -> MemDisk {
    let mut engine: SlotEngine<Uninit, MemDisk> = create_of(rt, version, disk(rt), disk(rt));
    store_empty_main(rt, &mut engine);
    let (mut a, _) = engine.into_disks();
    assert!(rt; a.len() == Ok(16_385));
    expect_journal(rt, version, a)
}

/// The store of an empty main, adopted: its three records are acknowledged.
fn expect_adopted(
    rt: &(impl Abort + AllocGlobal),
    version: Version,
) -> SlotEngine<Uninit, MemDisk> {
    let a = expect_one_disk(rt, version);
    let engine = engine_of(rt, SlotEngine::adopt(rt.alloc(), a, disk(rt)));
    expect_stored(rt, &engine, 3, 0);
    assert!(rt; engine.version() == version);
    assert!(rt; engine.table.core().is_quiet());
    engine
}

/// Asserts that a checkpoint of it takes ten calls, and is of the second version.
fn expect_checkpoint<P: Problem>(
    rt: &(impl Abort + AllocGlobal),
    engine: &mut SlotEngine<P, MemDisk>,
) {
    expect_ten_calls(rt, engine);
    assert!(rt; engine.version() == Version::Two);
    expect_begin(rt, engine, false);
}

#[test]
fn a_store_on_one_disk_goes_on_on_two(rt: HostRuntime) {
    let mut engine = expect_adopted(&rt, Version::Two);
    expect_checkpoint(&rt, &mut engine);
}

// It goes on in the first version until its first checkpoint, which has the same image.
#[test]
fn a_store_of_the_first_version_goes_on_on_two(rt: HostRuntime) {
    let mut engine = expect_adopted(&rt, Version::One);
    let keys = engine.table.core().key_count();
    expect_checkpoint(&rt, &mut engine);
    let (a, b) = engine.into_disks();
    let again: SlotEngine<Uninit, MemDisk> = open(&rt, a, b);
    expect_stored(&rt, &again, 3, 1);
    assert!(rt; again.table.core().key_count() == keys);
}

// What B holds is not lost: a checkpoint there is told, and the store is as it was.
#[test]
fn a_store_with_a_checkpoint_is_not_adopted(rt: HostRuntime) {
    let mut engine = expect_adopted(&rt, Version::Two);
    expect_checkpoint(&rt, &mut engine);
    let (a, b) = engine.into_disks();
    let adopted: Result<SlotEngine<Uninit, MemDisk>, _> = SlotEngine::adopt(rt.alloc(), a, b);
    match adopted {
        Ok(_) => panic!(rt; "it is adopted again"),
        Err((refused, a, b)) => {
            assert!(rt; refused == Refused::Already);
            let again: SlotEngine<Uninit, MemDisk> = open(&rt, a, b);
            expect_stored(&rt, &again, 3, 1);
        }
    }
}
