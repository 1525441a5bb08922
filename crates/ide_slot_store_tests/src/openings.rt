//! Openings of disks that hold no store of the analysis, or a store that is damaged.
use crate::engine::{create, disk, expect_calls, given, open};
use crate::harms::{cut, overwrite};
use crate::versions::create_of;
use ide_disk::{Disk, MemDisk};
use ide_engines::seal_empty_main;
use ide_instances::{CopyConst, Uninit};
use ide_journal::{RawRecord, Version};
use ide_problem::Problem;
use ide_slot_store::{SlotEngine, SlotWriterHalf};
use ide_wire::Refused;
use std::alloc::{AllocGlobal, Global};
use std::process::Abort;

type Engine = SlotEngine<Uninit, MemDisk>;

/// The disks whose opening is refused so, as they come back.
fn expect_refused<P: Problem>(
    rt: &(impl Abort + AllocGlobal),
    disks: (MemDisk, MemDisk),
    expected: Refused,
) -> (MemDisk, MemDisk) {
    let (a, b) = disks;
    let opened: Result<SlotEngine<P, MemDisk>, (Refused, MemDisk, MemDisk)> = SlotEngine::open(
        rt.alloc(),
        a,
        b,
    );
    match opened {
        Ok(_) => panic!(rt; "it is opened"),
        Err((refused, a, b)) => {
            assert!(rt; refused == expected, "{refused}");
            (a, b)
        }
    }
}

/// Asserts that their opening is refused so.
fn expect_no_store(rt: &(impl Abort + AllocGlobal), disks: (MemDisk, MemDisk), expected: Refused) {
    let _ = expect_refused::<Uninit>(rt, disks, expected);
}

/// The disks of a store with no record, of that version.
fn empty_store(rt: &(impl Abort + AllocGlobal), version: Version) -> (MemDisk, MemDisk) {
    let engine: Engine = create_of(rt, version, disk(rt), disk(rt));
    engine.into_disks()
}

/// Seals the run of an empty main, and stores it.
fn store_run<P: Problem>(rt: &(impl Abort + AllocGlobal), engine: &mut SlotEngine<P, MemDisk>) {
    assert!(rt; seal_empty_main(rt.alloc(), &mut engine.table) == Ok(true));
    expect_calls(rt, engine, 12);
}

/// The disks of a store with the run of an empty main, which is three records.
fn stored_run(rt: &(impl Abort + AllocGlobal)) -> (MemDisk, MemDisk) {
    let mut engine: Engine = create(rt);
    store_run(rt, &mut engine);
    engine.into_disks()
}

/// Asserts that the disks have that run.
fn expect_run(rt: &(impl Abort + AllocGlobal), disks: (MemDisk, MemDisk)) {
    let (a, b) = disks;
    let engine: Engine = open(rt, a, b);
    assert!(rt; engine.acked() == 3);
    assert!(rt; engine.table.core().key_count() == 3);
    assert!(rt; engine.table.core().is_quiet());
}

// A store of one analysis is refused to another, and its disks come back with all that they had.
#[test]
fn a_store_is_refused_to_another_analysis(rt: HostRuntime) {
    let disks = stored_run(&rt);
    let disks = expect_refused::<CopyConst>(&rt, disks, Refused::WrongInstance);
    expect_run(&rt, disks);
}

/// So many bytes, all the same.
fn bytes_of(alloc: Global, count: usize, byte: u8) -> Result<Vec<u8>, Refused> {
    let mut bytes = Vec::new(alloc);
    bytes.resize(count, byte)?;
    Ok(bytes)
}

/// A disk with so many bytes, all the same.
fn full_disk(rt: &(impl Abort + AllocGlobal), count: usize, byte: u8) -> MemDisk {
    let mut disk = disk(rt);
    let bytes = given(rt, bytes_of(rt.alloc(), count, byte));
    assert!(rt; disk.write(0, bytes.as_slice()).is_ok());
    disk
}

/// Asserts that two disks with so many bytes are no store, nor is one of them beside a slot with no record.
fn expect_no_slot(rt: &(impl Abort + AllocGlobal), count: usize, byte: u8) {
    let other = full_disk(rt, count, byte);
    expect_no_store(rt, (full_disk(rt, count, byte), other), Refused::NotAStore);
    let (_, b) = empty_store(rt, Version::Two);
    expect_no_store(rt, (full_disk(rt, count, byte), b), Refused::NotAStore);
}

/// Asserts that no bytes, a page of them and one byte more are no store.
fn expect_no_slots(rt: &(impl Abort + AllocGlobal), byte: u8) {
    expect_no_slot(rt, 0, byte);
    expect_no_slot(rt, 4096, byte);
    expect_no_slot(rt, 4097, byte);
}

/// Asserts that a run on A is no store beside a disk with so many bytes.
fn expect_not_beside(rt: &(impl Abort + AllocGlobal), count: usize, byte: u8) {
    let (a, _) = stored_run(rt);
    expect_no_store(rt, (a, full_disk(rt, count, byte)), Refused::NotAStore);
}

// Files of one page are no store, also where a store's first page stands in them; nor are such with no header.
#[test]
fn other_files_are_refused(rt: HostRuntime) {
    expect_no_slots(&rt, 0);
    expect_no_slots(&rt, 0x49);
    expect_no_slots(&rt, 0xff);
    let (mut a, b) = stored_run(&rt);
    cut(&rt, &mut a, 4096);
    expect_no_store(&rt, (a, b), Refused::NotAStore);
}

// Nor is a run beside such a file. Of the other file, where its gate is closed, no more is read.
#[test]
fn a_run_beside_another_file_is_refused(rt: HostRuntime) {
    expect_not_beside(&rt, 0, 0);
    expect_not_beside(&rt, 4096, 0x49);
    expect_not_beside(&rt, 4097, 0x49);
    let (a, _) = stored_run(&rt);
    expect_run(&rt, (a, full_disk(&rt, 4097, 0)));
}

/// Asserts that the gate of an empty store of that version may not be open.
fn expect_open_gate(rt: &(impl Abort + AllocGlobal), version: Version) {
    let (mut a, b) = empty_store(rt, version);
    overwrite(rt, &mut a, 4096, &[1]);
    expect_no_store(rt, (a, b), Refused::Damaged(0));
}

// A gate that is open at the end of the file has no record behind it, in either version.
#[test]
fn an_open_gate_at_the_end_is_refused(rt: HostRuntime) {
    expect_open_gate(&rt, Version::One);
    expect_open_gate(&rt, Version::Two);
}

/// A copy of the bytes.
fn copy_of(alloc: Global, bytes: &[u8]) -> Result<Vec<u8>, Refused> {
    let copy = bytes.to_vec(alloc)?;
    Ok(copy)
}

/// Stores a record of that kind and body.
fn store_record(
    rt: &(impl Abort + AllocGlobal),
    writer: &mut SlotWriterHalf<MemDisk>,
    kind: u8,
    body: &[u8],
) {
    assert!(rt; kind >= 1 && kind <= 3);
    let body = given(rt, copy_of(rt.alloc(), body));
    assert!(rt; body.len() <= 4_194_304);
    given(rt, writer.seal(RawRecord { kind, body }));
    for call in 1..5 {
        assert!(rt; writer.disk_step() == Ok(true), "call {call}");
    }
    assert!(rt; writer.disk_step() == Ok(false));
}

/// The disks with one record more, of that kind and body.
fn with_record(
    rt: &(impl Abort + AllocGlobal),
    disks: (MemDisk, MemDisk),
    kind: u8,
    body: &[u8],
) -> (MemDisk, MemDisk) {
    let (a, b) = disks;
    match SlotWriterHalf::open(rt.alloc(), a, b, 1) {
        Ok((mut writer, _)) => {
            store_record(rt, &mut writer, kind, body);
            writer.into_disks()
        }
        Err((refused, _, _)) => panic!(rt; "{refused}"),
    }
}

/// Asserts that a record of that kind and body is whole, but does not apply behind the run of an empty main.
fn expect_damaged(rt: &(impl Abort + AllocGlobal), kind: u8, body: &[u8]) {
    let disks = with_record(rt, stored_run(rt), kind, body);
    expect_no_store(rt, disks, Refused::Damaged(3));
}

// A record that is whole and does not apply is named: a text with a fault, a root that is one already or is
// none, a batch that spells no items or a key that is not there, and a root of no program.
#[test]
fn records_that_do_not_apply_are_refused(rt: HostRuntime) {
    expect_damaged(&rt, 1, b"proc main\n");
    expect_damaged(&rt, 2, b"main");
    expect_damaged(&rt, 2, b"none");
    expect_damaged(&rt, 3, b"");
    expect_damaged(
        &rt,
        3,
        &[1, 0, 0, 0, 0, 2, 0, 0, 0, 1, 0, 0, 0, 0, 0, 0, 0, 1, 0],
    );
    let disks = with_record(&rt, empty_store(&rt, Version::Two), 2, b"main");
    expect_no_store(&rt, disks, Refused::Damaged(0));
}

/// Asserts that the disks have a fourth record, which makes one of three keys pending.
fn expect_fourth(rt: &(impl Abort + AllocGlobal), disks: (MemDisk, MemDisk)) {
    let (a, b) = disks;
    let engine: Engine = open(rt, a, b);
    assert!(rt; engine.acked() == 4);
    assert!(rt; engine.table.core().key_count() == 3);
    assert!(rt; !engine.table.core().is_quiet());
}

// A record that does apply is taken: the same batch with a key that is there.
#[test]
fn records_that_apply_are_taken(rt: HostRuntime) {
    let body = [1, 0, 0, 0, 0, 1, 0, 0, 0, 1, 0, 0, 0, 0, 0, 0, 0, 1, 1];
    let disks = with_record(&rt, stored_run(&rt), 3, &body);
    expect_fourth(&rt, disks);
}
