//! Images in parts, of which checkpoints are made.
use crate::engine::{create, given};
use ide_disk::MemDisk;
use ide_engines::seal_empty_main;
use ide_instances::Uninit;
use ide_problem::Problem;
use ide_slot_store::{SlotEngine, image_parts};
use ide_store::TableHalf;
use std::process::Abort;

/// The body of a batch of the three keys of an empty main, in two groups: of node 0 and of node 1.
const EMPTY_MAIN: [u8; 40] = [
    2, 0, 0, 0, //
    0, 0, 0, 0, 0, 1, 0, 0, 0, //
    0, 0, 0, 0, 1, 0, //
    0, 1, 0, 0, 0, 2, 0, 0, 0, //
    0, 0, 0, 0, 1, 0, //
    0, 0, 1, 0, 1, 0, //
];

/// Asserts that the image has so many parts, all of that kind of record, with that body.
fn expect_parts<P: Problem>(
    rt: &(impl Abort + AllocGlobal),
    table: &TableHalf<P>,
    count: usize,
    body: &[u8],
) {
    let parts = given(rt, image_parts(rt.alloc(), table));
    assert!(rt; parts.len() == count);
    for part in parts.iter() {
        assert!(rt; part.kind == 4);
        assert!(rt; part.body.as_slice() == body);
    }
}

/// Asserts that with no program there is no part, and that a few keys are one.
fn expect_few<P: Problem>(rt: &(impl Abort + AllocGlobal), table: &mut TableHalf<P>) {
    expect_parts(rt, table, 0, &[]);
    assert!(rt; seal_empty_main(rt.alloc(), table) == Ok(true));
    expect_parts(rt, table, 1, &EMPTY_MAIN);
}

#[test]
fn a_few_keys_are_one_part(rt: HostRuntime) {
    let mut engine: SlotEngine<Uninit, MemDisk> = create(&rt);
    expect_few(&rt, &mut engine.table);
}
