//! Batches of worked programs: their bodies, and what these give back.
use super::records::{Run, begin_noted, do_first_parts, replay};
use super::tables::drain;
use ide_batch::{Record, to_raw};
use ide_instances::{ConstFn, CopyConst, Uninit, UninitFn};
use ide_journal::Version;
use ide_lattice::EdgeFn;
use ide_problem::Problem;
use ide_steps::Core;
use ide_wire::{Key, Wire};
use ide_worked::{EMPTY, NUMBER};
use std::alloc::{AllocError, Global};
use std::process::Abort;

/// What changes after an empty main is a root: each of its keys is done.
const EMPTY_MAIN: [u8; 37] = [
    3, 0, 0, 0, //
    0, 0, 0, 0, 0, 0, 0, 0, 0, 1, 0, //
    0, 1, 0, 0, 0, 0, 0, 0, 0, 1, 0, //
    0, 1, 0, 0, 0, 0, 0, 1, 0, 1, 0, //
];

/// The run of an empty main, whose tasks are all done.
const EMPTY_RUN: Run = Run {
    text: EMPTY,
    body: &EMPTY_MAIN,
    version: Version::One,
};

/// What two of the three parts of the first task change in a main with one number.
pub(crate) const TWO_PARTS: [u8; 34] = [
    2, 0, 0, 0, //
    0, 1, 0, 0, 0, 0, 0, 0, 0, 1, 0, 0, 0, 0, 0, 0, 0, 0, 1, //
    0, 1, 0, 0, 0, 0, 0, 1, 0, 4, 1, //
];

/// The run of a main with one number up to these two parts.
const NUMBER_RUN: Run = Run {
    text: NUMBER,
    body: &TWO_PARTS,
    version: Version::One,
};

/// The batch of an empty main.
pub(crate) fn empty_main(alloc: Global) -> Result<Record<UninitFn>, AllocError> {
    let items = Vec::from_array(
        alloc,
        [
            (Key::Jump(0, 0, 0), UninitFn::Id, false),
            (Key::Jump(1, 0, 0), UninitFn::Id, false),
            (Key::Jump(1, 0, 1), UninitFn::Id, false),
        ],
    )?;
    Ok(Record::Batch(items))
}

/// The batch of a main with one number.
pub(crate) fn two_parts(alloc: Global) -> Result<Record<ConstFn>, AllocError> {
    let items = Vec::from_array(
        alloc,
        [
            (Key::Jump(1, 0, 0), ConstFn::Shift(0), true),
            (Key::Jump(1, 0, 1), ConstFn::Bottom, true),
        ],
    )?;
    Ok(Record::Batch(items))
}

/// Asserts the body of a batch in a version of a store.
fn expect_spelled<F: EdgeFn>(
    rt: &(impl Abort + AllocGlobal),
    change: &Record<F>,
    version: Version,
    body: &[u8],
) {
    match to_raw(rt.alloc(), change, version) {
        Ok(Some(raw)) => assert!(rt; raw.kind == 3 && raw.body.as_slice() == body),
        Ok(None) => panic!(rt; "no format spells the record"),
        Err(refused) => panic!(rt; "{refused}"),
    }
}

/// Asserts the body of the batch of an empty main.
pub(crate) fn expect_empty_main(rt: &(impl Abort + AllocGlobal), version: Version, body: &[u8]) {
    match empty_main(rt.alloc()) {
        Ok(change) => expect_spelled(rt, &change, version, body),
        Err(_) => panic!(rt; "no memory"),
    }
}

/// Asserts the body of the batch of a main with one number.
pub(crate) fn expect_two_parts(rt: &(impl Abort + AllocGlobal), version: Version, body: &[u8]) {
    match two_parts(rt.alloc()) {
        Ok(change) => expect_spelled(rt, &change, version, body),
        Err(_) => panic!(rt; "no memory"),
    }
}

/// What there was memory for.
pub(crate) fn made<T>(rt: &impl Abort, found: Result<T, AllocError>) -> T {
    found.expect(rt, "there is memory for this")
}

/// Asserts that a core has an item's entry.
fn expect_entry<P: Problem>(rt: &impl Abort, core: &Core<P>, item: (Key, P::F, bool)) {
    let (key, function, pending) = item;
    assert!(rt; core.get(key) == Some(function));
    assert!(rt; core.is_pending(key) == pending);
}

/// Asserts that a core has the entries of a batch.
pub(crate) fn expect_entries<P: Problem>(rt: &impl Abort, core: &Core<P>, change: &Record<P::F>) {
    if let Record::Batch(items) = change {
        for item in items {
            expect_entry(rt, core, *item);
        }
    }
}

/// Asserts that so many keys changed since that was last asked, and that they are the batch's.
fn expect_changed<P: Problem>(
    rt: &impl Abort,
    core: &mut Core<P>,
    change: &Record<P::F>,
    count: usize,
) {
    expect_entries(rt, core, change);
    assert!(rt; core.changed_count() == count);
    if let Record::Batch(items) = change {
        for item in items {
            assert!(rt; core.is_changed(item.0));
        }
    }
}

/// Asserts that a run applies, leaves three keys, and gives the batch's entries back.
pub(crate) fn expect_given_back<P: Problem>(
    rt: &(impl Abort + AllocGlobal),
    core: &mut Core<P>,
    run: Run,
    change: &Record<P::F>,
) {
    assert!(rt; replay(rt, core, run) == Ok(()));
    assert!(rt; core.key_count() == 3);
    expect_entries(rt, core, change);
}

/// Asserts that a run gives the batch's entries back, and `main` as the root, and whether that key is
/// pending then.
fn expect_replayed<P: Problem>(
    rt: &(impl Abort + AllocGlobal),
    core: &mut Core<P>,
    run: Run,
    change: &Record<P::F>,
    pending: Option<Key>,
) {
    expect_given_back(rt, core, run, change);
    expect_pending(rt, core, pending);
}

/// Asserts that `main` is the root, and that the key is pending, or none where none is given.
fn expect_pending<P: Problem>(rt: &impl Abort, core: &Core<P>, pending: Option<Key>) {
    assert!(rt; core.roots() == [0].as_slice());
    match pending {
        Some(key) => assert!(rt; core.is_pending(key)),
        None => assert!(rt; core.is_quiet()),
    }
}

/// How far the tasks of a text are done.
#[derive(Clone, Copy)]
enum Progress {
    /// So many parts of the first task.
    Parts(usize),
    /// All tasks.
    Whole,
}

/// Does the tasks so far.
fn go<P: Problem>(rt: &(impl Abort + AllocGlobal), core: &mut Core<P>, progress: Progress) {
    match progress {
        Progress::Parts(most) => do_first_parts(rt, core, most),
        Progress::Whole => {
            drain(rt, core);
        }
    }
}

/// Asserts that the batch has what the tasks of a text change so far.
fn expect_changes<P: Problem>(
    rt: &(impl Abort + AllocGlobal),
    core: &mut Core<P>,
    text: &str,
    progress: Progress,
    change: &Record<P::F>,
    count: usize,
) {
    begin_noted(rt, core, text);
    go(rt, core, progress);
    expect_changed(rt, core, change, count);
}

#[test]
fn changes_of_an_empty_main(rt: HostRuntime) {
    let change = made(&rt, empty_main(rt.alloc()));
    let mut core: Core<Uninit> = Core::new(rt.alloc());
    expect_changes(&rt, &mut core, EMPTY, Progress::Whole, &change, 3);
}

#[test]
fn body_of_an_empty_main(rt: HostRuntime) {
    expect_empty_main(&rt, Version::One, &EMPTY_MAIN);
    let change = made(&rt, empty_main(rt.alloc()));
    let mut core: Core<Uninit> = Core::new(rt.alloc());
    expect_replayed(&rt, &mut core, EMPTY_RUN, &change, None);
}

#[test]
fn changes_of_two_parts(rt: HostRuntime) {
    let change = made(&rt, two_parts(rt.alloc()));
    let mut core: Core<CopyConst> = Core::new(rt.alloc());
    expect_changes(&rt, &mut core, NUMBER, Progress::Parts(2), &change, 2);
}

#[test]
fn body_after_two_parts(rt: HostRuntime) {
    expect_two_parts(&rt, Version::One, &TWO_PARTS);
    let change = made(&rt, two_parts(rt.alloc()));
    let mut core: Core<CopyConst> = Core::new(rt.alloc());
    let pending = Some(Key::Jump(1, 0, 1));
    expect_replayed(&rt, &mut core, NUMBER_RUN, &change, pending);
}
