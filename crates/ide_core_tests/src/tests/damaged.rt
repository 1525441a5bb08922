//! Records that do not apply: each is refused with its number, and nothing changes.
use super::bodies::{TWO_PARTS, made};
use super::cores::begin;
use super::groups::{FIRST, SECOND, body_of};
use super::records::{Run, expect_damaged, replay};
use ide_instances::{CopyConst, Uninit};
use ide_journal::Version;
use ide_problem::Problem;
use ide_steps::Core;
use ide_wire::Refused;
use ide_worked::{ADDS_IN_CALLEE, EMPTY, NUMBER};
use std::process::Abort;

/// The same items, exchanged.
const EXCHANGED: [u8; 34] = [
    2, 0, 0, 0, //
    0, 1, 0, 0, 0, 0, 0, 1, 0, 4, 1, //
    0, 1, 0, 0, 0, 0, 0, 0, 0, 1, 0, 0, 0, 0, 0, 0, 0, 0, 1, //
];

/// Asserts that the record of that kind and body is refused in the first version.
fn expect_refused<P: Problem>(
    rt: &(impl Abort + AllocGlobal),
    core: &mut Core<P>,
    kind: u8,
    body: &[u8],
    why: &str,
) {
    expect_damaged(rt, core, kind, body, Version::One, why);
}

/// What is wrong where one byte of a good batch is another one: in which version the batch is spelled, at which
/// place the byte is, and what it is.
const OTHER_BYTES: [(Version, usize, u8, &str); 15] = [
    (Version::One, 0, 1, "a byte after the end"),
    (Version::One, 0, 3, "an item is missing"),
    (Version::One, 22, 2, "a third mark"),
    (Version::One, 24, 3, "a node past the last"),
    (Version::One, 30, 200, "a fact past the last"),
    (Version::One, 32, 0, "a function that is always top"),
    (Version::One, 23, 1, "a summary at a node that is no call"),
    (Version::Two, 0, 0, "no group, and bytes after that"),
    (Version::Two, 0, 1, "a group after the end"),
    (Version::Two, 0, 3, "a group is missing"),
    (Version::Two, 4, 2, "a third kind"),
    (Version::Two, 19, 1, "a summary at a node that is no call"),
    (Version::Two, 20, 9, "a node past the last"),
    (Version::Two, 38, 0, "a function that is always top"),
    (Version::Two, 39, 2, "a third mark"),
];

/// A copy of the bytes with another one at that place.
fn with_byte(rt: &(impl Abort + AllocGlobal), bytes: &[u8], place: usize, byte: u8) -> Vec<u8> {
    let mut other = made(rt, Vec::from_slice(rt.alloc(), bytes));
    if let Some(old) = other.get_mut(place) {
        *old = byte;
    }
    other
}

/// Asserts that each batch of that version is refused that differs from the good one in one byte.
fn expect_other_bytes<P: Problem>(
    rt: &(impl Abort + AllocGlobal),
    core: &mut Core<P>,
    version: Version,
    good: &[u8],
) {
    for (own, place, byte, why) in &OTHER_BYTES {
        if *own == version {
            let body = with_byte(rt, good, *place, *byte);
            expect_damaged(rt, core, 3, body.as_slice(), version, why);
        }
    }
}

/// Asserts that batches that are spelled otherwise, or do not fit, are refused.
fn expect_batches<P: Problem>(rt: &(impl Abort + AllocGlobal), core: &mut Core<P>) {
    begin(rt, core, NUMBER);
    expect_other_bytes(rt, core, Version::One, &TWO_PARTS);
    expect_refused(rt, core, 3, &EXCHANGED, "the items do not ascend");
    expect_refused(rt, core, 3, &[0, 0, 0, 0], "no item");
    expect_refused(rt, core, 3, &[], "no count");
}

#[test]
fn batches(rt: HostRuntime) {
    let mut core: Core<CopyConst> = Core::new(rt.alloc());
    expect_batches(&rt, &mut core);
}

/// A group of node 0 with no item.
const NO_ITEM: &[u8] = &[0, 0, 0, 0, 0, 0, 0, 0, 0];

/// The second group of an empty main with its items exchanged.
const TURNED: &[u8] = &[
    0, 1, 0, 0, 0, 2, 0, 0, 0, //
    0, 0, 1, 0, 1, 0, //
    0, 0, 0, 0, 1, 0, //
];

/// Asserts that the batch of the second version is refused that tells so many groups and has these.
fn expect_no_groups<P: Problem>(
    rt: &(impl Abort + AllocGlobal),
    core: &mut Core<P>,
    count: u8,
    groups: &[&[u8]],
    why: &str,
) {
    let body = body_of(rt, count, groups);
    expect_damaged(rt, core, 3, body.as_slice(), Version::Two, why);
}

/// Asserts that batches whose groups are spelled otherwise, or do not fit, are refused.
fn expect_damaged_groups<P: Problem>(rt: &(impl Abort + AllocGlobal), core: &mut Core<P>) {
    let good = body_of(rt, 2, &[FIRST, SECOND]);
    begin(rt, core, EMPTY);
    expect_other_bytes(rt, core, Version::Two, good.as_slice());
    expect_no_groups(rt, core, 0, &[], "no group");
    expect_no_groups(
        rt,
        core,
        3,
        &[FIRST, FIRST, SECOND],
        "a group written twice",
    );
    expect_no_groups(rt, core, 2, &[NO_ITEM, SECOND], "a group with no item");
    expect_no_groups(
        rt,
        core,
        2,
        &[FIRST, TURNED],
        "the last two items exchanged",
    );
    expect_no_groups(rt, core, 2, &[FIRST, SECOND, &[0]], "a byte after the end");
}

#[test]
fn damaged_groups(rt: HostRuntime) {
    let mut core: Core<Uninit> = Core::new(rt.alloc());
    expect_damaged_groups(&rt, &mut core);
}

/// Asserts that no record applies to a core with no program but a load of a text with no fault.
fn expect_no_program<P: Problem>(rt: &(impl Abort + AllocGlobal), core: &mut Core<P>) {
    expect_refused(rt, core, 2, b"main", "a root before a load");
    expect_refused(rt, core, 3, &TWO_PARTS, "a batch before a load");
    expect_refused(rt, core, 1, b"proc main\n", "a text that ends too soon");
    expect_refused(rt, core, 0, b"", "no kind");
    expect_refused(rt, core, 4, b"", "no kind");
}

#[test]
fn before_a_load(rt: HostRuntime) {
    let mut core: Core<CopyConst> = Core::new(rt.alloc());
    expect_no_program(&rt, &mut core);
}

/// Asserts that only a procedure with no parameters becomes a root, and once.
fn expect_roots<P: Problem>(rt: &(impl Abort + AllocGlobal), core: &mut Core<P>) {
    begin(rt, core, ADDS_IN_CALLEE);
    expect_refused(rt, core, 2, b"main", "a root already");
    expect_refused(rt, core, 2, b"f", "a procedure with parameters");
    expect_refused(rt, core, 2, b"g", "no procedure");
    assert!(rt; core.roots().len() == 1);
}

#[test]
fn roots(rt: HostRuntime) {
    let mut core: Core<CopyConst> = Core::new(rt.alloc());
    expect_roots(&rt, &mut core);
}

/// Asserts that of three records the last one is refused with its number, and the others applied.
fn expect_stopped<P: Problem>(rt: &(impl Abort + AllocGlobal), core: &mut Core<P>) {
    let run = Run {
        text: NUMBER,
        body: &EXCHANGED,
        version: Version::One,
    };
    let found = replay(rt, core, run);
    assert!(rt; found == Err(Refused::Damaged(2)));
    assert!(rt; core.key_count() == 1);
    assert!(rt; core.roots() == [0].as_slice());
}

#[test]
fn last_of_three(rt: HostRuntime) {
    let mut core: Core<CopyConst> = Core::new(rt.alloc());
    expect_stopped(&rt, &mut core);
}
