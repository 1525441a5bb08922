//! Batches in the second version of a store: their bodies, in groups.
use super::bodies::{
    empty_main, expect_empty_main, expect_given_back, expect_two_parts, made, two_parts,
};
use super::records::Run;
use ide_instances::{CopyConst, Uninit};
use ide_journal::Version;
use ide_steps::Core;
use ide_worked::{EMPTY, NUMBER};
use std::process::Abort;

/// The group of node 0 of what changes after an empty main is a root: one item.
pub(crate) const FIRST: &[u8] = &[
    0, 0, 0, 0, 0, 1, 0, 0, 0, //
    0, 0, 0, 0, 1, 0, //
];

/// Its group of node 1: two items.
pub(crate) const SECOND: &[u8] = &[
    0, 1, 0, 0, 0, 2, 0, 0, 0, //
    0, 0, 0, 0, 1, 0, //
    0, 0, 1, 0, 1, 0, //
];

/// What two of the three parts of the first task change in a main with one number: one group.
const TWO_PARTS: [u8; 33] = [
    1, 0, 0, 0, //
    0, 1, 0, 0, 0, 2, 0, 0, 0, //
    0, 0, 0, 0, 1, 0, 0, 0, 0, 0, 0, 0, 0, 1, //
    0, 0, 1, 0, 4, 1, //
];

/// The run of a main with one number up to these two parts.
const NUMBER_RUN: Run = Run {
    text: NUMBER,
    body: &TWO_PARTS,
    version: Version::Two,
};

/// The body of a batch that tells so many groups, with these behind that.
pub(crate) fn body_of(rt: &(impl Abort + AllocGlobal), count: u8, groups: &[&[u8]]) -> Vec<u8> {
    let mut body = made(rt, Vec::from_slice(rt.alloc(), &[count, 0, 0, 0]));
    for group in groups {
        made(rt, body.extend_from_slice(group));
    }
    body
}

#[test]
fn groups_of_an_empty_main(rt: HostRuntime) {
    let body = body_of(&rt, 2, &[FIRST, SECOND]);
    expect_empty_main(&rt, Version::Two, body.as_slice());
    let run = Run {
        text: EMPTY,
        body: body.as_slice(),
        version: Version::Two,
    };
    let change = made(&rt, empty_main(rt.alloc()));
    let mut core: Core<Uninit> = Core::new(rt.alloc());
    expect_given_back(&rt, &mut core, run, &change);
}

#[test]
fn groups_after_two_parts(rt: HostRuntime) {
    expect_two_parts(&rt, Version::Two, &TWO_PARTS);
    let change = made(&rt, two_parts(rt.alloc()));
    let mut core: Core<CopyConst> = Core::new(rt.alloc());
    expect_given_back(&rt, &mut core, NUMBER_RUN, &change);
}
