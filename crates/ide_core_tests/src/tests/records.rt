//! Cores on the way by records, and records that do not apply: each is refused with its number, and sets no key.
use super::claims::claim_task;
use super::cores::{begin, given};
use super::hands::Hand;
use ide_batch::{apply, apply_all};
use ide_journal::{RawRecord, Version};
use ide_problem::Problem;
use ide_steps::Core;
use ide_wire::Refused;
use std::alloc::Global;
use std::process::Abort;

/// Loads a text, with `main` as its root; what changes is noted from then on.
pub(crate) fn begin_noted<P: Problem>(
    rt: &(impl Abort + AllocGlobal),
    core: &mut Core<P>,
    text: &str,
) {
    begin(rt, core, text);
    core.take_changes();
}

/// Does the first parts of the first task, with the hand of number 0.
pub(crate) fn do_first_parts<P: Problem>(
    rt: &(impl Abort + AllocGlobal),
    core: &mut Core<P>,
    most: usize,
) {
    let mut hand = Hand::new(0);
    claim_task(rt, core, &mut hand);
    given(rt, hand.parts(core, most));
}

/// A record of the journal, of that kind and body.
fn raw_of(rt: &(impl Abort + AllocGlobal), kind: u8, body: &[u8]) -> RawRecord {
    match body.to_vec(rt.alloc()) {
        Ok(body) => RawRecord { kind, body },
        Err(_) => panic!(rt; "no memory"),
    }
}

/// Applies the record to a core that takes every claim back first.
fn apply_raw<P: Problem>(
    alloc: Global,
    core: &mut Core<P>,
    n: u64,
    raw: &RawRecord,
    version: Version,
) -> Result<(), Refused> {
    core.release_all();
    apply(alloc, core, n, raw, version)?;
    Ok(())
}

/// Applies the record of that number, kind and body, spelled as in that version.
pub(crate) fn apply_one<P: Problem>(
    rt: &(impl Abort + AllocGlobal),
    core: &mut Core<P>,
    n: u64,
    kind: u8,
    body: &[u8],
    version: Version,
) -> Result<(), Refused> {
    let raw = raw_of(rt, kind, body);
    apply_raw(rt.alloc(), core, n, &raw, version)
}

/// Applies the records to a core that takes every claim back first.
fn apply_records<P: Problem>(
    alloc: Global,
    core: &mut Core<P>,
    records: &[RawRecord],
    version: Version,
) -> Result<(), Refused> {
    core.release_all();
    apply_all(alloc, core, records, version)?;
    Ok(())
}

/// The load of a text, `main` as a root, and a batch of that body, spelled as in that version.
#[derive(Clone, Copy)]
pub(crate) struct Run<'a> {
    pub text: &'a str,
    pub body: &'a [u8],
    pub version: Version,
}

/// Applies the records of a run.
pub(crate) fn replay<P: Problem>(
    rt: &(impl Abort + AllocGlobal),
    core: &mut Core<P>,
    run: Run,
) -> Result<(), Refused> {
    let records = [
        raw_of(rt, 1, run.text.as_bytes()),
        raw_of(rt, 2, b"main"),
        raw_of(rt, 3, run.body),
    ];
    apply_records(rt.alloc(), core, &records, run.version)
}

/// Asserts that the record of number 7, of that kind and body, is refused with its number, and that
/// no key was set.
pub(crate) fn expect_damaged<P: Problem>(
    rt: &(impl Abort + AllocGlobal),
    core: &mut Core<P>,
    kind: u8,
    body: &[u8],
    version: Version,
    why: &str,
) {
    let before = core.key_count();
    let found = apply_one(rt, core, 7, kind, body, version);
    assert!(rt; found == Err(Refused::Damaged(7)), "{why}");
    assert!(rt; core.key_count() == before, "{why}");
}
