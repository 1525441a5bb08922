//! Batches spelled and read, and what copying their bytes one by one takes.
use anyhow::{Context, Result, ensure};
use ide_batch::{MOST, apply, batch_to_raw};
use ide_instances::{ConstFn, CopyConst};
use ide_journal::{RawRecord, Version};
use ide_steps::Core;
use ide_wire::Key;
use std::alloc::Global;

/// How a batch is spelled, how many items of it share a node, and how often it is gone through.
#[derive(Clone, Copy)]
pub(crate) struct Batches {
    pub(crate) version: Version,
    pub(crate) members: usize,
    pub(crate) count: usize,
}

impl Batches {
    /// A batch with as many items as may be, and a function of nine bytes or of one for each.
    fn items(self, alloc: Global) -> Result<Vec<(Key, ConstFn, bool)>> {
        ensure!(self.members > 0, "a group has members");
        ensure!(self.members <= MOST, "a group has at most 65,536 members");
        let mut items = Vec::with_capacity(alloc, MOST)?;
        for place in 0..MOST {
            let key = Key::Jump(
                (place / self.members) as u32,
                (place % self.members) as u16,
                0,
            );
            items.push((key, function_at(place), place % 3 == 0))?;
        }
        Ok(items)
    }
}

/// One function or another.
fn function_at(place: usize) -> ConstFn {
    if place % 2 == 0 {
        ConstFn::Const(place as u64)
    } else {
        ConstFn::Bottom
    }
}

/// The record of the batch.
fn spelled(alloc: Global, items: &[(Key, ConstFn, bool)], version: Version) -> Result<RawRecord> {
    batch_to_raw(alloc, items, version)?.context("no batch has these items")
}

/// Spells the batch so often once more, and answers how many bytes it has.
pub(crate) fn spell(alloc: Global, batches: Batches) -> Result<usize> {
    let items = batches.items(alloc)?;
    let mut bytes = 0;
    for _ in 0..=batches.count {
        bytes = spelled(alloc, &items, batches.version)?.body.len();
    }
    Ok(bytes)
}

/// Spells the batch, and reads it so often: a core with no program refuses it when it is read.
pub(crate) fn read(alloc: Global, batches: Batches) -> Result<usize> {
    let raw = spelled(alloc, &batches.items(alloc)?, batches.version)?;
    let mut core: Core<CopyConst> = Core::new(alloc);
    for _ in 0..batches.count {
        ensure!(
            is_refused(alloc, &mut core, &raw, batches.version),
            "a core with no program has no keys"
        );
    }
    Ok(raw.body.len())
}

/// Whether the core refuses the record.
fn is_refused(
    alloc: Global,
    core: &mut Core<CopyConst>,
    raw: &RawRecord,
    version: Version,
) -> bool {
    core.release_all();
    apply(alloc, core, 0, raw, version).is_err()
}

/// Spells the batch, and copies its bytes so often, one by one.
pub(crate) fn copy_each(alloc: Global, batches: Batches) -> Result<usize> {
    let raw = spelled(alloc, &batches.items(alloc)?, batches.version)?;
    let mut bytes = 0;
    for _ in 0..batches.count {
        bytes = copied(alloc, raw.body.as_slice())?;
    }
    Ok(raw.body.len().max(bytes))
}

/// Copies the bytes one by one, and answers how many there are.
fn copied(alloc: Global, bytes: &[u8]) -> Result<usize> {
    let mut copies = Vec::new(alloc);
    for byte in bytes {
        copies.push(*byte)?;
    }
    Ok(copies.len())
}
