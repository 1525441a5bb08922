//! Stores on disks in memory, and the records that are put on them.
use ide_disk::MemDisk;
use ide_journal::{Journal, Phase, RawRecord, Version};
use ide_wire::Refused;
use std::alloc::Global;
use std::process::Abort;

/// A store with this tag and of that version, on that disk.
pub(crate) fn create(
    alloc: Global,
    disk: MemDisk,
    tag: u8,
    version: Version,
) -> Result<Journal<MemDisk>, Refused> {
    match Journal::create(alloc, disk, tag.max(1), version) {
        Ok(journal) => Ok(journal),
        Err((refused, _)) => Err(refused),
    }
}

/// A record of that kind and body.
pub(crate) fn record(alloc: Global, kind: u8, body: &[u8]) -> Result<RawRecord, Refused> {
    let body = body.to_vec(alloc)?;
    Ok(RawRecord { kind, body })
}

/// The record is put under way.
pub(crate) fn begin(
    rt: &impl Abort,
    journal: &mut Journal<MemDisk>,
    raw: &RawRecord,
) -> Result<(), Refused> {
    assert!(rt; raw.kind >= 1 && raw.kind <= 3);
    assert!(rt; raw.body.len() <= 4194304);
    assert!(rt; journal.is_idle());
    assert!(rt; journal.count() < 4294967295);
    journal.begin(raw)?;
    Ok(())
}

/// The next disk call of the record under way.
fn advances(rt: &impl Abort, journal: &mut Journal<MemDisk>, expected: Phase) {
    assert!(rt; !journal.is_idle());
    assert!(rt; journal.advance() == Ok(expected));
}

/// A record of that kind and body is stored.
pub(crate) fn store(
    rt: &(impl Abort + AllocGlobal),
    journal: &mut Journal<MemDisk>,
    kind: u8,
    body: &[u8],
) -> Result<(), Refused> {
    let raw = record(rt.alloc(), kind, body)?;
    begin(rt, journal, &raw)?;
    advances(rt, journal, Phase::Written);
    advances(rt, journal, Phase::BodySynced);
    advances(rt, journal, Phase::GateWritten);
    advances(rt, journal, Phase::Stored);
    Ok(())
}
