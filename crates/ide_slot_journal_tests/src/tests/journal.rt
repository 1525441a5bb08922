//! A worked checkpoint over two disks in memory.
ghost use Rattle.std.specs.Prelude.{◌≡◌, ◌≤◌, ◌<◌, length, IfOk};

use ide_disk::{Disk, Leave, MemDisk};
use ide_journal::RawRecord;
use ide_slot_journal::SlotJournal;
use ide_slots::NumberedRecord;
use ide_wire::Refused;
use std::alloc::{AllocGlobal, Global};
use std::process::Abort;
use std::test::Fail;

/// A new disk.
pub(crate) fn disk(alloc: Global) -> Result<MemDisk, Fail> {
    let disk = MemDisk::new(alloc, 30000, 60000)?;
    Ok(disk)
}

/// A new store with tag 1.
pub(crate) fn create(
    alloc: Global,
    a: MemDisk,
    b: MemDisk,
) -> Result<SlotJournal<MemDisk>, Refused> {
    match SlotJournal::create(alloc, a, b, 1) {
        Ok(journal) => Ok(journal),
        Err((refused, _, _)) => Err(refused),
    }
}

/// A record.
pub(crate) fn record(alloc: Global, kind: u8, body: &[u8]) -> Result<RawRecord, Fail>
    ensures kind { IfOk result (λ raw. raw.kind ≡ kind) }
    ensures body { IfOk result (λ raw. raw.body.items ≡ body.now) }
{
    let body = body.to_vec(alloc)?;
    Ok(RawRecord { kind, body })
}

/// A record is stored, by four disk calls.
fn store(
    rt: &(impl Abort + AllocGlobal),
    journal: &mut SlotJournal<MemDisk>,
    kind: u8,
    body: &[u8],
) -> Result<(), Fail>
    requires some_kind { 1 ≤ kind }
    requires known_kind { kind ≤ 3 }
    requires short { length body.now < 100 }
{
    assert!(rt; journal.is_idle());
    assert!(rt; journal.count() < 100);
    let raw = record(rt.alloc(), kind, body)?;
    journal.begin(&raw)?;
    for _ in 0..4 {
        assert!(rt; !journal.is_idle());
        assert!(rt; journal.is_records_turn());
        journal.advance()?;
    }
    assert!(rt; journal.is_idle());
    Ok(())
}

/// A checkpoint of three records, with two commands and one part, is planned.
pub(crate) fn plan(
    rt: &(impl Abort + AllocGlobal),
    journal: &mut SlotJournal<MemDisk>,
) -> Result<(), Fail> {
    let alloc = rt.alloc();
    assert!(rt; journal.is_idle());
    assert!(rt; journal.count() == 3);
    assert!(rt; !journal.is_checkpointing());
    assert!(rt; journal.generation() < 100);
    let load = NumberedRecord {
        number: 0,
        raw: record(alloc, 1, &[112, 10])?,
    };
    let root = NumberedRecord {
        number: 1,
        raw: record(alloc, 2, b"main")?,
    };
    let part = record(alloc, 4, &[7])?;
    journal.plan(alloc, 3, &[load, root], &[part])?;
    Ok(())
}

/// It makes its calls, and answers how many.
fn fill(rt: &impl Abort, journal: &mut SlotJournal<MemDisk>) -> Result<u64, Fail> {
    for call in 1..100 {
        assert!(rt; journal.is_checkpoints_turn());
        if journal.advance_checkpoint()? {
            return Ok(call);
        }
    }
    Ok(100)
}

/// All bytes of the disk.
fn bytes_of(alloc: Global, disk: &mut MemDisk) -> Result<Vec<u8>, Fail> {
    let length = disk.len()? as usize;
    let mut bytes = Vec::with_capacity(alloc, length)?;
    bytes.resize(length, 0)?;
    disk.read(0, &mut bytes)?;
    Ok(bytes)
}

/// That there are so many bytes, with these at a place.
fn has(rt: &impl Abort, bytes: &[u8], length: usize, at: usize, expected: &[u8]) {
    assert!(rt; bytes.len() == length, "{} bytes", bytes.len());
    match bytes.get(at..) {
        Some(rest) => assert!(rt; rest.starts_with(expected), "at byte {at}"),
        None => panic!(rt; "no byte {at}"),
    }
}

#[test]
fn makes_a_checkpoint_and_goes_on_behind_it(rt: HostRuntime) -> Result<(), Fail> {
    let alloc = rt.alloc();
    let mut journal = create(alloc, disk(alloc)?, disk(alloc)?)?;
    store(&rt, &mut journal, 1, &[112, 10])?;
    store(&rt, &mut journal, 2, b"main")?;
    store(&rt, &mut journal, 3, &[5])?;
    plan(&rt, &mut journal)?;
    assert!(rt; journal.generation() == 0 && journal.base() == 0);
    let calls = fill(&rt, &mut journal)?;
    assert!(rt; calls == 10, "{calls} calls");
    assert!(rt; journal.count() == 3 && journal.generation() == 1 && journal.base() == 3);
    let (a, mut b) = journal.into_disks();
    let told = [
        1, 0, 0, 0, 0, 0, 0, 0, 3, 0, 0, 0, 0, 0, 0, 0, 2, 0, 0, 0, 1, 0, 0, 0,
    ];
    let bytes = bytes_of(alloc, &mut b)?;
    has(&rt, &bytes, 16385, 9, &told);
    has(&rt, &bytes, 16385, 4096, &[1, 1, 0]);
    has(&rt, &bytes, 16385, 16384, &[0]);
    let (mut journal, records) = match SlotJournal::open(alloc, a, b, 1) {
        Ok(pair) => pair,
        Err((refused, _, _)) => return Err(Fail::from(refused)),
    };
    assert!(rt; records.len() == 3 && journal.count() == 3 && journal.generation() == 1);
    assert!(rt; journal.base() == 3);
    store(&rt, &mut journal, 1, &[112, 10])?;
    let (_, mut b) = journal.into_disks();
    let stored = [1, 1, 3, 0, 0, 0, 0, 0, 0, 0, 2, 0, 0, 0, 112, 10, 0];
    has(&rt, &bytes_of(alloc, &mut b)?, 20481, 16384, &stored);
    b.crash(Leave::Old);
    has(&rt, &bytes_of(alloc, &mut b)?, 20481, 20480, &[0]);
    Ok(())
}
