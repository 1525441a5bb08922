//! A stop of either disk at each of its calls, and each kind of crash.
use super::journal::{create, disk, plan, record};
use ide_disk::{Leave, MemDisk};
use ide_slot_journal::SlotJournal;
use std::alloc::AllocGlobal;
use std::process::Abort;
use std::test::Fail;

/// Makes the calls for one more record, and answers whether it was stored.
fn store(
    rt: &(impl Abort + AllocGlobal),
    journal: &mut SlotJournal<MemDisk>,
) -> Result<bool, Fail> {
    assert!(rt; journal.is_idle());
    assert!(rt; journal.count() < 100);
    let raw = record(rt.alloc(), 1, &[112, 10])?;
    journal.begin(&raw)?;
    for _ in 0..4 {
        assert!(rt; !journal.is_idle());
        assert!(rt; journal.is_records_turn());
        if journal.advance().is_err() {
            return Ok(false);
        }
    }
    Ok(true)
}

/// Stores three records and makes a checkpoint, up to the first call that fails, and answers how many
/// records were stored.
fn run(rt: &(impl Abort + AllocGlobal), journal: &mut SlotJournal<MemDisk>) -> Result<u64, Fail> {
    for stored in 0..3 {
        let all = store(rt, journal)?;
        if !all {
            return Ok(stored);
        }
    }
    plan(rt, journal)?;
    for _ in 0..10 {
        assert!(rt; journal.is_checkpoints_turn());
        match journal.advance_checkpoint() {
            Ok(false) => {}
            Ok(true) | Err(_) => return Ok(3),
        }
    }
    Ok(3)
}

/// That a store on two disks whose calls fail from such a one on, and then crash, is opened with the
/// records that were stored, or one more.
fn stops(
    rt: &(impl Abort + AllocGlobal),
    first: u64,
    second: u64,
    leave: Leave,
) -> Result<(), Fail> {
    let alloc = rt.alloc();
    let mut a = disk(alloc)?;
    let mut b = disk(alloc)?;
    a.stop_at(first);
    b.stop_at(second);
    let mut journal = create(alloc, a, b)?;
    let stored = run(rt, &mut journal)?;
    let (mut a, mut b) = journal.into_disks();
    a.crash(leave);
    b.crash(leave);
    match SlotJournal::open(alloc, a, b, 1) {
        Ok((journal, _)) => {
            let count = journal.count();
            assert!(rt; stored <= count, "{count} of {stored}");
            assert!(rt; count - stored <= 1, "{count} of {stored}");
            Ok(())
        }
        Err((refused, _, _)) => Err(Fail::from(refused)),
    }
}

#[test]
fn loses_no_stored_record(rt: HostRuntime) -> Result<(), Fail> {
    for leave in [Leave::Old, Leave::New, Leave::Half, Leave::Fill(9)] {
        for call in 4..18 {
            stops(&rt, call, 100, leave)?;
            stops(&rt, 100, call, leave)?;
        }
    }
    Ok(())
}
