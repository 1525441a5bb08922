//! The bytes of a store over a disk in memory.
use super::harms::{cut, damage, has_length};
use super::stores::{begin, create, record, store};
use ide_disk::{Disk, Leave, MemDisk};
use ide_journal::{Journal, RawRecord, Version, tag};
use ide_wire::Refused;
use std::alloc::{AllocError, Global};
use std::process::Abort;
use std::test::Fail;

/// A store with this tag and of that version, on a new disk.
fn new_store(alloc: Global, tag: u8, version: Version) -> Result<Journal<MemDisk>, Refused> {
    let disk = MemDisk::new(alloc, 20000, 40000)?;
    let journal = create(alloc, disk, tag, version)?;
    Ok(journal)
}

/// That the disk has so many bytes, with these at a place.
fn has(
    rt: &impl Abort,
    disk: &mut MemDisk,
    len: u64,
    at: u64,
    expected: &[u8],
) -> Result<(), Fail> {
    assert!(rt; disk.len()? == len, "{len} bytes");
    assert!(rt; expected.len() <= 64);
    assert!(rt; at <= len && expected.len() as u64 <= len - at);
    let mut buffer = [0; 64];
    let out = &mut buffer[..expected.len()];
    disk.read(at, out)?;
    assert!(rt; &*out == expected, "at byte {at}");
    Ok(())
}

/// That the disk has the bytes of a store with tag 2 and no record, of the version with that letter.
fn is_empty_store(rt: &impl Abort, disk: &mut MemDisk, letter: u8) -> Result<(), Fail> {
    let head = [0x49, 0x44, 0x45, 0x4a, 0x52, 0x4e, 0x4c, letter, 2, 0, 0];
    has(rt, disk, 4097, 0, &head)?;
    has(rt, disk, 4097, 4094, &[0, 0, 0])
}

/// An empty store of that version begins with that letter, and goes on in that version when it is
/// opened again.
fn keeps_its_version(
    rt: &(impl Abort + AllocGlobal),
    version: Version,
    letter: u8,
) -> Result<(), Fail> {
    let journal = new_store(rt.alloc(), 2, version)?;
    assert!(rt; journal.count() == 0);
    assert!(rt; journal.version() == version);
    let mut disk = journal.into_disk();
    is_empty_store(rt, &mut disk, letter)?;
    assert!(rt; tag(&mut disk) == Ok(2));
    expect_version(rt, rt.alloc(), disk, version)?;
    Ok(())
}

/// That the disk has a store with tag 2 of that version, with no record.
fn expect_version(
    rt: &impl Abort,
    alloc: Global,
    disk: MemDisk,
    version: Version,
) -> Result<(), Refused> {
    match Journal::open(alloc, disk, 2) {
        Ok((journal, records)) => {
            assert!(rt; journal.version() == version);
            assert!(rt; records.len() == 0);
            Ok(())
        }
        Err((refused, _)) => Err(refused),
    }
}

#[test]
fn makes_an_empty_store_of_each_version(rt: HostRuntime) -> Result<(), Fail> {
    keeps_its_version(&rt, Version::One, 0x31)?;
    keeps_its_version(&rt, Version::Two, 0x32)
}

/// Two records are stored.
fn store_two(
    rt: &(impl Abort + AllocGlobal),
    journal: &mut Journal<MemDisk>,
) -> Result<(), Refused> {
    store(rt, journal, 1, b"proc main\nend\n")?;
    store(rt, journal, 2, b"main")?;
    assert!(rt; journal.count() == 2);
    Ok(())
}

/// That the disk has the bytes of both records.
fn has_two(rt: &impl Abort, disk: &mut MemDisk) -> Result<(), Fail> {
    let first = [
        1, 1, 0, 0, 0, 0, 0, 0, 0, 0, 0x0e, 0, 0, 0, 0x70, 0x72, 0x6f, 0x63, 0x20, 0x6d, 0x61,
        0x69, 0x6e, 0x0a, 0x65, 0x6e, 0x64, 0x0a, 0, 0,
    ];
    has(rt, disk, 12289, 4096, &first)?;
    let second = [
        1, 2, 1, 0, 0, 0, 0, 0, 0, 0, 4, 0, 0, 0, 0x6d, 0x61, 0x69, 0x6e, 0, 0,
    ];
    has(rt, disk, 12289, 8192, &second)?;
    has(rt, disk, 12289, 12287, &[0, 0])
}

#[test]
fn stores_two_records(rt: HostRuntime) -> Result<(), Fail> {
    let mut journal = new_store(rt.alloc(), 1, Version::One)?;
    store_two(&rt, &mut journal)?;
    let mut disk = journal.into_disk();
    disk.crash(Leave::Old);
    has_two(&rt, &mut disk)
}

/// The disk of a store with tag 1 that is opened, and has so many records.
fn opens(
    rt: &impl Abort,
    alloc: Global,
    disk: MemDisk,
    expected: usize,
) -> Result<MemDisk, Refused> {
    match Journal::open(alloc, disk, 1) {
        Ok((journal, records)) => {
            assert!(rt; records.len() == expected, "{expected} records");
            assert!(rt; journal.count() == expected as u64, "{expected} records");
            Ok(journal.into_disk())
        }
        Err((refused, _)) => Err(refused),
    }
}

/// The disk whose opening is refused so.
fn refuses(
    rt: &impl Abort,
    alloc: Global,
    disk: MemDisk,
    tag: u8,
    expected: Refused,
) -> Result<MemDisk, Refused> {
    match Journal::open(alloc, disk, tag) {
        Ok(_) => Err(Refused::Limit),
        Err((refused, disk)) => {
            assert!(rt; refused == expected, "{refused}");
            Ok(disk)
        }
    }
}

/// A disk that stops at that call of the first record, if it is to stop.
fn stopping_disk(alloc: Global, calls: u64, stops: bool) -> Result<MemDisk, AllocError> {
    let mut disk = MemDisk::new(alloc, 20000, 40000)?;
    if stops {
        disk.stop_at(calls.saturating_add(3));
    }
    Ok(disk)
}

/// So many disk calls of the record under way, the last of which may fail.
fn advance(rt: &impl Abort, journal: &mut Journal<MemDisk>, calls: u64, fails: bool) {
    for call in 1..=calls {
        assert!(rt; !journal.is_idle());
        let failed = journal.advance().is_err();
        assert!(rt; failed == (fails && call == calls), "call {call}");
    }
}

/// A disk on which the first record was begun, after so many disk calls for it, the last of which
/// may fail.
fn begun_disk(
    rt: &(impl Abort + AllocGlobal),
    calls: u64,
    fails: bool,
) -> Result<MemDisk, Refused> {
    let disk = stopping_disk(rt.alloc(), calls, fails)?;
    let mut journal = create(rt.alloc(), disk, 1, Version::Two)?;
    let raw = record(rt.alloc(), 1, b"proc main\nend\n")?;
    begin(rt, &mut journal, &raw)?;
    advance(rt, &mut journal, calls, fails);
    Ok(journal.into_disk())
}

/// The disk after an opening that stops at one of its calls, and a crash, if there is to be one.
fn opened_and_crashed(
    rt: &impl Abort,
    alloc: Global,
    mut disk: MemDisk,
    stop: u64,
    leave: Leave,
) -> Result<MemDisk, Refused> {
    if stop == 0 {
        return Ok(disk);
    }
    disk.stop_at(disk.calls().saturating_add(stop));
    let mut disk = refuses(rt, alloc, disk, 1, Refused::Disk)?;
    disk.crash(leave);
    Ok(disk)
}

/// The disk is opened, and again after a crash, and has so many records.
fn opens_twice(
    rt: &impl Abort,
    alloc: Global,
    disk: MemDisk,
    expected: usize,
) -> Result<(), Refused> {
    let mut disk = opens(rt, alloc, disk, expected)?;
    disk.crash(Leave::Old);
    let len = if expected == 0 { 4097 } else { 8193 };
    assert!(rt; has_length(&mut disk, len), "{len} bytes");
    let _disk = opens(rt, alloc, disk, expected)?;
    Ok(())
}

/// A crash after so many calls leaves so many records, also where the opening behind it stops at
/// that call, if it is not 0, and crashes as well.
fn leaves_behind(
    rt: &(impl Abort + AllocGlobal),
    calls: u64,
    fails: bool,
    leave: Leave,
    expected: usize,
    stop: u64,
) -> Result<(), Refused> {
    let mut disk = begun_disk(rt, calls, fails)?;
    disk.crash(leave);
    let disk = opened_and_crashed(rt, rt.alloc(), disk, stop, leave)?;
    opens_twice(rt, rt.alloc(), disk, expected)
}

/// The same with an opening that is done, or stops at one of its calls.
fn leaves(
    rt: &(impl Abort + AllocGlobal),
    calls: u64,
    fails: bool,
    leave: Leave,
    expected: usize,
) -> Result<(), Refused> {
    for stop in 0..6 {
        leaves_behind(rt, calls, fails, leave, expected, stop)?;
    }
    Ok(())
}

/// Every call of the first record, with the records that a crash leaves once the gate is written.
fn leaves_at_each_call(
    rt: &(impl Abort + AllocGlobal),
    leave: Leave,
    gated: usize,
) -> Result<(), Refused> {
    leaves(rt, 0, false, leave, 0)?;
    leaves(rt, 1, true, leave, 0)?;
    leaves(rt, 1, false, leave, 0)?;
    leaves(rt, 2, true, leave, 0)?;
    leaves(rt, 2, false, leave, 0)?;
    leaves(rt, 3, true, leave, gated)?;
    leaves(rt, 3, false, leave, gated)?;
    leaves(rt, 4, true, leave, gated)?;
    leaves(rt, 4, false, leave, 1)
}

#[test]
fn opens_what_a_crash_leaves(rt: HostRuntime) -> Result<(), Fail> {
    leaves_at_each_call(&rt, Leave::Old, 0)?;
    leaves_at_each_call(&rt, Leave::New, 1)?;
    leaves_at_each_call(&rt, Leave::Half, 0)?;
    leaves_at_each_call(&rt, Leave::Fill(0), 0)?;
    leaves_at_each_call(&rt, Leave::Fill(7), 1)?;
    Ok(())
}

/// A disk with one record, in version 2, on which these bytes stand at a place.
fn damaged_disk(rt: &(impl Abort + AllocGlobal), at: u64, bytes: &[u8]) -> Result<MemDisk, Fail> {
    let mut disk = begun_disk(rt, 4, false)?;
    damage(&mut disk, at, bytes)?;
    Ok(disk)
}

/// The first record is refused where these bytes stand at a place.
fn is_damaged(rt: &(impl Abort + AllocGlobal), at: u64, bytes: &[u8]) -> Result<(), Fail> {
    let disk = damaged_disk(rt, at, bytes)?;
    let _disk = refuses(rt, rt.alloc(), disk, 1, Refused::Damaged(0))?;
    Ok(())
}

/// The disk is refused once it is cut to a length.
fn is_cut(rt: &(impl Abort + AllocGlobal), len: u64, expected: Refused) -> Result<(), Fail> {
    let mut disk = begun_disk(rt, 4, false)?;
    cut(&mut disk, len)?;
    let _disk = refuses(rt, rt.alloc(), disk, 1, expected)?;
    Ok(())
}

#[test]
fn refuses_damaged_records(rt: HostRuntime) -> Result<(), Fail> {
    is_damaged(&rt, 4097, &[0])?;
    is_damaged(&rt, 4097, &[4])?;
    is_damaged(&rt, 4098, &[1])?;
    is_damaged(&rt, 4106, &[0xff, 0xff, 0xff, 0xff])?;
    is_damaged(&rt, 4124, &[1])?;
    is_damaged(&rt, 8191, &[1])?;
    is_cut(&rt, 8192, Refused::Damaged(0))?;
    is_cut(&rt, 4097, Refused::Damaged(0))
}

/// A store with tag 1 is refused to another tag, and tells its own.
fn has_its_tag(rt: &(impl Abort + AllocGlobal)) -> Result<(), Refused> {
    let disk = begun_disk(rt, 4, false)?;
    let mut disk = refuses(rt, rt.alloc(), disk, 2, Refused::WrongInstance)?;
    assert!(rt; tag(&mut disk) == Ok(1));
    Ok(())
}

/// A file that begins with `IDEJRNL3` has no tag, and is refused.
fn has_no_tag(rt: &(impl Abort + AllocGlobal)) -> Result<(), Fail> {
    let mut disk = damaged_disk(rt, 7, &[0x33])?;
    assert!(rt; tag(&mut disk) == Err(Refused::NotAStore));
    let _disk = refuses(rt, rt.alloc(), disk, 1, Refused::NotAStore)?;
    Ok(())
}

#[test]
fn refuses_other_files(rt: HostRuntime) -> Result<(), Fail> {
    is_cut(&rt, 4096, Refused::NotAStore)?;
    is_cut(&rt, 0, Refused::NotAStore)?;
    has_its_tag(&rt)?;
    has_no_tag(&rt)
}

/// A disk on which a record of kind 3 with that body is stored.
fn stored_disk(rt: &(impl Abort + AllocGlobal), body: &[u8]) -> Result<MemDisk, Refused> {
    let disk = MemDisk::new(rt.alloc(), 4300000, 4300000)?;
    let mut journal = create(rt.alloc(), disk, 1, Version::Two)?;
    store(rt, &mut journal, 3, body)?;
    Ok(journal.into_disk())
}

/// Whether these are the one record of kind 3 with that body.
fn is_record(records: &[RawRecord], body: &[u8]) -> bool {
    records.len() == 1 && records[0].kind == 3 && records[0].body.as_slice() == body
}

/// That the disk has that record alone.
fn expect_record(
    rt: &impl Abort,
    alloc: Global,
    disk: MemDisk,
    body: &[u8],
) -> Result<(), Refused> {
    match Journal::open(alloc, disk, 1) {
        Ok((_, records)) => {
            assert!(rt; is_record(records.as_slice(), body));
            Ok(())
        }
        Err((refused, _)) => Err(refused),
    }
}

/// A record with that body is read back, from a file of so many bytes.
fn reads_body_back(rt: &(impl Abort + AllocGlobal), body: &[u8], len: u64) -> Result<(), Refused> {
    let mut disk = stored_disk(rt, body)?;
    disk.crash(Leave::Old);
    assert!(rt; has_length(&mut disk, len), "{len} bytes");
    expect_record(rt, rt.alloc(), disk, body)
}

/// A record with a body of so many bytes is read back, from a file of so many.
fn reads_back(rt: &(impl Abort + AllocGlobal), count: usize, len: u64) -> Result<(), Refused> {
    let mut body = Vec::with_capacity(rt.alloc(), count)?;
    body.resize(count, 7)?;
    reads_body_back(rt, body.as_slice(), len)
}

#[test]
fn reads_back_bodies_of_each_length(rt: HostRuntime) -> Result<(), Fail> {
    reads_back(&rt, 0, 8193)?;
    reads_back(&rt, 1, 8193)?;
    reads_back(&rt, 4082, 8193)?;
    reads_back(&rt, 4083, 12289)?;
    reads_back(&rt, 4194304, 4202497)?;
    Ok(())
}
