//! A disk in memory: its calls, its faults, and what each kind of crash leaves.
ghost use Rattle.std.specs.Prelude.{◌≡◌, IfOk};

use ide_disk::{Disk, Leave, MemDisk};
use std::alloc::Global;
use std::process::Abort;
use std::test::Fail;

/// What is done to a disk on which the bytes 1, 2, 3, 4 are synced.
#[derive(Clone, Copy)]
enum Deed {
    Overwrite,
    Append,
    WriteAcross,
    Cut,
    CutAndWrite,
    WriteAndSync,
    CutAndSync,
    FailedWrite,
    FailedCut,
    FailedSync,
}

/// A disk on which the bytes 1, 2, 3, 4 are synced, by two calls.
fn synced_disk(alloc: Global) -> Result<MemDisk, Fail>
    ensures { IfOk result (λ disk. ⟦<MemDisk as Disk>⟧.size disk ≡ 4) }
{
    let mut disk = MemDisk::new(alloc, 8, 40)?;
    disk.write(0, &[1, 2, 3, 4])?;
    disk.sync()?;
    Ok(disk)
}

/// Writes over two of the bytes.
fn overwrite(disk: &mut MemDisk) -> Result<(), Fail>
    requires { ⟦<MemDisk as Disk>⟧.size disk.old ≡ 4 }
{
    disk.write(1, &[7, 8])?;
    Ok(())
}

/// Cuts to one byte, and may write two behind it.
fn cut(disk: &mut MemDisk, and_write: bool) -> Result<(), Fail>
    requires { ⟦<MemDisk as Disk>⟧.size disk.old ≡ 4 }
{
    disk.cut(1)?;
    if and_write {
        disk.write(1, &[7, 8])?;
    }
    Ok(())
}

/// The same with the last call failed.
fn failed(rt: &impl Abort, disk: &mut MemDisk, deed: Deed) -> Result<(), Fail>
    requires { ⟦<MemDisk as Disk>⟧.size disk.old ≡ 4 }
{
    match deed {
        Deed::FailedWrite => {
            disk.fail_at(3);
            assert!(rt; disk.write(1, &[7, 8]).is_err());
        }
        Deed::FailedCut => {
            disk.fail_at(3);
            assert!(rt; disk.cut(1).is_err());
        }
        _ => {
            disk.fail_at(4);
            overwrite(disk)?;
            assert!(rt; disk.sync().is_err());
        }
    }
    Ok(())
}

/// That is done to the disk.
fn change(rt: &impl Abort, disk: &mut MemDisk, deed: Deed) -> Result<(), Fail>
    requires { ⟦<MemDisk as Disk>⟧.size disk.old ≡ 4 }
{
    match deed {
        Deed::Overwrite => overwrite(disk)?,
        Deed::Append => disk.write(4, &[7, 8, 9])?,
        Deed::WriteAcross => disk.write(2, &[7, 8, 9])?,
        Deed::Cut => cut(disk, false)?,
        Deed::CutAndWrite => cut(disk, true)?,
        Deed::WriteAndSync => {
            overwrite(disk)?;
            disk.sync()?;
        }
        Deed::CutAndSync => {
            cut(disk, false)?;
            disk.sync()?;
        }
        Deed::FailedWrite | Deed::FailedCut | Deed::FailedSync => failed(rt, disk, deed)?,
    }
    Ok(())
}

/// That the disk has just these bytes.
fn holds(rt: &impl Abort, disk: &mut MemDisk, expected: &[u8]) -> Result<(), Fail> {
    let len = disk.len()?;
    assert!(rt; len == expected.len() as u64, "{len} bytes");
    assert!(rt; expected.len() <= 8);
    let mut buffer = [0; 8];
    let out = &mut buffer[..expected.len()];
    disk.read(0, out)?;
    assert!(rt; &*out == expected, "{len} bytes");
    Ok(())
}

/// What the disk holds after the deed, and a crash of that kind, if there is one.
fn holds_after(
    rt: &impl Abort,
    disk: &mut MemDisk,
    deed: Deed,
    crash: Option<Leave>,
    expected: &[u8],
) -> Result<(), Fail>
    requires { ⟦<MemDisk as Disk>⟧.size disk.old ≡ 4 }
{
    change(rt, disk, deed)?;
    if let Some(leave) = crash {
        disk.crash(leave);
    }
    holds(rt, disk, expected)
}

/// The same of a disk on which the bytes 1, 2, 3, 4 are synced.
fn row(
    rt: &impl Abort,
    alloc: Global,
    deed: Deed,
    crash: Option<Leave>,
    expected: &[u8],
) -> Result<(), Fail> {
    let mut disk = synced_disk(alloc)?;
    holds_after(rt, &mut disk, deed, crash, expected)
}

/// What the four kinds of crash leave after the deed. `Fill` fills with 9.
fn rows(
    rt: &impl Abort,
    alloc: Global,
    deed: Deed,
    old: &[u8],
    new: &[u8],
    half: &[u8],
    filled: &[u8],
) -> Result<(), Fail> {
    row(rt, alloc, deed, Some(Leave::Old), old)?;
    row(rt, alloc, deed, Some(Leave::New), new)?;
    row(rt, alloc, deed, Some(Leave::Half), half)?;
    row(rt, alloc, deed, Some(Leave::Fill(9)), filled)
}

/// What is read after the deed.
fn reads(rt: &impl Abort, alloc: Global, deed: Deed, expected: &[u8]) -> Result<(), Fail> {
    row(rt, alloc, deed, None, expected)
}

#[test]
fn reads_what_was_done(rt: HostRuntime) -> Result<(), Fail> {
    let alloc = rt.alloc();
    reads(&rt, alloc, Deed::Overwrite, &[1, 7, 8, 4])?;
    reads(&rt, alloc, Deed::Append, &[1, 2, 3, 4, 7, 8, 9])?;
    reads(&rt, alloc, Deed::WriteAcross, &[1, 2, 7, 8, 9])?;
    reads(&rt, alloc, Deed::Cut, &[1])?;
    reads(&rt, alloc, Deed::CutAndWrite, &[1, 7, 8])?;
    reads(&rt, alloc, Deed::WriteAndSync, &[1, 7, 8, 4])?;
    reads(&rt, alloc, Deed::CutAndSync, &[1])
}

/// The same of a deed that a crash may undo.
fn undone_rows(
    rt: &impl Abort,
    alloc: Global,
    deed: Deed,
    new: &[u8],
    half: &[u8],
    filled: &[u8],
) -> Result<(), Fail> {
    rows(rt, alloc, deed, &[1, 2, 3, 4], new, half, filled)
}

#[test]
fn leaves_of_a_write_what_the_kind_says(rt: HostRuntime) -> Result<(), Fail> {
    let (new, half, filled) = ([1, 7, 8, 4], [1, 7, 3, 4], [1, 9, 9, 4]);
    for deed in [Deed::Overwrite, Deed::FailedWrite, Deed::FailedSync] {
        undone_rows(&rt, rt.alloc(), deed, &new, &half, &filled)?;
    }
    Ok(())
}

#[test]
fn leaves_of_a_write_past_the_end_what_the_kind_says(rt: HostRuntime) -> Result<(), Fail> {
    let alloc = rt.alloc();
    let (new, half, filled) = (
        [1, 2, 3, 4, 7, 8, 9],
        [1, 2, 3, 4, 7, 0, 0],
        [1, 2, 3, 4, 9, 9, 9],
    );
    undone_rows(&rt, alloc, Deed::Append, &new, &half, &filled)?;
    let (new, half, filled) = ([1, 2, 7, 8, 9], [1, 2, 7, 4, 0], [1, 2, 9, 9, 9]);
    undone_rows(&rt, alloc, Deed::WriteAcross, &new, &half, &filled)
}

#[test]
fn leaves_of_a_cut_what_the_kind_says(rt: HostRuntime) -> Result<(), Fail> {
    let alloc = rt.alloc();
    undone_rows(&rt, alloc, Deed::Cut, &[1], &[1], &[1])?;
    undone_rows(&rt, alloc, Deed::FailedCut, &[1], &[1], &[1])?;
    let (new, half, filled) = ([1, 7, 8], [1, 7, 0], [1, 9, 9]);
    undone_rows(&rt, alloc, Deed::CutAndWrite, &new, &half, &filled)
}

#[test]
fn leaves_what_was_synced(rt: HostRuntime) -> Result<(), Fail> {
    let alloc = rt.alloc();
    let new = [1, 7, 8, 4];
    rows(&rt, alloc, Deed::WriteAndSync, &new, &new, &new, &new)?;
    rows(&rt, alloc, Deed::CutAndSync, &[1], &[1], &[1], &[1])
}

/// That the fourth call fails, and no other.
fn fails_once(rt: &impl Abort, disk: &mut MemDisk) {
    disk.fail_at(4);
    assert!(rt; disk.len() == Ok(4));
    assert!(rt; disk.len().is_err());
    assert!(rt; disk.len() == Ok(4));
    assert!(rt; disk.calls() == 5);
    assert!(rt; disk.failures() == 1);
}

#[test]
fn fails_at_one_call(rt: HostRuntime) -> Result<(), Fail> {
    let mut disk = synced_disk(rt.alloc())?;
    fails_once(&rt, &mut disk);
    Ok(())
}

/// That no call is done from the fourth on.
fn stops(rt: &impl Abort, disk: &mut MemDisk)
    requires { ⟦<MemDisk as Disk>⟧.size disk.old ≡ 4 }
{
    disk.stop_at(4);
    assert!(rt; disk.len() == Ok(4));
    assert!(rt; disk.len().is_err());
    assert!(rt; disk.read(0, &mut [0; 4]).is_err());
    assert!(rt; disk.write(0, &[9]).is_err());
    assert!(rt; disk.cut(0).is_err());
    assert!(rt; disk.sync().is_err());
    assert!(rt; disk.calls() == 8);
    assert!(rt; disk.failures() == 5);
}

/// That the disk has just these bytes after a crash.
fn holds_after_crash(
    rt: &impl Abort,
    disk: &mut MemDisk,
    leave: Leave,
    expected: &[u8],
) -> Result<(), Fail> {
    disk.crash(leave);
    holds(rt, disk, expected)
}

#[test]
fn stops_at_a_call(rt: HostRuntime) -> Result<(), Fail> {
    let mut disk = synced_disk(rt.alloc())?;
    stops(&rt, &mut disk);
    holds_after_crash(&rt, &mut disk, Leave::Old, &[1, 2, 3, 4])
}

/// That a write past the room of an empty disk for four bytes fails, and the others do not.
fn has_room_for_four(rt: &impl Abort, disk: &mut MemDisk) -> Result<(), Fail> {
    assert!(rt; disk.write(0, &[1, 2, 3, 4, 5]).is_err());
    disk.write(0, &[1, 2, 3])?;
    assert!(rt; disk.write(2, &[8, 9, 10]).is_err());
    disk.write(2, &[8, 9])?;
    assert!(rt; disk.failures() == 2);
    holds(rt, disk, &[1, 2, 8, 9])
}

#[test]
fn faults_past_its_room(rt: HostRuntime) -> Result<(), Fail> {
    let mut disk = MemDisk::new(rt.alloc(), 4, 40)?;
    has_room_for_four(&rt, &mut disk)
}

/// That three calls and two written bytes are recorded, and one more is not.
fn records_five(rt: &impl Abort, disk: &mut MemDisk) -> Result<(), Fail> {
    disk.write(0, &[1, 2])?;
    disk.sync()?;
    assert!(rt; disk.write(0, &[7]).is_err());
    assert!(rt; disk.len() == Ok(2));
    assert!(rt; disk.len().is_err());
    assert!(rt; disk.sync().is_err());
    assert!(rt; disk.calls() == 6);
    assert!(rt; disk.failures() == 3);
    holds_after_crash(rt, disk, Leave::New, &[1, 2])
}

#[test]
fn faults_past_its_record(rt: HostRuntime) -> Result<(), Fail> {
    let mut disk = MemDisk::new(rt.alloc(), 4, 5)?;
    records_five(&rt, &mut disk)
}
