//! Disks over files of the system, which each test makes in its folder and removes.
ghost use Rattle.std.specs.Prelude.{◌≡◌, IfOk};
ghost use Rattle.ide_file.specs.FileDisk.{disk_size};

use ide_disk::Disk;
use ide_file::{FileDisk, FileFault};
use std::fs;
use std::fs::{File, Files};
use std::io::ErrorKind;
use std::path::Path;
use std::process::Abort;
use std::test::Fail;

// A disk over a new file with five bytes, in three calls.
fn filled<R: Files<File = File>>(rt: &R, path: Path<'_>) -> Result<FileDisk<File>, Fail>
    ensures { IfOk result (λ disk. disk_size disk ≡ 5) }
{
    let mut disk = FileDisk::create(rt, path)?;
    disk.cut(0)?;
    disk.write(0, b"abcde")?;
    disk.sync()?;
    Ok(disk)
}

// What the disk gives from its beginning on.
fn first_three<R: Abort>(rt: &R, disk: &mut FileDisk<File>) -> Result<[u8; 3], Fail> {
    let mut bytes = [0u8; 3];
    assert!(rt; disk.size() >= 3);
    disk.read(0, &mut bytes)?;
    Ok(bytes)
}

// Closes the disk, and removes its file.
fn remove<R: Files>(rt: &R, disk: FileDisk<File>, path: Path<'_>) -> Result<(), Fail> {
    drop(disk);
    fs::remove_file(rt, path)?;
    Ok(())
}

#[test]
fn what_is_written_is_read_back(rt: HostRuntime) -> Result<(), Fail> {
    let path = Path::new("ide_file_written");
    let mut disk = filled(&rt, path)?;
    disk.write(1, b"XY")?;
    disk.sync()?;
    assert_eq!(rt; disk.len()?, 5);
    assert_eq!(rt; disk.calls(), 6);
    assert_eq!(rt; disk.failures(), 0);
    drop(disk);

    let mut disk = FileDisk::open(&rt, path)?;
    assert_eq!(rt; disk.size(), 5);
    assert_eq!(rt; disk.calls(), 0);
    assert_eq!(rt; first_three(&rt, &mut disk)?, *b"aXY");
    drop(disk);

    // A file that is there is not made anew.
    let mut disk = FileDisk::create(&rt, path)?;
    assert_eq!(rt; disk.len()?, 5);
    assert_eq!(rt; first_three(&rt, &mut disk)?, *b"aXY");
    remove(&rt, disk, path)
}

#[test]
fn a_cut_file_is_shorter(rt: HostRuntime) -> Result<(), Fail> {
    let path = Path::new("ide_file_cut");
    let mut disk = filled(&rt, path)?;
    disk.cut(3)?;
    assert_eq!(rt; disk.size(), 3);
    assert_eq!(rt; disk.len()?, 3);
    disk.sync()?;
    drop(disk);
    assert_eq!(rt; fs::read(&rt, path)?.as_slice(), b"abc".as_slice());
    fs::remove_file(&rt, path)?;
    Ok(())
}

#[test]
fn a_file_that_is_not_there_is_not_opened(rt: HostRuntime) -> Result<(), Fail> {
    let found = match FileDisk::open(&rt, Path::new("ide_file_wanting")) {
        Err(FileFault::Unreadable(error)) => error.kind() == ErrorKind::NotFound,
        _ => false,
    };
    assert!(rt; found);
    Ok(())
}

#[test]
fn a_file_in_use_is_refused(rt: HostRuntime) -> Result<(), Fail> {
    let path = Path::new("ide_file_in_use");
    let disk = FileDisk::create(&rt, path)?;
    assert!(rt; matches!(FileDisk::open(&rt, path), Err(FileFault::InUse)));
    assert!(rt; matches!(FileDisk::create(&rt, path), Err(FileFault::InUse)));
    drop(disk);
    remove(&rt, FileDisk::open(&rt, path)?, path)
}

#[test]
fn another_length_is_a_fault(rt: HostRuntime) -> Result<(), Fail> {
    let path = Path::new("ide_file_grown");
    let mut disk = filled(&rt, path)?;
    // Nothing keeps others from the file but the lock, for which they may not ask.
    fs::write(&rt, path, "abcdefg")?;
    assert!(rt; disk.len().is_err());
    assert_eq!(rt; disk.calls(), 4);
    assert_eq!(rt; disk.failures(), 1);
    assert_eq!(rt; first_three(&rt, &mut disk)?, *b"abc");
    remove(&rt, disk, path)
}
