//! Disks over a file in memory, which refuses calls where its room ends.
ghost use Rattle.std.specs.Prelude.{IfOk};
ghost use Rattle.ide_file.specs.FileDisk.{IsSoundFile};

use super::memory_file::MemoryFile;
use ide_disk::Disk;
use ide_file::FileDisk;
use std::alloc::Global;
use std::test::Fail;

// A disk whose honesty is proved: each clause of `Disk` on bytes holds of it.
fn honest_disk(alloc: Global, room: usize, log: usize) -> Result<FileDisk<MemoryFile>, Fail>
    ensures { IfOk result IsSoundFile }
{
    let file = MemoryFile::new(alloc, room, log)?;
    let disk = FileDisk::over(file)?;
    Ok(disk)
}

#[test]
fn a_refused_write_stops_the_disk(rt: HostRuntime) -> Result<(), Fail> {
    let mut disk = honest_disk(rt.alloc(), 4, 100)?;
    assert_eq!(rt; disk.size(), 0);
    disk.write(0, b"abc")?;
    disk.sync()?;
    assert!(rt; disk.write(3, b"de").is_err());
    assert_eq!(rt; disk.size(), 3);
    assert!(rt; !disk.is_working());
    assert!(rt; disk.sync().is_err());
    assert!(rt; disk.len().is_err());
    assert_eq!(rt; disk.calls(), 5);
    assert_eq!(rt; disk.failures(), 3);
    Ok(())
}
