//! How a disk is made over the file at a path.
ghost use Rattle.std.specs.Prelude.{◌≡◌, IfOk};

use crate::{FileDisk, FileFault};
use std::fs::{File, Files, TryLockError};
use std::io;
use std::path::Path;

impl FileDisk<File> {
    ghost use Rattle.ide_file.specs.FileDisk.{file_call_count, file_failure_count, IsWorking};

    /// Opens the file for reading and writing, and makes it where it is not there. What it holds stays.
    ///
    /// It takes the file's lock, which the disk has until it is dropped, and syncs the folder, so that a crash
    /// does not take away the file's name, also where an earlier call that made the file came no further.
    /// It is refused where another open of the file has the lock (`InUse`), where the file is longer than a disk
    /// may be (`TooLong`), and where the system refuses a call (`Unreadable`). A file that was made stays there.
    pub fn create<R: Files<File = File>>(rt: &R, path: Path<'_>) -> Result<Self, FileFault>
        ensures calls { IfOk result (λ disk. file_call_count disk ≡ 0) }
        ensures failures { IfOk result (λ disk. file_failure_count disk ≡ 0) }
        ensures working { IfOk result IsWorking }
    {
        let file = open_locked(rt, path, true)?;
        sync_folder(rt, path).map_err(FileFault::Unreadable)?;
        FileDisk::over(file)
    }

    /// Opens the file for reading and writing, where it is there. It takes the file's lock, and is refused, as
    /// `create` does and is; where the file is not there, that is `Unreadable` with the kind `NotFound`.
    pub fn open<R: Files<File = File>>(rt: &R, path: Path<'_>) -> Result<Self, FileFault>
        ensures calls { IfOk result (λ disk. file_call_count disk ≡ 0) }
        ensures failures { IfOk result (λ disk. file_failure_count disk ≡ 0) }
        ensures working { IfOk result IsWorking }
    {
        FileDisk::over(open_locked(rt, path, false)?)
    }
}

// The file for reading and writing, with its lock; it may be made where it is not there.
fn open_locked<R: Files<File = File>>(
    rt: &R,
    path: Path<'_>,
    may_make: bool,
) -> Result<File, FileFault> {
    let file = File::options()
        .read(true)
        .write(true)
        .create(may_make)
        .open(rt, path)
        .map_err(FileFault::Unreadable)?;
    lock(&file)?;
    Ok(file)
}

// Takes the advisory lock, which the system gives back where the file is closed.
fn lock(file: &File) -> Result<(), FileFault> {
    match file.try_lock() {
        Ok(()) => Ok(()),
        Err(TryLockError::WouldBlock) => Err(FileFault::InUse),
        Err(TryLockError::Error(error)) => Err(FileFault::Unreadable(error)),
    }
}

// Makes the file's name lasting: a name is its folder's.
fn sync_folder<R: Files<File = File>>(rt: &R, path: Path<'_>) -> io::Result<()> {
    let folder = match path.parent() {
        Some(folder) if !folder.as_str().is_empty() => folder,
        _ => Path::new("."),
    };
    File::open(rt, folder)?.sync_all()
}
