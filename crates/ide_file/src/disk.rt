//! A disk over a file.
ghost use Rattle.std.specs.Prelude.{◌≡◌, ◌<◌, ◌^◌, ◌↔◌, false, length, IsTrue, IfOk};

use crate::{BackingFile, FileFault};
use ide_disk::{DeviceFault, Disk};

/// The largest length of a file, and so of a disk.
const LONGEST: u64 = 9223372036854775807;

/// A disk over a file, whose length it knows from the opening on. Each call of the disk is one call of the
/// file; a sync where the length did not change asks only for the bytes.
///
/// A call that the system refused is a fault, and so is a length that is not the one known. A write that
/// would end behind the largest length is one too, with no call of the file.
///
/// A write, a cut or a sync that was refused also stops the disk: how long the file is and what of it will
/// last is not known then. So each later call is a fault, with no call of the file; open it anew.
#[derive(Drop)]
pub struct FileDisk<F: BackingFile> {
    file: F,
    /// How long the file is.
    size: u64,
    /// It may have another length than at the last sync.
    resized: bool,
    calls: u64,
    failures: u64,
    /// A change was refused.
    stopped: bool,
    ghost bounded: { size < 2 ^ 63 },
    ghost usable: { stopped ≡ false → IsTrue (F.usable file) },
}

impl<F: BackingFile> FileDisk<F> {
    ghost use Rattle.ide_file.specs.FileDisk.{disk_size, disk_state, file_call_count, file_failure_count, IsWorking, IsSoundFile, CountsFailure};

    /// A disk over an open file, as long as the file answers: one call of the file. It is refused where that call
    /// is (`Unreadable`), and where the file is longer than a disk may be (`TooLong`).
    pub fn over(mut file: F) -> Result<Self, FileFault>
    where
        F: Drop,
        requires { IsTrue (F.usable file) }
        ensures honest { F.honest file → IfOk result IsSoundFile }
        ensures state { F.honest file → IfOk result (λ disk. disk_state disk ≡ F.state file) }
        ensures calls { IfOk result (λ disk. file_call_count disk ≡ 0) }
        ensures failures { IfOk result (λ disk. file_failure_count disk ≡ 0) }
        ensures working { IfOk result IsWorking }
    {
        let size = file.len().map_err(FileFault::Unreadable)?;
        if size > LONGEST {
            return Err(FileFault::TooLong);
        }
        Ok(FileDisk {
            file,
            size,
            resized: true,
            calls: 0,
            failures: 0,
            stopped: false,
        })
    }

    /// How long the file is, as known: no call of the file.
    pub fn size(&self) -> u64
        ensures { result ≡ disk_size self.now }
    {
        self.size
    }

    /// Whether no write, cut or sync was refused.
    pub fn is_working(&self) -> bool
        ensures { IsTrue result ↔ IsWorking self.now }
    {
        !self.stopped
    }

    /// How many calls of the disk were made, up to the largest number of 64 bits.
    pub fn calls(&self) -> u64
        ensures { result ≡ file_call_count self.now }
    {
        self.calls
    }

    /// How many of them failed, up to the same number.
    pub fn failures(&self) -> u64
        ensures { result ≡ file_failure_count self.now }
    {
        self.failures
    }

    // Counts a failure.
    fn fault(&mut self) -> DeviceFault
        ensures { CountsFailure self.old self.new }
    {
        self.failures = self.failures.saturating_add(1);
        DeviceFault
    }
}

impl<F: BackingFile> Disk for FileDisk<F> {
    ghost use Rattle.ide_file.specs.FileDisk.{disk_size, disk_state, disk_moment, disk_left_since, file_call_count, file_failure_count, IsSoundFile};

    ghost honest = { IsSoundFile };

    ghost size = { disk_size };

    ghost state = { disk_state };

    ghost moment = { disk_moment };

    ghost left_since = { disk_left_since };

    ghost calls = { file_call_count };

    ghost failures = { file_failure_count };

    fn len(&mut self) -> Result<u64, DeviceFault> {
        self.calls = self.calls.saturating_add(1);
        if self.stopped {
            return Err(self.fault());
        }
        match self.file.len() {
            Ok(count) if count == self.size => Ok(count),
            _ => Err(self.fault()),
        }
    }

    fn read(&mut self, at: u64, out: &mut [u8]) -> Result<(), DeviceFault> {
        self.calls = self.calls.saturating_add(1);
        if self.stopped || self.file.read(at, out).is_err() {
            return Err(self.fault());
        }
        Ok(())
    }

    fn write(&mut self, at: u64, bytes: &[u8]) -> Result<(), DeviceFault> {
        self.calls = self.calls.saturating_add(1);
        if self.stopped || bytes.len() as u64 > LONGEST - at {
            return Err(self.fault());
        }
        if self.file.write(at, bytes).is_err() {
            self.stopped = true;
            return Err(self.fault());
        }
        let end = at + bytes.len() as u64;
        if end > self.size {
            self.size = end;
            self.resized = true;
        }
        Ok(())
    }

    fn cut(&mut self, len: u64) -> Result<(), DeviceFault> {
        self.calls = self.calls.saturating_add(1);
        if self.stopped {
            return Err(self.fault());
        }
        if self.file.cut(len).is_err() {
            self.stopped = true;
            return Err(self.fault());
        }
        self.size = len;
        self.resized = true;
        Ok(())
    }

    fn sync(&mut self) -> Result<(), DeviceFault> {
        self.calls = self.calls.saturating_add(1);
        if self.stopped {
            return Err(self.fault());
        }
        let done = if self.resized {
            self.file.sync()
        } else {
            self.file.sync_bytes()
        };
        if done.is_err() {
            self.stopped = true;
            return Err(self.fault());
        }
        self.resized = false;
        Ok(())
    }

    ghost possible = { λ disk sound. F.possible disk.file sound.file };

    ghost whole = { λ disk sound. sound.whole };

    ghost bounded = { λ disk. disk.bounded };

    ghost counts_now = { λ disk t left sound. F.counts_now disk.file t left sound.file };

    ghost only_now = { λ disk left sound. F.only_now disk.file left sound.file };
}
