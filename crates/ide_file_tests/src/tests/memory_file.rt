//! A file in memory. It meets the premise on the system with no honesty assumed, so the premise can be met.
ghost use Rattle.std.specs.Prelude.{◌≡◌, ◌+◌, ◌≤◌, None, true, refl};
ghost use Rattle.ide_disk.specs.Memory.{memory_size, memory_state, memory_moment, memory_since, room_of, log_of, log_count, failing_call, stopped_call};

use ide_disk::{Disk, MemDisk};
use ide_file::BackingFile;
use std::alloc::{AllocError, Global};
use std::io;
use std::io::ErrorKind;

/// A disk in memory that is told to fail nowhere, and is called only where the call can be recorded.
#[derive(Drop)]
pub(crate) struct MemoryFile {
    disk: MemDisk,
    size: usize,
    room: usize,
    /// How many calls and written bytes can be recorded yet.
    left: usize,
    ghost sized: { memory_size disk ≡ size },
    ghost roomy: { room_of disk ≡ room },
    ghost recorded: { log_count disk + left ≤ log_of disk },
    ghost untold: { failing_call disk ≡ None },
    ghost unstopped: { stopped_call disk ≡ None },
}

impl MemoryFile {
    /// An empty file with room for so many bytes, and for so many calls and written bytes.
    pub(crate) fn new(alloc: Global, room: usize, log: usize) -> Result<Self, AllocError> {
        let disk = MemDisk::new(alloc, room, log)?;
        Ok(MemoryFile {
            disk,
            size: 0,
            room,
            left: log,
        })
    }
}

fn refusal() -> io::Error {
    io::Error::from(ErrorKind::Other)
}

impl BackingFile for MemoryFile {
    ghost use Rattle.ide_disk.specs.Disk.{settled};
    ghost use Rattle.ide_disk.specs.Left.{possible_replay};
    ghost use Rattle.ide_disk.specs.Past.{counts_now, only_now};

    ghost honest = { λ _. Unit {0} };

    ghost usable = { λ _. true };

    ghost state = { λ file. memory_state file.disk };

    ghost moment = { λ file. memory_moment file.disk };

    ghost left_since = { λ file. memory_since file.disk };

    fn len(&mut self) -> io::Result<u64> {
        Ok(self.size as u64)
    }

    fn read(&mut self, at: u64, out: &mut [u8]) -> io::Result<()> {
        let end = at as usize + out.len();
        if self.left == 0 || end > self.size {
            return Err(refusal());
        }
        self.left -= 1;
        match self.disk.read(at, out) {
            Ok(()) => Ok(()),
            Err(_) => unreachable!(),
        }
    }

    fn write(&mut self, at: u64, bytes: &[u8]) -> io::Result<()> {
        let end = at as usize + bytes.len();
        if self.left <= bytes.len() || at as usize > self.size || end > self.room {
            return Err(refusal());
        }
        match self.disk.write(at, bytes) {
            Ok(()) => {
                self.left -= bytes.len() + 1;
                self.size = self.size.max(end);
                Ok(())
            }
            Err(_) => unreachable!(),
        }
    }

    fn cut(&mut self, len: u64) -> io::Result<()> {
        if self.left == 0 || len as usize > self.size {
            return Err(refusal());
        }
        match self.disk.cut(len) {
            Ok(()) => {
                self.left -= 1;
                self.size = len as usize;
                Ok(())
            }
            Err(_) => unreachable!(),
        }
    }

    fn sync_bytes(&mut self) -> io::Result<()> {
        self.sync()
    }

    fn sync(&mut self) -> io::Result<()> {
        if self.left == 0 {
            return Err(refusal());
        }
        match self.disk.sync() {
            Ok(()) => {
                self.left -= 1;
                Ok(())
            }
            Err(_) => unreachable!(),
        }
    }

    ghost possible = { λ file _. possible_replay file.disk.contents.calls.items file.disk.contents.written.items (settled file.disk.contents.start.items) refl };

    ghost counts_now = { λ file t left _. counts_now file.disk.contents.calls.items file.disk.contents.written.items (settled file.disk.contents.start.items) t left };

    ghost only_now = { λ file left _. only_now file.disk.contents.calls.items file.disk.contents.written.items (settled file.disk.contents.start.items) left };
}
