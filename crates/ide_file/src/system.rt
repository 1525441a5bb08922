//! A file of the system.
ghost use Rattle.std.specs.Prelude.{◌≡◌, ℕ, List, [], true, IsTrue};
ghost use Rattle.ide_disk.specs.Disk.{settled};

use crate::BackingFile;
use std::fs::File;
use std::io;
use std::os::unix::fs::FileExt;

/// What the system does with the bytes no proof can know. So this file is never honest, and nothing is said
/// of its bytes; the lengths and the counts of a disk over it do not need that.
impl BackingFile for File {
    ghost honest = { λ _. ⊥ };

    ghost usable = { λ _. true };

    ghost state = { λ _. settled [] };

    ghost moment = { λ _. 0 };

    ghost left_since = { λ _ _ _. ⊥ };

    fn len(&mut self) -> io::Result<u64> {
        Ok(self.metadata()?.len())
    }

    fn read(&mut self, at: u64, out: &mut [u8]) -> io::Result<()> {
        self.read_exact_at(out, at)
    }

    fn write(&mut self, at: u64, bytes: &[u8]) -> io::Result<()> {
        self.write_all_at(bytes, at)
    }

    fn cut(&mut self, len: u64) -> io::Result<()> {
        self.set_len(len)
    }

    fn sync_bytes(&mut self) -> io::Result<()> {
        self.sync_data()
    }

    fn sync(&mut self) -> io::Result<()> {
        self.sync_all()
    }

    ghost possible = { λ _ never. absurd never };

    ghost counts_now = { λ _ _ _ never. absurd never };

    ghost only_now = { λ _ _ never. absurd never };
}
