//! What is done to a disk in memory between the calls of a journal, and how long the disk is then.
use ide_disk::{DeviceFault, Disk, MemDisk};

/// Whether the disk has so many bytes.
pub fn has_length(disk: &mut MemDisk, expected: u64) -> bool {
    match disk.len() {
        Ok(len) => len == expected,
        Err(_) => false,
    }
}

/// Writes the bytes at a place of the disk; a fault where it is behind the disk's end.
pub fn damage(disk: &mut MemDisk, at: u64, bytes: &[u8]) -> Result<(), DeviceFault> {
    if at > disk.len()? {
        return Err(DeviceFault);
    }
    disk.write(at, bytes)
}

/// Cuts the disk to a length; a fault where it is shorter.
pub fn cut(disk: &mut MemDisk, len: u64) -> Result<(), DeviceFault> {
    if len > disk.len()? {
        return Err(DeviceFault);
    }
    disk.cut(len)
}
