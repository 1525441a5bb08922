//! What is done to a disk in memory between the calls of a store.
use ide_disk::{Disk, MemDisk};
use std::process::Abort;

/// Writes these bytes over those of a disk at a place.
pub(crate) fn overwrite(rt: &impl Abort, disk: &mut MemDisk, at: u64, bytes: &[u8]) {
    let Ok(length) = disk.len() else {
        panic!(rt; "a disk in memory has a length");
    };
    assert!(rt; at <= length);
    assert!(rt; disk.write(at, bytes).is_ok());
}

/// Cuts a disk to a length.
pub(crate) fn cut(rt: &impl Abort, disk: &mut MemDisk, length: u64) {
    let Ok(before) = disk.len() else {
        panic!(rt; "a disk in memory has a length");
    };
    assert!(rt; length <= before);
    assert!(rt; disk.cut(length).is_ok());
}
