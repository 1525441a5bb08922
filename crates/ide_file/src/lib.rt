//! A disk over a file of the system.
//!
//! [`FileDisk`] is an `ide_disk::Disk` over a [`BackingFile`], of which `std::fs::File` is one.
//! `FileDisk::create` and `FileDisk::open` take a path, lock the file there and measure it.
//!
//! # What is known of the bytes
//!
//! Lengths and counts are proved for any file, whatever the system answers. What a clause of `Disk`
//! says of the bytes it says of an honest disk, and a disk over a file is honest where the file is:
//! the clauses of [`BackingFile`] under its `honest` are the premise on the system, call by call. From
//! them it is proved, for every such file, that the disk over it keeps each clause of `Disk`. In words
//! the premise is:
//!
//! - a read, a write, a cut or a measure that was answered with success did what it says, and nobody
//!   else changes the file (the lock is advisory);
//! - after a sync that was answered with success a crash leaves what a read gives, also of what was
//!   written before the file was opened;
//! - a crash changes nothing outside of what was written or cut since the last such sync, also where a
//!   write or a cut was refused. Nothing else is assumed of a file after a refusal.
//!
//! No contract of the standard library says what a file holds, so nobody can prove the premise of
//! `std::fs::File`. Its impl therefore claims no honesty (`honest` never holds), and the clauses on bytes
//! of a `FileDisk<File>` say nothing. Code that is generic over the `BackingFile` keeps them, under the
//! premise. What is left to trust is then the six calls in the impl for `File`, each of one line: that
//! they meet the clauses of the trait. That the premise can be met is proved in `ide_file_tests`, of a
//! file in memory.
#![tactic(auto)]

mod backing;
mod disk;
mod fault;
mod opening;
mod system;

pub use backing::BackingFile;
pub use disk::FileDisk;
pub use fault::FileFault;
