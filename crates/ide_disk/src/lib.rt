//! Disks that may crash at any moment.
//!
//! [`Disk`] is what those above it may rely on: what a read gives, and what a crash may leave, now
//! and since an earlier moment. [`MemDisk`] is a disk in memory that can be told to fail, to stop
//! and to crash.
#![tactic(auto)]

mod bytes;
mod call;
mod contents;
mod counter;
mod disk;
mod fault;
mod leave;
mod leaving;
mod memory;

pub use disk::Disk;
pub use fault::DeviceFault;
pub use leave::Leave;
pub use memory::MemDisk;
