//! The one error of a disk.
use thiserror::Error;

/// The device failed in the call. Of the bytes nothing more is known than what a crash may leave.
#[derive(Clone, Copy, PartialEq, Eq, Debug, Error)]
#[error("device fault")]
pub struct DeviceFault;
