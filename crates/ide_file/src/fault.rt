//! Why a file is not opened.
use std::io;
use thiserror::Error;

/// Why no disk was made over a file.
#[derive(Debug, Drop, Error)]
pub enum FileFault {
    /// The system refused to open, to measure or to lock the file, or to sync its folder.
    #[error("the file cannot be opened: {0}")]
    Unreadable(io::Error),
    /// Another open of the file has its lock.
    #[error("the file is in use")]
    InUse,
    /// The file has 2 to the 63 bytes or more.
    #[error("the file is too long")]
    TooLong,
}
