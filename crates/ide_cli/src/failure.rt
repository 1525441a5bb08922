//! Why a command has no answer.
use ide_wire::Refused;
use std::alloc::AllocError;
use std::fs;
use std::rt::Files;

/// Why a command has no answer.
#[derive(Drop)]
pub(crate) enum Failure<'a> {
    /// The file of that name cannot be opened or read.
    CannotRead(&'a str),
    /// The second file of the store of that name cannot be opened.
    CannotReadSecond(&'a str),
    /// A call was refused.
    Refused(Refused),
}

impl<'a> From<Refused> for Failure<'a> {
    fn from(refused: Refused) -> Failure<'a> {
        Failure::Refused(refused)
    }
}

impl<'a> From<AllocError> for Failure<'a> {
    fn from(error: AllocError) -> Failure<'a> {
        Failure::Refused(Refused::from(error))
    }
}

/// The bytes of the file.
pub(crate) fn read_file<'a, R: Files + AllocGlobal>(
    rt: &R,
    file: &'a str,
) -> Result<Vec<u8>, Failure<'a>> {
    match fs::read(rt, file) {
        Ok(bytes) => Ok(bytes),
        Err(_) => Err(Failure::CannotRead(file)),
    }
}
