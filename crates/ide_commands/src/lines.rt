//! Lines that tell a number.
ghost use Rattle.std.specs.Prelude.{◌≡◌, ◌++◌, OnOk};
ghost use Rattle.ide_commands.specs.Lines.{number_line, version_number};

use ide_journal::Version;
use itoa::Buffer;
use std::alloc::AllocError;

/// Appends a line of what is told and its number.
pub(crate) fn append_line(told: &[u8], number: u64, out: &mut Vec<u8>) -> Result<(), AllocError>
    ensures { OnOk result (out.new.items ≡ out.old.items ++ number_line told.now number) }
{
    out.extend_from_slice(told)?;
    out.extend_from_slice(Buffer::new().format(number).as_bytes())?;
    out.extend_from_slice(b"\n")
}

/// The number of a version.
pub(crate) fn version_number(version: Version) -> u64
    ensures { result ≡ version_number version }
{
    match version {
        Version::One => 1,
        Version::Two => 2,
    }
}
