//! Services over stores on disks in memory.
ghost use Rattle.std.specs.Prelude.{◌≡◌, Ok};

use ide_disk::MemDisk;
use ide_instances::CopyConst;
use ide_service::Service;
use ide_wire::Refused;
use std::process::Abort;

/// A service over such a store.
pub(crate) type Served<J> = Service<CopyConst, MemDisk, J>;

/// What a call gave that is not to be refused.
pub(crate) fn given<T>(rt: &impl Abort, found: Result<T, Refused>) -> T
    ensures { found ≡ Ok result }
{
    found.expect(rt, "this is not to be refused")
}
