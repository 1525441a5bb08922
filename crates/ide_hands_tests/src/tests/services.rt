//! Services over stores on disks in memory.
ghost use Rattle.std.specs.Prelude.{◌≡◌, Ok};

use ide_desks::Accord;
use ide_disk::MemDisk;
use ide_instances::{ConstValue, CopyConst};
use ide_service::Service;
use ide_values::ValuePhase;
use ide_wire::{Fact, Node, Refused};
use std::alloc::Global;
use std::process::Abort;
use std::sync::Wait;

/// A service over such a store.
pub(crate) type Served<J> = Service<CopyConst, MemDisk, J>;

/// What a call gave that is not to be refused.
pub(crate) fn given<T>(rt: &impl Abort, found: Result<T, Refused>) -> T
    ensures { found ≡ Ok result }
{
    found.expect(rt, "this is not to be refused")
}

/// The value of the fact at the node, in the service's image.
pub(crate) fn value_at<J: Accord>(
    rt: &impl Wait,
    alloc: Global,
    service: &Served<J>,
    node: Node,
    fact: Fact,
) -> Result<ConstValue, Refused> {
    let closed = service.freeze(rt)?;
    let values = closed.values_alone(alloc)?;
    let value = values.at(node, fact)?;
    Ok(value)
}
