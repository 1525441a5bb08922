//! What an opening does to the disk.
ghost use Rattle.std.specs.Prelude.{◌≡◌, OnOk, IfOk, IfErr};
ghost use Rattle.ide_disk.specs.Disk.{CrashLeaves, settled};
ghost use Rattle.ide_journal.specs.Moments.{OnlyLooks};
ghost use Rattle.ide_journal.specs.Opening.{FitsIn, IsLoaded, IsRecovered, LeftOrSame};
ghost use Rattle.ide_journal.specs.Reading.{IsStoreOf};
ghost use Rattle.ide_journal.specs.Refusals.{CountsFaults, IsOpenRefusal, IsTagRefusal, RunsOn};

use crate::disk_calls::{cut_behind, read_all};
use crate::reading::{Loaded, read_file, read_head};
use ide_disk::Disk;
use ide_wire::Refused;
use std::alloc::Global;

/// The tag of the store that a disk holds.
#[tactic(auto, using(crate::specs::Refusals::tag_device, crate::specs::Refusals::tag_no_store))]
pub fn tag<D: Disk>(disk: &mut D) -> Result<u8, Refused>
    ensures told { D.honest disk.old → IfOk result (λ tag. IsStoreOf tag (D.state disk.old).now) }
    ensures same { OnlyLooks D.Disk disk.old disk.new }
    ensures refused { D.honest disk.old → IfErr result (IsTagRefusal (D.state disk.old).now) }
    ensures failures { CountsFaults D.Disk result disk.old disk.new }
{
    let len = match disk.len() {
        Ok(len) => len,
        Err(_) => return Err(Refused::Disk),
    };
    if len <= 4096 {
        return Err(Refused::NotAStore);
    }
    let mut page = [0; 4097];
    match disk.read(0, &mut page) {
        Ok(()) => {}
        Err(_) => return Err(Refused::Disk),
    }
    let Some((_, tag)) = read_head(&page) else {
        return Err(Refused::NotAStore);
    };
    Ok(tag)
}

// The store with that tag that the disk holds, once what a read gives is on the disk.
#[tactic(auto, using(crate::specs::Refusals::open_device))]
fn load<D: Disk>(alloc: Global, disk: &mut D, tag: u8) -> Result<Loaded, Refused>
    ensures fits { IfOk result (FitsIn (D.size disk.new)) }
    ensures loaded { D.honest disk.old → IfOk result (IsLoaded tag (D.state disk.old).now) }
    ensures state { D.honest disk.old → OnOk result (D.state disk.new ≡ settled (D.state disk.old).now) }
    ensures runs { RunsOn D.Disk result disk.old disk.new (CrashLeaves (D.state disk.old)) }
    ensures refused { D.honest disk.old → IfErr result (IsOpenRefusal D.Disk tag disk.old disk.new) }
{
    let Ok(()) = disk.sync() else {
        return Err(Refused::Disk);
    };
    let bytes = read_all(alloc, disk)?;
    read_file(alloc, &bytes, tag)
}

/// The store with that tag that the disk holds. Nothing stays behind its closed gate.
#[tactic(auto, using(crate::specs::Refusals::open_device))]
pub(crate) fn recover<D: Disk>(alloc: Global, disk: &mut D, tag: u8) -> Result<Loaded, Refused>
    ensures fits { IfOk result (FitsIn (D.size disk.new)) }
    ensures recovered { D.honest disk.old → IfOk result (IsRecovered D.Disk tag disk.old disk.new) }
    ensures runs { RunsOn D.Disk result disk.old disk.new (LeftOrSame (D.state disk.old)) }
    ensures refused { D.honest disk.old → IfErr result (IsOpenRefusal D.Disk tag disk.old disk.new) }
{
    let loaded = load(alloc, disk, tag)?;
    match cut_behind(disk, loaded.gate) {
        Ok(()) => Ok(loaded),
        Err(_) => Err(Refused::Disk),
    }
}
