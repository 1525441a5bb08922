//! Calls of a disk in a row that stores on one disk and on two make.
ghost use Rattle.std.specs.Prelude.{◌≡◌, ◌⊎◌, ◌+◌, ◌<◌, length, OnOk, IfOk, IfErr};
ghost use Rattle.ide_disk.specs.Disk.{settled};
ghost use Rattle.ide_disk.specs.Time.{failures_after};
ghost use Rattle.ide_journal.specs.Moments.{OnlyLooks};
ghost use Rattle.ide_journal.specs.Opening.{CutsDisk, LeavesFront};
ghost use Rattle.ide_journal.specs.Refusals.{CountsFaults};

use ide_disk::{DeviceFault, Disk};
use ide_wire::Refused;
use std::alloc::Global;

/// All bytes of the disk.
///
/// Refusals: `NoMemory`; `Disk`, where a call of the disk failed.
pub fn read_all<D: Disk>(alloc: Global, disk: &mut D) -> Result<Vec<u8>, Refused>
    ensures bytes { D.honest disk.old → IfOk result (λ it. it.items ≡ (D.state disk.old).now) }
    ensures length { IfOk result (λ bytes. length bytes.items ≡ D.size disk.old) }
    ensures same { OnlyLooks D.Disk disk.old disk.new }
    ensures failures { CountsFaults D.Disk result disk.old disk.new }
    ensures refused { IfErr result (λ e. (e ≡ Refused.NoMemory) ⊎ (e ≡ Refused.Disk)) }
{
    let len = match disk.len() {
        Ok(len) => len as usize,
        Err(_) => return Err(Refused::Disk),
    };
    let mut bytes = Vec::with_capacity(alloc, len)?;
    bytes.resize(len, 0)?;
    match disk.read(0, &mut bytes) {
        Ok(()) => Ok(bytes),
        Err(_) => Err(Refused::Disk),
    }
}

/// Puts the bytes in the place of all that the disk has, and brings them onto the disk.
pub fn rewrite<D: Disk>(disk: &mut D, bytes: &[u8]) -> Result<(), DeviceFault>
    ensures size { OnOk result (D.size disk.new ≡ length bytes.now) }
    ensures bytes { D.honest disk.old → OnOk result (D.state disk.new ≡ settled bytes.now) }
    ensures honest { D.honest disk.old → D.honest disk.new }
    ensures failures { D.failures disk.new ≡ failures_after result (D.failures disk.old) }
{
    disk.cut(0)?;
    disk.write(0, bytes)?;
    disk.sync()
}

/// Drops what stands behind a closed gate at that place, and brings that onto the disk.
pub fn cut_behind<D: Disk>(disk: &mut D, gate: u64) -> Result<(), DeviceFault>
    requires { gate < D.size disk.old }
    ensures size { OnOk result (gate < D.size disk.new) }
    ensures bytes { D.honest disk.old → OnOk result (CutsDisk D.Disk gate disk.old disk.new) }
    ensures honest { D.honest disk.old → D.honest disk.new }
    ensures any_moment { D.honest disk.old → LeavesFront D.Disk gate disk.old disk.new }
    ensures failures { D.failures disk.new ≡ failures_after result (D.failures disk.old) }
{
    disk.cut(gate + 1)?;
    disk.sync()
}
