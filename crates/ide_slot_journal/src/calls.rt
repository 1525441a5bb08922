//! Calls of one disk.
ghost use Rattle.std.specs.Prelude.{◌≡◌, ◌+◌, ◌≤◌, length, OnOk};
ghost use Rattle.ide_slots.specs.DiskCalls.{Cuts, Syncs, Writes};
ghost use Rattle.ide_slot_journal.specs.OneDisk.{MakesDiskCall};

use ide_disk::{DeviceFault, Disk};

// Writes the bytes from that place on.
pub(crate) fn write<D: Disk>(disk: &mut D, at: u64, bytes: &[u8]) -> Result<(), DeviceFault>
    requires { at ≤ D.size disk.old }
    ensures call { MakesDiskCall D.Disk (Writes at bytes.now) result disk.old disk.new }
    ensures grows { D.size disk.old ≤ D.size disk.new }
    ensures end { OnOk result (at + length bytes.now ≤ D.size disk.new) }
{
    disk.write(at, bytes)
}

// Drops the bytes from that length on.
pub(crate) fn cut<D: Disk>(disk: &mut D, len: u64) -> Result<(), DeviceFault>
    requires { len ≤ D.size disk.old }
    ensures call { MakesDiskCall D.Disk (Cuts len) result disk.old disk.new }
    ensures leaves { len ≤ D.size disk.new }
{
    disk.cut(len)
}

// Brings all onto the disk.
pub(crate) fn sync<D: Disk>(disk: &mut D) -> Result<(), DeviceFault>
    ensures call { MakesDiskCall D.Disk Syncs result disk.old disk.new }
    ensures size { D.size disk.new ≡ D.size disk.old }
{
    disk.sync()
}
