//! A disk as those above it see it: what a read gives, and what a crash may leave.
ghost use Rattle.std.specs.Prelude.{◌≡◌, ℕ, ◌+◌, ◌^◌, ◌<◌, ◌≤◌, max, List, length, IfOk, OnOk};
ghost use Rattle.ide_disk.specs.Disk.{DiskState, Wrote, Cut, CrashLeaves, LeavesAfter, LeavesAfterSync, read_at, written, cut_to, synced_now};
ghost use Rattle.ide_disk.specs.Time.{Elapses, next_count, failures_after};

use crate::DeviceFault;

/// A device of bytes that may fail in any call, and crash at any moment.
///
/// What is said of the bytes is said of an honest disk. Lengths and counts are kept by any.
pub trait Disk {
    /// The disk behaves as its state says.
    ghost honest: { Self → Type 0 };

    /// How many bytes a read may reach.
    ghost size: { Self → ℕ };

    /// What was synced, what was changed since, and what a read gives.
    ghost state: { Self → DiskState };

    /// The moment, as a number that does not fall.
    ghost moment: { Self → ℕ };

    /// What a crash at some moment from that one on may have left, during a call or between two.
    ghost left_since: { Self → ℕ → List ℕ → Type 0 };

    /// How many calls were made, up to the largest number of 64 bits.
    ghost calls: { Self → ℕ };

    /// How many of them failed, up to the largest number of 64 bits.
    ghost failures: { Self → ℕ };

    /// How many bytes there are.
    fn len(&mut self) -> Result<u64, DeviceFault>
        ensures length { IfOk result (λ count. count ≡ size self.old) }
        ensures size { size self.new ≡ size self.old }
        ensures state { honest self.old → state self.new ≡ state self.old }
        ensures honest { honest self.old → honest self.new }
        ensures time { honest self.old → Elapses moment left_since state self.old self.new }
        ensures calls { calls self.new ≡ next_count (calls self.old) }
        ensures failures { failures self.new ≡ failures_after result (failures self.old) };

    /// Fills the buffer with the bytes from a place on.
    fn read(&mut self, at: u64, out: &mut [u8]) -> Result<(), DeviceFault>
        requires { at + length out.old ≤ size self.old }
        ensures bytes { honest self.old → OnOk result (out.new ≡ read_at at (length out.old) (state self.old)) }
        ensures size { size self.new ≡ size self.old }
        ensures state { honest self.old → state self.new ≡ state self.old }
        ensures honest { honest self.old → honest self.new }
        ensures time { honest self.old → Elapses moment left_since state self.old self.new }
        ensures calls { calls self.new ≡ next_count (calls self.old) }
        ensures failures { failures self.new ≡ failures_after result (failures self.old) };

    /// Writes over what is there, and past the end. Until a sync a crash may leave any bytes in the range,
    /// also where the call failed.
    fn write(&mut self, at: u64, bytes: &[u8]) -> Result<(), DeviceFault>
        requires { at ≤ size self.old }
        ensures grows { size self.old ≤ size self.new }
        ensures size { OnOk result (size self.new ≡ max (size self.old) (at + length bytes.now)) }
        ensures bytes { honest self.old → OnOk result (state self.new ≡ written at bytes.now (state self.old)) }
        ensures crash { honest self.old → LeavesAfter (Wrote at (length bytes.now)) (state self.old) (state self.new) }
        ensures honest { honest self.old → honest self.new }
        ensures time { honest self.old → Elapses moment left_since state self.old self.new }
        ensures calls { calls self.new ≡ next_count (calls self.old) }
        ensures failures { failures self.new ≡ failures_after result (failures self.old) };

    /// Drops the bytes from a length on. Until a sync a crash may bring them back, or others in their place,
    /// also where the call failed.
    fn cut(&mut self, len: u64) -> Result<(), DeviceFault>
        requires { len ≤ size self.old }
        ensures shrinks { size self.new ≤ size self.old }
        ensures leaves { len ≤ size self.new }
        ensures size { OnOk result (size self.new ≡ len) }
        ensures bytes { honest self.old → OnOk result (state self.new ≡ cut_to len (state self.old)) }
        ensures crash { honest self.old → LeavesAfter (Cut len) (state self.old) (state self.new) }
        ensures honest { honest self.old → honest self.new }
        ensures time { honest self.old → Elapses moment left_since state self.old self.new }
        ensures calls { calls self.new ≡ next_count (calls self.old) }
        ensures failures { failures self.new ≡ failures_after result (failures self.old) };

    /// Makes all changes lasting: after it a crash leaves what a read gives.
    fn sync(&mut self) -> Result<(), DeviceFault>
        ensures size { size self.new ≡ size self.old }
        ensures bytes { honest self.old → OnOk result (state self.new ≡ synced_now (state self.old)) }
        ensures crash { honest self.old → LeavesAfterSync (state self.old) (state self.new) }
        ensures honest { honest self.old → honest self.new }
        ensures time { honest self.old → Elapses moment left_since state self.old self.new }
        ensures calls { calls self.new ≡ next_count (calls self.old) }
        ensures failures { failures self.new ≡ failures_after result (failures self.old) };

    /// What a read gives is something that a crash may leave.
    ghost possible: { (disk : Self) → honest disk → CrashLeaves (state disk) (state disk).now };

    /// A read reaches all bytes.
    ghost whole: { (disk : Self) → honest disk → length (state disk).now ≡ size disk };

    /// No disk is longer than a file can be.
    ghost bounded: { (disk : Self) → size disk < 2 ^ 63 };

    /// This moment is one of those since an earlier one.
    ghost counts_now: { (disk : Self) (t : ℕ) (left : List ℕ) → honest disk → t ≤ moment disk → CrashLeaves (state disk) left → left_since disk t left };

    /// Since this moment there is no other.
    ghost only_now: { (disk : Self) (left : List ℕ) → honest disk → left_since disk (moment disk) left → CrashLeaves (state disk) left };
}
