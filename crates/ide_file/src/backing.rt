//! What a disk asks of the file that it stands on.
ghost use Rattle.std.specs.Prelude.{◌≡◌, ℕ, ◌+◌, ◌^◌, ◌<◌, ◌≤◌, Bool, List, length, IsTrue, IfOk, OnOk, OnErr};
ghost use Rattle.ide_disk.specs.Disk.{DiskState, Wrote, Cut, CrashLeaves, LeavesAfter, LeavesAfterSync, read_at, written, cut_to, synced_now};
ghost use Rattle.ide_disk.specs.Time.{Elapses};
ghost use Rattle.ide_file.specs.Length.{IsAsLong};

use std::io;

/// An open file, on a machine that may crash at any moment. The system may refuse each call.
///
/// What is said of the bytes is said of an honest file: the clauses under `honest` are the premise on the
/// system under which a disk over the file is honest. Where a write, a cut or a sync was refused, no call
/// follows: a system knows little of a file then. Part of a write may have been done and the file be longer,
/// and after a refused sync the next one may succeed with nothing made lasting.
pub trait BackingFile {
    /// The file behaves as its state says.
    ghost honest: { Self → Type 0 };

    /// No change of it was refused so far.
    ghost usable: { Self → Bool };

    /// What was synced, what was changed since, and what a read gives.
    ghost state: { Self → DiskState };

    /// The moment, as a number that does not fall.
    ghost moment: { Self → ℕ };

    /// What a crash at some moment from that one on may have left, during a call or between two.
    ghost left_since: { Self → ℕ → List ℕ → Type 0 };

    /// Asks how many bytes there are.
    fn len(&mut self) -> io::Result<u64>
        requires { IsTrue (usable self.old) }
        ensures length { honest self.old → IfOk result (λ count. count ≡ length (state self.old).now) }
        ensures state { honest self.old → state self.new ≡ state self.old }
        ensures honest { honest self.old → honest self.new }
        ensures usable { IsTrue (usable self.new) }
        ensures time { honest self.old → Elapses moment left_since state self.old self.new };

    /// Fills the buffer with the bytes from a place on.
    fn read(&mut self, at: u64, out: &mut [u8]) -> io::Result<()>
        requires usable { IsTrue (usable self.old) }
        requires bounded { at + length out.old < 2 ^ 63 }
        ensures bytes { honest self.old → OnOk result (out.new ≡ read_at at (length out.old) (state self.old)) }
        ensures state { honest self.old → state self.new ≡ state self.old }
        ensures honest { honest self.old → honest self.new }
        ensures usable { IsTrue (usable self.new) }
        ensures time { honest self.old → Elapses moment left_since state self.old self.new };

    /// Writes over what is there, and past the end.
    fn write(&mut self, at: u64, bytes: &[u8]) -> io::Result<()>
        requires usable { IsTrue (usable self.old) }
        requires bounded { at + length bytes.now < 2 ^ 63 }
        ensures bytes { honest self.old → at ≤ length (state self.old).now → OnOk result (state self.new ≡ written at bytes.now (state self.old)) }
        // Nothing is read any more then: the bytes stand for any so many that a crash may leave.
        ensures refused { honest self.old → OnErr result (length (state self.new).now ≡ length (state self.old).now) }
        ensures crash { honest self.old → LeavesAfter (Wrote at (length bytes.now)) (state self.old) (state self.new) }
        ensures honest { honest self.old → honest self.new }
        ensures usable { OnOk result (IsTrue (usable self.new)) }
        ensures time { honest self.old → Elapses moment left_since state self.old self.new };

    /// Drops the bytes from a length on.
    fn cut(&mut self, len: u64) -> io::Result<()>
        requires usable { IsTrue (usable self.old) }
        requires bounded { len < 2 ^ 63 }
        ensures bytes { honest self.old → len ≤ length (state self.old).now → OnOk result (state self.new ≡ cut_to len (state self.old)) }
        ensures refused { honest self.old → OnErr result (length (state self.new).now ≡ length (state self.old).now) }
        ensures crash { honest self.old → LeavesAfter (Cut len) (state self.old) (state self.new) }
        ensures honest { honest self.old → honest self.new }
        ensures usable { OnOk result (IsTrue (usable self.new)) }
        ensures time { honest self.old → Elapses moment left_since state self.old self.new };

    /// Makes all changes lasting, where the file is as long as it was at the last sync.
    fn sync_bytes(&mut self) -> io::Result<()>
        requires { IsTrue (usable self.old) }
        ensures bytes { honest self.old → IsAsLong (state self.old) → OnOk result (state self.new ≡ synced_now (state self.old)) }
        ensures refused { honest self.old → OnErr result (length (state self.new).now ≡ length (state self.old).now) }
        ensures crash { honest self.old → LeavesAfterSync (state self.old) (state self.new) }
        ensures honest { honest self.old → honest self.new }
        ensures usable { OnOk result (IsTrue (usable self.new)) }
        ensures time { honest self.old → Elapses moment left_since state self.old self.new };

    /// Makes all changes lasting, and the length.
    fn sync(&mut self) -> io::Result<()>
        requires { IsTrue (usable self.old) }
        ensures bytes { honest self.old → OnOk result (state self.new ≡ synced_now (state self.old)) }
        ensures refused { honest self.old → OnErr result (length (state self.new).now ≡ length (state self.old).now) }
        ensures crash { honest self.old → LeavesAfterSync (state self.old) (state self.new) }
        ensures honest { honest self.old → honest self.new }
        ensures usable { OnOk result (IsTrue (usable self.new)) }
        ensures time { honest self.old → Elapses moment left_since state self.old self.new };

    /// What a read gives is something that a crash may leave.
    ghost possible: { (file : Self) → honest file → CrashLeaves (state file) (state file).now };

    /// This moment is one of those since an earlier one.
    ghost counts_now: { (file : Self) (t : ℕ) (left : List ℕ) → honest file → t ≤ moment file → CrashLeaves (state file) left → left_since file t left };

    /// Since this moment there is no other.
    ghost only_now: { (file : Self) (left : List ℕ) → honest file → left_since file (moment file) left → CrashLeaves (state file) left };
}
