//! A disk in memory that can be told to fail, to stop and to crash.
ghost use Rattle.std.specs.Prelude.{◌≡◌, ◌+◌, ◌≤◌, ◌↔◌, max, [], length, refl, None, Some, IsOk, OnOk, IfOk};
ghost use Rattle.ide_disk.specs.Disk.{Wrote, Cut, CrashLeaves, LeavesAfter, LeavesAfterSync, read_at, settled, written, cut_to, synced_now};

use crate::contents::Contents;
use crate::counter::Counter;
use crate::{DeviceFault, Disk, Leave};
use std::alloc::{AllocError, Global};

/// A disk in memory. It takes all its memory when it is made, keeps a record of its calls, and
/// fails where a write does not fit, or where the record is full.
#[derive(Drop)]
pub struct MemDisk {
    contents: Contents,
    counter: Counter,
}

impl MemDisk {
    ghost use Rattle.ide_disk.specs.Memory.{memory_state, memory_bytes, room_of, log_of, log_count, call_count, failure_count, crash_left, failing_call, stopped_call, IsSameDisk};

    /// An empty disk with room for so many bytes, and for a record in which each call and each
    /// written byte counts one.
    pub fn new(alloc: Global, room: usize, log: usize) -> Result<Self, AllocError>
        ensures state { IfOk result (λ disk. memory_state disk ≡ settled []) }
        ensures room { IfOk result (λ disk. room_of disk ≡ room) }
        ensures log { IfOk result (λ disk. log_of disk ≡ log) }
        ensures recorded { IfOk result (λ disk. log_count disk ≡ 0) }

        ensures calls { IfOk result (λ disk. call_count disk ≡ 0) }
        ensures failures { IfOk result (λ disk. failure_count disk ≡ 0) }
        ensures failing { IfOk result (λ disk. failing_call disk ≡ None) }
        ensures stopped { IfOk result (λ disk. stopped_call disk ≡ None) }
    {
        let contents = Contents::new(alloc, room, log)?;
        Ok(MemDisk {
            contents,
            counter: Counter::new(),
        })
    }

    /// How many calls were made.
    pub fn calls(&self) -> u64
        ensures { result ≡ call_count self.now }
    {
        self.counter.calls
    }

    /// How many of them failed.
    pub fn failures(&self) -> u64
        ensures { result ≡ failure_count self.now }
    {
        self.counter.failures
    }

    /// Lets the call of that number fail, alone. Calls are counted from 1 since the disk was made. A write or
    /// a cut that fails so is done all the same, so a crash may leave it; a sync is not.
    pub fn fail_at(&mut self, call: u64)
        ensures failing { failing_call self.new ≡ Some call }
        ensures stopped { stopped_call self.new ≡ stopped_call self.old }
        ensures same { IsSameDisk self.old self.new }
    {
        self.counter.fail_at = Some(call);
    }

    /// Lets the call of that number and all later ones fail.
    pub fn stop_at(&mut self, call: u64)
        ensures failing { failing_call self.new ≡ failing_call self.old }
        ensures stopped { stopped_call self.new ≡ Some call }
        ensures same { IsSameDisk self.old self.new }
    {
        self.counter.stop_at = Some(call);
    }

    /// Crashes. What is left of the changes since the last sync counts as synced. The disk works again: no call
    /// is told to fail, and the record and its clock begin anew.
    pub fn crash(&mut self, leave: Leave)
        // What the kind says is left, and it is one of the outcomes that the model allows.
        ensures left { memory_state self.new ≡ settled (crash_left leave self.old) }
        ensures allowed { CrashLeaves (memory_state self.old) (memory_bytes self.new) }
        ensures old { leave ≡ Leave.Old → memory_bytes self.new ≡ (memory_state self.old).synced }
        ensures new { leave ≡ Leave.New → memory_bytes self.new ≡ memory_bytes self.old }

        ensures room { room_of self.new ≡ room_of self.old }
        ensures log { log_of self.new ≡ log_of self.old }
        ensures recorded { log_count self.new ≡ 0 }

        ensures calls { call_count self.new ≡ call_count self.old }
        ensures failures { failure_count self.new ≡ failure_count self.old }
        ensures failing { failing_call self.new ≡ None }
        ensures stopped { stopped_call self.new ≡ None }
    {
        self.contents.crash(leave);
        self.counter.fail_at = None;
        self.counter.stop_at = None;
    }
}

impl Disk for MemDisk {
    ghost use Rattle.std.proofs.Common.{sym, ap};
    ghost use Rattle.ide_disk.specs.Memory.{memory_size, memory_state, memory_moment, memory_since, call_count, failure_count, CanCall, CanWrite, CountsCall};
    ghost use Rattle.ide_disk.specs.Bounded.{bounded_length};
    ghost use Rattle.ide_disk.specs.Past.{counts_now, only_now};
    ghost use Rattle.ide_disk.specs.Left.{possible_replay};

    ghost honest = { λ _. Unit {0} };

    ghost size = { memory_size };

    ghost state = { memory_state };

    ghost moment = { memory_moment };

    ghost left_since = { memory_since };

    ghost calls = { call_count };

    ghost failures = { failure_count };

    fn len(&mut self) -> Result<u64, DeviceFault>
        ensures answer { IsOk result ↔ CanCall self.old 0 }
        ensures length { IfOk result (λ count. count ≡ memory_size self.old) }
        ensures size { memory_size self.new ≡ memory_size self.old }
        ensures state { memory_state self.new ≡ memory_state self.old }
        ensures counted { CountsCall result 0 self.old self.new }
    {
        let fails = self.counter.counts_call();
        if !self.contents.look() || fails {
            return Err(self.counter.fault());
        }
        Ok(self.contents.len() as u64)
    }

    fn read(&mut self, at: u64, out: &mut [u8]) -> Result<(), DeviceFault>
        requires { at + length out.old ≤ memory_size self.old }
        ensures answer { IsOk result ↔ CanCall self.old 0 }
        ensures bytes { OnOk result (out.new ≡ read_at at (length out.old) (memory_state self.old)) }
        ensures size { memory_size self.new ≡ memory_size self.old }
        ensures state { memory_state self.new ≡ memory_state self.old }
        ensures counted { CountsCall result 0 self.old self.new }
    {
        let fails = self.counter.counts_call();
        if !self.contents.read(at as usize, out) || fails {
            return Err(self.counter.fault());
        }
        Ok(())
    }

    fn write(&mut self, at: u64, bytes: &[u8]) -> Result<(), DeviceFault>
        requires { at ≤ memory_size self.old }
        ensures answer { IsOk result ↔ CanWrite self.old at (length bytes.now) }
        ensures grows { memory_size self.old ≤ memory_size self.new }
        ensures size { OnOk result (memory_size self.new ≡ max (memory_size self.old) (at + length bytes.now)) }
        ensures bytes { OnOk result (memory_state self.new ≡ written at bytes.now (memory_state self.old)) }
        ensures crash { LeavesAfter (Wrote at (length bytes.now)) (memory_state self.old) (memory_state self.new) }
        ensures counted { CountsCall result (length bytes.now) self.old self.new }
    {
        let fails = self.counter.counts_call();
        if !self.contents.write_over(at as usize, bytes) || fails {
            return Err(self.counter.fault());
        }
        Ok(())
    }

    fn cut(&mut self, len: u64) -> Result<(), DeviceFault>
        requires { len ≤ memory_size self.old }
        ensures answer { IsOk result ↔ CanCall self.old 0 }
        ensures shrinks { memory_size self.new ≤ memory_size self.old }
        ensures leaves { len ≤ memory_size self.new }
        ensures size { OnOk result (memory_size self.new ≡ len) }
        ensures bytes { OnOk result (memory_state self.new ≡ cut_to len (memory_state self.old)) }
        ensures crash { LeavesAfter (Cut len) (memory_state self.old) (memory_state self.new) }
        ensures counted { CountsCall result 0 self.old self.new }
    {
        let fails = self.counter.counts_call();
        if !self.contents.cut_off(len as usize) || fails {
            return Err(self.counter.fault());
        }
        Ok(())
    }

    fn sync(&mut self) -> Result<(), DeviceFault>
        ensures answer { IsOk result ↔ CanCall self.old 0 }
        ensures size { memory_size self.new ≡ memory_size self.old }
        ensures bytes { OnOk result (memory_state self.new ≡ synced_now (memory_state self.old)) }
        ensures crash { LeavesAfterSync (memory_state self.old) (memory_state self.new) }
        ensures counted { CountsCall result 0 self.old self.new }
    {
        if self.counter.counts_call() {
            let _ = self.contents.look();
            return Err(self.counter.fault());
        }
        if !self.contents.sync_all() {
            return Err(self.counter.fault());
        }
        Ok(())
    }

    ghost possible = { λ disk _. possible_replay disk.contents.calls.items disk.contents.written.items (settled disk.contents.start.items) refl };

    ghost whole = { λ disk _. ap length (sym disk.contents.replayed) };

    ghost bounded = { λ disk. bounded_length disk.contents };

    ghost counts_now = { λ disk t left _. counts_now disk.contents.calls.items disk.contents.written.items (settled disk.contents.start.items) t left };

    ghost only_now = { λ disk left _. only_now disk.contents.calls.items disk.contents.written.items (settled disk.contents.start.items) left };
}
