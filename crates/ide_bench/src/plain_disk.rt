//! A disk in memory that is bytes and nothing else.
ghost use Rattle.std.specs.Prelude.{◌≡◌, ◌+◌, ◌≤◌, ◌↔◌, [], take, length, slice_range, vec_capacity, IsOk, IfOk, OnErr, OnOk};
ghost use Rattle.ide_disk.specs.Disk.{put_at, settled};

use ide_disk::{DeviceFault, Disk};
use std::alloc::{AllocError, Global};

/// A disk in memory for what is timed.
///
/// `MemDisk` keeps each call and each written byte a second time, so that a test can crash it at any moment. That is no
/// cost of a store, and it shows in a short run: one page more is touched for each page that is written. Here a
/// write puts its bytes in their place, and that is all.
///
/// So it cannot be crashed, no call of it can be told to fail, and a sync has nothing to do. As it does not know what a
/// crash would leave, it claims no honesty, and what `Disk` says of an honest disk it does not say. That its bytes are
/// those that were written is proved of its calls themselves.
#[derive(Drop)]
pub(crate) struct PlainDisk {
    bytes: Vec<u8>,
    /// How many bytes there may be.
    room: usize,
    calls: u64,
    failures: u64,
    ghost fits: { length bytes.items ≤ room },
    ghost has_room: { room ≤ vec_capacity bytes },
}

impl PlainDisk {
    ghost use Rattle.ide_bench.specs.PlainDisk.{plain_bytes, plain_room, plain_calls, plain_failures, CountsFailure};

    /// An empty disk with room for so many bytes, none of which is touched.
    pub(crate) fn new(alloc: Global, room: usize) -> Result<Self, AllocError>
        ensures bytes { IfOk result (λ disk. plain_bytes disk ≡ []) }
        ensures room { IfOk result (λ disk. plain_room disk ≡ room) }
        ensures calls { IfOk result (λ disk. plain_calls disk ≡ 0) }
        ensures failures { IfOk result (λ disk. plain_failures disk ≡ 0) }
    {
        Ok(PlainDisk {
            bytes: Vec::with_capacity(alloc, room)?,
            room,
            calls: 0,
            failures: 0,
        })
    }

    /// Counts a failure.
    fn fault(&mut self) -> DeviceFault
        ensures { CountsFailure self.old self.new }
    {
        self.failures = self.failures.saturating_add(1);
        DeviceFault
    }
}

impl Disk for PlainDisk {
    ghost use Rattle.ide_bench.specs.PlainDisk.{plain_bytes, plain_size, plain_room, plain_calls, plain_failures, CountsCall};
    ghost use Rattle.ide_bench.specs.PlainLength.{plain_bounded};

    ghost honest = { λ _. ⊥ };

    ghost size = { plain_size };

    ghost state = { λ _. settled [] };

    ghost moment = { λ _. 0 };

    ghost left_since = { λ _ _ _. ⊥ };

    ghost calls = { plain_calls };

    ghost failures = { plain_failures };

    fn len(&mut self) -> Result<u64, DeviceFault>
        ensures answer { IsOk result }
        ensures length { IfOk result (λ count. count ≡ plain_size self.old) }
        ensures bytes { plain_bytes self.new ≡ plain_bytes self.old }
        ensures counted { CountsCall result self.old self.new }
    {
        self.calls = self.calls.saturating_add(1);
        Ok(self.bytes.len() as u64)
    }

    fn read(&mut self, at: u64, out: &mut [u8]) -> Result<(), DeviceFault>
        requires { at + length out.old ≤ plain_size self.old }
        ensures answer { IsOk result }
        ensures read { out.new ≡ slice_range (plain_bytes self.old) at (at + length out.old) }
        ensures bytes { plain_bytes self.new ≡ plain_bytes self.old }
        ensures counted { CountsCall result self.old self.new }
    {
        self.calls = self.calls.saturating_add(1);
        let start = at as usize;
        out.copy_from_slice(&self.bytes[start..start + out.len()]);
        Ok(())
    }

    fn write(&mut self, at: u64, bytes: &[u8]) -> Result<(), DeviceFault>
        requires { at ≤ plain_size self.old }
        ensures answer { IsOk result ↔ (at + length bytes.now ≤ plain_room self.old) }
        ensures written { OnOk result (plain_bytes self.new ≡ put_at at bytes.now (plain_bytes self.old)) }
        ensures refused { OnErr result (plain_bytes self.new ≡ plain_bytes self.old) }
        ensures counted { CountsCall result self.old self.new }
    {
        self.calls = self.calls.saturating_add(1);
        let start = at as usize;
        if bytes.len() > self.room - start {
            return Err(self.fault());
        }
        overwrite(&mut self.bytes, start, bytes);
        Ok(())
    }

    fn cut(&mut self, len: u64) -> Result<(), DeviceFault>
        requires { len ≤ plain_size self.old }
        ensures answer { IsOk result }
        ensures cut { plain_bytes self.new ≡ take len (plain_bytes self.old) }
        ensures counted { CountsCall result self.old self.new }
    {
        self.calls = self.calls.saturating_add(1);
        self.bytes.truncate(len as usize);
        Ok(())
    }

    fn sync(&mut self) -> Result<(), DeviceFault>
        ensures answer { IsOk result }
        ensures bytes { plain_bytes self.new ≡ plain_bytes self.old }
        ensures counted { CountsCall result self.old self.new }
    {
        self.calls = self.calls.saturating_add(1);
        Ok(())
    }

    ghost possible = { λ _ never. absurd never };

    ghost whole = { λ _ never. absurd never };

    ghost bounded = { plain_bounded };

    ghost counts_now = { λ _ _ _ never. absurd never };

    ghost only_now = { λ _ _ never. absurd never };
}

/// Puts the bytes over others from a place on, and what is left of them behind the end.
fn overwrite(bytes: &mut Vec<u8>, at: usize, new: &[u8])
    requires { at + length new.now ≤ vec_capacity bytes.old }
    ensures items { bytes.new.items ≡ put_at at new.now bytes.old.items }
    ensures capacity { vec_capacity bytes.old ≤ vec_capacity bytes.new }
{
    let end = at + new.len();
    if end <= bytes.len() {
        bytes[at..end].copy_from_slice(new);
        return;
    }
    bytes.truncate(at);
    match bytes.extend_from_slice(new) {
        Ok(()) => {}
        Err(_) => unreachable!(),
    }
}
