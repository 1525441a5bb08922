//! What a crash leaves of the recorded calls.
ghost use Rattle.std.specs.Prelude.{◌≡◌, ◌+◌, ◌≤◌, length, vec_capacity};
ghost use Rattle.ide_disk.specs.Leaving.{left_of_write, left_of_cut, left_of_call, leave_before, left_after, sync_count};
ghost use Rattle.ide_disk.specs.Record.{taken, all_taken, end_of, furthest_end};

use crate::Leave;
use crate::bytes::{fill, overwrite, pad};
use crate::call::Call;

// Leaves of a write over the bytes what the kind says.
fn leave_write(bytes: &mut Vec<u8>, at: usize, new: &[u8], leave: Leave)
    requires { at + length new.now ≤ vec_capacity bytes.old }
    ensures items { bytes.new.items ≡ left_of_write leave at new.now bytes.old.items }
    ensures capacity { vec_capacity bytes.old ≤ vec_capacity bytes.new }
{
    match leave {
        Leave::Old => {}
        Leave::New => overwrite(bytes, at, new),
        Leave::Half => {
            overwrite(bytes, at, &new[..new.len() / 2]);
            pad(bytes, at + new.len());
        }
        Leave::Fill(byte) => fill(bytes, at, new.len(), byte),
    }
}

// Leaves of a cut of the bytes what the kind says.
fn leave_cut(bytes: &mut Vec<u8>, len: usize, leave: Leave)
    ensures items { bytes.new.items ≡ left_of_cut leave len bytes.old.items }
    ensures capacity { vec_capacity bytes.old ≤ vec_capacity bytes.new }
{
    match leave {
        Leave::Old => {}
        Leave::New | Leave::Half | Leave::Fill(_) => bytes.truncate(len),
    }
}

// Leaves of a call what the kind says. What it wrote stands first.
fn leave_call(bytes: &mut Vec<u8>, call: Call, written: &[u8], leave: Leave)
    requires own { taken call ≤ length written.now }
    requires room { end_of call ≤ vec_capacity bytes.old }
    ensures items { bytes.new.items ≡ left_of_call leave call written.now bytes.old.items }
    ensures capacity { vec_capacity bytes.old ≤ vec_capacity bytes.new }
{
    match call {
        Call::Look | Call::Sync => {}
        Call::Write(at, count) => leave_write(bytes, at, &written[..count], leave),
        Call::Shorten(len) => leave_cut(bytes, len, leave),
    }
}

// A call before a sync is left whole.
fn leave_before(syncs: usize, leave: Leave) -> Leave
    ensures { result ≡ leave_before syncs leave }
{
    match syncs {
        0 => leave,
        _ => Leave::New,
    }
}

// How many of the calls are syncs.
fn sync_count(calls: &[Call]) -> usize
    ensures { result ≡ sync_count calls.now }
{
    calls.iter().filter(|call| call.is_sync()).count()
}

/// Leaves of the calls since the last sync what the kind says, and the earlier ones whole. What
/// they wrote stands end to end.
pub(crate) fn leave_all(bytes: &mut Vec<u8>, calls: &[Call], written: &[u8], leave: Leave)
    requires counted { all_taken calls.now ≡ length written.now }
    requires room { furthest_end calls.now ≤ vec_capacity bytes.old }
    ensures items { bytes.new.items ≡ left_after leave calls.now written.now bytes.old.items }
    ensures capacity { vec_capacity bytes.old ≤ vec_capacity bytes.new }
{
    let mut syncs = sync_count(calls);
    let mut from = 0;
    for call in calls {
        if call.is_sync() {
            syncs -= 1;
        }
        leave_call(bytes, *call, &written[from..], leave_before(syncs, leave));
        from += call.taken();
    }
}
