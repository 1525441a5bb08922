//! The bytes of a disk in memory, with a record of all that was done to them.
ghost use Rattle.std.specs.Prelude.{◌≡◌, ℕ, ◌+◌, ◌<◌, ◌≤◌, ◌↔◌, max, [], ◌∷◌, ◌++◌, length, slice_range, IsTrue, IfOk, vec_len, vec_capacity};
ghost use Rattle.std.specs.Bool.{OnTrue};
ghost use Rattle.ide_disk.specs.Disk.{Wrote, Cut, LeavesAfter, LeavesAfterSync, settled, synced_now};
ghost use Rattle.ide_disk.specs.Record.{IsNext, all_taken, furthest_end, replay};

use crate::Leave;
use crate::bytes::{overwrite, replace};
use crate::call::Call;
use crate::leaving::leave_all;
use std::alloc::{AllocError, Global};

/// The bytes and their past. It takes all its memory when it is made.
#[derive(Drop)]
pub(crate) struct Contents {
    /// The bytes before the recorded calls.
    start: Vec<u8>,
    /// The bytes after them.
    bytes: Vec<u8>,
    calls: Vec<Call>,
    /// The bytes of the recorded writes, end to end.
    written: Vec<u8>,
    /// How many bytes there may be.
    room: usize,
    /// How many calls and written bytes may be recorded.
    log: usize,
    ghost replayed: { bytes.items ≡ (replay calls.items written.items (settled start.items)).now },
    ghost counted: { all_taken calls.items ≡ length written.items },
    ghost fit: { furthest_end calls.items ≤ room },
    ghost start_fits: { length start.items ≤ room },
    ghost bytes_fit: { length bytes.items ≤ room },
    ghost record_fits: { length calls.items + length written.items ≤ log },
    ghost start_room: { room ≤ vec_capacity start },
    ghost bytes_room: { room ≤ vec_capacity bytes },
    ghost calls_room: { log ≤ vec_capacity calls },
    ghost written_room: { log ≤ vec_capacity written },
}

impl Contents {
    ghost use Rattle.ide_disk.specs.Contents.{contents_size, contents_state, contents_left, recorded_count, HasSpace, CanHold, Records, ShowsTheSame, HasWritten, HasCut};

    /// No bytes, with room for these many, and for a record of these many calls and written bytes.
    pub(crate) fn new(alloc: Global, room: usize, log: usize) -> Result<Self, AllocError>
        ensures state { IfOk result (λ contents. contents_state contents ≡ settled []) }
        ensures room { IfOk result (λ contents. contents.room ≡ room) }
        ensures log { IfOk result (λ contents. contents.log ≡ log) }
        ensures recorded { IfOk result (λ contents. recorded_count contents ≡ 0) }
    {
        let start = Vec::with_capacity(alloc, room)?;
        let bytes = Vec::with_capacity(alloc, room)?;
        let calls = Vec::with_capacity(alloc, log)?;
        let written = Vec::with_capacity(alloc, log)?;
        Ok(Contents {
            start,
            bytes,
            calls,
            written,
            room,
            log,
        })
    }

    pub(crate) fn len(&self) -> usize
        ensures { result ≡ contents_size self.now }
    {
        self.bytes.len()
    }

    /// Whether one more call, with these many bytes written, can be recorded.
    fn has_space(&self, count: usize) -> bool
        ensures { IsTrue result ↔ HasSpace self.now count }
    {
        count < self.log - (self.calls.len() + self.written.len())
    }

    /// Records a call that changes nothing, and says whether it could be recorded.
    pub(crate) fn look(&mut self) -> bool
        ensures answer { IsTrue result ↔ HasSpace self.old 0 }
        ensures recorded { Records 0 self.old self.new }
        ensures same { ShowsTheSame self.old self.new }
    {
        if !self.has_space(0) {
            return false;
        }
        note(&mut self.calls, &mut self.written, Call::Look, &[]);
        true
    }

    /// Fills the buffer with the bytes from a place on, and says whether that could be recorded.
    pub(crate) fn read(&mut self, at: usize, out: &mut [u8]) -> bool
        requires { at + length out.old ≤ contents_size self.old }
        ensures answer { IsTrue result ↔ HasSpace self.old 0 }
        ensures recorded { Records 0 self.old self.new }
        ensures read { OnTrue result (out.new ≡ slice_range self.old.bytes.items at (at + length out.old)) }
        ensures same { ShowsTheSame self.old self.new }
    {
        if !self.look() {
            return false;
        }
        out.copy_from_slice(&self.bytes[at..at + out.len()]);
        true
    }

    /// Writes the bytes from a place on, if they fit and can be recorded.
    pub(crate) fn write_over(&mut self, at: usize, bytes: &[u8]) -> bool
        requires { at ≤ contents_size self.old }
        ensures answer { IsTrue result ↔ CanHold self.old at (length bytes.now) }
        ensures recorded { Records (length bytes.now) self.old self.new }
        ensures grows { contents_size self.old ≤ contents_size self.new }
        ensures written { OnTrue result (HasWritten at bytes.now self.old self.new) }
        ensures crash { LeavesAfter (Wrote at (length bytes.now)) (contents_state self.old) (contents_state self.new) }
    {
        if at + bytes.len() > self.room {
            let _ = self.look();
            return false;
        }
        if !self.has_space(bytes.len()) {
            return false;
        }
        note(
            &mut self.calls,
            &mut self.written,
            Call::Write(at, bytes.len()),
            bytes,
        );
        overwrite(&mut self.bytes, at, bytes);
        true
    }

    /// Drops the bytes from a length on, if that can be recorded.
    pub(crate) fn cut_off(&mut self, len: usize) -> bool
        requires { len ≤ contents_size self.old }
        ensures answer { IsTrue result ↔ HasSpace self.old 0 }
        ensures recorded { Records 0 self.old self.new }
        ensures shrinks { contents_size self.new ≤ contents_size self.old }
        ensures leaves { len ≤ contents_size self.new }
        ensures cut { OnTrue result (HasCut len self.old self.new) }
        ensures crash { LeavesAfter (Cut len) (contents_state self.old) (contents_state self.new) }
    {
        if !self.has_space(0) {
            return false;
        }
        note(&mut self.calls, &mut self.written, Call::Shorten(len), &[]);
        self.bytes.truncate(len);
        true
    }

    /// Makes all changes lasting, if that can be recorded.
    pub(crate) fn sync_all(&mut self) -> bool
        ensures answer { IsTrue result ↔ HasSpace self.old 0 }
        ensures recorded { Records 0 self.old self.new }
        ensures bytes { self.new.bytes.items ≡ self.old.bytes.items }
        ensures state { OnTrue result (contents_state self.new ≡ synced_now (contents_state self.old)) }
        ensures crash { LeavesAfterSync (contents_state self.old) (contents_state self.new) }
    {
        if !self.has_space(0) {
            return false;
        }
        note(&mut self.calls, &mut self.written, Call::Sync, &[]);
        true
    }

    /// Leaves of the changes since the last sync what the kind says, and begins the record anew.
    pub(crate) fn crash(&mut self, leave: Leave)
        ensures state { contents_state self.new ≡ settled (contents_left leave self.old) }
        ensures room { self.new.room ≡ self.old.room }
        ensures log { self.new.log ≡ self.old.log }
        ensures recorded { recorded_count self.new ≡ 0 }
    {
        leave_all(&mut self.start, &self.calls, &self.written, leave);
        self.calls.clear();
        self.written.clear();
        replace(&mut self.bytes, &self.start);
    }
}

// Records a call, with the bytes that it wrote.
fn note(calls: &mut Vec<Call>, written: &mut Vec<u8>, call: Call, bytes: &[u8])
    requires calls { vec_len calls.old < vec_capacity calls.old }
    requires bytes { vec_len written.old + length bytes.now ≤ vec_capacity written.old }
    ensures next { IsNext call bytes.now calls.old.items calls.new.items written.old.items written.new.items }
    ensures calls_len { vec_len calls.new ≡ vec_len calls.old + 1 }
    ensures written_len { vec_len written.new ≡ vec_len written.old + length bytes.now }
    ensures calls_capacity { vec_capacity calls.old ≤ vec_capacity calls.new }
    ensures written_capacity { vec_capacity written.old ≤ vec_capacity written.new }
{
    match calls.push(call) {
        Ok(()) => {}
        Err(_) => unreachable!(),
    }
    match written.extend_from_slice(bytes) {
        Ok(()) => {}
        Err(_) => unreachable!(),
    }
}
