//! Sealed records that the writer does not have yet.
ghost use Rattle.std.specs.Prelude.{◌≡◌, ◌<◌, ◌≤◌, ◌+◌, ◌∷◌, ◌++◌, [], length, option_map, OnErr, OnOk};
ghost use Rattle.std.specs.VecDeque.{deque_capacity, deque_len};
ghost use Rattle.ide_journal.specs.Lists.{entries_of, entry_of};
ghost use Rattle.ide_store.specs.TableCalls.{behind_first};

use ide_journal::RawRecord;
use std::alloc::AllocError;
use std::collections::VecDeque;

/// The most records of a store.
pub const MOST_RECORDS: u64 = 4_294_967_295;

/// The number of a sealed record, from 0 on.
#[derive(Clone, Copy, PartialEq, Eq, Debug)]
pub struct Ticket {
    pub number: u64,
}

/// The records that wait for the writer, the oldest first, and how many were sealed in all.
#[derive(Drop)]
pub(crate) struct Outbox {
    pub(crate) waiting: VecDeque<RawRecord>,
    pub(crate) sealed: u64,
}

impl Outbox {
    /// Makes room for so many records more.
    pub(crate) fn reserve(&mut self, additional: usize) -> Result<(), AllocError>
        ensures room { OnOk result (deque_len self.new.waiting + additional ≤ deque_capacity self.new.waiting) }
        ensures waiting { self.new.waiting.items ≡ self.old.waiting.items }
        ensures sealed { self.new.sealed ≡ self.old.sealed }
    {
        self.waiting.reserve(additional)
    }

    /// Seals the record, for which there is room and a number.
    pub(crate) fn push(&mut self, raw: RawRecord) -> Ticket
        requires room { deque_len self.old.waiting < deque_capacity self.old.waiting }
        requires number { self.old.sealed < 4294967295 }
        ensures ticket { result.number ≡ self.old.sealed }
        ensures sealed { self.new.sealed ≡ self.old.sealed + 1 }
        ensures waiting { self.new.waiting.items ≡ self.old.waiting.items ++ raw ∷ [] }
        ensures len { deque_len self.new.waiting ≡ deque_len self.old.waiting + 1 }
        ensures capacity { deque_capacity self.new.waiting ≡ deque_capacity self.old.waiting }
    {
        let number = self.sealed;
        self.waiting.push_back_reserved(raw);
        self.sealed += 1;
        Ticket { number }
    }

    /// Seals the first record, if there is one, and then the other, whose number it answers. There is
    /// room for both, and a number.
    pub(crate) fn push_behind(&mut self, first: Option<RawRecord>, raw: RawRecord) -> Ticket
        requires room { deque_len self.old.waiting + 2 ≤ deque_capacity self.old.waiting }
        requires number { self.old.sealed < 4294967294 }
        ensures ticket { result.number + 1 ≡ self.new.sealed }
        ensures sealed { self.new.sealed ≡ self.old.sealed + length (behind_first (option_map entry_of first) (entry_of raw)) }
        ensures waiting { entries_of self.new.waiting.items ≡ entries_of self.old.waiting.items ++ behind_first (option_map entry_of first) (entry_of raw) }
    {
        if let Some(batch) = first {
            let _ = self.push(batch);
        }
        self.push(raw)
    }
}
