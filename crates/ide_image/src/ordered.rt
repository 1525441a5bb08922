//! What is left of notes, in the order of keys.
//!
//! It is told by slots, at which keys, functions and marks are read once somebody wants them.
//!
//! Where its keys fill their pages well, a grid has them in the order of keys with no sort of these.
//! Elsewhere each slot is told by one number of 64 bits, which has its key's place among keys and the
//! index of its note. These are sorted, or where a key has no such number the keys themselves, each with
//! its slot.
ghost use Rattle.std.specs.Prelude.{◌≡◌, ℕ, ◌<◌, map, IfOk, IfSome};
ghost use Rattle.std.specs.List.{filter_map};
ghost use Rattle.std.specs.List.Sorted.{IsPermutation, IsSortedByKey};
ghost use Rattle.ide_wire.specs.KeyOrder.{key_cmp};
ghost use Rattle.ide_wire.specs.declared.key.Key.{Key};
ghost use Rattle.ide_image.specs.Ordered.{AreAllLeft, AreKeyedLeft, AreLeft, AreNumbersOf, AscendByKey, HasPagesOf, IsItemAt, IsKeyedIn, IsLeftOf, SaysIfLeft, keyed_item, slot_told};
ghost use Rattle.ide_image.specs.Ranks.{HasRank, IsNumberOf, key_rank};

use crate::grid::Grid;
use crate::noted_slots::NotedSlots;
use crate::parts;
use ide_lattice::EdgeFn;
use ide_wire::{Fact, Key, Node};
use std::alloc::{AllocError, Global};

/// The nodes of keys that have a rank are below this.
const NODES: Node = 8_388_608;

/// Their facts are below this.
const FACTS: Fact = 4_096;

/// The indices that a number may have.
const INDICES: usize = 65_536;

/// How many pages there may be for each note, for a grid: it has a number for each of them.
const PAGES: usize = 16;

/// How many notes there have to be for each page that has the key of one, for a grid.
const FILLED: usize = 8;

impl<'a, F: EdgeFn> NotedSlots<'a, F> {
    /// The slots of what is left of the notes, ascending by key.
    pub(crate) fn left_slots(&self, alloc: Global) -> Result<Vec<u32>, AllocError>
        ensures same { IfOk result (AreLeft F.eq self.now) }
        ensures sorted { IfOk result (AscendByKey self.now) }
    {
        match self.paged_slots(alloc)? {
            Some(slots) => Ok(slots),
            None => self.sorted_slots(alloc),
        }
    }

    /// The same by a sort of numbers, or of keys where these have none.
    fn sorted_slots(&self, alloc: Global) -> Result<Vec<u32>, AllocError>
        ensures same { IfOk result (AreLeft F.eq self.now) }
        ensures sorted { IfOk result (AscendByKey self.now) }
    {
        if let Some(mut numbers) = self.numbers(alloc)? {
            numbers.sort_unstable();
            self.told_slots(alloc, &numbers)
        } else {
            let mut keyed = self.keyed_slots(alloc)?;
            sort_by_key(&mut keyed);
            slots_of(alloc, &keyed)
        }
    }

    /// The same by pages: `None` where there are few notes for the pages, where nothing is left of one, or where not
    /// all of them are read, as where a page's first key has no rank.
    fn paged_slots(&self, alloc: Global) -> Result<Option<Vec<u32>>, AllocError>
        ensures same { IfOk result (λ told. IfSome told (AreLeft F.eq self.now)) }
        ensures sorted { IfOk result (λ told. IfSome told (AscendByKey self.now)) }
    {
        let Some(grid) = self.grid(alloc)? else {
            return Ok(None);
        };
        let Some(rows) = grid.numbers(alloc, self.indexed)? else {
            return Ok(None);
        };
        let count = self.notes.len();
        let slots = grid.slots(alloc, &rows, self.marks, count)?;
        if slots.len() != count {
            return Ok(None);
        }
        Ok(Some(slots))
    }

    /// A grid with the pages of the notes' keys, something being left of each note: `None` where nothing is left of
    /// one, or where the notes are few for all pages that there are, or for those of their keys, so that a sort takes
    /// less.
    fn grid(&self, alloc: Global) -> Result<Option<Grid>, AllocError>
        ensures left { IfOk result (λ found. IfSome found (λ _. AreAllLeft F.eq self.now)) }
        ensures pages { IfOk result (λ found. IfSome found (HasPagesOf self.now)) }
    {
        let count = self.notes.len();
        let pages = self.indexed.cell_count() / 64;
        if count > INDICES || count < pages / PAGES {
            return Ok(None);
        }
        let mut grid = Grid::new(alloc, pages)?;
        for index in 0..count {
            if !self.is_left_at(index) {
                return Ok(None);
            }
            let Some(slot) = self.slots.get(index) else {
                return Ok(None);
            };
            grid.put(*slot)?;
        }
        if grid.page_count() > count / FILLED {
            return Ok(None);
        }
        Ok(Some(grid))
    }

    /// The number of each item that is left of the notes, in the order of these: `None` where a key has no
    /// rank, or there are more notes than indices.
    fn numbers(&self, alloc: Global) -> Result<Option<Vec<u64>>, AllocError>
        ensures { IfOk result (λ told. IfSome told (AreNumbersOf F.eq self.now)) }
    {
        let count = self.notes.len();
        if count > INDICES {
            return Ok(None);
        }
        let mut numbers = Vec::with_capacity(alloc, count)?;
        for index in 0..count {
            if let Some(item) = self.left_at(index) {
                let Some(number) = number_of(item.0, index) else {
                    return Ok(None);
                };
                numbers.push_reserved(number);
            }
        }
        Ok(Some(numbers))
    }

    /// The slots that the numbers tell, in the order of these. It reads no note.
    fn told_slots(&self, alloc: Global, numbers: &[u64]) -> Result<Vec<u32>, AllocError>
        ensures { IfOk result (λ slots. slots.items ≡ filter_map (slot_told self.now) numbers.now) }
    {
        let count = numbers.len();
        let mut slots = Vec::with_capacity(alloc, count)?;
        for index in 0..count {
            if let Some(slot) = self.slot_told(numbers[index]) {
                slots.push_reserved(slot);
            }
        }
        Ok(slots)
    }

    /// The slot of the note whose index the number has.
    #[inline(always)]
    fn slot_told(&self, number: u64) -> Option<u32>
        ensures { result ≡ slot_told self.now number }
    {
        self.slots.get((number % 0x1_0000) as usize).copied()
    }

    /// The slots of what is left of the notes, in their order, each with its key.
    fn keyed_slots(&self, alloc: Global) -> Result<Vec<(Key, u32)>, AllocError>
        ensures { IfOk result (AreKeyedLeft F.eq self.now) }
    {
        let count = self.notes.len();
        let mut keyed = Vec::with_capacity(alloc, count)?;
        for index in 0..count {
            if let Some(slot) = self.keyed_at(index) {
                keyed.push_reserved(slot);
            }
        }
        Ok(keyed)
    }

    /// The slot of the note at an index with its key, if something is left of it: nothing behind the last one.
    #[inline(always)]
    fn keyed_at(&self, index: usize) -> Option<(Key, u32)>
        ensures left { IsLeftOf F.eq self.now index (keyed_item self.now result) }
        ensures keyed { IfSome result (IsKeyedIn self.now) }
    {
        let item = self.left_at(index)?;
        let slot = *self.slots.get(index)?;
        Some((item.0, slot))
    }

    /// Whether something is left of the note at an index: nothing is behind the last one. The note is read where it
    /// stands, as most of it is not looked at.
    #[inline(always)]
    fn is_left_at(&self, index: usize) -> bool
        ensures { SaysIfLeft F.eq self.now index result }
    {
        let Some(note) = self.notes.get(index) else {
            return false;
        };
        let Some(slot) = self.slots.get(index) else {
            return false;
        };
        parts::is_left_at(self.indexed, self.queue, *slot, note.0, &note.1)
    }

    /// What is left of the note at an index: nothing behind the last one.
    #[inline(always)]
    fn left_at(&self, index: usize) -> Option<(Key, F, bool)>
        ensures left { IsLeftOf F.eq self.now index result }
        ensures item { IfSome result (IsItemAt self.now index) }
    {
        let (key, before) = self.notes.get(index)?;
        let slot = *self.slots.get(index)?;
        parts::left_at(self.indexed, self.queue, slot, key, before)
    }
}

/// Sorts slots by their keys.
fn sort_by_key(keyed: &mut Vec<(Key, u32)>)
    ensures same { IsPermutation keyed.old.items keyed.new.items }
    ensures sorted { IsSortedByKey (λ (k : Key × ℕ). k.0) key_cmp keyed.new.items }
{
    keyed.sort_unstable_by_key(|slot| slot.0);
}

/// The slots without their keys.
fn slots_of(alloc: Global, keyed: &[(Key, u32)]) -> Result<Vec<u32>, AllocError>
    ensures { IfOk result (λ slots. slots.items ≡ map (λ k. k.1) keyed.now) }
{
    keyed.iter().map(|keyed| keyed.1).collect(alloc)
}

/// The number of the key and an index: `None` where the key has no rank.
pub(crate) fn number_of(key: Key, index: usize) -> Option<u64>
    requires few { index < 65536 }
    ensures { IfSome result (IsNumberOf key index) }
{
    let rank = rank(key)?;
    Some(rank * 0x1_0000 + index as u64)
}

/// The key's place among keys, a number of 48 bits: `None` where its node has more than 23 bits, or one
/// of its facts more than 12.
fn rank(key: Key) -> Option<u64>
    ensures rank { IfSome result (λ rank. rank ≡ key_rank key) }
    ensures ranked { IfSome result (λ rank. HasRank key) }
{
    let (kind, node, first, second) = match key {
        Key::Jump(node, first, second) => (0, node, first, second),
        Key::Summary(call, first, second) => (1, call, first, second),
    };
    if node >= NODES || first >= FACTS || second >= FACTS {
        return None;
    }
    let low = u64::from(first) * 0x1000 + u64::from(second);
    Some((kind * 0x80_0000 + u64::from(node)) * 0x100_0000 + low)
}
