//! Pages of noted keys, and the order in which the slots of these are read.
//!
//! A page of jumps has those of one pair of facts at 64 nodes that stand side by side, and keys are ordered by nodes
//! before facts. So the jumps of a block of 64 nodes ascend where the pages of the block, ordered by facts, are
//! read offset by offset. A page of summaries has those over one call from one fact, which ascend offset by offset: it is
//! a block of its own. So pages are sorted, which are few, and no keys.
ghost use Rattle.std.specs.Prelude.{◌≡◌, ◌+◌, ◌/◌, ◌%◌, ◌<◌, ◌≤◌, [], true, length, IfOk, IfSome, OnOk};
ghost use Rattle.std.specs.List.{All};
ghost use Rattle.ide_image.specs.ChangeLog.{is_noted_in};
ghost use Rattle.ide_image.specs.Grid.{AreNumbersOfRows, AreOfBlock, AreReadOn, AreRows, AreStarts, BeginsBlock, HasPage, IsPage, IsRowNumber, IsStart, KeepsPages, RanksAscend, ReadsOffsets, block_of};

use crate::indexed::Indexed;
use crate::noted_marks::NotedMarks;
use crate::ordered::number_of;
use ide_lattice::EdgeFn;
use ide_pages::offset_of;
use std::alloc::{AllocError, Global};
use std::marker::Model;

/// The offsets of a page.
const OFFSETS: u32 = 64;

/// The rows that a grid may have, so that a row's number has 16 bits.
const ROWS: usize = 65_536;

/// What numbers of one rank have in common: the quotient by this.
const RANK: u64 = 0x1_0000;

/// What the numbers of all pages of a block of jumps have in common: the quotient by this.
const BLOCK: u64 = 0x100_0000_0000;

/// The numbers of jumps are below this, and those of summaries are not.
const SUMMARIES: u64 = 0x8000_0000_0000_0000;

/// A row for each page that has a noted slot.
#[derive(Drop)]
pub(crate) struct Grid {
    /// Whether each page has a row.
    has_row: Vec<bool>,
    /// The page of each row.
    pages: Vec<u32>,
}

impl Model for Grid {
    ghost use Rattle.std.specs.Prelude.{ℕ, List};
    ghost use Rattle.ide_image.specs.Grid.{IsGrid};

    ghost Value = { List ℕ };

    ghost view = { λ g. g.pages.items };

    ghost invariant = { λ g. IsGrid g.has_row.items g.pages.items };
}

impl Grid {
    /// A grid with no row, for so many pages.
    pub(crate) fn new(alloc: Global, pages: usize) -> Result<Grid, AllocError>
        ensures { IfOk result (λ grid. grid ≡ []) }
    {
        Ok(Grid {
            has_row: vec![in alloc; false; pages]?,
            pages: Vec::new(alloc),
        })
    }

    /// How many pages have a row.
    pub(crate) fn page_count(&self) -> usize
        ensures { result ≡ length self.now }
    {
        self.pages.len()
    }

    /// Makes a row for the slot's page, if there is none.
    #[inline(always)]
    pub(crate) fn put(&mut self, slot: u32) -> Result<(), AllocError>
        ensures row { OnOk result (HasPage self.new (slot / 64)) }
        ensures same { KeepsPages self.old self.new }
    {
        let page = slot / 64;
        if self.has_row(page) {
            return Ok(());
        }
        self.add_row(page)
    }

    /// Whether the page has a row.
    #[inline(always)]
    fn has_row(&self, page: u32) -> bool
        ensures { result ≡ true → HasPage self.now page }
    {
        match self.has_row.get(page as usize) {
            Some(has_row) => *has_row,
            None => false,
        }
    }

    /// Makes a row for a page.
    fn add_row(&mut self, page: u32) -> Result<(), AllocError>
        requires { IsPage page }
        ensures row { OnOk result (HasPage self.new page) }
        ensures same { KeepsPages self.old self.new }
    {
        self.pages.push(page)?;
        let index = page as usize;
        if index < self.has_row.len() {
            self.has_row[index] = true;
        }
        Ok(())
    }

    /// A number for each row, with the rank of its page's first key, and the row: they ascend. `None` where such a key
    /// has no rank or stands at a node that is no multiple of 64, or there are more rows than may be.
    pub(crate) fn numbers<F: EdgeFn>(
        &self,
        alloc: Global,
        indexed: &Indexed<F>,
    ) -> Result<Option<Vec<u64>>, AllocError>
        ensures numbers { IfOk result (λ found. IfSome found (AreNumbersOfRows indexed.now self.now)) }
        ensures rows { IfOk result (λ found. IfSome found (λ numbers. AreRows self.now numbers.items)) }
    {
        let Some(mut numbers) = self.listed_numbers(alloc, indexed)? else {
            return Ok(None);
        };
        numbers.sort_unstable();
        if !ranks_ascend(&numbers) {
            return Ok(None);
        }
        Ok(Some(numbers))
    }

    /// The number of each row.
    fn listed_numbers<F: EdgeFn>(
        &self,
        alloc: Global,
        indexed: &Indexed<F>,
    ) -> Result<Option<Vec<u64>>, AllocError>
        ensures { IfOk result (λ found. IfSome found (AreNumbersOfRows indexed.now self.now)) }
    {
        let count = self.pages.len();
        if count > ROWS {
            return Ok(None);
        }
        let mut numbers = Vec::with_capacity(alloc, count)?;
        for row in 0..count {
            let Some(number) = self.row_number(indexed, row) else {
                return Ok(None);
            };
            numbers.push_reserved(number);
        }
        Ok(Some(numbers))
    }

    /// The number of a row, if its page has a first key, which has a rank, at a node that is a multiple of 64.
    fn row_number<F: EdgeFn>(&self, indexed: &Indexed<F>, row: usize) -> Option<u64>
        requires few { row < 65536 }
        requires there { row < length self.now }
        ensures number { IfSome result (IsRowNumber indexed.now self.now) }
        ensures row { IfSome result (λ number. number % 65536 ≡ row) }
    {
        let key = indexed.first_key(self.pages[row] as usize)?;
        if offset_of(key) != 0 {
            return None;
        }
        number_of(key, row)
    }

    /// The noted slots on the grid, block by block of its rows, which the numbers tell: so many at most.
    pub(crate) fn slots(
        &self,
        alloc: Global,
        rows: &[u64],
        marks: NotedMarks<'_>,
        most: usize,
    ) -> Result<Vec<u32>, AllocError>
        requires { AreRows self.now rows.now }
        ensures { IfOk result (AreReadOn (is_noted_in marks.entry) self.now rows.now) }
    {
        let starts = self.first_slots(alloc, rows)?;
        let mut slots = Vec::with_capacity(alloc, most)?;
        for row in 0..rows.len() {
            if begins_block(rows, row) {
                push_block(marks, &starts[row..block_end(rows, row)], &mut slots);
            }
        }
        Ok(slots)
    }

    /// The first slot of each page, in the order of the rows that the numbers tell.
    fn first_slots(&self, alloc: Global, rows: &[u64]) -> Result<Vec<u32>, AllocError>
        requires { AreRows self.now rows.now }
        ensures { IfOk result (λ starts. AreStarts self.now rows.now (length rows.now) starts.items) }
    {
        let count = rows.len();
        let mut starts = Vec::with_capacity(alloc, count)?;
        for index in 0..count {
            let page = self.pages[(rows[index] % RANK) as usize];
            starts.push_reserved(OFFSETS * page);
        }
        Ok(starts)
    }
}

/// Appends the noted slots in the rows of a block, which begin with these slots, offset by offset.
fn push_block(marks: NotedMarks<'_>, block: &[u32], slots: &mut Vec<u32>)
    requires { All IsStart block.now }
    ensures { ReadsOffsets (is_noted_in marks.entry) block.now 0 64 slots.old slots.new }
{
    for offset in 0..OFFSETS {
        push_column(marks, block, offset, slots);
    }
}

/// Appends those at an offset, row by row, as long as there is room.
#[inline(always)]
fn push_column(marks: NotedMarks<'_>, block: &[u32], offset: u32, slots: &mut Vec<u32>)
    requires starts { All IsStart block.now }
    requires offset { offset < 64 }
    ensures { ReadsOffsets (is_noted_in marks.entry) block.now offset (offset + 1) slots.old slots.new }
{
    for row in 0..block.len() {
        let slot = block[row] + offset;
        if marks.is_noted(slot as usize) && slots.len() < slots.capacity() {
            slots.push_reserved(slot);
        }
    }
}

/// Whether the ranks of the numbers ascend: no two are of one rank.
fn ranks_ascend(numbers: &[u64]) -> bool
    ensures { result ≡ true → RanksAscend numbers.now }
{
    for row in 1..numbers.len() {
        if numbers[row - 1] / RANK >= numbers[row] / RANK {
            return false;
        }
    }
    true
}

/// The block of a number: the pages of jumps at the same nodes are one, and each page of summaries is one.
#[inline(always)]
fn block_of(number: u64) -> u64
    ensures { result ≡ block_of number }
{
    if number < SUMMARIES {
        number / BLOCK
    } else {
        number / RANK
    }
}

/// Whether the number at an index is the first of its block.
fn begins_block(numbers: &[u64], index: usize) -> bool
    requires there { index < length numbers.now }
    ensures { result ≡ true → BeginsBlock numbers.now index }
{
    index == 0 || block_of(numbers[index - 1]) != block_of(numbers[index])
}

/// Where the block of the number at an index ends.
fn block_end(numbers: &[u64], index: usize) -> usize
    requires there { index < length numbers.now }
    ensures from { index < result }
    ensures to { result ≤ length numbers.now }
    ensures block { AreOfBlock numbers.now index result }
{
    let block = block_of(numbers[index]);
    for end in index + 1..numbers.len() {
        if block_of(numbers[end]) != block {
            return end;
        }
    }
    numbers.len()
}
