//! The map from keys to numbers.
ghost use Rattle.std.specs.Prelude.{◌≡◌, ◌≢◌, ℕ, Some, Ok, false, true, ◌+◌, ◌*◌, ◌%◌, ◌<◌, ◌≤◌, ◌^◌, ◌↔◌, ◌++◌, [], ◌∷◌, length, replicate, None, IfSome, IfOk, OnOk, OnErr, IsOkUnless};
ghost use Rattle.std.specs.List.{AllByRecursion, IsDistinct};
ghost use Rattle.std.specs.Map.{keys_of};
ghost use Rattle.ide_wire.specs.declared.key.Key.{Key};
ghost use Rattle.ide_wire.specs.declared.key.Key.TheVariants.{Jump, Summary};
ghost use Rattle.ide_wire.specs.declared.refused.Refused.TheVariants.{NoMemory};
ghost use Rattle.ide_wire.specs.Key.{same_key};
ghost use Rattle.ide_pages.specs.Pages.{AreBlocks, ArePaged, Fits, GrowsFor, IsAside, IsPage, IsRowOfJumps, IsRowOfSummaries, IsNumberIn, IsSmall, Puts, PutsRun, cell_of, entries, key_at, listed_fact, number_at, number_in, page_at, read_at, read_blocks, row_of, slot_at, weight};
ghost use Rattle.ide_pages.specs.Alike.{EndsAtOther, HaveNumber};
ghost use Rattle.ide_pages.specs.Rows.{KeepsPages, ListsIn, page_in, row_at};

use crate::cell_numbers::CellNumbers;
use crate::rows::Rows;
use crate::{cells, keys};
use ide_wire::{Fact, Key, Node, Refused};
use std::alloc::Global;
use std::marker::Model;

/// The most pages, so that the index of each has 32 bits.
const MOST_PAGES: usize = 4_294_967_295;

/// A finite map from keys to numbers, where an absent key has 0. It has 4,294,967,295 pages at most. A cell has room for
/// a number of one byte at first, and for greater ones once [`Pages::widen`] was called.
///
/// A page has the keys of 64 cells: of jumps those between two facts at the nodes of a block of 64, of summaries those
/// over one call from one fact to the facts of a block of 64. A look-up finds the row of a key's page, by a number, and a
/// search in the row finds the page: a row has those of jumps to one fact at one block, or those of summaries over one call
/// from one fact. None is needed for the page that was asked for last, nor for a row that is known: 1,024 of those that
/// were asked for are, at most.
#[derive(Drop)]
pub struct Pages {
    /// The key of each page.
    pages: Vec<Key>,
    /// The number in each cell.
    cells: CellNumbers,
    /// The index of each page, by its row.
    rows: Rows,
    count: usize,
    /// The index of the page that was asked for last: keys that follow each other along a procedure
    /// are on one page, which is found again with no look-up.
    last: usize,
}

impl Model for Pages {
    ghost use Rattle.ide_pages.specs.Pages.{ArePages, Numbers, numbers_within};

    ghost Value = { Numbers };

    ghost view = { λ p. numbers_within p.cells.most p.pages.items p.cells.items };

    ghost invariant = { λ p. ArePages p.pages.items p.cells.items p.rows p.count };
}

impl Pages {
    /// A map in which each key has 0, with no page. It allocates nothing.
    pub fn new(alloc: Global) -> Self
        ensures slots { result.slots ≡ [] }
        ensures pages { result.pages ≡ [] }
    {
        Pages {
            pages: Vec::new(alloc),
            cells: CellNumbers::new(alloc),
            rows: Rows::new(alloc),
            count: 0,
            last: 0,
        }
    }

    /// How many keys have a number that is not 0.
    pub fn len(&self) -> usize
        ensures count { result ≡ length (entries self.now) }
        ensures distinct { IsDistinct same_key (keys_of (entries self.now)) }
        ensures nonzero { AllByRecursion (λ entry. entry.1 ≢ 0) (entries self.now) }
    {
        self.count
    }

    /// The key's number. One look-up at most.
    #[inline(always)]
    pub fn number(&self, key: Key) -> u32
        ensures { result ≡ number_at self.now key }
    {
        let cell = cells::cell_near(
            &self.pages,
            &self.rows,
            self.last,
            keys::offset_of(key),
            keys::page_of(key),
        );
        cells::number_of(&self.cells, cell)
    }

    /// The key's cell, if there is its page. One look-up at most.
    #[inline(always)]
    pub fn cell(&self, key: Key) -> Option<usize>
        ensures { result ≡ cell_of self.now key }
    {
        cells::cell_near(
            &self.pages,
            &self.rows,
            self.last,
            keys::offset_of(key),
            keys::page_of(key),
        )
    }

    /// The same, where the page that has a cell is looked at first, and not the one that was asked for last: where it
    /// is the key's, there is no look-up.
    #[inline(always)]
    pub fn cell_near(&self, key: Key, near: usize) -> Option<usize>
        ensures { result ≡ cell_of self.now key }
    {
        cells::cell_near(
            &self.pages,
            &self.rows,
            near / 64,
            keys::offset_of(key),
            keys::page_of(key),
        )
    }

    /// How many cells there are: 64 for each page.
    #[inline(always)]
    pub fn cell_count(&self) -> usize
        ensures count { result ≡ length self.now.slots }
        ensures pages { result ≡ 64 * length self.now.pages }
        ensures paged { ArePaged self.now }
    {
        self.cells.len()
    }

    /// The number in the cell, which is that of the cell's key: 0 behind the last cell. No look-up.
    pub fn number_in(&self, cell: usize) -> u32
        ensures number { result ≡ number_in self.now cell }
        ensures same { IsNumberIn self.now cell result }
    {
        self.cells.get(cell)
    }

    /// How far the cells from one on, up to before another, have the number: where they end, or the cells do. No look-up.
    #[inline(always)]
    pub fn alike_to(&self, begin: usize, end: usize, number: u32) -> usize
        requires order { begin ≤ end }
        ensures from { begin ≤ result }
        ensures within { result ≤ end }
        ensures alike { HaveNumber number self.now begin result }
        ensures ends { result < end → EndsAtOther number self.now result }
    {
        self.cells.alike_to(begin, end, number)
    }

    /// The cell's key, or `None` behind the last cell. No look-up.
    pub fn key_in(&self, cell: usize) -> Option<Key>
        ensures key { IfSome result (λ key. cell_of self.now key ≡ Some cell) }
        ensures fits { IfSome result Fits }
        ensures end { (result ≡ None) ↔ (length self.now.slots ≤ cell) }
    {
        cells::key_at(&self.pages, cell)
    }

    /// The first page, from one on, that has jumps at the blocks of 64 nodes from `begin` to before `end`, by its index, that of its
    /// first cell over 64: none where that is no page's. It looks at each page up to there, and at no cell. No look-up.
    pub fn next_page(&self, page: usize, begin: usize, end: usize) -> usize
        ensures from { page ≤ result }
        ensures aside { (n : ℕ) → page ≤ n → n < result → IsAside begin end (page_at self.now.pages n) }
        ensures near { result < length self.now.pages → IsAside begin end (page_at self.now.pages result) → ⊥ }
    {
        for index in page..self.pages.len() {
            if !is_aside(self.pages[index], begin, end) {
                return index;
            }
        }
        page.max(self.pages.len())
    }

    /// The cell's key with its number, or `None` where the number is 0, and behind the last cell.
    /// No look-up.
    pub fn slot(&self, cell: usize) -> Option<(Key, u32)>
        ensures slot { result ≡ slot_at self.now cell }
        ensures present { IfSome result (λ entry. number_at self.now entry.0 ≡ entry.1) }
    {
        let number = self.cells.get(cell);
        if number == 0 {
            return None;
        }
        let key = cells::key_at(&self.pages, cell)?;
        Some((key, number))
    }

    /// The key's cell, for which a page of 64 zeros is made where there is none and there are fewer pages than the limit
    /// and than 4,294,967,295: else it is refused as `NoMemory`, which leaves the map as it was. Where there is the page
    /// it takes one look-up at most, and no memory; a new page takes time in proportion to those of its row.
    #[inline(always)]
    pub fn cell_for(&mut self, key: Key, limit: usize) -> Result<usize, Refused>
        ensures cell { IfOk result (λ cell. cell_of self.new key ≡ Some cell) }
        ensures there { IfSome (cell_of self.old key) (λ cell. result ≡ Ok cell) }
        ensures grows { GrowsFor key limit self.old self.new }
        ensures err { OnErr result (self.new ≡ self.old) }
        ensures refused { IsOkUnless result NoMemory }
    {
        let page = keys::page_of(key);
        let offset = keys::offset_of(key);
        if cells::is_page_at(&self.pages, self.last, page) {
            return Ok(64 * self.last + offset);
        }
        let found = self.rows.seek(keys::row_of(page), keys::listed_fact(page));
        if let Some(index) = found {
            self.last = index as usize;
            return Ok(64 * self.last + offset);
        }
        self.cell_on_new_page(key, limit)
    }

    /// The cell of the key, which has none, on a page that is made for it. Few keys need one, so it stands apart: what it
    /// takes of a key need not be kept where the page is there.
    #[inline(never)]
    fn cell_on_new_page(&mut self, key: Key, limit: usize) -> Result<usize, Refused>
        requires absent { cell_of self.old key ≡ None }
        ensures cell { IfOk result (λ cell. cell_of self.new key ≡ Some cell) }
        ensures grows { GrowsFor key limit self.old self.new }
        ensures err { OnErr result (self.new ≡ self.old) }
        ensures refused { IsOkUnless result NoMemory }
    {
        if self.pages.len() >= limit {
            return Err(Refused::NoMemory);
        }
        let page = keys::page_of(key);
        let offset = keys::offset_of(key);
        let index = add_page(&mut self.pages, &mut self.cells, &mut self.rows, page)?;
        self.last = index;
        Ok(64 * index + offset)
    }

    /// The greatest number that a cell has room for: one of one byte at first.
    #[inline(always)]
    pub fn most(&self) -> usize
        ensures { result ≡ self.now.most }
    {
        self.cells.most()
    }

    /// Makes room in each cell for numbers up to this one. Where there was none, it copies the numbers to two bytes each, or
    /// four, and gives the memory that they had back then, in time in proportion to them; or else it does nothing.
    ///
    /// Refusal: `NoMemory`, which leaves the map as it was.
    pub fn widen(&mut self, most: u32) -> Result<(), Refused>
        ensures most { OnOk result (most ≤ self.new.most) }
        ensures kept { self.old.most ≤ self.new.most }
        ensures slots { self.new.slots ≡ self.old.slots }
        ensures pages { self.new.pages ≡ self.old.pages }
        ensures err { OnErr result (self.new ≡ self.old) }
        ensures refused { IsOkUnless result NoMemory }
    {
        self.cells.widen(most)?;
        Ok(())
    }

    /// Puts the number into the cell, which is the key's and has room for it. Of the key the clauses speak; the call
    /// does not look at it. No look-up, and no memory.
    pub fn set(&mut self, cell: usize, key: Key, number: u32)
        requires cell { cell_of self.old key ≡ Some cell }
        requires fits { number ≤ self.old.most }
        ensures puts { Puts self.old self.new key number }
        ensures most { self.new.most ≡ self.old.most }
    {
        let old = self.cells.replace(cell, number);
        self.count = counted(self.count, old, number);
    }

    /// Puts the number, which is not 0, into so many cells from one on, which have room for it and 0 so far. The cells are of
    /// pages that there are. No look-up, and no memory.
    #[inline(always)]
    pub fn set_run(&mut self, cell: usize, count: usize, number: u32)
        requires there { cell + count ≤ length self.old.slots }
        requires absent { (n : ℕ) → n < count → number_at self.old (key_at self.old.pages (cell + n)) ≡ 0 }
        requires some { 0 < number }
        requires fits { number ≤ self.old.most }
        ensures puts { PutsRun (λ n. key_at self.old.pages (cell + n)) number self.old count self.new }
        ensures most { self.new.most ≡ self.old.most }
    {
        self.cells.write_run(cell, count, number);
        self.count += count;
    }

    /// The pages that have the jumps at the node to the fact: for each the fact at the start of its
    /// procedure, and the page's index, ascending by fact. The number of such a jump is that in the
    /// cell at 64 times the index and the node's offset, its remainder by 64. They are lent: it takes
    /// one look-up and no memory.
    pub fn pages_of_jumps(&self, node: Node, fact: Fact) -> &[(Fact, u32)]
        ensures row { IsRowOfJumps node fact self.now (read_at self.now (node % 64) result.now) }
    {
        self.rows.row(keys::row_of(Key::Jump(node / 64, 0, fact)))
    }

    /// The pages that have the summaries over the call from the fact: for each a block of 64 facts at the return site,
    /// and the page's index, ascending by block. The number of the summary to the fact at an offset of its block is that in
    /// the cell at 64 times the index and the offset. They are lent: it takes one look-up and no memory.
    pub fn pages_of_summaries(&self, call: Node, fact: Fact) -> &[(Fact, u32)]
        ensures row { IsRowOfSummaries call fact self.now (read_blocks self.now result.now) }
        ensures few { AreBlocks result.now }
    {
        self.rows.row(keys::row_of(Key::Summary(call, fact, 0)))
    }

    /// A map with the same numbers in the same cells.
    pub fn copy(&self, alloc: Global) -> Result<Pages, Refused>
        ensures ok { IfOk result (λ copy. copy ≡ self.now) }
        ensures refused { IsOkUnless result NoMemory }
    {
        let pages = self.pages.to_vec(alloc)?;
        let cells = self.cells.copy(alloc)?;
        let rows = self.rows.copy(alloc)?;
        Ok(Pages {
            pages,
            cells,
            rows,
            count: self.count,
            last: self.last,
        })
    }
}

// The count of the entries, where a cell's number takes the place of another.
fn counted(count: usize, old: u32, number: u32) -> usize
    requires within { weight old ≤ count }
    requires few { count + weight number < 2 ^ 64 + weight old }
    ensures { result + weight old ≡ count + weight number }
{
    count - usize::from(old != 0) + usize::from(number != 0)
}

// Adds a page of zeros behind the others, and answers its index. One more than 4,294,967,295 pages are refused.
fn add_page(
    pages: &mut Vec<Key>,
    cells: &mut CellNumbers,
    rows: &mut Rows,
    page: Key,
) -> Result<usize, Refused>
    requires page { IsPage page }
    requires small { IsSmall page }
    requires absent { page_in (row_at rows.old (row_of page)) (listed_fact page) ≡ None }
    ensures index { IfOk result (λ index. index ≡ length pages.old.items) }
    ensures few { IfOk result (λ index. index + 1 < 2 ^ 32) }
    ensures pages { OnOk result (pages.new.items ≡ pages.old.items ++ page ∷ []) }
    ensures cells { OnOk result (cells.new.items ≡ cells.old.items ++ replicate 64 0) }
    ensures rows { IfOk result (λ index. ListsIn (row_of page) (listed_fact page) index rows.old rows.new) }
    ensures same_pages { OnErr result (pages.new.items ≡ pages.old.items) }
    ensures same_cells { OnErr result (cells.new.items ≡ cells.old.items) }
    ensures most { cells.new.most ≡ cells.old.most }
    ensures same_rows { OnErr result (KeepsPages rows.old rows.new) }
    ensures refused { IsOkUnless result NoMemory }
{
    let index = pages.len();
    if index >= MOST_PAGES {
        return Err(Refused::NoMemory);
    }
    cells.reserve(64)?;
    pages.reserve(1)?;
    rows.insert(keys::row_of(page), keys::listed_fact(page), index as u32)?;
    cells.add_page();
    pages.push_reserved(page);
    Ok(index)
}

/// Whether the page has no jumps at the blocks of 64 nodes from one to before another.
#[inline(always)]
fn is_aside(page: Key, begin: usize, end: usize) -> bool
    ensures aside { result ≡ true → IsAside begin end page }
    ensures near { result ≡ false → IsAside begin end page → ⊥ }
{
    match page {
        Key::Jump(block, _, _) => (block as usize) < begin || end <= block as usize,
        Key::Summary(_, _, _) => true,
    }
}
