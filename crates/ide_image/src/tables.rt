//! The functions of an image's keys, to be read.
ghost use Rattle.std.specs.Prelude.{◌≡◌, ℕ, ◌*◌, ◌%◌, ◌<◌, ◌≤◌, None, Some, length, IfSome};
ghost use Rattle.std.specs.List.{IsDistinct, slice_index_or};
ghost use Rattle.std.specs.Map.{keys_of};
ghost use Rattle.ide_wire.specs.Key.{same_key};
ghost use Rattle.ide_image.specs.Cells.{AreAlike, BeginsWith, HasOthers, HasRoomBehind, ShowTable, function_shown_in};
ghost use Rattle.ide_image.specs.Indexed.{table_of};
ghost use Rattle.ide_image.specs.Tables.{found};

use crate::indexed::Indexed;
use ide_lattice::EdgeFn;
use ide_wire::Key;
use std::marker::Model;

/// The present keys of an image with their functions: an absent key stands for the function that
/// always gives top.
///
/// They are read by cells. Each key has one, and 64 cells side by side are a page: the jumps between one
/// pair of facts at 64 nodes that follow each other, or the summaries over one call from one fact to 64
/// facts that follow each other. So the key of a page's first cell tells those of its other cells, and a
/// walk over some nodes passes over pages at others. Of the order of pages nothing is said but that it
/// stays.
#[derive(Drop)]
pub struct Tables<F: EdgeFn> {
    indexed: Indexed<F>,
}

impl<F: EdgeFn> Model for Tables<F> {
    ghost use Rattle.ide_image.specs.Cells.{TablesData, tables_of};

    ghost Value = { TablesData F };

    ghost view = { λ t. tables_of t.indexed };
}

impl<F: EdgeFn> Tables<F> {
    /// The entries of the map, as tables.
    pub(crate) fn of(indexed: Indexed<F>) -> Self
        ensures { result.table ≡ table_of indexed.cells }
    {
        Tables { indexed }
    }

    /// The key's function, if the key is present.
    pub fn get(&self, key: Key) -> Option<F>
        ensures { result ≡ found self.now.table key }
    {
        // No two cells are of one key.
        let _ = self.indexed.cell_count();
        self.indexed.function_at(self.indexed.place(key))
    }

    /// How many keys are present.
    pub fn key_count(&self) -> usize
        ensures count { result ≡ length self.now.table.entries }
        ensures distinct { IsDistinct same_key (keys_of self.now.table.entries) }
    {
        self.indexed.len()
    }

    /// How many cells there are: 64 for each page.
    pub fn cell_count(&self) -> usize
        ensures count { result ≡ length self.now.cells }
        ensures pages { result % 64 ≡ 0 }
        ensures shown { ShowTable self.now }
    {
        self.indexed.cell_count()
    }

    /// The key that has the cell with its function, if it is present: `None` behind the last cell.
    /// No look-up.
    #[inline(always)]
    pub fn entry_in(&self, cell: usize) -> Option<(Key, F)>
        ensures entry { result ≡ slice_index_or self.now.cells cell None }
        ensures present { IfSome result (λ entry. found self.now.table entry.0 ≡ Some entry.1) }
    {
        // No two cells are of one key.
        let _ = self.indexed.cell_count();
        self.indexed.entry_at(cell)
    }

    /// The function in the cell, if its key is present: `None` behind the last cell. No look-up, and
    /// the key is not computed.
    #[inline(always)]
    pub fn function_in(&self, cell: usize) -> Option<F>
        ensures { result ≡ function_shown_in self.now cell }
    {
        self.indexed.kept_in(cell)
    }

    /// How far the cells from one on, up to before another, have the same function, or none: where they
    /// end. It is read once for all of them. No look-up.
    #[inline(always)]
    pub fn alike_to(&self, cell: usize, end: usize) -> usize
        requires { cell < end }
        ensures after { cell < result }
        ensures within { result ≤ end }
        ensures alike { AreAlike self.now cell result }
    {
        self.indexed.alike_to(cell, end)
    }

    /// The first page, from one on, that may have jumps at nodes of the blocks of 64 from `begin` to before `end`: none of the
    /// pages in front of it has. It is the index of no page where there is none. It looks at each page up to there, and at
    /// no cell. No look-up.
    pub fn next_page(&self, page: usize, begin: usize, end: usize) -> usize
        ensures from { page ≤ result }
        ensures others { (n : ℕ) → page ≤ n → n < result → HasOthers self.now begin end n }
    {
        self.indexed.next_page(page, begin, end)
    }

    /// The key of the page's first cell, be it present or absent, where a page is given by its index:
    /// `None` where there is no such page. Each other cell of the page is that of the key so many nodes
    /// further on, or so many facts where the key is a summary. No look-up.
    pub fn first_key(&self, page: usize) -> Option<Key>
        ensures first { IfSome result (BeginsWith self.now page) }
        ensures few { IfSome result HasRoomBehind }
        ensures none { result ≡ None → length self.now.cells ≤ 64 * page }
    {
        self.indexed.first_key(page)
    }
}
