//! Functions at keys, in the cells of pages.
ghost use Rattle.std.specs.Prelude.{◌≡◌, ℕ, ◌+◌, ◌*◌, ◌%◌, ◌<◌, ◌≤◌, ◌^◌, ◌++◌, [], None, Some, length, IfOk, IfSome, OnOk, IsOkUnless};
ghost use Rattle.std.specs.List.{IsDistinct};
ghost use Rattle.std.specs.Map.{keys_of};
ghost use Rattle.std.specs.Option.{is_some};
ghost use Rattle.ide_wire.specs.declared.key.Key.{Key};
ghost use Rattle.ide_wire.specs.declared.key.Key.TheVariants.{Jump};
ghost use Rattle.ide_wire.specs.declared.refused.Refused.TheVariants.{NoMemory};
ghost use Rattle.ide_wire.specs.Key.{same_key};
ghost use Rattle.ide_wire.specs.KeyOrder.{key_cmp};
ghost use Rattle.ide_pages.specs.Pages.{AreBlocks, number_on_page, partner_of, read_at, read_block, read_blocks};
ghost use Rattle.ide_image.specs.Tables.{AreJumpsTo, AreKeys, AreSummariesFrom, or_top, partner_at, partners_at};
ghost use Rattle.ide_image.specs.Indexed.{ForKeyAt, HasCell, HasDistinctKeys, HaveCells, PutsEntry, Widens, entries_in, entry_in, function_of, kept_in, place_of_key, table_of};
ghost use Rattle.ide_image.specs.Cells.{AreAlike, BeginsWith, HasOthers, HasRoomBehind, tables_of};
ghost use Rattle.ide_image.specs.Walk.{AreAbsent, StandBehind, jump_behind, with_walked};

use crate::functions::Functions;
use ide_lattice::EdgeFn;
use ide_pages::Pages;
use ide_wire::{Fact, Key, Node, Refused};
use std::alloc::{AllocError, Global};
use std::marker::Model;

/// The most pages, so that one more than the index of each of their 4,294,967,232 cells has 32 bits.
const MOST_PAGES: usize = 67_108_863;

/// A finite map from keys to functions. A key has a cell on its page, which stays where it is; in it stands one more than
/// the index of the key's function, or 0. A cell has one byte, and two or four from when more functions are kept than it
/// tells apart.
#[derive(Drop)]
pub(crate) struct Indexed<F: EdgeFn> {
    places: Pages,
    functions: Functions<F>,
}

impl<F: EdgeFn> Model for Indexed<F> {
    ghost use Rattle.ide_image.specs.Indexed.{AreIndexed, Indexed, cells_by, room_of};

    ghost Value = { Indexed F };

    ghost view = { λ t. record { cells = cells_by t.places t.functions.items; room = room_of t.places t.functions } };

    ghost invariant = { λ t. AreIndexed t.places t.functions.items };
}

impl<F: EdgeFn> Indexed<F> {
    /// A map with no cell. It allocates nothing.
    pub(crate) fn new(alloc: Global) -> Self
        ensures cells { result.cells ≡ [] }
    {
        Indexed {
            places: Pages::new(alloc),
            functions: Functions::new(alloc),
        }
    }

    /// One more than the index of the key's cell, or 0 where it has none. One look-up.
    #[inline(always)]
    pub(crate) fn place(&self, key: Key) -> usize
        ensures place { result ≡ place_of_key self.now key }
        ensures within { result ≤ length self.now.cells }
        ensures few { result < 2 ^ 32 }
        ensures absent { result ≡ 0 → function_of self.now.cells key ≡ None }
    {
        match self.places.cell(key) {
            Some(cell) => cell + 1,
            None => 0,
        }
    }

    /// The function in the cell at a place, if it has one. No look-up.
    #[inline(always)]
    pub(crate) fn function_at(&self, place: usize) -> Option<F>
        ensures { ForKeyAt place self.now (λ key. result ≡ function_of self.now.cells key) }
    {
        if place == 0 {
            return None;
        }
        self.kept_in(place - 1)
    }

    /// The same, where a cell without a function stands for the one that always gives top.
    #[inline(always)]
    pub(crate) fn function_in(&self, place: usize) -> F
        ensures { ForKeyAt place self.now (λ key. result ≡ or_top F.edge (function_of self.now.cells key)) }
    {
        match self.function_at(place) {
            Some(function) => function,
            None => F::all_top(),
        }
    }

    /// The function in a cell, if it has one: none behind the last cell. No look-up.
    #[inline(always)]
    pub(crate) fn kept_in(&self, cell: usize) -> Option<F>
        ensures kept { result ≡ kept_in self.now.cells cell }
        ensures function { ForKeyAt (cell + 1) self.now (λ key. result ≡ function_of self.now.cells key) }
        ensures end { length self.now.cells ≤ cell → result ≡ None }
    {
        let number = self.places.number_in(cell);
        if number == 0 {
            return None;
        }
        self.functions.get(number as usize - 1)
    }

    /// How far the cells from one on, up to before another, have the same function, or none: where they end. It
    /// compares the numbers in the cells. No look-up.
    #[inline(always)]
    pub(crate) fn alike_to(&self, cell: usize, end: usize) -> usize
        requires { cell < end }
        ensures after { cell < result }
        ensures within { result ≤ end }
        ensures alike { AreAlike (tables_of self.now) cell result }
    {
        let number = self.places.number_in(cell);
        self.places.alike_to(cell + 1, end, number)
    }

    /// Whether the key of a cell has a function. No look-up.
    #[inline(always)]
    pub(crate) fn has_function(&self, cell: usize) -> bool
        ensures { ForKeyAt (cell + 1) self.now (λ key. result ≡ is_some (function_of self.now.cells key)) }
    {
        self.places.number_in(cell) != 0
    }

    /// How many keys have a function.
    pub(crate) fn len(&self) -> usize
        ensures count { result ≡ length (entries_in self.now.cells) }
        ensures distinct { IsDistinct same_key (keys_of (entries_in self.now.cells)) }
    {
        self.places.len()
    }

    /// How many cells there are: 64 for each page.
    #[inline(always)]
    pub(crate) fn cell_count(&self) -> usize
        ensures count { result ≡ length self.now.cells }
        ensures pages { result % 64 ≡ 0 }
        ensures few { result + 64 ≤ 2 ^ 32 }
        ensures distinct { HasDistinctKeys self.now }
    {
        self.places.cell_count()
    }

    /// The key of a cell with its function, if it has one. No look-up.
    #[inline(always)]
    pub(crate) fn entry_at(&self, cell: usize) -> Option<(Key, F)>
        ensures entry { result ≡ entry_in self.now.cells cell }
        ensures present { IfSome result (λ entry. function_of self.now.cells entry.0 ≡ Some entry.1) }
        ensures place { IfSome result (λ entry. place_of_key self.now entry.0 ≡ cell + 1) }
    {
        // The cells are those of the pages.
        let _ = &self.places;
        let function = self.kept_in(cell)?;
        let key = self.places.key_in(cell)?;
        Some((key, function))
    }

    /// The key of a page's first cell, whether it has a function or not, if there is the page. No look-up.
    pub(crate) fn first_key(&self, page: usize) -> Option<Key>
        ensures first { IfSome result (BeginsWith (tables_of self.now) page) }
        ensures few { IfSome result HasRoomBehind }
        ensures none { result ≡ None → length self.now.cells ≤ 64 * page }
    {
        let count = self.places.cell_count() / 64;
        if page >= count {
            return None;
        }
        self.places.key_in(64 * page)
    }

    /// The first page, from one on, that may have jumps at nodes of the blocks of 64 from `begin` to before `end`. No look-up.
    pub(crate) fn next_page(&self, page: usize, begin: usize, end: usize) -> usize
        ensures from { page ≤ result }
        ensures others { (n : ℕ) → page ≤ n → n < result → HasOthers (tables_of self.now) begin end n }
    {
        self.places.next_page(page, begin, end)
    }

    /// The present keys, ascending.
    pub(crate) fn keys(&self, alloc: Global) -> Result<Vec<Key>, Refused>
        ensures keys { IfOk result (λ keys. AreKeys key_cmp (table_of self.now.cells) keys.items) }
        ensures refused { IsOkUnless result NoMemory }
    {
        let mut keys = self.listed_keys(alloc)?;
        keys.sort_unstable();
        Ok(keys)
    }

    /// The keys that have a function, in the order of their cells. No look-up.
    fn listed_keys(&self, alloc: Global) -> Result<Vec<Key>, AllocError>
        ensures keys { IfOk result (λ keys. keys.items ≡ keys_of (entries_in self.now.cells)) }
        ensures distinct { IsDistinct same_key (keys_of (entries_in self.now.cells)) }
    {
        let mut keys = Vec::with_capacity(alloc, self.len())?;
        for cell in 0..self.cell_count() {
            if let Some(entry) = self.entry_at(cell) {
                keys.push(entry.0)?;
            }
        }
        Ok(keys)
    }

    /// The jumps at the node to the fact. It takes one look-up.
    pub(crate) fn jumps_at(
        &self,
        alloc: Global,
        node: Node,
        fact: Fact,
    ) -> Result<Vec<(Fact, F)>, Refused>
        ensures partners { IfOk result (λ list. AreJumpsTo node fact (table_of self.now.cells) list.items) }
        ensures refused { IsOkUnless result NoMemory }
    {
        let mut partners = Vec::new(alloc);
        self.fill_jumps_at(node, fact, &mut partners)?;
        Ok(partners)
    }

    /// Makes the list the jumps at the node to the fact. What was in it is gone. It takes one look-up.
    pub(crate) fn fill_jumps_at(
        &self,
        node: Node,
        fact: Fact,
        partners: &mut Vec<(Fact, F)>,
    ) -> Result<(), Refused>
        ensures partners { OnOk result (AreJumpsTo node fact (table_of self.now.cells) partners.new.items) }
        ensures refused { IsOkUnless result NoMemory }
    {
        let pages = self.places.pages_of_jumps(node, fact);
        fill_partners(&self.places, &self.functions, node, pages, partners)?;
        Ok(())
    }

    /// The summaries at the call node from the fact. It takes one look-up.
    pub(crate) fn summaries_at(
        &self,
        alloc: Global,
        call: Node,
        fact: Fact,
    ) -> Result<Vec<(Fact, F)>, Refused>
        ensures partners { IfOk result (λ list. AreSummariesFrom call fact (table_of self.now.cells) list.items) }
        ensures refused { IsOkUnless result NoMemory }
    {
        let mut partners = Vec::new(alloc);
        self.fill_summaries_at(call, fact, &mut partners)?;
        Ok(partners)
    }

    /// Makes the list the summaries at the call node from the fact. What was in it is gone. It takes one look-up.
    pub(crate) fn fill_summaries_at(
        &self,
        call: Node,
        fact: Fact,
        partners: &mut Vec<(Fact, F)>,
    ) -> Result<(), Refused>
        ensures partners { OnOk result (AreSummariesFrom call fact (table_of self.now.cells) partners.new.items) }
        ensures refused { IsOkUnless result NoMemory }
    {
        let pages = self.places.pages_of_summaries(call, fact);
        fill_from_blocks(&self.places, &self.functions, pages, partners)?;
        Ok(())
    }

    /// A map with the same functions in the same cells.
    pub(crate) fn copy(&self, alloc: Global) -> Result<Indexed<F>, Refused>
        ensures cells { IfOk result (λ copy. copy.cells ≡ self.now.cells) }
        ensures refused { IsOkUnless result NoMemory }
    {
        let places = self.places.copy(alloc)?;
        let functions = self.functions.copy(alloc)?;
        Ok(Indexed { places, functions })
    }

    /// The key's cell, for which a page of 64 cells without functions is made where there is none. Cells behind
    /// 4,294,967,232 are refused as `NoMemory`. One look-up.
    #[inline(always)]
    pub(crate) fn make_cell(&mut self, key: Key) -> Result<usize, Refused>
        ensures cell { IfOk result (λ cell. cell + 1 ≡ place_of_key self.new key) }
        ensures few { IfOk result (λ cell. cell + 64 < 2 ^ 32) }
        ensures bound { length self.new.cells < 2 ^ 32 }
        ensures widens { Widens self.old self.new }
        ensures distinct { HasDistinctKeys self.new }
        ensures room { self.new.room ≡ self.old.room }
        ensures refused { IsOkUnless result NoMemory }
    {
        let cell = self.places.cell_for(key, MOST_PAGES);
        // The pages that there are now have their cells.
        let _ = self.places.cell_count();
        cell
    }

    /// The cell of a key that has one. The page of the cell `near` is looked at first: where it is the key's, there is no
    /// look-up, and else one.
    #[inline(always)]
    pub(crate) fn cell_of(&self, key: Key, near: usize) -> usize
        requires cell { HasCell self.now key }
        ensures place { result + 1 ≡ place_of_key self.now key }
        ensures few { result + 64 < 2 ^ 32 }
    {
        match self.places.cell_near(key, near) {
            Some(cell) => cell,
            None => unreachable!(),
        }
    }

    /// Makes a cell for the key of each of the entries.
    pub(crate) fn make_cells(&mut self, list: &[(Key, F)]) -> Result<(), Refused>
        ensures widens { Widens self.old self.new }
        ensures distinct { HasDistinctKeys self.old → HasDistinctKeys self.new }
        ensures room { self.new.room ≡ self.old.room }
        ensures made { OnOk result (HaveCells self.new list.now) }
        ensures refused { IsOkUnless result NoMemory }
    {
        for entry in list {
            let _ = self.make_cell(entry.0)?;
        }
        Ok(())
    }

    /// Makes room for so many more functions, and for their numbers in cells: once they may be too many for the bytes that a
    /// cell has, all cells are copied.
    #[inline(always)]
    pub(crate) fn reserve(&mut self, additional: usize) -> Result<(), Refused>
        ensures cells { self.new.cells ≡ self.old.cells }
        ensures room { OnOk result (additional ≤ self.new.room) }
        ensures few { OnOk result (additional < 2 ^ 32) }
        ensures refused { IsOkUnless result NoMemory }
    {
        self.functions.reserve(additional)?;
        let most = self.functions.len() + additional;
        if most > self.places.most() {
            self.places.widen(most as u32)?;
        }
        // The pages have their cells as before.
        let _ = self.places.cell_count();
        Ok(())
    }

    /// Puts the function into the key's cell, which this is. No look-up.
    #[inline(always)]
    pub(crate) fn put(&mut self, cell: usize, key: Key, function: F)
        requires cell { cell + 1 ≡ place_of_key self.old key }
        requires room { 0 < self.old.room }
        ensures cells { PutsEntry key function self.old self.new }
        ensures distinct { HasDistinctKeys self.old }
        ensures room { self.old.room ≤ self.new.room + 1 }
    {
        // Keys of one pair of facts mostly have one function along a procedure.
        let likely = self.index_in(cell.saturating_sub(1));
        let index = self.functions.keep_likely(likely, function);
        self.places.set(cell, key, index + 1);
        // The pages have their cells as before.
        let _ = self.places.cell_count();
    }

    /// The index of the function in a cell, if there is the cell, and one in it. No look-up.
    #[inline(always)]
    fn index_in(&self, cell: usize) -> Option<usize> {
        let number = self.places.number_in(cell) as usize;
        number.checked_sub(1)
    }

    /// How many jumps between the facts at the nodes behind this one are absent, one after the other, up to a count and
    /// to the end of its page: none where there is no page. The page of the cell `near` is looked at first: where it is
    /// that of the jump at the node, there is no look-up, and else one.
    #[inline(always)]
    pub(crate) fn absent_behind(
        &self,
        near: usize,
        node: Node,
        from: Fact,
        to: Fact,
        most: usize,
    ) -> usize
        ensures most { result ≤ most }
        ensures absent { AreAbsent (table_of self.now.cells) (jump_behind node from to) result }
        ensures page { node % 64 + result < 64 }
    {
        let Some(cell) = self.places.cell_near(Key::Jump(node, from, to), near) else {
            return 0;
        };
        let most = most.min(63 - (node % 64) as usize);
        self.places.alike_to(cell + 1, cell + 1 + most, 0) - (cell + 1)
    }

    /// Puts the function into the cells of the jumps between the facts at so many nodes behind this one, which are absent and on
    /// its page. The cell is that of the jump at the node. No look-up.
    #[inline(always)]
    pub(crate) fn put_behind(
        &mut self,
        cell: usize,
        node: Node,
        from: Fact,
        to: Fact,
        function: F,
        count: usize,
    )
        requires cell { cell + 1 ≡ place_of_key self.old (Jump node from to) }
        requires page { node % 64 + count < 64 }
        requires absent { AreAbsent (table_of self.old.cells) (jump_behind node from to) count }
        requires room { 0 < self.old.room }
        ensures cells { self.new.cells ≡ with_walked self.old.cells (jump_behind node from to) function count }
        ensures stands { StandBehind cell (jump_behind node from to) count self.old }
        ensures distinct { HasDistinctKeys self.old }
    {
        let likely = self.index_in(cell);
        let number = self.functions.keep_likely(likely, function) + 1;
        self.places.set_run(cell + 1, count, number);
        // The pages have their cells as before.
        let _ = self.places.cell_count();
    }
}

/// Makes the list the facts of pages that have a number at the node's offset, each with the function of its number.
/// There is room for all of them from the start, as mostly each has one.
fn fill_partners<F: EdgeFn>(
    places: &Pages,
    functions: &Functions<F>,
    node: Node,
    pages: &[(Fact, u32)],
    partners: &mut Vec<(Fact, F)>,
) -> Result<(), AllocError>
    ensures { OnOk result (partners.new.items ≡ partners_at F.edge functions.now.items (read_at places.now (node % 64) pages.now)) }
{
    partners.clear();
    partners.reserve(pages.len())?;
    for listed in pages {
        if let Some(numbered) = numbered_fact(places, node, *listed) {
            partners.push_reserved(partner_at(functions, numbered));
        }
    }
    Ok(())
}

/// Makes the list the facts of blocks that have a number on the block's page, each with the function of its number.
fn fill_from_blocks<F: EdgeFn>(
    places: &Pages,
    functions: &Functions<F>,
    pages: &[(Fact, u32)],
    partners: &mut Vec<(Fact, F)>,
) -> Result<(), AllocError>
    requires few { AreBlocks pages.now }
    ensures { OnOk result (partners.new.items ≡ partners_at F.edge functions.now.items (read_blocks places.now pages.now)) }
{
    partners.clear();
    for listed in pages {
        add_block(places, functions, *listed, partners)?;
    }
    Ok(())
}

/// Adds the facts of a block to the list, as [`fill_from_blocks`] does. Cells that have no number are passed over in one go.
fn add_block<F: EdgeFn>(
    places: &Pages,
    functions: &Functions<F>,
    listed: (Fact, u32),
    partners: &mut Vec<(Fact, F)>,
) -> Result<(), AllocError>
    requires few { listed.0 < 1024 }
    ensures { OnOk result (partners.new.items ≡ partners.old.items ++ partners_at F.edge functions.now.items (read_block places.now listed)) }
{
    partners.reserve(64)?;
    let first = 64 * listed.1 as usize;
    let mut cell = places.alike_to(first, first + 64, 0);
    while cell < first + 64 {
        let number = places.number_in(cell);
        if number != 0 {
            let fact = 64 * listed.0 + (cell - first) as Fact;
            partners.push_reserved(partner_at(functions, (fact, number)));
        }
        cell = places.alike_to(cell + 1, first + 64, 0);
    }
    Ok(())
}

/// The fact of a page with the number at the node's offset, where that is not 0.
#[inline(always)]
fn numbered_fact(places: &Pages, node: Node, listed: (Fact, u32)) -> Option<(Fact, u32)>
    ensures { result ≡ partner_of (number_on_page places.now (node % 64)) listed }
{
    let number = places.number_in(64 * listed.1 as usize + (node % 64) as usize);
    if number == 0 {
        None
    } else {
        Some((listed.0, number))
    }
}

/// A fact of a row with the function of its number.
fn partner_at<F: EdgeFn>(functions: &Functions<F>, listed: (Fact, u32)) -> (Fact, F)
    ensures { result ≡ partner_at F.edge.all_top functions.now.items listed }
{
    match functions.get((listed.1 as usize).saturating_sub(1)) {
        Some(function) => (listed.0, function),
        None => (listed.0, F::all_top()),
    }
}
