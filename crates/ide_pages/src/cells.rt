//! The cells of pages.
ghost use Rattle.std.specs.Prelude.{◌≡◌, ℕ, ◌*◌, ◌<◌, ◌≤◌, ◌^◌, Some, true, length, slice_get, IfSome, IfNone};
ghost use Rattle.std.specs.List.{IsDistinct};
ghost use Rattle.ide_wire.specs.Key.{same_key};
ghost use Rattle.ide_pages.specs.Pages.{IsPage, IsSmall, TellPages, cell_number, cell_on, key_at, page_at};

use crate::cell_numbers::CellNumbers;
use crate::keys;
use crate::rows::Rows;
use ide_wire::Key;

// The cell at an offset of the page, if there is the page. No look-up where the page is the one at `last`, or in a
// row that is known.
#[inline(always)]
pub(crate) fn cell_near(
    pages: &[Key],
    rows: &Rows,
    last: usize,
    offset: usize,
    page: Key,
) -> Option<usize>
    requires few { length pages.now < 2 ^ 32 }
    requires distinct { IsDistinct same_key pages.now }
    requires told { TellPages rows.now pages.now }
    requires page { IsPage page }
    requires within { offset < 64 }
    ensures cell { result ≡ cell_on pages.now offset page }
{
    if is_page_at(pages, last, page) {
        return Some(64 * last + offset);
    }
    let index = rows.find(keys::row_of(page), keys::listed_fact(page))? as usize;
    Some(64 * index + offset)
}

// Whether the page is the one at the index.
#[inline(always)]
pub(crate) fn is_page_at(pages: &[Key], index: usize, page: Key) -> bool
    ensures { result ≡ true → slice_get pages.now index ≡ Some page }
{
    match pages.get(index) {
        Some(there) => *there == page,
        None => false,
    }
}

// The key of the cell, or `None` behind the last cell. No look-up.
pub(crate) fn key_at(pages: &[Key], cell: usize) -> Option<Key>
    requires { (index : ℕ) → IsSmall (page_at pages.now index) }
    ensures key { IfSome result (λ key. key ≡ key_at pages.now cell) }
    ensures there { IfSome result (λ _. cell < 64 * length pages.now) }
    ensures end { IfNone result (64 * length pages.now ≤ cell) }
{
    let page = pages.get(cell / 64)?;
    Some(keys::key_on(*page, cell % 64))
}

// The number in the cell, or 0 where there is none.
pub(crate) fn number_of(cells: &CellNumbers, cell: Option<usize>) -> u32
    ensures { result ≡ cell_number cells.now.items cell }
{
    match cell {
        Some(cell) => cells.get(cell),
        None => 0,
    }
}
