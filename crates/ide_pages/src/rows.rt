//! Rows, each under a number.
ghost use Rattle.std.specs.Prelude.{◌≡◌, ℕ, ◌<◌, [], None, Some, false, length, nat_eq, position, slice_index_or, IfOk, IfSome, OnErr, OnOk};
ghost use Rattle.ide_pages.specs.Rows.{IsPlace, IsRow, KeepsPages, Lists, ListsIn, page_in, row_at};

use crate::row::Row;
use ide_wire::Fact;
use indexmap::IndexSet;
use std::alloc::{AllocError, Global};
use std::marker::Model;

/// Rows, each under a number. One that has no fact is as one that is not there.
#[derive(Drop)]
pub(crate) struct Rows {
    alloc: Global,
    numbers: IndexSet<u64>,
    rows: Vec<Row>,
    /// Rows that were asked for, each at the seat that its number tells ([`seat_of`]): one that is asked for again is
    /// found with no look-up, and a fact in it that stands where the last one did, or behind it, with no search. There
    /// is no seat before a row is made, in a copy either.
    known: Vec<KnownRow>,
    /// The place of the fact that was asked for last, in whichever row.
    last: usize,
}

/// A row that was asked for: its index, and the place of the fact that was asked for in it. Both are looked at before
/// they are believed, since another row, or none, may have been asked for at this seat.
#[derive(Clone, Copy)]
struct KnownRow {
    index: u32,
    place: u32,
}

/// The most rows that are known at once.
const KNOWN: usize = 1_024;

/// What is known where no row was asked for: the first row, at its first fact.
const UNKNOWN: KnownRow = KnownRow { index: 0, place: 0 };

/// The seat of the row of the number: where it is known, if it is. Of rows that are asked for together few share a
/// seat: those of facts side by side at one block do not.
#[inline(always)]
fn seat_of(number: u64) -> usize {
    (number ^ (number >> 10) ^ (number >> 43)) as usize % KNOWN
}

impl Model for Rows {
    ghost use Rattle.std.specs.Prelude.{◌≡◌, length};
    ghost use Rattle.ide_pages.specs.Rows.{RowsData};

    ghost Value = { RowsData };

    ghost view = { λ r. record { numbers = r.numbers.keys; rows = r.rows.items } };

    ghost invariant = { λ r. length r.rows.items ≡ length r.numbers.keys };
}

impl Rows {
    /// No row. It allocates nothing.
    pub(crate) fn new(alloc: Global) -> Self
        ensures { result.numbers ≡ [] }
    {
        Rows {
            alloc,
            numbers: IndexSet::new(alloc),
            rows: Vec::new(alloc),
            known: Vec::new(alloc),
            last: 0,
        }
    }

    /// The page of the fact in the row of the number, if it has one. One look-up at most, and a search in the row.
    pub(crate) fn find(&self, number: u64, fact: Fact) -> Option<u32>
        ensures { result ≡ page_in (row_at self.now number) fact }
    {
        let known = self.known_row(number);
        let row = &self.rows[self.index_by(known, number)?];
        row.page_at(row.place(known.place as usize, self.last, fact), fact)
    }

    /// The same, where it is remembered which row and which place were asked for.
    #[inline(always)]
    pub(crate) fn seek(&mut self, number: u64, fact: Fact) -> Option<u32>
        ensures page { result ≡ page_in (row_at self.old number) fact }
        ensures same { self.new ≡ self.old }
    {
        let known = self.known_row(number);
        let index = self.index_by(known, number)?;
        let row = &self.rows[index];
        let place = row.place(known.place as usize, self.last, fact);
        let page = row.page_at(place, fact);
        self.last = place;
        remember(&mut self.known, number, index, place);
        page
    }

    /// Puts the fact, which has no page in the row of the number, there with this one. Where there is no such row it
    /// is made.
    pub(crate) fn insert(&mut self, number: u64, fact: Fact, page: u32) -> Result<(), AllocError>
        requires absent { page_in (row_at self.old number) fact ≡ None }
        ensures lists { OnOk result (ListsIn number fact page self.old self.new) }
        ensures same { OnErr result (KeepsPages self.old self.new) }
    {
        let index = self.make_row(number)?;
        let known = self.known_row(number);
        let place = self.rows[index].place(known.place as usize, self.last, fact);
        insert_in(&mut self.rows, index, place, fact, page)?;
        remember(&mut self.known, number, index, place);
        Ok(())
    }

    /// The facts of the row of the number, each with its page. One look-up.
    pub(crate) fn row(&self, number: u64) -> &[(Fact, u32)]
        ensures row { result.now ≡ row_at self.now number }
        ensures is { IsRow result.now }
    {
        match self.index(number) {
            Some(index) => self.rows[index].pages(),
            None => &[],
        }
    }

    /// The index of the row of the number, if there is one. One look-up at most.
    fn index(&self, number: u64) -> Option<usize>
        ensures index { result ≡ position (nat_eq number) self.now.numbers }
        ensures there { IfSome result (λ index. index < length self.now.rows) }
    {
        self.index_by(self.known_row(number), number)
    }

    /// The same, where the row that is known is looked at first. No look-up where that is the one.
    #[inline(always)]
    fn index_by(&self, known: KnownRow, number: u64) -> Option<usize>
        ensures index { result ≡ position (nat_eq number) self.now.numbers }
        ensures there { IfSome result (λ index. index < length self.now.rows) }
    {
        let index = known.index as usize;
        if let Some(there) = self.numbers.as_slice().get(index) {
            if *there == number {
                return Some(index);
            }
        }
        self.numbers.get_index_of(&number)
    }

    /// What is known at the seat of the row of the number.
    #[inline(always)]
    fn known_row(&self, number: u64) -> KnownRow {
        match self.known.get(seat_of(number)) {
            Some(known) => *known,
            None => UNKNOWN,
        }
    }

    /// The index of the row of the number, which is made, with no fact, if there is none.
    fn make_row(&mut self, number: u64) -> Result<usize, AllocError>
        ensures index { IfOk result (λ index. position (nat_eq number) self.new.numbers ≡ Some index) }
        ensures there { IfOk result (λ index. index < length self.new.rows) }
        ensures rows { (r : ℕ) → row_at self.new r ≡ row_at self.old r }
    {
        if let Some(index) = self.index(number) {
            return Ok(index);
        }
        let index = self.rows.len();
        self.rows.reserve(1)?;
        make_seats(&mut self.known)?;
        let _ = self.numbers.insert(number)?;
        self.rows.push_reserved(Row::new(self.alloc));
        Ok(index)
    }

    /// The same rows, of which none is known.
    pub(crate) fn copy(&self, alloc: Global) -> Result<Rows, AllocError>
        ensures { IfOk result (λ copy. copy ≡ self.now) }
    {
        Ok(Rows {
            alloc,
            numbers: copied_numbers(&self.numbers)?,
            rows: copied_rows(alloc, &self.rows)?,
            known: Vec::new(alloc),
            last: 0,
        })
    }
}

/// Makes the seats, if there are none.
fn make_seats(known: &mut Vec<KnownRow>) -> Result<(), AllocError> {
    if known.is_empty() {
        known.resize(KNOWN, UNKNOWN)?;
    }
    Ok(())
}

/// Remembers that the row of the number, which is at the index, was asked for, and the place of the fact in it. Of both
/// the lower 32 bits are kept: an index that has more is not found again at its seat.
#[inline(always)]
fn remember(known: &mut Vec<KnownRow>, number: u64, index: usize, place: usize) {
    let seat = seat_of(number);
    if seat < known.len() {
        known[seat] = KnownRow {
            index: (index % 0x1_0000_0000) as u32,
            place: (place % 0x1_0000_0000) as u32,
        };
    }
}

/// Puts the fact, which has no page in the row at the index, there with this one at its place.
fn insert_in(
    rows: &mut Vec<Row>,
    index: usize,
    place: usize,
    fact: Fact,
    page: u32,
) -> Result<(), AllocError>
    requires there { index < length rows.old.items }
    requires place { IsPlace fact (slice_index_or rows.old.items index []) place }
    requires absent { page_in (slice_index_or rows.old.items index []) fact ≡ None }
    ensures lists { OnOk result (Lists fact page (slice_index_or rows.old.items index []) (slice_index_or rows.new.items index [])) }
    ensures others { (k : ℕ) → nat_eq index k ≡ false → slice_index_or rows.new.items k [] ≡ slice_index_or rows.old.items k [] }
    ensures same { OnErr result (rows.new.items ≡ rows.old.items) }
    ensures length { length rows.new.items ≡ length rows.old.items }
{
    rows[index].insert(place, fact, page)
}

/// The same numbers, in the same order.
fn copied_numbers(numbers: &IndexSet<u64>) -> Result<IndexSet<u64>, AllocError>
    ensures { IfOk result (λ copy. copy.keys ≡ numbers.now.keys) }
{
    numbers.clone()
}

/// The same rows, in the same order.
fn copied_rows(alloc: Global, rows: &[Row]) -> Result<Vec<Row>, AllocError>
    ensures { IfOk result (λ copy. copy.items ≡ rows.now) }
{
    let mut copies = Vec::with_capacity(alloc, rows.len())?;
    for row in rows {
        copies.push(row.copy(alloc)?)?;
    }
    Ok(copies)
}
