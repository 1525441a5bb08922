//! The numbers in the cells of pages: of one byte each, until there has to be room for greater ones.
ghost use Rattle.std.specs.Prelude.{◌≡◌, ◌≤◌, ◌<◌, ◌+◌, ◌++◌, [], length, replicate, slice_index_or, slice_set, IfOk, OnOk, OnErr};
ghost use Rattle.ide_pages.specs.Alike.{AreSameUpTo};
ghost use Rattle.ide_pages.specs.CellNumbers.{with_run};

use std::alloc::{AllocError, Global};
use std::marker::Model;
use std::mem;

/// The greatest number of one byte.
const NARROWEST: usize = 255;

/// The greatest number of two bytes.
const MIDDLE: usize = 65_535;

/// The greatest number of four bytes.
const WIDEST: usize = 4_294_967_295;

/// How many bytes a number takes.
#[derive(Clone, Copy, PartialEq, Eq)]
pub(crate) enum Width {
    One,
    Two,
    Four,
}

/// The number of each cell. Many runs have few functions, so that a byte serves, or two. Once there has to be room for a
/// greater number, all of them are copied to two bytes each, or four.
#[derive(Drop)]
pub(crate) struct CellNumbers {
    alloc: Global,
    width: Width,
    /// The numbers, while one byte serves.
    bytes: Vec<u8>,
    /// The numbers, while two do.
    narrow: Vec<u16>,
    /// The numbers, from then on.
    wide: Vec<u32>,
}

impl Model for CellNumbers {
    ghost use Rattle.ide_pages.specs.CellNumbers.{CellNumbersData, cell_numbers};

    ghost Value = { CellNumbersData };

    ghost view = { λ c. cell_numbers c.width c.bytes c.narrow c.wide };
}

impl CellNumbers {
    /// No cell, and room for numbers of one byte. It allocates nothing.
    pub(crate) fn new(alloc: Global) -> CellNumbers
        ensures { result.items ≡ [] }
    {
        CellNumbers {
            alloc,
            width: Width::One,
            bytes: Vec::new(alloc),
            narrow: Vec::new(alloc),
            wide: Vec::new(alloc),
        }
    }

    /// How many cells there are.
    #[inline(always)]
    pub(crate) fn len(&self) -> usize
        ensures { result ≡ length self.now.items }
    {
        match self.width {
            Width::One => self.bytes.len(),
            Width::Two => self.narrow.len(),
            Width::Four => self.wide.len(),
        }
    }

    /// The greatest number that a cell has room for.
    #[inline(always)]
    pub(crate) fn most(&self) -> usize
        ensures { result ≡ self.now.most }
    {
        match self.width {
            Width::One => NARROWEST,
            Width::Two => MIDDLE,
            Width::Four => WIDEST,
        }
    }

    /// The number in the cell: 0 behind the last one.
    #[inline(always)]
    pub(crate) fn get(&self, cell: usize) -> u32
        ensures { result ≡ slice_index_or self.now.items cell 0 }
    {
        match self.width {
            Width::One => match self.bytes.get(cell) {
                Some(number) => u32::from(*number),
                None => 0,
            },
            Width::Two => match self.narrow.get(cell) {
                Some(number) => u32::from(*number),
                None => 0,
            },
            Width::Four => match self.wide.get(cell) {
                Some(number) => *number,
                None => 0,
            },
        }
    }

    /// How far the cells from one on, up to before another, have the number: where they end. It looks at none behind the
    /// last cell.
    #[inline(always)]
    pub(crate) fn alike_to(&self, begin: usize, end: usize, number: u32) -> usize
        requires order { begin ≤ end }
        ensures { AreSameUpTo number self.now.items begin end result }
    {
        let last = end.min(self.len());
        if last <= begin {
            return begin;
        }
        match self.width {
            Width::One => alike_in_bytes(&self.bytes, begin, last, number),
            Width::Two => alike_in_narrow(&self.narrow, begin, last, number),
            Width::Four => alike_in_wide(&self.wide, begin, last, number),
        }
    }

    /// Puts the number into the cell, which has room for it, and answers the one that it had.
    #[inline(always)]
    pub(crate) fn replace(&mut self, cell: usize, number: u32) -> u32
        requires there { cell < length self.old.items }
        requires fits { number ≤ self.old.most }
        ensures old { result ≡ slice_index_or self.old.items cell 0 }
        ensures items { self.new.items ≡ slice_set self.old.items cell number }
        ensures most { self.new.most ≡ self.old.most }
    {
        match self.width {
            Width::One => u32::from(mem::replace(&mut self.bytes[cell], number as u8)),
            Width::Two => u32::from(mem::replace(&mut self.narrow[cell], number as u16)),
            Width::Four => mem::replace(&mut self.wide[cell], number),
        }
    }

    /// Puts the number into so many cells from the first on, which have room for it.
    #[inline(always)]
    pub(crate) fn write_run(&mut self, first: usize, count: usize, number: u32)
        requires there { first + count ≤ length self.old.items }
        requires fits { number ≤ self.old.most }
        ensures items { self.new.items ≡ with_run self.old.items first number count }
        ensures most { self.new.most ≡ self.old.most }
    {
        match self.width {
            Width::One => write_cells(&mut self.bytes, first, count, number as u8),
            Width::Two => write_cells(&mut self.narrow, first, count, number as u16),
            Width::Four => write_cells(&mut self.wide, first, count, number),
        }
    }

    /// Makes room for so many cells more.
    pub(crate) fn reserve(&mut self, additional: usize) -> Result<(), AllocError>
        ensures items { self.new.items ≡ self.old.items }
        ensures most { self.new.most ≡ self.old.most }
        ensures room { OnOk result (additional ≤ self.new.room) }
    {
        match self.width {
            Width::One => self.bytes.reserve(additional),
            Width::Two => self.narrow.reserve(additional),
            Width::Four => self.wide.reserve(additional),
        }
    }

    /// Adds 64 cells behind the others, for which there is room, each with 0.
    pub(crate) fn add_page(&mut self)
        requires { 64 ≤ self.old.room }
        ensures items { self.new.items ≡ self.old.items ++ replicate 64 0 }
        ensures most { self.new.most ≡ self.old.most }
    {
        let _ = match self.width {
            Width::One => self.bytes.extend_from_slice(&[0; 64]),
            Width::Two => self.narrow.extend_from_slice(&[0; 64]),
            Width::Four => self.wide.extend_from_slice(&[0; 64]),
        };
    }

    /// Makes room in each cell for numbers up to this one. Where there was none, it copies all numbers.
    pub(crate) fn widen(&mut self, most: u32) -> Result<(), AllocError>
        ensures items { self.new.items ≡ self.old.items }
        ensures most { OnOk result (most ≤ self.new.most) }
        ensures kept { self.old.most ≤ self.new.most }
        ensures same { OnErr result (self.new ≡ self.old) }
    {
        let most = most as usize;
        if most <= self.most() {
            return Ok(());
        }
        if most <= MIDDLE {
            self.narrow = narrowed(self.alloc, &self.bytes)?;
            self.bytes = Vec::new(self.alloc);
            self.width = Width::Two;
        } else {
            self.wide = self.all(self.alloc)?;
            self.bytes = Vec::new(self.alloc);
            self.narrow = Vec::new(self.alloc);
            self.width = Width::Four;
        }
        Ok(())
    }

    /// All numbers, of four bytes each.
    fn all(&self, alloc: Global) -> Result<Vec<u32>, AllocError>
        ensures { IfOk result (λ all. all.items ≡ self.now.items) }
    {
        match self.width {
            Width::One => widened_bytes(alloc, &self.bytes),
            Width::Two => widened(alloc, &self.narrow),
            Width::Four => self.wide.to_vec(alloc),
        }
    }

    /// The same numbers, with room for the same.
    pub(crate) fn copy(&self, alloc: Global) -> Result<CellNumbers, AllocError>
        ensures items { IfOk result (λ copy. copy.items ≡ self.now.items) }
        ensures most { IfOk result (λ copy. copy.most ≡ self.now.most) }
    {
        Ok(CellNumbers {
            alloc,
            width: self.width,
            bytes: self.bytes.to_vec(alloc)?,
            narrow: self.narrow.to_vec(alloc)?,
            wide: self.wide.to_vec(alloc)?,
        })
    }
}

/// Puts the number into so many cells from the first on.
#[inline(always)]
fn write_cells<T: Copy>(numbers: &mut [T], first: usize, count: usize, number: T)
    requires there { first + count ≤ length numbers.old }
    ensures { numbers.new ≡ with_run numbers.old first number count }
{
    for step in 0..count {
        numbers[first + step] = number;
    }
}

/// How far the numbers from one on, up to before another, are this one: where they end.
#[inline(always)]
fn alike_in_bytes(bytes: &[u8], begin: usize, end: usize, number: u32) -> usize
    requires order { begin ≤ end }
    requires there { end ≤ length bytes.now }
    ensures { AreSameUpTo number bytes.now begin end result }
{
    for cell in begin..end {
        if u32::from(bytes[cell]) != number {
            return cell;
        }
    }
    end
}

/// The same of numbers of two bytes.
#[inline(always)]
fn alike_in_narrow(numbers: &[u16], begin: usize, end: usize, number: u32) -> usize
    requires order { begin ≤ end }
    requires there { end ≤ length numbers.now }
    ensures { AreSameUpTo number numbers.now begin end result }
{
    for cell in begin..end {
        if u32::from(numbers[cell]) != number {
            return cell;
        }
    }
    end
}

/// The same of numbers of four bytes.
#[inline(always)]
fn alike_in_wide(numbers: &[u32], begin: usize, end: usize, number: u32) -> usize
    requires order { begin ≤ end }
    requires there { end ≤ length numbers.now }
    ensures { AreSameUpTo number numbers.now begin end result }
{
    for cell in begin..end {
        if numbers[cell] != number {
            return cell;
        }
    }
    end
}

/// The same numbers, of four bytes each.
fn widened(alloc: Global, narrow: &[u16]) -> Result<Vec<u32>, AllocError>
    ensures { IfOk result (λ wide. wide.items ≡ narrow.now) }
{
    narrow
        .iter()
        .map(|number| u32::from(*number))
        .collect(alloc)
}

/// The same of numbers of one byte.
fn widened_bytes(alloc: Global, bytes: &[u8]) -> Result<Vec<u32>, AllocError>
    ensures { IfOk result (λ wide. wide.items ≡ bytes.now) }
{
    bytes.iter().map(|number| u32::from(*number)).collect(alloc)
}

/// The same numbers, of two bytes each.
fn narrowed(alloc: Global, bytes: &[u8]) -> Result<Vec<u16>, AllocError>
    ensures { IfOk result (λ narrow. narrow.items ≡ bytes.now) }
{
    bytes.iter().map(|number| u16::from(*number)).collect(alloc)
}
