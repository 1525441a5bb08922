//! Functions that are kept, each under an index that stays.
ghost use Rattle.std.specs.Prelude.{◌≡◌, ◌+◌, ◌<◌, ◌≤◌, ◌^◌, [], Some, length, slice_get, IfOk, IfSome, OnOk};
ghost use Rattle.ide_image.specs.Functions.{MayKeep};

use ide_lattice::EdgeFn;
use std::alloc::{AllocError, Global};
use std::marker::Model;

/// The most functions that are kept, so that one more than the index of each has 32 bits.
const MOST_KEPT: usize = 4_294_967_295;

/// With how many of the functions that were kept last one that comes is compared.
const RECENT: usize = 4;

/// Functions, each under an index, which takes two or four bytes where it is written. One that is among the last few is not
/// kept again: keys that follow each other along a procedure mostly have one function. A function that no
/// key has any more stays.
#[derive(Drop)]
pub(crate) struct Functions<F: EdgeFn> {
    list: Vec<F>,
}

impl<F: EdgeFn> Model for Functions<F> {
    ghost use Rattle.std.specs.Prelude.{vec_capacity, vec_len};
    ghost use Rattle.ide_image.specs.Functions.{Functions, kept_room};

    ghost Value = { Functions F };

    ghost view = { λ f. record { items = f.list.items; room = kept_room (vec_len f.list) (vec_capacity f.list) } };
}

impl<F: EdgeFn> Functions<F> {
    /// No function. It allocates nothing.
    pub(crate) fn new(alloc: Global) -> Self
        ensures { result.items ≡ [] }
    {
        Functions {
            list: Vec::new(alloc),
        }
    }

    /// The function that is kept under an index, if there is one.
    #[inline(always)]
    pub(crate) fn get(&self, index: usize) -> Option<F>
        ensures { result ≡ slice_get self.now.items index }
    {
        self.list.get(index).copied()
    }

    /// How many functions are kept.
    #[inline(always)]
    pub(crate) fn len(&self) -> usize
        ensures { result ≡ length self.now.items }
    {
        self.list.len()
    }

    /// The same functions under the same indices.
    pub(crate) fn copy(&self, alloc: Global) -> Result<Functions<F>, AllocError>
        ensures { IfOk result (λ copy. copy.items ≡ self.now.items) }
    {
        Ok(Functions {
            list: Vec::from_slice(alloc, &self.list)?,
        })
    }

    /// Makes room for so many more functions. At most 4,294,967,295 are kept.
    #[inline(always)]
    pub(crate) fn reserve(&mut self, additional: usize) -> Result<(), AllocError>
        ensures items { self.new.items ≡ self.old.items }
        ensures room { OnOk result (additional ≤ self.new.room) }
        ensures few { OnOk result (length self.new.items + additional < 2 ^ 32) }
    {
        self.list.reserve(additional)?;
        if self.list.len() > MOST_KEPT || additional > MOST_KEPT - self.list.len() {
            return Err(AllocError);
        }
        Ok(())
    }

    /// The index of the function, for which there is room. It is kept behind the others, unless it is one of the last few.
    #[inline(always)]
    pub(crate) fn keep(&mut self, function: F) -> u32
        requires room { 0 < self.old.room }
        ensures kept { slice_get self.new.items result ≡ Some function }
        ensures few { result + 1 < 2 ^ 32 }
        ensures others { MayKeep function self.old.items self.new.items }
        ensures room { self.old.room ≤ self.new.room + 1 }
    {
        let count = self.list.len();
        if let Some(index) = recent(&self.list, function) {
            return index as u32;
        }
        self.list.push_reserved(function);
        count as u32
    }

    /// The same, where the function is likely to be the one under that index, if there is one.
    #[inline(always)]
    pub(crate) fn keep_likely(&mut self, likely: Option<usize>, function: F) -> u32
        requires room { 0 < self.old.room }
        ensures kept { slice_get self.new.items result ≡ Some function }
        ensures few { result + 1 < 2 ^ 32 }
        ensures others { MayKeep function self.old.items self.new.items }
        ensures room { self.old.room ≤ self.new.room + 1 }
    {
        match likely_index(&self.list, likely, function) {
            Some(index) => index as u32,
            None => self.keep(function),
        }
    }
}

/// The index that is likely, if the function stands there.
#[inline(always)]
fn likely_index<F: EdgeFn>(functions: &[F], likely: Option<usize>, function: F) -> Option<usize>
    ensures { IfSome result (λ index. slice_get functions.now index ≡ Some function) }
{
    let index = likely?;
    if index < functions.len() && functions[index] == function {
        Some(index)
    } else {
        None
    }
}

/// The index of the function, if it is one of the last few.
#[inline(always)]
fn recent<F: EdgeFn>(functions: &[F], function: F) -> Option<usize>
    ensures { IfSome result (λ index. slice_get functions.now index ≡ Some function) }
{
    let count = functions.len();
    for index in count.saturating_sub(RECENT)..count {
        if functions[index] == function {
            return Some(index);
        }
    }
    None
}
