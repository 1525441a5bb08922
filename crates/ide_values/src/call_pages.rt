//! Where the pages of the tables have jump functions at call nodes, with links between those that start from one place.
ghost use Rattle.std.specs.Prelude.{◌≡◌, ◌-◌, ◌<◌, [], min, replicate, IfOk, IfSome, OnOk};
ghost use Rattle.ide_values.specs.CallPages.{AddsFrom, AreOnPage, BeginAt, LinksLast, before_in, last_at};

use crate::fill::PAGE;
use ide_wire::Node;
use std::alloc::{AllocError, Global};

/// Cells of one page, whose jump functions start from one place. They end where those of the next ones begin, or with
/// their page.
#[derive(Clone, Copy, Drop)]
pub(crate) struct CallCells {
    /// The first of them that is at a call node and has a function.
    pub(crate) first: u32,
    /// One more than the index of the cells listed last before these for the same place: 0 for none.
    pub(crate) before: u32,
}

/// Cells of a page at offsets from one on, up to before another.
#[derive(Clone, Copy, Drop)]
pub(crate) struct PageCells {
    pub(crate) page: usize,
    pub(crate) begin: usize,
    pub(crate) end: usize,
}

/// The cells of pages that have jump functions at call nodes, in their order: there are far fewer such runs of cells than
/// jumps. Those of one place are found one behind the other by links, with no sort of all.
#[derive(Drop)]
pub(crate) struct CallPages {
    /// For each node the first call node that is not before it: where there is none, how many nodes there are.
    pub(crate) nexts: Vec<Node>,
    list: Vec<CallCells>,
    /// For each place one more than the index of the last cells from there: 0 for none.
    lasts: Vec<u32>,
}

impl CallPages {
    /// No cells, at so many places.
    pub(crate) fn new(
        alloc: Global,
        nexts: Vec<Node>,
        places: usize,
    ) -> Result<CallPages, AllocError>
        ensures nexts { IfOk result (λ calls. calls.nexts ≡ nexts) }
        ensures list { IfOk result (λ calls. calls.list.items ≡ []) }
        ensures lasts { IfOk result (λ calls. calls.lasts.items ≡ replicate places 0) }
    {
        Ok(CallPages {
            nexts,
            list: Vec::new(alloc),
            lasts: vec![in alloc; 0; places]?,
        })
    }

    /// Adds the cells from this one on, whose jumps start from a place. It is refused where the cell's index has more than
    /// 32 bits.
    pub(crate) fn add(&mut self, place: usize, cell: usize) -> Result<(), AllocError>
        ensures nexts { self.new.nexts ≡ self.old.nexts }
        ensures added { OnOk result (AddsFrom place cell self.old self.new) }
        ensures last { OnOk result (LinksLast place self.old.lasts.items self.new) }
    {
        let Ok(first) = u32::try_from(cell) else {
            return Err(AllocError);
        };
        let before = self.last_from(place);
        self.list.push(CallCells { first, before })?;
        self.set_last(place);
        Ok(())
    }

    /// Notes that the last cells are those of a place. A link leads to no index that has more than 32 bits.
    fn set_last(&mut self, place: usize)
        ensures nexts { self.new.nexts ≡ self.old.nexts }
        ensures list { self.new.list ≡ self.old.list }
        ensures last { LinksLast place self.old.lasts.items self.new }
    {
        let index = u32::try_from(self.list.len()).unwrap_or(0);
        if let Some(last) = self.lasts.get_mut(place) {
            *last = index;
        }
    }

    /// One more than the index of the last cells from a place: 0 for none.
    pub(crate) fn last_from(&self, place: usize) -> u32
        ensures { result ≡ last_at self.now place }
    {
        match self.lasts.get(place) {
            Some(last) => *last,
            None => 0,
        }
    }

    /// The cells at one less than this index, if there are any.
    pub(crate) fn cells_at(&self, index: u32) -> Option<PageCells>
        ensures begin { BeginAt self.now.list.items index result }
        ensures page { IfSome result AreOnPage }
        ensures some { IfSome result (λ _. 0 < index) }
    {
        let cells = self.list.get(index.checked_sub(1)? as usize)?;
        let page = cells.first as usize / PAGE;
        let end = match self.list.get(index as usize) {
            Some(next) if next.first as usize / PAGE == page => next.first as usize % PAGE,
            _ => PAGE,
        };
        Some(PageCells {
            page,
            begin: cells.first as usize % PAGE,
            end,
        })
    }

    /// Where the link of the cells at one less than this index leads: one more than an index before theirs, or 0.
    pub(crate) fn before(&self, index: u32) -> u32
        ensures link { result ≡ min (before_in self.now.list.items index) (index - 1) }
        ensures falls { 0 < index → result < index }
    {
        let Some(index) = index.checked_sub(1) else {
            return 0;
        };
        match self.list.get(index as usize) {
            // A link leads to cells that were added before.
            Some(cells) => cells.before.min(index),
            None => 0,
        }
    }
}
