//! A row: some of the facts of 16 bits, each with the index of a page, ascending by fact.
ghost use Rattle.std.specs.Prelude.{◌≡◌, [], None, true, IfOk, OnErr, OnOk};
ghost use Rattle.ide_pages.specs.Rows.{IsPlace, IsRow, Lists, page_in};

use ide_wire::Fact;
use std::alloc::{AllocError, Global};
use std::marker::Model;

/// Facts, each with the index of a page, ascending by fact.
#[derive(Drop)]
pub(crate) struct Row {
    pages: Vec<(Fact, u32)>,
}

impl Model for Row {
    ghost use Rattle.std.specs.Prelude.{ℕ, List};
    ghost use Rattle.ide_pages.specs.Rows.{IsRow};

    ghost Value = { List (ℕ × ℕ) };

    ghost view = { λ r. r.pages.items };

    ghost invariant = { λ r. IsRow r.pages.items };
}

impl Row {
    /// A row with no fact. It allocates nothing.
    pub(crate) fn new(alloc: Global) -> Self
        ensures { result ≡ [] }
    {
        Row {
            pages: Vec::new(alloc),
        }
    }

    /// The facts, each with its page.
    pub(crate) fn pages(&self) -> &[(Fact, u32)]
        ensures pages { result.now ≡ self.now }
        ensures row { IsRow result.now }
    {
        &self.pages
    }

    /// Where the fact stands, or would stand: facts are looked for in their order more often than not, so the place
    /// where one was found last and the one behind it are looked at first; and then where one was found in the row that was
    /// asked for before, as facts that many rows have stand at the same places of these.
    #[inline(always)]
    pub(crate) fn place(&self, last: usize, beside: usize, fact: Fact) -> usize
        ensures { IsPlace fact self.now result }
    {
        if self.is_at(last, fact) {
            return last;
        }
        let next = last.saturating_add(1);
        if self.is_at(next, fact) {
            return next;
        }
        if self.is_at(beside, fact) {
            return beside;
        }
        self.search(fact)
    }

    /// The same by a search.
    fn search(&self, fact: Fact) -> usize
        ensures { IsPlace fact self.now result }
    {
        self.pages.partition_point(|listed| listed.0 < fact)
    }

    /// Whether the fact stands at the index.
    #[inline(always)]
    fn is_at(&self, index: usize, fact: Fact) -> bool
        ensures { result ≡ true → IsPlace fact self.now index }
    {
        match self.pages.get(index) {
            Some(listed) => listed.0 == fact,
            None => false,
        }
    }

    /// The page of the fact whose place this is, if it has one.
    #[inline(always)]
    pub(crate) fn page_at(&self, place: usize, fact: Fact) -> Option<u32>
        requires place { IsPlace fact self.now place }
        ensures { result ≡ page_in self.now fact }
    {
        let listed = self.pages.get(place)?;
        if listed.0 == fact {
            Some(listed.1)
        } else {
            None
        }
    }

    /// Puts the fact, which has no page, with this one at its place.
    pub(crate) fn insert(&mut self, place: usize, fact: Fact, page: u32) -> Result<(), AllocError>
        requires place { IsPlace fact self.old place }
        requires absent { page_in self.old fact ≡ None }
        ensures lists { OnOk result (Lists fact page self.old self.new) }
        ensures same { OnErr result (self.new ≡ self.old) }
    {
        self.pages.insert(place, (fact, page))?;
        Ok(())
    }

    /// The same row.
    pub(crate) fn copy(&self, alloc: Global) -> Result<Row, AllocError>
        ensures { IfOk result (λ copy. copy ≡ self.now) }
    {
        Ok(Row {
            pages: self.pages.to_vec(alloc)?,
        })
    }
}
