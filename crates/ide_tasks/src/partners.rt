//! What a task joins its own function with.
ghost use Rattle.std.specs.Prelude.{◌≡◌, [], IfOk};
ghost use Rattle.ide_tasks.specs.Partners.{partners_in, partners_lent};

use ide_lattice::EdgeFn;
use ide_wire::{Fact, Listing};
use std::alloc::{AllocError, Global};

/// What a task joins its own function with.
#[derive(PartialEq, Eq, Drop)]
pub enum Partners<F: Eq> {
    /// Entries of the tables that were present at the claim, ascending by fact: at a call node the
    /// second facts of its summaries, for a summary the first facts of the jumps at its call node,
    /// and none at a node that is neither call nor exit.
    Entries(Listing<(Fact, F)>),
    /// At an exit, what the call flow of its callers reaches, by caller and then by fact.
    Callers(Listing<Reaching<F>>),
}

/// A fact at a call node whose call flow reaches the first fact of a jump at a callee's exit.
#[derive(Clone, Copy, PartialEq, Eq)]
pub struct Reaching<F> {
    /// The index of the caller in the exit's site.
    pub caller: u32,
    /// The fact at the call node.
    pub fact: Fact,
    /// The function on the call edge.
    pub function: F,
}

impl<F: EdgeFn> Partners<F> {
    /// The same partners again.
    pub fn copy(&self, alloc: Global) -> Result<Partners<F>, AllocError>
        ensures { IfOk result (λ copy. copy ≡ self.now) }
    {
        match self {
            Partners::Entries(entries) => {
                let entries = Vec::from_slice(alloc, entries.as_slice())?;
                Ok(Partners::Entries(Listing::of(entries)))
            }
            Partners::Callers(callers) => {
                let callers = Vec::from_slice(alloc, callers.as_slice())?;
                Ok(Partners::Callers(Listing::of(callers)))
            }
        }
    }

    /// The same partners, lent.
    #[inline(always)]
    pub(crate) fn lend(&self) -> LentPartners<'_, F>
        ensures { partners_lent result ≡ self.now }
    {
        match self {
            Partners::Entries(entries) => LentPartners::Entries(entries.as_slice()),
            Partners::Callers(callers) => LentPartners::Callers(callers.as_slice()),
        }
    }
}

/// What a key's function is joined with, lent by what keeps it.
#[derive(Clone, Copy)]
pub(crate) enum LentPartners<'a, F> {
    Entries(&'a [(Fact, F)]),
    Callers(&'a [Reaching<F>]),
}

/// Lists of what keys join their functions with, one key after another: a list that is filled again
/// keeps its room.
#[derive(Drop)]
pub struct PartnerLists<F> {
    /// Whether the partners are `callers`, and not `entries`.
    pub are_callers: bool,
    /// Entries of the tables, as in [`Partners::Entries`].
    pub entries: Vec<(Fact, F)>,
    /// What the call flow of callers reaches, as in [`Partners::Callers`].
    pub callers: Vec<Reaching<F>>,
}

impl<F: EdgeFn> PartnerLists<F> {
    /// Lists with nothing in them. It allocates nothing.
    pub fn new(alloc: Global) -> Self
        ensures entries { result.entries.items ≡ [] }
        ensures callers { result.callers.items ≡ [] }
    {
        PartnerLists {
            are_callers: false,
            entries: Vec::new(alloc),
            callers: Vec::new(alloc),
        }
    }

    /// The partners, alone. It allocates nothing.
    pub fn into_partners(self) -> Partners<F>
        ensures { result ≡ partners_in self }
    {
        let PartnerLists {
            are_callers,
            entries,
            callers,
        } = self;
        if are_callers {
            Partners::Callers(Listing::of(callers))
        } else {
            Partners::Entries(Listing::of(entries))
        }
    }

    /// The partners, lent.
    #[inline(always)]
    pub(crate) fn lend(&self) -> LentPartners<'_, F>
        ensures { partners_lent result ≡ partners_in self.now }
    {
        if self.are_callers {
            LentPartners::Callers(self.callers.as_slice())
        } else {
            LentPartners::Entries(self.entries.as_slice())
        }
    }
}
