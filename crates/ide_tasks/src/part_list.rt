//! The parts of one key after another, in one list.
ghost use Rattle.std.specs.Prelude.{◌≡◌, [], false, true, Ok, OnOk};
ghost use Rattle.ide_tasks.specs.Partners.{partners_in};
ghost use Rattle.ide_tasks.specs.Parts.{FillsAlone, PassesBehind, parts_at};

use crate::partners::{PartnerLists, Partners};
use crate::parts::Parts;
use ide_graph::Site;
use ide_lattice::EdgeFn;
use ide_problem::Problem;
use ide_wire::{Fact, Key, Node};
use std::alloc::{AllocError, Global};
use std::marker::Model;
use std::mem;

/// The parts of a key: each a key and the function that its entry is met with. A list that is filled
/// again keeps its room, and allocates only where it has to grow.
#[derive(Drop)]
pub struct PartList<P: Problem> {
    parts: Parts<P>,
    /// The lists of partners, while nobody has taken them.
    partners: PartnerLists<P::F>,
}

impl<P: Problem> Model for PartList<P> {
    ghost use Rattle.std.specs.Prelude.{List};
    ghost use Rattle.ide_wire.specs.declared.key.Key.{Key};

    ghost Value = { List (Key × P.F) };

    ghost view = { λ list. list.parts.list.items };
}

impl<P: Problem> PartList<P> {
    /// A list with no part. It allocates nothing.
    pub fn new(alloc: Global) -> Self
        ensures { result ≡ [] }
    {
        PartList {
            parts: Parts::new(alloc),
            partners: PartnerLists::new(alloc),
        }
    }

    /// Makes it the parts that a key with that function owes, at its site and with its partners, in the
    /// order in which they are owed. What was in it before is gone. Where memory is wanting, it has some of
    /// them.
    #[inline(always)]
    pub fn fill(
        &mut self,
        key: Key,
        function: P::F,
        site: &Site,
        partners: &Partners<P::F>,
    ) -> Result<(), AllocError>
        ensures { OnOk result (self.new ≡ parts_at P.F.edge P.targets key function site.now partners.now) }
    {
        self.parts.list.clear();
        self.parts.add_all(key, function, site, partners.lend())
    }

    /// Takes out the lists that partners are gathered in, for [`PartList::fill_from`], which puts them
    /// back: so each key's partners have the room of those before. The parts stay. It allocates nothing.
    #[inline(always)]
    pub fn take_partners(&mut self, alloc: Global) -> PartnerLists<P::F>
        ensures { self.new ≡ self.old }
    {
        mem::replace(&mut self.partners, PartnerLists::new(alloc))
    }

    /// The same as [`PartList::fill`], where the partners stand in lists, which it keeps for their room.
    #[inline(always)]
    pub fn fill_from(
        &mut self,
        key: Key,
        function: P::F,
        site: &Site,
        partners: PartnerLists<P::F>,
    ) -> Result<(), AllocError>
        ensures { OnOk result (self.new ≡ parts_at P.F.edge P.targets key function site.now (partners_in partners)) }
    {
        self.partners = partners;
        self.parts.list.clear();
        self.parts
            .add_all(key, function, site, self.partners.lend())
    }

    /// Makes it the parts that a key with that function owes at its site, where the key is a jump and its node neither call
    /// nor exit, and answers whether that is so: such a key has no partners, so that none have to be gathered. Where it
    /// is not, nothing is done. Where memory is wanting, it has some of the parts.
    #[inline(always)]
    pub fn fill_alone(&mut self, key: Key, function: P::F, site: &Site) -> Result<bool, AllocError>
        ensures filled { result ≡ Ok true → FillsAlone P.F.edge P.targets key function site.now self.new }
        ensures same { result ≡ Ok false → self.new ≡ self.old }
    {
        match (key, site) {
            (Key::Jump(_, from, to), Site::Normal(edges)) => {
                self.parts.list.clear();
                self.parts.add_edges(edges.as_slice(), function, from, to)?;
                Ok(true)
            }
            _ => Ok(false),
        }
    }

    /// The parts, in their order.
    pub fn as_slice(&self) -> &[(Key, P::F)]
        ensures { result.now ≡ self.now }
    {
        self.parts.list.as_slice()
    }

    /// The parts, in their order, alone.
    pub(crate) fn into_vec(self) -> Vec<(Key, P::F)>
        ensures { result.items ≡ self }
    {
        let PartList { parts, partners: _ } = self;
        let Parts { list, targets: _ } = parts;
        list
    }
}

/// Whether one edge leaves the site of a node, which leads to the node behind it and passes the fact on unchanged.
#[inline(always)]
pub fn passes_behind<P: Problem>(node: Node, site: &Site, fact: Fact) -> bool
    ensures { result ≡ true → PassesBehind P.F.edge P.targets node fact site.now }
{
    match site {
        Site::Normal(edges) => match edges.as_slice() {
            [edge] => edge.leads_behind(node) && P::passes_unchanged(edge, fact),
            _ => false,
        },
        _ => false,
    }
}
