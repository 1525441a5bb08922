//! The normal edges of a node, of which most have one.
ghost use Rattle.std.specs.Prelude.{◌≡◌, [], ◌∷◌};
ghost use Rattle.std.specs.Cmp.{partial_equiv_from_equiv};
ghost use Rattle.std.specs.Cmp.Lexicographic.{pointwise};
ghost use Rattle.std.proofs.lemmas.Cmp.{lists_equiv};
ghost use Rattle.ide_graph.specs.contracts.edge.EdgeDataPartialEq.TheImpl.{ghosts as edge_eq};
ghost use Rattle.ide_graph.specs.contracts.edge.EdgeDataEq.TheImpl.Laws.{laws-law as edges_equiv};

use crate::edge::EdgeData;
use std::marker::Model;
use std::slice;

/// Edges, of which contracts see the list alone. One edge, as nearly each node has, stands in it with no allocation.
#[derive(Drop)]
pub struct Edges {
    list: EdgeList,
}

/// One edge or several.
#[derive(Drop)]
enum EdgeList {
    One(EdgeData),
    Many(Vec<EdgeData>),
}

impl Model for Edges {
    ghost use Rattle.std.specs.Prelude.{List};
    ghost use Rattle.ide_graph.specs.declared.edge.EdgeData.{EdgeData};
    ghost use Rattle.ide_graph.specs.EdgeList.{edges_in};

    ghost Value = { List EdgeData };

    ghost view = { λ edges. edges_in edges.list };
}

impl Edges {
    /// One edge. It allocates nothing.
    pub(crate) fn one(edge: EdgeData) -> Edges
        ensures { result ≡ edge ∷ [] }
    {
        Edges {
            list: EdgeList::One(edge),
        }
    }

    /// These edges, in their order.
    pub(crate) fn of(edges: Vec<EdgeData>) -> Edges
        ensures { result ≡ edges.items }
    {
        Edges {
            list: EdgeList::Many(edges),
        }
    }

    /// The edges, in their order.
    #[inline(always)]
    pub fn as_slice(&self) -> &[EdgeData]
        ensures { result.now ≡ self.now }
    {
        match &self.list {
            EdgeList::One(edge) => slice::from_ref(edge),
            EdgeList::Many(edges) => edges.as_slice(),
        }
    }
}

impl PartialEq for Edges {
    ghost eq = { pointwise edge_eq.eq };

    ghost laws = { partial_equiv_from_equiv (lists_equiv edges_equiv) };

    fn eq(&self, other: &Edges) -> bool {
        self.as_slice() == other.as_slice()
    }
}

impl Eq for Edges {
    ghost laws = { lists_equiv edges_equiv };
}
