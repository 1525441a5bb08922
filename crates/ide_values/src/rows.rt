//! Rows of values: by node or by procedure, one value for each fact.
ghost use Rattle.std.specs.Prelude.{◌≡◌, ◌+◌, ◌-◌, ◌*◌, ◌^◌, ◌<◌, min, IfOk, length, slice_index};
ghost use Rattle.ide_values.specs.Start.{AreTops, MeetsAt, SameElsewhere, at_place, value_before};

use ide_graph::Graph;
use ide_lattice::Lattice;
use ide_wire::{Fact, Node};
use std::alloc::{AllocError, Global};

/// So many tops.
pub(crate) fn tops<L: Lattice>(alloc: Global, count: usize) -> Result<Vec<L>, AllocError>
    ensures count { IfOk result (λ values. length values.items ≡ count) }
    ensures tops { IfOk result (λ values. AreTops L.algebra values.items) }
{
    let mut values = Vec::with_capacity(alloc, count)?;
    // `vec!` would call `clone` for each, which may give another value than its own.
    values.resize(count, L::top())?;
    Ok(values)
}

/// Makes each value top.
pub(crate) fn blank<L: Lattice>(values: &mut [L])
    ensures count { length values.new ≡ length values.old }
    ensures tops { AreTops L.algebra values.new }
{
    for place in 0..values.len() {
        values[place] = L::top();
    }
}

/// The value of a fact at the start of a node's procedure.
pub(crate) fn value_before<L: Lattice>(graph: &Graph, starts: &[L], node: Node, fact: Fact) -> L
    ensures { node < graph.now.nodes → result ≡ value_before L.algebra graph.now starts.now node fact }
{
    value_at_place(starts, start_place(graph, procedure_at(graph, node), fact))
}

/// The value at a place: top past the places.
pub(crate) fn value_at_place<L: Lattice>(values: &[L], place: usize) -> L
    ensures { result ≡ at_place L.algebra values.now place }
{
    match values.get(place) {
        Some(value) => *value,
        None => L::top(),
    }
}

/// The place of a fact in the row of a procedure.
pub(crate) fn start_place(graph: &Graph, procedure: usize, fact: Fact) -> usize
    ensures { result ≡ min (procedure * graph.now.facts + fact) (2 ^ 64 - 1) }
{
    procedure
        .saturating_mul(graph.fact_count())
        .saturating_add(fact as usize)
}

/// The place of a fact in the row of a node.
pub(crate) fn place_of(graph: &Graph, node: Node, fact: Fact) -> usize
    ensures { result ≡ node * graph.now.facts + fact }
{
    node as usize * graph.fact_count() + fact as usize
}

/// Meets the value at a place with another.
pub(crate) fn lower<L: Lattice>(values: &mut [L], place: usize, value: L)
    ensures count { length values.new ≡ length values.old }
    ensures other { SameElsewhere L.algebra place values.old values.new }
    ensures met { MeetsAt L.algebra place value values.old values.new }
{
    if place < values.len() {
        values[place] = values[place].meet(value);
    }
}

/// The procedure of a node, or 0 where there is no such node.
pub(crate) fn procedure_at(graph: &Graph, node: Node) -> usize
    ensures { node < graph.now.nodes → result ≡ slice_index graph.now.owners node }
{
    if (node as usize) < graph.node_count() {
        graph.procedure_of(node)
    } else {
        0
    }
}
