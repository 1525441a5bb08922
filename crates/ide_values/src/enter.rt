//! Start values as they begin: bottom at the entry facts of roots, else top.
ghost use Rattle.std.specs.Prelude.{◌≡◌, ◌<◌, IfOk, slice_index_or, false};
ghost use Rattle.ide_values.specs.Enter.{entered_at, entered_from, entered_rows, flags_of};

use ide_graph::Graph;
use ide_lattice::Lattice;
use std::alloc::{AllocError, Global};

/// The rows as they begin.
pub(crate) fn entered_rows<L: Lattice>(
    alloc: Global,
    graph: &Graph,
    roots: &[usize],
) -> Result<Vec<L>, AllocError>
    ensures { IfOk result (λ values. values.items ≡ entered_rows L.algebra graph.now roots.now) }
{
    let are_roots = root_flags(alloc, roots, graph.procedure_count())?;
    let facts = graph.fact_count();
    let entries = graph.entry_count();
    if facts == 0 {
        return Ok(Vec::new(alloc));
    }
    let count = graph
        .procedure_count()
        .checked_mul(facts)
        .ok_or(AllocError)?;
    rows(alloc, are_roots.as_slice(), facts, entries, count)
}

/// For each procedure, whether it is a root.
fn root_flags(alloc: Global, roots: &[usize], procedures: usize) -> Result<Vec<bool>, AllocError>
    ensures { IfOk result (λ flags. flags.items ≡ flags_of roots.now procedures) }
{
    (0..procedures)
        .map(|procedure| roots.contains(&procedure))
        .collect(alloc)
}

/// So many values of the rows.
fn rows<L: Lattice>(
    alloc: Global,
    are_roots: &[bool],
    facts: usize,
    entries: usize,
    count: usize,
) -> Result<Vec<L>, AllocError>
    requires { 0 < facts }
    ensures { IfOk result (λ values. values.items ≡ entered_from L.algebra facts entries are_roots.now count) }
{
    (0..count)
        .map(|place| value_of_place::<L>(are_roots, facts, entries, place))
        .collect(alloc)
}

/// Bottom at a place of an entry fact in the row of a root, else top.
fn value_of_place<L: Lattice>(are_roots: &[bool], facts: usize, entries: usize, place: usize) -> L
    requires { 0 < facts }
    ensures { result ≡ entered_at L.algebra facts entries are_roots.now place }
{
    if place % facts < entries && is_at(are_roots, place / facts) {
        L::bottom()
    } else {
        L::top()
    }
}

/// Whether the flag at an index is set.
fn is_at(flags: &[bool], index: usize) -> bool
    ensures { result ≡ slice_index_or flags.now index false }
{
    match flags.get(index) {
        Some(flag) => *flag,
        None => false,
    }
}
