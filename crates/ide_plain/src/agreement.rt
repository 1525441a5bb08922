//! Whether the solver's values are those that the paths give.
ghost use Rattle.std.specs.Prelude.{◌<◌, IsTrue};
ghost use Rattle.ide_plain.specs.Agreement.{AreSame, AreSameAt, IsSameAt};

use crate::walks::values_of_paths;
use ide_graph::Graph;
use ide_problem::Problem;
use ide_solver::values_of;
use ide_values::Values;
use ide_wire::{Fact, Node, Refused};
use std::alloc::Global;

/// Whether the values that the solver finds of a text, with the procedures of these names as
/// roots, are at each node and fact what the valid paths of at most `longest` edges give.
///
/// It is a test alone, and has no clause: that the list of `values_of_paths` has the values of the
/// paths is not proved. It is refused as [`values_of`] is.
pub fn agrees<P: Problem>(
    alloc: Global,
    text: &[u8],
    roots: &[&[u8]],
    longest: usize,
) -> Result<bool, Refused> {
    let values = values_of::<P>(alloc, text, roots)?;
    let graph = &values.loaded().graph;
    let starts = starts_of(alloc, graph, values.roots())?;
    let plain = values_of_paths::<P>(alloc, graph, starts.as_slice(), longest)?;
    Ok(is_all_same(&values, plain.as_slice()))
}

/// The starts of these procedures.
fn starts_of(alloc: Global, graph: &Graph, procedures: &[usize]) -> Result<Vec<Node>, Refused> {
    let mut starts = Vec::with_capacity(alloc, procedures.len())?;
    for procedure in procedures {
        if *procedure < graph.procedure_count() {
            starts.push(graph.start_of(*procedure))?;
        }
    }
    Ok(starts)
}

/// Whether each of the values, by rows of nodes, is the one found.
fn is_all_same<P: Problem>(values: &Values<P>, plain: &[P::L]) -> bool
    ensures { IsTrue result → AreSame P.L.algebra values.now plain.now }
{
    for node in 0..values.loaded().graph.node_count() {
        if !is_row_same(values, node as Node, plain) {
            return false;
        }
    }
    true
}

/// Whether the values of the facts at a node are those found.
fn is_row_same<P: Problem>(values: &Values<P>, node: Node, plain: &[P::L]) -> bool
    requires { node < values.now.graph.nodes }
    ensures { IsTrue result → AreSameAt P.L.algebra values.now plain.now node }
{
    for fact in 0..values.loaded().graph.fact_count() {
        if !is_same(values, node, fact as Fact, plain) {
            return false;
        }
    }
    true
}

/// Whether the value of the fact at the node is the one found.
fn is_same<P: Problem>(values: &Values<P>, node: Node, fact: Fact, plain: &[P::L]) -> bool
    requires node { node < values.now.graph.nodes }
    requires fact { fact < values.now.graph.facts }
    ensures { IsTrue result → IsSameAt P.L.algebra values.now plain.now node fact }
{
    let place = node as usize * values.loaded().graph.fact_count() + fact as usize;
    match (plain.get(place), values.at(node, fact)) {
        (Some(value), Ok(found)) => *value == found,
        _ => false,
    }
}
