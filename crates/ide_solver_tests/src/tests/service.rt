//! From text to answer: what rows of `examples/rows.txt` cannot say, since the program has one root
//! and prints names.
use ide_graph::Graph;
use ide_instances::{ConstValue, CopyConst, Reach, Uninit};
use ide_lattice::Lattice;
use ide_problem::Problem;
use ide_solver::{solve, values_of};
use ide_text::{Program, parse};
use ide_values::Values;
use ide_wire::{Fact, Node, Refused};
use ide_worked::{CALLEES, COPIES, EMPTY, NUMBER, RECURSION, TWO_CALLS, UNREACHABLE};
use std::alloc::Global;
use std::process::Abort;
use std::test::Fail;

/// The values of a text, for these roots.
fn values<P: Problem>(alloc: Global, text: &str, roots: &[&[u8]]) -> Result<Values<P>, Refused> {
    let values = values_of::<P>(alloc, text.as_bytes(), roots)?;
    Ok(values)
}

/// The node at a position of `main`, and the number of the fact of that name there.
fn place_of(graph: &Graph, position: u32, name: &str) -> Result<(Node, Fact), Refused> {
    let place = graph.find(b"main", position, name.as_bytes())?;
    Ok(place)
}

/// The value of the fact of that name at a position of `main`.
fn value_at<P: Problem>(values: &Values<P>, position: u32, name: &str) -> Result<P::L, Refused> {
    let (node, fact) = place_of(&values.loaded().graph, position, name)?;
    let value = values.at(node, fact)?;
    Ok(value)
}

/// Asserts the value of `@zero` at a position of `main`, for these roots.
fn expect_zero<P: Problem>(
    rt: &(impl Abort + AllocGlobal),
    text: &str,
    roots: &[&[u8]],
    position: u32,
    want: P::L,
) -> Result<(), Fail> {
    let values = values::<P>(rt.alloc(), text, roots)?;
    assert!(rt;
        value_at(&values, position, "@zero") == Ok(want),
        "at {position} in {text}"
    );
    Ok(())
}

#[test]
fn reached_statements(rt: HostRuntime) -> Result<(), Fail> {
    let main = b"main".as_slice();
    expect_zero::<Reach>(&rt, UNREACHABLE, &[main], 3, Lattice::top())?;
    expect_zero::<Reach>(&rt, UNREACHABLE, &[main], 5, Lattice::bottom())
}

/// Asserts the value of a variable at the end of `main`, the position 6, with `main` as the root.
fn expect_at_end<P: Problem>(
    rt: &(impl Abort + AllocGlobal),
    text: &str,
    name: &str,
    want: P::L,
) -> Result<(), Fail> {
    let values = values::<P>(rt.alloc(), text, &[b"main".as_slice()])?;
    assert!(rt; value_at(&values, 6, name) == Ok(want), "{name} in {text}");
    Ok(())
}

/// `CALLEES`, but that both procedures give back the same.
const ALIKE: &str =
    "proc f p\nvar r\nr = 5\nreturn r\nend\nproc h p\nvar r\nr = 5\nreturn r\nend\nproc main\nvar a\nvar x\nvar y\na = 1\nx = call f | h a\ny = call f a\nend\n";

#[test]
fn values_of_several_callees_are_met(rt: HostRuntime) -> Result<(), Fail> {
    expect_at_end::<CopyConst>(&rt, CALLEES, "x", ConstValue::Bottom)?;
    expect_at_end::<CopyConst>(&rt, CALLEES, "y", ConstValue::Const(5))?;
    expect_at_end::<CopyConst>(&rt, ALIKE, "x", ConstValue::Const(5))?;
    expect_at_end::<CopyConst>(&rt, ALIKE, "y", ConstValue::Const(5))
}

#[test]
fn values_without_a_root(rt: HostRuntime) -> Result<(), Fail> {
    expect_zero::<CopyConst>(&rt, NUMBER, &[], 0, Lattice::top())
}

/// Asserts that the empty main has no value there.
fn expect_out_of_range<P: Problem>(
    rt: &(impl Abort + AllocGlobal),
    node: Node,
    fact: Fact,
) -> Result<(), Fail> {
    let values = values::<P>(rt.alloc(), EMPTY, &[b"main".as_slice()])?;
    assert!(rt;
        values.at(node, fact) == Err(Refused::OutOfRange),
        "at {node} and {fact}"
    );
    Ok(())
}

#[test]
fn places_past_the_empty_main(rt: HostRuntime) -> Result<(), Fail> {
    expect_out_of_range::<CopyConst>(&rt, 2, 0)?;
    expect_out_of_range::<CopyConst>(&rt, 0, 2)
}

/// Appends the dump of a text, with these roots.
fn dump<P: Problem>(
    alloc: Global,
    text: &str,
    roots: &[&[u8]],
    out: &mut Vec<u8>,
) -> Result<(), Refused> {
    solve::<P>(alloc, text.as_bytes(), roots, out)?;
    Ok(())
}

/// Asserts how many bytes the dump of a text has, which is appended to what was there; or that it is refused so,
/// and leaves what was there.
fn expect_dump<P: Problem>(
    rt: &(impl Abort + AllocGlobal),
    text: &str,
    roots: &[&[u8]],
    want: Result<usize, Refused>,
) -> Result<(), Fail> {
    let mut out = Vec::from_slice(rt.alloc(), b"kept")?;
    let found = match dump::<P>(rt.alloc(), text, roots, &mut out) {
        Ok(()) => Ok(out.len().saturating_sub(4)),
        Err(refused) => Err(refused),
    };
    assert!(rt; found == want, "{text}");
    assert!(rt; out.as_slice().starts_with(b"kept"), "{text}");
    assert!(rt; found.is_ok() || out.len() == 4, "{text}");
    Ok(())
}

#[test]
fn dumps_are_appended(rt: HostRuntime) -> Result<(), Fail> {
    expect_dump::<CopyConst>(&rt, COPIES, &[b"main".as_slice()], Ok(810))
}

#[test]
fn a_dump_without_a_root(rt: HostRuntime) -> Result<(), Fail> {
    expect_dump::<Uninit>(&rt, EMPTY, &[], Ok(192))
}

#[test]
fn roots_that_are_refused(rt: HostRuntime) -> Result<(), Fail> {
    let main = b"main".as_slice();
    let none = b"none".as_slice();
    let id = b"id".as_slice();
    expect_dump::<CopyConst>(&rt, COPIES, &[none], Err(Refused::NoProcedure))?;
    expect_dump::<CopyConst>(&rt, TWO_CALLS, &[id], Err(Refused::HasParameters))?;
    expect_dump::<CopyConst>(&rt, TWO_CALLS, &[main, main], Err(Refused::Already))?;
    expect_dump::<CopyConst>(&rt, TWO_CALLS, &[main, none], Err(Refused::NoProcedure))
}

/// The program of a text.
fn program_of(alloc: Global, text: &str) -> Result<Program, Refused> {
    let program = parse(alloc, text.as_bytes())?;
    Ok(program)
}

/// The graph of a text.
fn graph_of(alloc: Global, text: &str) -> Result<Graph, Refused> {
    let program = program_of(alloc, text)?;
    let graph = Graph::of(alloc, &program)?;
    Ok(graph)
}

/// Asserts the counts of procedures, nodes and facts.
fn expect_counts(
    rt: &(impl Abort + AllocGlobal),
    text: &str,
    procedures: usize,
    nodes: usize,
    facts: usize,
) -> Result<(), Fail> {
    let graph = graph_of(rt.alloc(), text)?;
    assert!(rt; graph.procedure_count() == procedures, "{text}");
    assert!(rt; graph.node_count() == nodes, "{text}");
    assert!(rt; graph.fact_count() == facts, "{text}");
    Ok(())
}

#[test]
fn graphs_of_the_worked_programs(rt: HostRuntime) -> Result<(), Fail> {
    expect_counts(&rt, EMPTY, 1, 2, 2)?;
    expect_counts(&rt, TWO_CALLS, 2, 11, 6)?;
    expect_counts(&rt, CALLEES, 3, 15, 5)?;
    expect_counts(&rt, RECURSION, 2, 12, 3)
}
