//! Counts, sites and names of the graphs of small programs.
use super::graphs::graph_of;
use super::sites::{
    Call, Exit, Idle, expect_calls, expect_exit, expect_exits, expect_idle, expect_shared_step,
    expect_steps,
};
use ide_graph::{Effect, Graph};
use ide_wire::{Fact, Node, Refused};
use ide_worked::{
    ADDS_IN_CALLEE, BRANCH, CALLEES, COPIES, EMPTY, NUMBER, PASSES_GLOBAL, RECURSION, STATEMENTS,
    SUM_OR_NUMBER, TWO_CALLS, UNINITIALISED, UNREACHABLE, WRAPPING_SUM,
};
use std::process::Abort;

/// That the graph has these counts of procedures, nodes, facts and entry facts.
fn expect_counts(rt: &impl Abort, graph: &Graph, counts: (usize, usize, usize, usize)) {
    assert!(rt; graph.procedure_count() == counts.0);
    assert!(rt; graph.node_count() == counts.1);
    assert!(rt; graph.fact_count() == counts.2);
    assert!(rt; graph.entry_count() == counts.3);
}

/// That the graph of a text has these counts.
fn expect_counts_of(
    rt: &(impl Abort + AllocGlobal),
    text: &str,
    counts: (usize, usize, usize, usize),
) {
    let graph = graph_of(rt, text);
    expect_counts(rt, &graph, counts);
}

#[test]
fn examples_have_their_counts(rt: HostRuntime) {
    expect_counts_of(&rt, EMPTY, (1, 2, 2, 1));
    expect_counts_of(&rt, NUMBER, (1, 3, 3, 1));
    expect_counts_of(&rt, COPIES, (1, 4, 4, 1));
    expect_counts_of(&rt, BRANCH, (1, 8, 3, 1));
    expect_counts_of(&rt, UNREACHABLE, (1, 6, 3, 1));
    expect_counts_of(&rt, UNINITIALISED, (1, 4, 4, 1));
    expect_counts_of(&rt, WRAPPING_SUM, (1, 4, 4, 1));
    expect_counts_of(&rt, STATEMENTS, (1, 14, 4, 2));
    expect_counts_of(&rt, RECURSION, (2, 12, 3, 2));
    expect_counts_of(&rt, PASSES_GLOBAL, (2, 11, 4, 2));
    expect_counts_of(&rt, ADDS_IN_CALLEE, (2, 12, 4, 1));
    expect_counts_of(&rt, TWO_CALLS, (2, 11, 6, 1));
    expect_counts_of(&rt, CALLEES, (3, 15, 5, 1));
    expect_counts_of(&rt, SUM_OR_NUMBER, (2, 17, 6, 1));
}

/// The effect that declares the locals from the first to the one before the end.
fn enter(first: Fact, end: Fact) -> Effect {
    Effect::Enter { first, end }
}

/// The effect of an assignment of a number.
fn number(target: Fact, number: u64) -> Effect {
    Effect::Number { target, number }
}

/// The effect of an assignment of a variable.
fn copy(target: Fact, source: Fact) -> Effect {
    Effect::Copy { target, source }
}

/// The effect of an assignment of a variable and a number.
fn sum(target: Fact, source: Fact, number: u64) -> Effect {
    Effect::Sum {
        target,
        source,
        number,
    }
}

/// That the graph has these steps, idle nodes and exits, and that each call that comes back from one of the exits has
/// no other callee.
fn expect_sites(
    rt: &impl Abort,
    graph: &Graph,
    steps: &[(Node, Node, Effect)],
    idle: &[Idle],
    exits: &[Exit],
) {
    expect_steps(rt, graph, steps);
    expect_idle(rt, graph, idle);
    expect_exits(rt, graph, exits);
}

#[test]
fn branches_have_both_ways(rt: HostRuntime) {
    let steps = [
        (0, 1, enter(2, 3)),
        (2, 3, number(2, 5)),
        (5, 6, number(2, 5)),
    ];
    let idle: [Idle; 4] = [(1, &[2, 4]), (3, &[6]), (4, &[5]), (6, &[7])];
    expect_sites(&rt, &graph_of(&rt, BRANCH), &steps, &idle, &[(7, 0, &[])]);
}

#[test]
fn a_node_may_be_unreachable(rt: HostRuntime) {
    let steps = [
        (0, 1, enter(2, 3)),
        (1, 2, number(2, 1)),
        (3, 4, number(2, 2)),
    ];
    let idle: [Idle; 2] = [(2, &[4]), (4, &[5])];
    let exits: [Exit; 1] = [(5, 0, &[])];
    expect_sites(&rt, &graph_of(&rt, UNREACHABLE), &steps, &idle, &exits);
}

#[test]
fn a_global_is_counted_in_recursion(rt: HostRuntime) {
    let calls = [Call::of(3, 0, 4), Call::of(9, 0, 10)];
    let steps = [
        (0, 1, enter(3, 3)),
        (2, 3, sum(1, 1, 1)),
        (7, 8, enter(3, 3)),
        (8, 9, number(1, 0)),
    ];
    let idle: [Idle; 4] = [(1, &[2, 5]), (4, &[5]), (5, &[6]), (10, &[11])];
    let exits: [Exit; 2] = [(6, 0, &calls), (11, 7, &[])];
    expect_sites(&rt, &graph_of(&rt, RECURSION), &steps, &idle, &exits);
}

#[test]
fn calls_go_to_starts_and_come_back(rt: HostRuntime) {
    let first = Call::of(6, 0, 7).passing(2, 2).assigning(4);
    let second = Call::of(8, 0, 9).passing(3, 2).assigning(5);
    let steps = [
        (0, 1, enter(3, 3)),
        (1, 2, copy(1, 2)),
        (3, 4, enter(2, 6)),
        (4, 5, number(2, 5)),
        (5, 6, number(3, 6)),
    ];
    let idle: [Idle; 2] = [(7, &[8]), (9, &[10])];
    let exits: [Exit; 2] = [(2, 0, &[first, second]), (10, 3, &[])];
    expect_sites(&rt, &graph_of(&rt, TWO_CALLS), &steps, &idle, &exits);
}

/// That the call of both procedures and that of one of them are the callers at the exits and the calls
/// at the call nodes, where `main` begins at node 8.
fn expect_callees(rt: &impl Abort, graph: &Graph) {
    let first = Call::of(10, 0, 11).passing(2, 2).assigning(3);
    let second = Call::of(10, 4, 11).passing(2, 2).assigning(3);
    let alone = Call::of(12, 0, 13).passing(2, 2).assigning(4);
    expect_calls(rt, graph, 10, &[first, second]);
    expect_calls(rt, graph, 12, &[alone]);
    expect_exit(rt, graph, 3, 0, &[first, alone]);
    expect_exit(rt, graph, 7, 4, &[second]);
    expect_exit(rt, graph, 14, 8, &[]);
}

/// That these are the sites of `CALLEES`.
fn expect_call_of_both(rt: &impl Abort, graph: &Graph) {
    let steps = [
        (1, 2, number(3, 5)),
        (5, 6, number(3, 6)),
        (9, 10, number(2, 1)),
    ];
    expect_steps(rt, graph, &steps);
    expect_idle(rt, graph, &[(11, &[12]), (13, &[14])]);
    expect_callees(rt, graph);
}

#[test]
fn a_call_goes_to_each_callee(rt: HostRuntime) {
    expect_call_of_both(&rt, &graph_of(&rt, CALLEES));
}

/// The program of `CALLEES` with its callees in the other order.
const OTHER_ORDER: &str =
    "proc f p\nvar r\nr = 5\nreturn r\nend\nproc h p\nvar r\nr = 6\nreturn r\nend\nproc main\nvar a\nvar x\nvar y\na = 1\nx = call h | f a\ny = call f a\nend\n";

#[test]
fn calls_ascend_by_start_whatever_the_order(rt: HostRuntime) {
    expect_callees(&rt, &graph_of(&rt, OTHER_ORDER));
}

#[test]
fn statements_have_their_effects_and_targets(rt: HostRuntime) {
    let mix = Effect::Mix {
        target: 3,
        first: 1,
        second: 3,
    };
    let difference = Effect::Difference {
        target: 1,
        source: 3,
        number: 1,
    };
    let steps = [
        (0, 1, enter(3, 4)),
        (3, 4, sum(3, 1, 3)),
        (5, 6, mix),
        (6, 7, Effect::Unknown { target: 3 }),
        (10, 11, copy(3, 1)),
        (11, 12, difference),
    ];
    let idle: [Idle; 7] = [
        (1, &[2]),
        (2, &[1, 3]),
        (4, &[1]),
        (7, &[8]),
        (8, &[9]),
        (9, &[10]),
        (12, &[13]),
    ];
    let exits: [Exit; 1] = [(13, 0, &[])];
    expect_sites(&rt, &graph_of(&rt, STATEMENTS), &steps, &idle, &exits);
}

/// That each of these nodes is passed by these facts, and by no others of the program or behind its last one.
fn expect_passed(rt: &impl Abort, graph: &Graph, rows: &[(Node, &[Fact])]) {
    for (node, facts) in rows {
        assert!(rt; (*node as usize) < graph.node_count());
        for fact in 0..=4 {
            assert!(rt;
                graph.passes_by(*node, fact) == facts.contains(&fact),
                "node {node}"
            );
        }
    }
}

#[test]
fn facts_pass_by_where_no_statement_names_them(rt: HostRuntime) {
    let rows: [(Node, &[Fact]); 14] = [
        (0, &[]),
        (1, &[1, 2, 3]),
        (2, &[]),
        (3, &[2]),
        (4, &[]),
        (5, &[2]),
        (6, &[1, 2]),
        (7, &[1, 2, 3]),
        (8, &[1, 2, 3]),
        (9, &[1, 2, 3]),
        (10, &[2]),
        (11, &[2]),
        (12, &[1, 2, 3]),
        (13, &[]),
    ];
    expect_passed(&rt, &graph_of(&rt, STATEMENTS), &rows);
}

#[test]
fn a_procedure_may_call_itself(rt: HostRuntime) {
    let again = Call::of(2, 0, 3).passing(3, 3);
    let first = Call::of(8, 0, 9).passing(1, 3);
    let steps = [(0, 1, enter(4, 4)), (5, 6, copy(2, 1)), (7, 8, enter(3, 3))];
    let idle: [Idle; 4] = [(1, &[2, 4]), (3, &[4]), (4, &[5]), (9, &[10])];
    let exits: [Exit; 2] = [(6, 0, &[again, first]), (10, 7, &[])];
    expect_sites(&rt, &graph_of(&rt, PASSES_GLOBAL), &steps, &idle, &exits);
}

/// That the graph answers so for these names.
fn expect_place(
    rt: &impl Abort,
    graph: &Graph,
    procedure: &str,
    position: u32,
    fact: &str,
    expected: Result<(Node, Fact), Refused>,
) {
    let place = graph.find(procedure.as_bytes(), position, fact.as_bytes());
    assert!(rt; place == expected, "at {procedure} {position} {fact}");
}

/// That these names of `TWO_CALLS` are found.
fn expect_names(rt: &impl Abort, graph: &Graph) {
    expect_place(rt, graph, "main", 7, "x", Ok((10, 4)));
    expect_place(rt, graph, "main", 0, "@zero", Ok((3, 0)));
    expect_place(rt, graph, "id", 2, "p", Ok((2, 2)));
    expect_place(rt, graph, "id", 0, "@result", Ok((0, 1)));
}

#[test]
fn names_are_found(rt: HostRuntime) {
    let graph = graph_of(&rt, TWO_CALLS);
    expect_names(&rt, &graph);
}

/// That these names of `TWO_CALLS` are refused.
fn expect_no_names(rt: &impl Abort, graph: &Graph) {
    expect_place(rt, graph, "nobody", 99, "x", Err(Refused::NoProcedure));
    expect_place(rt, graph, "main", 8, "x", Err(Refused::OutOfRange));
    expect_place(rt, graph, "main", u32::MAX, "x", Err(Refused::OutOfRange));
    expect_place(rt, graph, "id", 0, "x", Err(Refused::OutOfRange));
    expect_place(rt, graph, "main", 0, "p", Err(Refused::OutOfRange));
}

#[test]
fn names_are_refused(rt: HostRuntime) {
    let graph = graph_of(&rt, TWO_CALLS);
    expect_no_names(&rt, &graph);
}

/// That the fact has that name at the node; the empty name stands for none.
fn expect_name(rt: &impl Abort, graph: &Graph, node: Node, fact: Fact, name: &[u8]) {
    let answer = graph.fact_name(node, fact).unwrap_or(b"");
    assert!(rt; answer == name, "at node {node} fact {fact}");
}

/// That the facts of `PASSES_GLOBAL` have these names.
fn expect_fact_names(rt: &impl Abort, graph: &Graph) {
    expect_name(rt, graph, 0, 0, b"@zero");
    expect_name(rt, graph, 0, 1, b"g");
    expect_name(rt, graph, 10, 2, b"@result");
    expect_name(rt, graph, 6, 3, b"n");
    expect_name(rt, graph, 7, 3, b"");
    expect_name(rt, graph, 0, 4, b"");
    expect_name(rt, graph, 11, 0, b"");
}

#[test]
fn facts_have_their_procedure_s_names(rt: HostRuntime) {
    let graph = graph_of(&rt, PASSES_GLOBAL);
    expect_fact_names(&rt, &graph);
}

/// That the procedure has this start, exit and count of parameters, and owns both nodes.
fn expect_procedure(
    rt: &impl Abort,
    graph: &Graph,
    procedure: usize,
    start: Node,
    exit: Node,
    parameters: usize,
) {
    assert!(rt;
        procedure < graph.procedure_count(),
        "procedure {procedure}"
    );
    assert!(rt; graph.start_of(procedure) == start, "procedure {procedure}");
    assert!(rt; graph.exit_of(procedure) == exit, "procedure {procedure}");
    assert!(rt;
        graph.parameter_count(procedure) == parameters,
        "procedure {procedure}"
    );
}

/// That the node belongs to that procedure.
fn expect_owner(rt: &impl Abort, graph: &Graph, node: Node, procedure: usize) {
    assert!(rt; (node as usize) < graph.node_count(), "at node {node}");
    assert!(rt; graph.procedure_of(node) == procedure, "at node {node}");
}

/// That these are the procedures of `PASSES_GLOBAL`.
fn expect_procedures(rt: &impl Abort, graph: &Graph) {
    assert!(rt; graph.procedure_named(b"main") == Some(1));
    assert!(rt; graph.procedure_named(b"n") == None);
    expect_procedure(rt, graph, 0, 0, 6, 1);
    expect_procedure(rt, graph, 1, 7, 10, 0);
    expect_owner(rt, graph, 6, 0);
    expect_owner(rt, graph, 7, 1);
    expect_shared_step(rt, graph, 9, 10, Effect::Nothing);
}

#[test]
fn procedures_have_their_nodes(rt: HostRuntime) {
    let graph = graph_of(&rt, PASSES_GLOBAL);
    expect_procedures(&rt, &graph);
}
