//! What stands at the nodes of a graph, against what a test expects there.
use ide_graph::{Caller, EdgeData, EdgeKind, Effect, Graph, Site};
use ide_wire::{Fact, Node};
use std::process::Abort;

/// A call of one callee, as its call node and the exit of that callee have to show it. A call of
/// several is one of these for each.
#[derive(Clone, Copy)]
pub(crate) struct Call {
    node: Node,
    /// The start of the callee.
    start: Node,
    /// The argument and its parameter, if there is one.
    passed: Option<(Fact, Fact)>,
    /// The return site.
    back: Node,
    /// The fact that the call assigns, if any.
    target: Option<Fact>,
}

impl Call {
    /// A call at that node of the procedure that begins there, with no argument and no target, which
    /// comes back to that node.
    pub(crate) fn of(node: Node, start: Node, back: Node) -> Call {
        Call {
            node,
            start,
            passed: None,
            back,
            target: None,
        }
    }

    /// The call with that argument for that parameter.
    pub(crate) fn passing(self, argument: Fact, parameter: Fact) -> Call {
        let passed = Some((argument, parameter));
        Call { passed, ..self }
    }

    /// The call that assigns that fact.
    pub(crate) fn assigning(self, target: Fact) -> Call {
        let target = Some(target);
        Call { target, ..self }
    }

    /// Whether the edge is the call edge of the call.
    fn is_entered_by(self, edge: &EdgeData) -> bool {
        match &edge.kind {
            EdgeKind::Call(passed) => {
                edge.end == self.start && are_passed(passed.as_slice(), self.passed)
            }
            _ => false,
        }
    }

    /// Whether the edge is the return edge of the call.
    fn is_left_by(self, edge: &EdgeData) -> bool {
        match edge.kind {
            EdgeKind::Return(target) => edge.end == self.back && target == self.target,
            _ => false,
        }
    }

    /// Whether the edge is the call-to-return edge of the call.
    fn is_passed_by(self, edge: &EdgeData) -> bool {
        match edge.kind {
            EdgeKind::CallToReturn(target) => edge.end == self.back && target == self.target,
            _ => false,
        }
    }

    /// Whether these are the call edge and the call-to-return edge of the call.
    fn has_edges(self, call: &EdgeData, along: &EdgeData) -> bool {
        self.is_entered_by(call) && self.is_passed_by(along)
    }

    /// Whether the caller is that of the call.
    fn is_of(self, caller: &Caller) -> bool {
        caller.call_node == self.node
            && self.is_entered_by(&caller.call)
            && self.is_left_by(&caller.back)
    }
}

/// Whether the site is the call node of these calls, one for each callee in the order of the edges.
fn is_call(site: &Site, expected: &[Call]) -> bool {
    match site {
        Site::Call { calls, along } => {
            let calls = calls.as_slice();
            calls.len() == expected.len()
                && calls
                    .iter()
                    .zip(expected)
                    .all(|(edge, call)| call.has_edges(edge, along))
        }
        _ => false,
    }
}

/// Whether these are all the facts that a call passes.
fn are_passed(pairs: &[(Fact, Fact)], passed: Option<(Fact, Fact)>) -> bool {
    match passed {
        Some(pair) => pairs.len() == 1 && pairs[0] == pair,
        None => pairs.is_empty(),
    }
}

/// Whether the edge is a normal one to that end, with that effect.
fn is_normal(edge: &EdgeData, end: Node, effect: Effect) -> bool {
    match edge.kind {
        EdgeKind::Normal(own) => edge.end == end && own == effect,
        _ => false,
    }
}

/// Whether the site has one edge, a normal one to that end with that effect.
fn is_step(site: &Site, end: Node, effect: Effect) -> bool {
    match site {
        Site::Normal(edges) => {
            let edges = edges.as_slice();
            edges.len() == 1 && is_normal(&edges[0], end, effect)
        }
        _ => false,
    }
}

/// Whether the site has normal edges to these ends alone, in their order, that change nothing.
fn is_idle(site: &Site, ends: &[Node]) -> bool {
    match site {
        Site::Normal(edges) => {
            let edges = edges.as_slice();
            edges.len() == ends.len()
                && edges
                    .iter()
                    .zip(ends)
                    .all(|(edge, end)| is_normal(edge, *end, Effect::Nothing))
        }
        _ => false,
    }
}

/// Whether the site is the exit of the procedure that begins there, with these callers alone.
fn is_exit(site: &Site, start: Node, calls: &[Call]) -> bool {
    match site {
        Site::Exit {
            start: own,
            callers,
        } => {
            let callers = callers.as_slice();
            *own == start
                && callers.len() == calls.len()
                && callers
                    .iter()
                    .zip(calls)
                    .all(|(caller, call)| call.is_of(caller))
        }
        _ => false,
    }
}

/// What stands at a node that is there.
fn site_at<'a>(rt: &impl Abort, graph: &'a Graph, node: Node) -> &'a Site {
    assert!(rt; (node as usize) < graph.node_count(), "at node {node}");
    graph.site(node)
}

/// That one edge leaves each of these nodes, a normal one to that end with that effect.
pub(crate) fn expect_steps(rt: &impl Abort, graph: &Graph, steps: &[(Node, Node, Effect)]) {
    for (node, end, effect) in steps {
        let site = site_at(rt, graph, *node);
        assert!(rt; is_step(site, *end, *effect), "at node {node}");
    }
}

/// A node that changes nothing, and the ends of its edges.
pub(crate) type Idle<'a> = (Node, &'a [Node]);

/// That normal edges that change nothing leave each of these nodes, to these ends alone.
pub(crate) fn expect_idle(rt: &impl Abort, graph: &Graph, nodes: &[Idle]) {
    for (node, ends) in nodes {
        let site = site_at(rt, graph, *node);
        assert!(rt; is_idle(site, ends), "at node {node}");
    }
}

/// That each of the calls stands at its node, and has no other callee.
fn expect_single_calls(rt: &impl Abort, graph: &Graph, calls: &[Call]) {
    for call in calls {
        expect_calls(rt, graph, call.node, &[*call]);
    }
}

/// That a call stands at the node which is these calls, one for each callee in the order of the edges.
pub(crate) fn expect_calls(rt: &impl Abort, graph: &Graph, node: Node, calls: &[Call]) {
    assert!(rt; is_call(site_at(rt, graph, node), calls), "at node {node}");
}

/// That the node is the exit of the procedure that begins there, with these callers alone.
pub(crate) fn expect_exit(rt: &impl Abort, graph: &Graph, node: Node, start: Node, calls: &[Call]) {
    assert!(rt;
        is_exit(site_at(rt, graph, node), start, calls),
        "at node {node}"
    );
}

/// An exit: its node, the start of its procedure, and the calls that come back from it.
pub(crate) type Exit<'a> = (Node, Node, &'a [Call]);

/// That these are exits with these callers alone, each a call with no other callee.
pub(crate) fn expect_exits(rt: &impl Abort, graph: &Graph, exits: &[Exit]) {
    for (node, start, calls) in exits {
        expect_exit(rt, graph, *node, *start, calls);
        expect_single_calls(rt, graph, calls);
    }
}

/// That the site of the node, once it is carried away, is one step.
pub(crate) fn expect_shared_step(
    rt: &impl Abort,
    graph: &Graph,
    node: Node,
    end: Node,
    effect: Effect,
) {
    assert!(rt; (node as usize) < graph.node_count(), "at node {node}");
    match graph.shared_site(node) {
        Ok(site) => assert!(rt; is_step(site.site(), end, effect), "at node {node}"),
        Err(refused) => panic!(rt; "{refused} at node {node}"),
    }
}
