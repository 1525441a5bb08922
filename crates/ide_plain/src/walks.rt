//! All walks of a length, and what they give each fact.
ghost use Rattle.std.specs.Prelude.{◌≡◌, ◌*◌, ◌≤◌, ◌^◌, length, IfOk};

use crate::walk::Walk;
use ide_graph::{Caller, EdgeData, Graph, Site};
use ide_lattice::Lattice;
use ide_problem::Problem;
use ide_wire::Node;
use std::alloc::{AllocError, Global};
use std::slice;

/// For each node, by rows, and each fact, the meet of what the valid paths of at most `longest`
/// edges from one of these starts give the fact there: top where none leads. At a start the first
/// `entry_count` facts are bottom and the others top.
///
/// Time grows with the count of different environments that paths of one length make, and that
/// may double with each branch.
pub fn values_of_paths<P: Problem>(
    alloc: Global,
    graph: &Graph,
    starts: &[Node],
    longest: usize,
) -> Result<Vec<P::L>, AllocError>
    ensures { IfOk result (λ values. length values.items ≡ graph.now.nodes * graph.now.facts) }
{
    let places = graph.node_count() * graph.fact_count();
    let mut values = vec![in alloc; P::L::top(); places]?;
    let mut walks = beginnings::<P>(alloc, graph, starts)?;
    meet_walks(&mut values, &walks);
    for _ in 0..longest {
        walks = longer(alloc, graph, &walks)?;
        meet_walks(&mut values, &walks);
    }
    Ok(values)
}

/// The walks of no edges.
fn beginnings<P: Problem>(
    alloc: Global,
    graph: &Graph,
    starts: &[Node],
) -> Result<Vec<Walk<P>>, AllocError> {
    let mut walks = Vec::with_capacity(alloc, starts.len())?;
    for start in starts {
        walks.push(Walk {
            node: *start,
            calls: Vec::new(alloc),
            environment: entry::<P>(alloc, graph)?,
        })?;
    }
    Ok(walks)
}

/// The environment at a root.
fn entry<P: Problem>(alloc: Global, graph: &Graph) -> Result<Vec<P::L>, AllocError>
    ensures { IfOk result (λ environment. length environment.items ≤ 2 ^ 16) }
{
    let mut environment = vec![in alloc; P::L::bottom(); graph.entry_count()]?;
    environment.resize(graph.fact_count(), P::L::top())?;
    Ok(environment)
}

/// Meets into the values what the walks bring to their nodes.
fn meet_walks<P: Problem>(values: &mut [P::L], walks: &[Walk<P>])
    ensures { length values.new ≡ length values.old }
{
    for walk in walks {
        let row = (walk.node as usize).saturating_mul(walk.environment.len());
        if let Some(values) = values.get_mut(row..) {
            meet_environment(values, walk.environment.as_slice());
        }
    }
}

/// Meets each value with that of the environment.
fn meet_environment<L: Lattice>(values: &mut [L], environment: &[L])
    ensures { length values.new ≡ length values.old }
{
    for (value, other) in values.iter_mut().zip(environment) {
        *value = value.meet(*other);
    }
}

/// The walks with one edge more, each once.
fn longer<P: Problem>(
    alloc: Global,
    graph: &Graph,
    walks: &[Walk<P>],
) -> Result<Vec<Walk<P>>, AllocError> {
    let mut longer = Vec::new(alloc);
    for walk in walks {
        if (walk.node as usize) < graph.node_count() {
            go_on(alloc, graph.site(walk.node), walk, &mut longer)?;
        }
    }
    Ok(longer)
}

/// Adds the walks that go on from a walk at the site.
fn go_on<P: Problem>(
    alloc: Global,
    site: &Site,
    walk: &Walk<P>,
    longer: &mut Vec<Walk<P>>,
) -> Result<(), AllocError> {
    match site {
        Site::Normal(edges) => pass(alloc, edges.as_slice(), &walk.calls, walk, longer),
        Site::Call { calls, along } => {
            let inside = walk.calls_with(alloc, walk.node)?;
            pass(alloc, calls.as_slice(), &inside, walk, longer)?;
            pass(alloc, slice::from_ref(along), &walk.calls, walk, longer)
        }
        Site::Exit { callers, .. } => leave(alloc, callers.as_slice(), walk, longer),
    }
}

/// Adds the walks over edges, behind which these calls are open.
fn pass<P: Problem>(
    alloc: Global,
    edges: &[EdgeData],
    calls: &[Node],
    walk: &Walk<P>,
    longer: &mut Vec<Walk<P>>,
) -> Result<(), AllocError> {
    for edge in edges {
        let calls = Vec::from_slice(alloc, calls)?;
        add(walk.over(alloc, edge, calls)?, longer)?;
    }
    Ok(())
}

/// Adds the walk back to the latest call that is open.
fn leave<P: Problem>(
    alloc: Global,
    callers: &[Caller],
    walk: &Walk<P>,
    longer: &mut Vec<Walk<P>>,
) -> Result<(), AllocError> {
    for caller in callers {
        if let Some(calls) = walk.calls_without(alloc, caller.call_node)? {
            add(walk.over(alloc, &caller.back, calls)?, longer)?;
        }
    }
    Ok(())
}

/// Adds a walk, unless it is there.
fn add<P: Problem>(walk: Walk<P>, walks: &mut Vec<Walk<P>>) -> Result<(), AllocError> {
    if is_among(&walk, walks.as_slice()) {
        return Ok(());
    }
    walks.push(walk)?;
    Ok(())
}

/// Whether one of the walks is the same.
fn is_among<P: Problem>(walk: &Walk<P>, walks: &[Walk<P>]) -> bool {
    walks.iter().any(|other| walk.is_same(other))
}
