//! Steps: what a node does to facts where one edge leaves it, to the node behind it.
ghost use Rattle.std.specs.Prelude.{◌≡◌, ◌≤◌, ◌^◌, length, map, IfOk};
ghost use Rattle.ide_graph.specs.Steps.{AreStepsOf, IsStepFor, IsStepOver, passes_by, step_beside};

use crate::edge::{EdgeData, EdgeKind, Effect};
use crate::site::Site;
use ide_wire::{Fact, Node};
use std::alloc::{AllocError, Global};

/// What is told of a node in eight bytes, so that a walk along a procedure reads no site of most of its nodes.
#[derive(Clone, Copy)]
pub(crate) struct Step {
    /// Whether one edge leaves the node, to the node behind it, whose statement names no fact but these.
    leads_behind: bool,
    /// The facts that the statement names: `@zero` in the place of those that it has fewer.
    first: Fact,
    second: Fact,
    third: Fact,
}

/// The step of a node of which nothing is told.
const UNTOLD: Step = Step {
    leads_behind: false,
    first: 0,
    second: 0,
    third: 0,
};

impl Step {
    /// Whether it leads to the node behind by a statement that does not name the fact, which is not `@zero`.
    #[inline(always)]
    pub(crate) fn passes_by(self, fact: Fact) -> bool
        ensures { result ≡ passes_by self fact }
    {
        self.leads_behind
            && fact != 0
            && fact != self.first
            && fact != self.second
            && fact != self.third
    }
}

/// The step of each node, where these are the nodes' sites, in a program of so many facts.
pub(crate) fn steps_of(alloc: Global, sites: &[Site], facts: u32) -> Result<Vec<Step>, AllocError>
    requires { length sites.now ≤ 2 ^ 32 }
    ensures { IfOk result (λ steps. AreStepsOf facts sites.now steps.items) }
{
    let mut steps = Vec::with_capacity(alloc, sites.len())?;
    for node in 0..sites.len() {
        steps.push(step_of(&sites[node], node as Node, facts))?;
    }
    Ok(steps)
}

/// The step of a node that has the site.
fn step_of(site: &Site, node: Node, facts: u32) -> Step
    ensures { IsStepFor facts node site.now result }
{
    match site {
        Site::Normal(edges) => match edges.as_slice() {
            [edge] if edge.facts == facts && edge.leads_behind(node) => step_over(&edge.kind),
            _ => UNTOLD,
        },
        Site::Call { .. } | Site::Exit { .. } => UNTOLD,
    }
}

/// The step over an edge of that kind to the node behind: nothing is told of a procedure's start, which has to do with
/// many facts.
fn step_over(kind: &EdgeKind) -> Step
    ensures { IsStepOver kind.now result }
{
    let EdgeKind::Normal(effect) = kind else {
        return UNTOLD;
    };
    match *effect {
        Effect::Nothing => step_beside(0, 0, 0),
        Effect::Number { target, .. } | Effect::Unknown { target } => step_beside(target, 0, 0),
        Effect::Copy { target, source }
        | Effect::Sum { target, source, .. }
        | Effect::Difference { target, source, .. } => step_beside(target, source, 0),
        Effect::Mix {
            target,
            first,
            second,
        } => step_beside(target, first, second),
        Effect::Enter { .. } => UNTOLD,
    }
}

/// The step of a statement that names these facts.
fn step_beside(first: Fact, second: Fact, third: Fact) -> Step
    ensures { result ≡ step_beside first second third }
{
    Step {
        leads_behind: true,
        first,
        second,
        third,
    }
}
