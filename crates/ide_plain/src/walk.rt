//! A walk along a valid path.
ghost use Rattle.std.specs.Prelude.{◌≡◌, ◌≤◌, ◌^◌, ◌++◌, ◌∷◌, [], length, IfNone, IfOk, IfSome, IsTrue};
ghost use Rattle.ide_plain.specs.Effect.{ComeOut};
ghost use Rattle.ide_plain.specs.Walks.{BringSame, HasOtherLatest, LeavesCall};

use crate::effect::environment_after;
use ide_graph::EdgeData;
use ide_problem::Problem;
use ide_solver::Shown;
use ide_wire::Node;
use std::alloc::{AllocError, Global};

/// Where a walk stands after some edges: its node, the calls that it has entered and not left, the
/// latest last, and the environment that its edges made of that at the root.
#[derive(Drop)]
pub(crate) struct Walk<P: Problem> {
    pub node: Node,
    pub calls: Vec<Node>,
    pub environment: Vec<P::L>,
    ghost few: { length environment.items ≤ 2 ^ 16 },
}

impl<P: Problem> Walk<P> {
    /// The walk that goes on over an edge, and has then these open calls.
    pub fn over(
        &self,
        alloc: Global,
        edge: &EdgeData,
        calls: Vec<Node>,
    ) -> Result<Walk<P>, AllocError>
        ensures node { IfOk result (λ walk. walk.node ≡ edge.now.end) }
        ensures calls { IfOk result (λ walk. walk.calls ≡ calls) }
        ensures environment { IfOk result (λ walk. ComeOut ⟦<P as Shown>⟧.analysis edge.now self.now.environment.items walk.environment) }
    {
        let environment = environment_after::<P>(alloc, edge, self.environment.as_slice())?;
        Ok(Walk {
            node: edge.end,
            calls,
            environment,
        })
    }

    /// The open calls, and one more.
    pub fn calls_with(&self, alloc: Global, call: Node) -> Result<Vec<Node>, AllocError>
        ensures { IfOk result (λ calls. calls.items ≡ self.now.calls.items ++ call ∷ []) }
    {
        let mut calls = Vec::from_slice(alloc, self.calls.as_slice())?;
        calls.push(call)?;
        Ok(calls)
    }

    /// The open calls but for the latest, where that is a call at the node.
    pub fn calls_without(&self, alloc: Global, call: Node) -> Result<Option<Vec<Node>>, AllocError>
        ensures left { IfOk result (λ left. IfSome left (LeavesCall self.now.calls call)) }
        ensures other { IfOk result (λ left. IfNone left (HasOtherLatest self.now.calls call)) }
    {
        match self.calls.split_last() {
            Some((latest, earlier)) if *latest == call => {
                Ok(Some(Vec::from_slice(alloc, earlier)?))
            }
            _ => Ok(None),
        }
    }

    /// Whether both walks stand at the same node, with the same calls and environment.
    pub fn is_same(&self, other: &Walk<P>) -> bool
        ensures node { IsTrue result → self.now.node ≡ other.now.node }
        ensures calls { IsTrue result → self.now.calls.items ≡ other.now.calls.items }
        ensures environment { IsTrue result → BringSame self.now.environment other.now.environment }
    {
        self.node == other.node
            && self.calls == other.calls
            && self.environment == other.environment
    }
}
