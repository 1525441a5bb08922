//! Sites: what stands at a node, with the edges out of it.
use crate::edge::EdgeData;
use crate::edges::Edges;
use ide_wire::{Listing, Node};

/// What stands at a node of the supergraph.
#[derive(PartialEq, Eq, Drop)]
pub enum Site {
    /// A start, a statement but a call, or a return site: its normal edges by ascending target,
    /// each once.
    Normal(Edges),
    /// A call node: one call edge for each callee, by ascending start, and the call-to-return edge
    /// along the call, which ends at the return site, the node after the call node.
    Call {
        calls: Listing<EdgeData>,
        along: EdgeData,
    },
    /// The exit of the procedure that begins at `start`: the calls of it, by ascending call node.
    Exit {
        start: Node,
        callers: Listing<Caller>,
    },
}

/// A call, as the exit of a procedure that it calls sees it.
#[derive(PartialEq, Eq, Drop)]
pub struct Caller {
    pub call_node: Node,
    /// The call edge to the procedure's start.
    pub call: EdgeData,
    /// The return edge from the procedure's exit to the return site.
    pub back: EdgeData,
}
