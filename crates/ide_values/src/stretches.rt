//! Stretches of nodes side by side that are of one procedure.
ghost use Rattle.std.specs.Prelude.{◌<◌, ◌≤◌, ◌^◌};
ghost use Rattle.ide_values.specs.Stretches.{AreStretches, IsStretch};

use crate::rows::procedure_at;
use ide_graph::Graph;
use ide_wire::Node;

/// How many stretches are kept.
const KEPT: usize = 128;

/// Nodes side by side, from one on and before another, that are of one procedure.
#[derive(Clone, Copy, Drop)]
pub(crate) struct Stretch {
    pub(crate) begin: usize,
    pub(crate) end: usize,
    pub(crate) procedure: usize,
}

impl Stretch {
    /// The stretch from a node on, as far as the nodes before the limit are of its procedure.
    fn scan(graph: &Graph, node: usize, limit: usize) -> Stretch
        requires some { node < limit }
        requires few { limit ≤ 2 ^ 32 }
        ensures stretch { IsStretch graph.now result }
        ensures from { result.begin ≤ node }
        ensures some { node < result.end }
    {
        let procedure = procedure_at(graph, node as Node);
        for end in node + 1..limit {
            if procedure_at(graph, end as Node) != procedure {
                return Stretch {
                    begin: node,
                    end,
                    procedure,
                };
            }
        }
        Stretch {
            begin: node,
            end: limit,
            procedure,
        }
    }
}

/// The stretches that were found last, each in a place of its nodes. The pages between other facts have the
/// same nodes, whose procedures need not be looked at again.
#[derive(Drop)]
pub(crate) struct Stretches {
    kept: [Stretch; KEPT],
}

impl Stretches {
    /// No stretch is found yet.
    pub(crate) fn unscanned(graph: &Graph) -> Stretches
        ensures { AreStretches graph.now result }
    {
        let none = Stretch {
            begin: 0,
            end: 0,
            procedure: 0,
        };
        Stretches { kept: [none; KEPT] }
    }

    /// A stretch that has a node: the one that is kept, or the nodes before a limit are looked at.
    #[inline(always)]
    pub(crate) fn stretch_at(&mut self, graph: &Graph, node: usize, limit: usize) -> Stretch
        requires some { node < limit }
        requires few { limit ≤ 2 ^ 32 }
        requires kept { AreStretches graph.now self.old }
        ensures kept { AreStretches graph.now self.new }
        ensures stretch { IsStretch graph.now result }
        ensures from { result.begin ≤ node }
        ensures some { node < result.end }
    {
        // Nodes that begin stretches are mostly further apart than 16.
        let place = node / 16 % KEPT;
        let kept = self.kept[place];
        if kept.begin <= node && node < kept.end {
            return kept;
        }
        let found = Stretch::scan(graph, node, limit);
        self.kept[place] = found;
        found
    }
}
