//! The counts of one solve.
ghost use Rattle.std.specs.Prelude.{◌≡◌};
ghost use Rattle.ide_bench.specs.Phases.{counts_over};

use crate::figures::Figure;
use ide_graph::Graph;
use ide_image::Tables;
use ide_lattice::EdgeFn;

/// How large a program's graph, its tables and the work on them are.
#[derive(Clone, Copy)]
pub(crate) struct Counts {
    nodes: usize,
    facts: usize,
    keys: usize,
    tasks: u64,
}

impl Counts {
    /// The counts of a graph, its tables and so many tasks.
    pub(crate) fn of<F: EdgeFn>(graph: &Graph, tables: &Tables<F>, tasks: u64) -> Counts
        ensures { result ≡ counts_over graph.now tables.now.table tasks }
    {
        Counts {
            nodes: graph.node_count(),
            facts: graph.fact_count(),
            keys: tables.key_count(),
            tasks,
        }
    }

    /// Each number by its name.
    pub(crate) fn figures(self) -> [Figure; 4] {
        [
            ("nodes", self.nodes as u64),
            ("facts", self.facts as u64),
            ("keys", self.keys as u64),
            ("tasks", self.tasks),
        ]
    }
}
