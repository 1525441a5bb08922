//! The fill by several threads, of which each fills the rows of a range of nodes.
ghost use Rattle.std.specs.Prelude.{◌≡◌, ◌+◌, ◌*◌, ◌<◌, ◌≤◌, ◌^◌, IfOk, length};
ghost use Rattle.ide_values.specs.Fill.{FillsFrom, FillsRows};
ghost use Rattle.ide_values.specs.Refusal.{AreWorkers};
ghost use Rattle.ide_values.specs.SharedFill.{nodes_before, sharing_of};
ghost use Rattle.ide_values.specs.Start.{AreTops};

use crate::fill::fill_rows;
use crate::rows::tops;
use crate::share::{Ranges, fill_shared};
use ide_graph::Graph;
use ide_image::Tables;
use ide_lattice::EdgeFn;
use ide_wire::Node;
use std::alloc::{AllocError, Global};
use std::thread::Threads;

/// What is told of the workers of a fill.
pub trait FillGate {
    /// Called in a worker's thread before its first node is filled, also where it has none.
    fn begin(&self, worker: usize);
}

/// A gate that does nothing.
#[derive(Drop)]
pub(crate) struct NoGate;

impl FillGate for NoGate {
    fn begin(&self, _worker: usize) {}
}

/// The values of an image whose start values these are, as [`fill`](crate::fill::fill) gives them,
/// by so many workers. Each has a thread, but that what no thread can be made for falls to another.
pub(crate) fn fill_by<R: Threads + Sync, F: EdgeFn + Sync, G: FillGate + Sync>(
    rt: &R,
    alloc: Global,
    graph: &Graph,
    tables: &Tables<F>,
    starts: &[F::L],
    workers: usize,
    gate: &G,
) -> Result<Vec<F::L>, AllocError>
where
    F::L: Send + Sync,
    requires { AreWorkers workers }
    ensures filled { IfOk result (FillsRows F.L.algebra F.edge graph.now tables.now.table starts.now) }
    ensures count { IfOk result (λ values. length values.items ≡ graph.now.nodes * graph.now.facts) }
{
    let nodes = graph.node_count() as Node;
    let mut values = tops(alloc, graph.node_count() * graph.fact_count())?;
    fill_nodes(
        rt,
        graph,
        tables,
        starts,
        0,
        nodes,
        workers,
        gate,
        values.as_mut_slice(),
    );
    Ok(values)
}

/// Fills rows of tops, those of so many nodes from the first on, by so many workers, as
/// [`fill_rows`] does.
pub(crate) fn fill_nodes<R: Threads + Sync, F: EdgeFn + Sync, G: FillGate + Sync>(
    rt: &R,
    graph: &Graph,
    tables: &Tables<F>,
    starts: &[F::L],
    first: Node,
    nodes: Node,
    workers: usize,
    gate: &G,
    rows: &mut [F::L],
)
where
    F::L: Send + Sync,
    requires workers { AreWorkers workers }
    requires few { first + nodes < 2 ^ 32 }
    requires count { length rows.old ≡ nodes * graph.now.facts }
    requires tops { AreTops F.L.algebra rows.old }
    ensures count { length rows.new ≡ length rows.old }
    ensures filled { FillsFrom F.L.algebra F.edge graph.now tables.now.table starts.now first rows.new }
{
    let shared = SharedFill {
        graph,
        tables,
        starts,
        first,
        nodes,
        workers,
        gate,
    };
    fill_shared(rt, &shared, 0, workers, rows);
}

/// A fill that workers share: what it reads, the nodes whose rows it fills, so many from the first on,
/// and how many workers they are.
#[derive(Drop)]
struct SharedFill<'a, F: EdgeFn, G> {
    graph: &'a Graph,
    tables: &'a Tables<F>,
    starts: &'a [F::L],
    first: Node,
    nodes: Node,
    workers: usize,
    gate: &'a G,
    ghost some: { 0 < workers },
    ghost most: { workers ≤ 64 },
    ghost few: { first + nodes < 2 ^ 32 },
}

impl<'a, F: EdgeFn, G: FillGate> SharedFill<'a, F, G> {
    /// How many of the nodes are those of the workers before this one.
    fn nodes_before(&self, worker: usize) -> Node
        requires { worker ≤ self.now.workers }
        ensures nodes { result ≡ nodes_before self.now.nodes self.now.workers worker }
        ensures few { result ≤ self.now.nodes }
    {
        (worker * self.nodes as usize / self.workers) as Node
    }
}

impl<'a, F: EdgeFn, G: FillGate> Ranges<F::L> for SharedFill<'a, F, G> {
    ghost sharing = { λ s. sharing_of F.L.algebra F.edge s.graph.now s.tables.now.table s.starts.now s.first s.nodes s.workers };

    fn start(&self, worker: usize) -> usize {
        self.nodes_before(worker) as usize * self.graph.fact_count()
    }

    fn fill(&self, worker: usize, rows: &mut [F::L]) {
        self.gate.begin(worker);
        let first = self.first + self.nodes_before(worker);
        fill_rows(self.graph, self.tables, self.starts, first, rows);
    }
}
