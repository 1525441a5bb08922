//! The values of an image, filled and written a chunk of nodes at a time.
ghost use Rattle.std.specs.Prelude.{◌≡◌, ◌*◌, ◌<◌, ◌≤◌, ◌^◌, [], length, max};
ghost use Rattle.ide_values.specs.Chunks.{WritesFilled};
ghost use Rattle.ide_values.specs.Refusal.{AreWorkers};

use crate::dump::{write_nodes, write_rest};
use crate::rows::blank;
use crate::shared_fill::{NoGate, fill_nodes};
use ide_graph::Graph;
use ide_image::Tables;
use ide_lattice::EdgeFn;
use ide_wire::Node;
use std::io;
use std::io::Write;
use std::thread::Threads;

/// How many values a chunk has at least, where there are so many: 256 KiB, where each takes 16 bytes.
const LEAST_VALUES: usize = 16_384;

/// How many chunks there are at most, since each passes over the tables.
const MOST_CHUNKS: usize = 64;

/// How many nodes a chunk has: a part in 64 of all, or as many as have 16,384 values, if these are more.
pub(crate) fn chunk_size(graph: &Graph) -> Node
    ensures some { 0 < result }
    ensures few { result ≤ max graph.now.nodes 1 }
{
    let nodes = graph.node_count();
    let least = LEAST_VALUES / graph.fact_count().max(1);
    let size = nodes.div_ceil(MOST_CHUNKS).max(least);
    size.min(nodes).max(1) as Node
}

/// Fills and writes the rows of so many nodes at a time. An empty piece stands before the first.
pub(crate) fn write_chunks<R: Threads + Sync, F: EdgeFn + Sync, W: Write>(
    rt: &R,
    graph: &Graph,
    tables: &Tables<F>,
    starts: &[F::L],
    workers: usize,
    size: Node,
    rows: &mut [F::L],
    piece: &mut Vec<u8>,
    out: &mut W,
) -> io::Result<()>
where
    F::L: Send + Sync,
    requires workers { AreWorkers workers }
    requires some { 0 < size }
    requires room { length rows.old ≡ size * graph.now.facts }
    requires piece { piece.old.items ≡ [] }
    ensures { WritesFilled F.L.algebra F.edge F.L.shown graph.now tables.now.table starts.now result (W.contents out.old) (W.contents out.new) }
{
    let nodes = graph.node_count() as Node;
    let mut first = 0;
    while first < nodes {
        let count = size.min(nodes - first);
        let part = &mut rows[..count as usize * graph.fact_count()];
        blank(part);
        fill_nodes(
            rt, graph, tables, starts, first, count, workers, &NoGate, part,
        );
        write_nodes(graph, first, count, part, piece, out)?;
        first += count;
    }
    write_rest(piece, out)
}
