//! The dump: a line for each node and each fact that has a name there.
ghost use Rattle.std.specs.Prelude.{◌≡◌, ◌+◌, ◌<◌, ◌≤◌, ◌^◌, OnOk, OnErr, IsOkUnless};
ghost use Rattle.std.specs.Io.KnownBytes.{Appends as WritesOut};
ghost use Rattle.ide_text.specs.Text.{Extends};
ghost use Rattle.ide_values.specs.Dump.{Moves};
ghost use Rattle.ide_values.specs.Rows.{MovesRows};
ghost use Rattle.ide_values.specs.Values.{AppendsDump, AppendsLines, dump_of_values};

use crate::columns::Columns;
use crate::values::Values;
use ide_graph::Graph;
use ide_lattice::Lattice;
use ide_problem::Problem;
use ide_wire::{Node, Refused};
use std::alloc::{AllocError, Global};
use std::io;
use std::io::Write;

/// At how many bytes a piece of the dump is written.
const PIECE: usize = 65_536;

/// No line of the dump has more bytes, where a value is shown in some 30.
const LINE: usize = 80;

/// For how many bytes a piece has room: those at which it is written, and the lines of one node.
pub(crate) fn piece_room(graph: &Graph) -> usize {
    PIECE + LINE * graph.fact_count()
}

impl<P: Problem> Values<P> {
    /// Appends the dump: by ascending node and fact, each fact that has a name at the node, the
    /// node's number right in 6 columns, the fact's right in 4, its name left in 31 and its value,
    /// with a space between two.
    ///
    /// Refusal: `NoMemory`, which leaves the vector with what it had.
    pub fn dump(&self, out: &mut Vec<u8>) -> Result<(), Refused>
        ensures text { OnOk result (AppendsDump P.L.algebra P.L.shown self.now out.old out.new) }
        ensures refused { IsOkUnless result Refused.NoMemory }
        ensures unchanged { OnErr result (out.new.items ≡ out.old.items) }
    {
        let length = out.len();
        if self.append_nodes(out).is_err() {
            out.truncate(length);
            return Err(Refused::NoMemory);
        }
        Ok(())
    }

    /// Writes the dump, as [`Values::dump`] makes it, in pieces of some 64 KiB. It takes memory for one
    /// piece and the lines of one node, however long the dump is, and most of it before it writes anything.
    ///
    /// It fails where the output does, and with `OutOfMemory` where the lines of a node want memory: then
    /// a beginning of the dump may have been written.
    pub fn write_dump<W: Write>(&self, alloc: Global, out: &mut W) -> io::Result<()>
        ensures { OnOk result (WritesOut (W.contents out.old) (W.contents out.new) (dump_of_values P.L.algebra P.L.shown self.now)) }
    {
        let graph = &self.loaded.graph;
        let mut piece = Vec::with_capacity(alloc, piece_room(graph))?;
        write_nodes(
            graph,
            0,
            graph.node_count() as Node,
            self.values.as_slice(),
            &mut piece,
            out,
        )?;
        write_rest(&piece, out)
    }

    /// Appends the lines of all nodes.
    fn append_nodes(&self, out: &mut Vec<u8>) -> Result<(), AllocError>
        ensures text { OnOk result (AppendsDump P.L.algebra P.L.shown self.now out.old out.new) }
        ensures extends { OnErr result (Extends out.old.items out.new.items) }
    {
        let mut columns = Columns::new(*out.allocator(), &self.loaded.graph);
        for index in 0..self.loaded.graph.node_count() {
            self.append_node(index as Node, &mut columns, out)?;
        }
        Ok(())
    }

    /// Appends the lines of a node.
    fn append_node(
        &self,
        node: Node,
        columns: &mut Columns<'_, P::L>,
        out: &mut Vec<u8>,
    ) -> Result<(), AllocError>
        requires there { node < self.now.graph.nodes }
        requires graph { columns.old.graph ≡ self.now.graph }
        ensures text { OnOk result (AppendsLines P.L.algebra P.L.shown self.now node out.old out.new) }
        ensures graph { columns.new.graph ≡ self.now.graph }
        ensures extends { OnErr result (Extends out.old.items out.new.items) }
    {
        columns.append_lines(node, self.values.as_slice(), node, out)
    }
}

/// Writes the lines of so many nodes from the first on, whose rows of values these are, behind what the
/// piece has, whenever that is a whole piece.
pub(crate) fn write_nodes<L: Lattice, W: Write>(
    graph: &Graph,
    first: Node,
    count: Node,
    rows: &[L],
    piece: &mut Vec<u8>,
    out: &mut W,
) -> io::Result<()>
    requires nodes { first + count ≤ graph.now.nodes }
    requires few { first + count < 2 ^ 32 }
    ensures { OnOk result (MovesRows L.algebra L.shown graph.now first count rows.now piece.old piece.new (W.contents out.old) (W.contents out.new)) }
{
    let mut columns = Columns::new(*piece.allocator(), graph);
    for row in 0..count {
        columns.append_lines(first + row, rows, row, piece)?;
        write_full(piece, out)?;
    }
    Ok(())
}

/// Writes what is left of the last piece.
pub(crate) fn write_rest<W: Write>(rest: &[u8], out: &mut W) -> io::Result<()>
    ensures { OnOk result (WritesOut (W.contents out.old) (W.contents out.new) rest.now) }
{
    out.write_all(rest)?;
    out.flush()
}

/// Writes the piece and empties it, if it is long enough.
fn write_full<W: Write>(piece: &mut Vec<u8>, out: &mut W) -> io::Result<()>
    ensures { OnOk result (Moves piece.old.items piece.new.items (W.contents out.old) (W.contents out.new)) }
{
    if piece.len() >= PIECE {
        out.write_all(piece)?;
        piece.clear();
    }
    Ok(())
}
