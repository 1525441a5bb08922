//! The columns of lines before their values: the lines of a node share the first, and the nodes of a procedure the others.
ghost use Rattle.std.specs.Prelude.{◌≡◌, ◌<◌, ◌≤◌, ◌^◌, true, length, map, replicate, IfOk, OnErr, OnOk};
ghost use Rattle.ide_text.specs.Text.{Extends};
ghost use Rattle.ide_values.specs.Columns.{AreFactColumns};
ghost use Rattle.ide_values.specs.Dump.{Appends, fact_columns, left, node_column, right};
ghost use Rattle.ide_values.specs.Lines.{AreLinesTold, AreLinesToldOf, columns_in};
ghost use Rattle.ide_values.specs.Rows.{lines_in_row};

use crate::line_text::Lines;
use ide_graph::Graph;
use ide_lattice::Lattice;
use ide_wire::{Fact, Node};
use itoa::Buffer;
use std::alloc::{AllocError, Global};
use std::marker::Model;

/// The columns of the node's number.
const NODE_WIDTH: usize = 6;
/// The columns of the fact's number.
const FACT_WIDTH: usize = 4;
/// The columns of the fact's name.
const NAME_WIDTH: usize = 31;

/// As many spaces as the widest column has.
const SPACES: [u8; NAME_WIDTH] = [b' '; NAME_WIDTH];

/// The lines of a node, by which those of the next one of its procedure are told: these differ in the column of the
/// node's number, and where values do. For a node of another procedure they are made anew. They take memory for one
/// procedure's facts.
#[derive(Drop)]
pub(crate) struct Columns<'a, L: Lattice> {
    alloc: Global,
    graph: &'a Graph,
    /// The node whose lines they are: none at first, and where these could not be made.
    node: Option<Node>,
    lines: Lines<L>,
}

impl<'a, L: Lattice> Model for Columns<'a, L> {
    ghost use Rattle.std.specs.Prelude.{IfSome};
    ghost use Rattle.ide_values.specs.Columns.{AreLinesAt, ColumnsData};

    ghost Value = { ColumnsData L };

    ghost view = { λ c. record { graph = c.graph.now; lines = c.lines } };

    ghost invariant = { λ c. IfSome c.node (λ node. AreLinesAt L.shown c.graph.now node c.lines) };
}

impl<'a, L: Lattice> Columns<'a, L> {
    /// Those of no node. It allocates nothing.
    pub(crate) fn new(alloc: Global, graph: &'a Graph) -> Self
        ensures graph { result.graph ≡ graph.now }
    {
        Columns {
            alloc,
            graph,
            node: None,
            lines: Lines::new(alloc),
        }
    }

    /// Appends the lines of a node, whose values are a row of these.
    pub(crate) fn append_lines(
        &mut self,
        node: Node,
        rows: &[L],
        row: Node,
        out: &mut Vec<u8>,
    ) -> Result<(), AllocError>
        requires { node < self.old.graph.nodes }
        ensures text { OnOk result (Appends (lines_in_row L.algebra L.shown self.old.graph rows.now row node) out.old out.new) }
        ensures graph { self.new.graph ≡ self.old.graph }
        ensures extends { OnErr result (Extends out.old.items out.new.items) }
    {
        let first = row as usize * self.graph.fact_count();
        self.turn_to(node, rows, first)?;
        out.extend_from_slice(&self.lines.text)
    }

    /// Makes the lines those of a node, with the values from a place of rows on.
    fn turn_to(&mut self, node: Node, rows: &[L], first: usize) -> Result<(), AllocError>
        requires node { node < self.old.graph.nodes }
        requires first { first ≤ 2 ^ 48 }
        ensures graph { self.new.graph ≡ self.old.graph }
        ensures columns { OnOk result (AreFactColumns self.new.graph node (columns_in self.new.lines.facts.items)) }
        ensures told { OnOk result (AreLinesToldOf L.algebra L.shown node rows.now first self.new.lines) }
    {
        if self.serve(node) {
            return self.go_on(node, rows, first);
        }
        self.begin(node, rows, first)
    }

    /// Makes them those of a node whose facts have the same columns.
    fn go_on(&mut self, node: Node, rows: &[L], first: usize) -> Result<(), AllocError>
        requires columns { AreFactColumns self.old.graph node (columns_in self.old.lines.facts.items) }
        requires told { AreLinesTold L.shown self.old.lines }
        requires first { first ≤ 2 ^ 48 }
        ensures graph { self.new.graph ≡ self.old.graph }
        ensures columns { OnOk result (AreFactColumns self.new.graph node (columns_in self.new.lines.facts.items)) }
        ensures told { OnOk result (AreLinesToldOf L.algebra L.shown node rows.now first self.new.lines) }
    {
        self.node = None;
        let _count = self.graph.fact_count();
        self.lines.turn_to(node, rows, first)?;
        self.node = Some(node);
        Ok(())
    }

    /// Makes them those of a node, whatever they were.
    fn begin(&mut self, node: Node, rows: &[L], first: usize) -> Result<(), AllocError>
        requires node { node < self.old.graph.nodes }
        requires first { first ≤ 2 ^ 48 }
        ensures graph { self.new.graph ≡ self.old.graph }
        ensures columns { OnOk result (AreFactColumns self.new.graph node (columns_in self.new.lines.facts.items)) }
        ensures told { OnOk result (AreLinesToldOf L.algebra L.shown node rows.now first self.new.lines) }
    {
        self.node = None;
        let _count = self.graph.fact_count();
        self.lines.facts = facts_at(self.alloc, self.graph, node)?;
        self.lines.tell(node, rows, first)?;
        self.node = Some(node);
        Ok(())
    }

    /// Whether the columns of facts are those of a node too: both have facts, and are of one procedure.
    fn serve(&self, node: Node) -> bool
        requires { node < self.now.graph.nodes }
        ensures columns { result ≡ true → AreFactColumns self.now.graph node (columns_in self.now.lines.facts.items) }
        ensures told { result ≡ true → AreLinesTold L.shown self.now.lines }
    {
        let Some(made) = self.node else {
            return false;
        };
        let Some(_) = self.graph.fact_name(node, 0) else {
            return false;
        };
        !self.lines.facts.is_empty()
            && self.graph.procedure_of(made) == self.graph.procedure_of(node)
    }
}

/// The columns of each fact that has a name at a node.
fn facts_at(alloc: Global, graph: &Graph, node: Node) -> Result<Vec<Vec<u8>>, AllocError>
    requires { node < graph.now.nodes }
    ensures { IfOk result (λ facts. AreFactColumns graph.now node (map (λ columns. columns.items) facts.items)) }
{
    let mut facts = Vec::new(alloc);
    for index in 0..graph.fact_count() {
        let fact = index as Fact;
        let Some(name) = graph.fact_name(node, fact) else {
            break;
        };
        facts.push(columns_of(alloc, fact, name)?)?;
    }
    Ok(facts)
}

/// The columns of a fact.
fn columns_of(alloc: Global, fact: Fact, name: &[u8]) -> Result<Vec<u8>, AllocError>
    ensures { IfOk result (λ columns. columns.items ≡ fact_columns fact name.now) }
{
    let mut columns = Vec::with_capacity(alloc, FACT_WIDTH + NAME_WIDTH + 2)?;
    append_right(
        Buffer::new().format(fact).as_bytes(),
        FACT_WIDTH,
        &mut columns,
    )?;
    append_left(name, NAME_WIDTH, &mut columns)?;
    Ok(columns)
}

/// Appends the column of a node's number.
pub(crate) fn append_node(node: Node, out: &mut Vec<u8>) -> Result<(), AllocError>
    ensures { OnOk result (Appends (node_column node) out.old out.new) }
{
    append_right(Buffer::new().format(node).as_bytes(), NODE_WIDTH, out)
}

/// Appends a text at the right end of a column, and a space.
fn append_right(text: &[u8], width: usize, out: &mut Vec<u8>) -> Result<(), AllocError>
    requires { width ≤ 31 }
    ensures text { OnOk result (Appends (right width text.now) out.old out.new) }
    ensures extends { OnErr result (Extends out.old.items out.new.items) }
{
    append_spaces(width.saturating_sub(text.len()), out)?;
    out.extend_from_slice(text)?;
    out.push(b' ')?;
    Ok(())
}

/// Appends a text at the left end of a column, and a space.
fn append_left(text: &[u8], width: usize, out: &mut Vec<u8>) -> Result<(), AllocError>
    requires { width ≤ 31 }
    ensures text { OnOk result (Appends (left width text.now) out.old out.new) }
    ensures extends { OnErr result (Extends out.old.items out.new.items) }
{
    out.extend_from_slice(text)?;
    append_spaces(width.saturating_sub(text.len()), out)?;
    out.push(b' ')?;
    Ok(())
}

/// Appends so many spaces.
fn append_spaces(count: usize, out: &mut Vec<u8>) -> Result<(), AllocError>
    requires { count ≤ 31 }
    ensures text { OnOk result (Appends (replicate count 32) out.old out.new) }
    ensures extends { OnErr result (Extends out.old.items out.new.items) }
{
    out.extend_from_slice(&SPACES[..count])
}
