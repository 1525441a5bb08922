//! The counts of a program.
ghost use Rattle.std.specs.Prelude.{◌≡◌, ◌++◌, IfErr, OnOk};
ghost use Rattle.ide_commands.specs.Counts.{AppendsCounts, counted_text, counts_line};
ghost use Rattle.ide_text.specs.Parsed.{IsRefusalOf};

use ide_graph::Graph;
use ide_text::parse;
use ide_wire::Refused;
use itoa::Buffer;
use std::alloc::{AllocError, Global};

/// Appends the counts of the program that the text spells, as `ok procedures N nodes N facts N`.
///
/// Refusals: the text's fault; `NoMemory`.
pub fn check(alloc: Global, text: &[u8], out: &mut Vec<u8>) -> Result<(), Refused>
    ensures counts { OnOk result (AppendsCounts text.now out.old.items out.new.items) }
    ensures refused { IfErr result (IsRefusalOf text.now) }
{
    let program = parse(alloc, text)?;
    let graph = Graph::of(alloc, &program)?;
    append_counts(&graph, out)?;
    Ok(())
}

/// Appends the line of the counts of a graph.
fn append_counts(graph: &Graph, out: &mut Vec<u8>) -> Result<(), AllocError>
    ensures { OnOk result (out.new.items ≡ out.old.items ++ counts_line graph.now) }
{
    append_count(b"ok procedures ", graph.procedure_count(), out)?;
    append_count(b" nodes ", graph.node_count(), out)?;
    append_count(b" facts ", graph.fact_count(), out)?;
    out.extend_from_slice(b"\n")
}

/// Appends what is counted and its count.
fn append_count(counted: &[u8], count: usize, out: &mut Vec<u8>) -> Result<(), AllocError>
    ensures { OnOk result (out.new.items ≡ out.old.items ++ counted_text counted.now count) }
{
    out.extend_from_slice(counted)?;
    out.extend_from_slice(Buffer::new().format(count).as_bytes())
}
