//! The phases of a solve by copy constants, each with those before it.
ghost use Rattle.std.specs.Prelude.{IfOk};
ghost use Rattle.ide_bench.specs.Phases.{AreCountsOf, HasProcedures, IsDumpLength, IsTabulated};
ghost use Rattle.ide_graph.specs.GraphOfText.{IsGraphOfText};

use crate::counts::Counts;
use anyhow::Result;
use ide_graph::Graph;
use ide_instances::CopyConst;
use ide_steps::{Closed, Core};
use ide_text::parse;
use ide_values::{ValuePhase, Values};
use std::alloc::Global;

/// What a core held when no key was pending, and how many tasks that took.
#[derive(Drop)]
pub(crate) struct Tabulated {
    pub(crate) closed: Closed<CopyConst>,
    pub(crate) tasks: u64,
}

/// Parses a text, and counts the procedures of its program.
pub(crate) fn count_procedures(alloc: Global, text: &[u8]) -> Result<usize>
    ensures { IfOk result (HasProcedures text.now) }
{
    let program = parse(alloc, text)?;
    Ok(program.procedures().len())
}

/// The graph of a text's program.
pub(crate) fn graph_of(alloc: Global, text: &[u8]) -> Result<Graph>
    ensures { IfOk result (IsGraphOfText text.now) }
{
    let program = parse(alloc, text)?;
    Ok(Graph::of(alloc, &program)?)
}

/// Tabulates the jump functions and summaries of a text's program, with `main` as the root.
pub(crate) fn drain_core(alloc: Global, text: &[u8]) -> Result<Tabulated>
    ensures { IfOk result (IsTabulated text.now) }
{
    let mut core: Core<CopyConst> = Core::new(alloc);
    core.load(parse(alloc, text)?)?;
    core.root(b"main")?;
    let tasks = core.drain()?;
    match core.close() {
        Ok(closed) => Ok(Tabulated { closed, tasks }),
        Err((refused, _)) => Err(refused.into()),
    }
}

/// Tabulates a text's program, and counts what that came to.
pub(crate) fn tabulate(alloc: Global, text: &[u8]) -> Result<Counts>
    ensures { IfOk result (AreCountsOf text.now) }
{
    let Tabulated { closed, tasks } = drain_core(alloc, text)?;
    Ok(Counts::of(&closed.loaded.graph, &closed.tables, tasks))
}

/// Solves a text to the end, values included, and counts what that came to.
pub(crate) fn solve(alloc: Global, text: &[u8]) -> Result<Counts>
    ensures { IfOk result (AreCountsOf text.now) }
{
    let Tabulated { closed, tasks } = drain_core(alloc, text)?;
    let values = closed.values_alone(alloc)?;
    Ok(Counts::of(&values.loaded().graph, &closed.tables, tasks))
}

/// Solves a text, and measures the dump of its values.
pub(crate) fn measure_dump(alloc: Global, text: &[u8]) -> Result<usize>
    ensures { IfOk result (IsDumpLength text.now) }
{
    let Tabulated { closed, .. } = drain_core(alloc, text)?;
    let values: Values<CopyConst> = closed.values_alone(alloc)?;
    let mut dump = Vec::new(alloc);
    values.dump(&mut dump)?;
    Ok(dump.len())
}
