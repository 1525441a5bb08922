//! The inverse of call flow.
ghost use Rattle.std.specs.Prelude.{◌≡◌, ◌≤◌, ◌^◌, [], ◌++◌, IfNone, IfOk, IfSome, OnOk, length, map, slice_index_or};
ghost use Rattle.ide_graph.specs.Exits.{HasFewCallers};
ghost use Rattle.ide_tasks.specs.Sources.{AreAscending, AreSourcesAt, AreSourcesOf, Ascends, ForSources, HasNoCaller, IsCallAmong, IsCallerAt, IsNoCallAmong, ReachOver, reaching_of, source_of, sources_at, sources_over, sources_from};

use crate::partners::Reaching;
use crate::source_list::{LentSources, SourceList};
use ide_graph::{
    Caller, Graph, Site, ends_of_programs_are_nodes, exits_of_programs_are_owned,
    graphs_of_programs_are_closed, sites_of_programs_are_joined,
};
use ide_lattice::EdgeFn;
use ide_problem::{Problem, TargetList};
use ide_wire::{Fact, Node};
use std::alloc::{AllocError, Global};
use std::marker::Model;

/// For each procedure and fact at its start, the facts at its callers' call nodes whose call flow
/// reaches that fact, with their functions.
///
/// Making it takes the flow of each fact over each call edge once; it keeps one entry for each
/// target of a call flow.
#[derive(Drop)]
pub struct Sources<P: Problem> {
    procedures: Vec<SourceList<P::F>>,
}

/// That the fact `reached` at a procedure's start depends on a fact at a caller's call node.
#[derive(Clone, Copy)]
pub struct Source<F> {
    /// The fact at the procedure's start.
    pub reached: Fact,
    /// The caller, the fact at its call node, and the function on the call edge.
    pub from: Reaching<F>,
}

impl<P: Problem> Model for Sources<P> {
    ghost use Rattle.std.specs.Prelude.{List};
    ghost use Rattle.ide_tasks.specs.Sources.{AreAscending};
    ghost use Rattle.ide_tasks.specs.declared.sources.Source.{Source};

    ghost Value = { List (List (Source P.F)) };

    ghost view = { λ s. s.procedures.items };

    ghost invariant = { λ s. AreAscending s.procedures.items };
}

impl<P: Problem> Sources<P> {
    /// The inverse call flow of a program's graph.
    pub fn of(alloc: Global, graph: &Graph) -> Result<Sources<P>, AllocError>
        ensures { IfOk result (AreSourcesOf P.targets graph.now) }
    {
        let procedures = sources_of::<P>(alloc, graph)?;
        Ok(Sources { procedures })
    }

    /// The facts at the procedure's callers that reach `fact` at its start, by caller and then by
    /// fact. It takes time in proportion to their number, and takes no memory
    /// but for the list.
    pub fn reaching(
        &self,
        alloc: Global,
        procedure: usize,
        fact: Fact,
    ) -> Result<Vec<Reaching<P::F>>, AllocError>
        ensures { IfOk result (λ reaching. reaching.items ≡ reaching_of fact (slice_index_or self.now procedure [])) }
    {
        let mut reaching = Vec::new(alloc);
        self.fill_reaching(procedure, fact, &mut reaching)?;
        Ok(reaching)
    }

    /// Makes the list the facts at the procedure's callers that reach `fact` at its start, as
    /// [`Sources::reaching`] has them. What was in it is gone, and its room is used again: it takes
    /// memory only where the list has to grow.
    pub fn fill_reaching(
        &self,
        procedure: usize,
        fact: Fact,
        reaching: &mut Vec<Reaching<P::F>>,
    ) -> Result<(), AllocError>
        ensures { OnOk result (reaching.new.items ≡ reaching_of fact (slice_index_or self.now procedure [])) }
    {
        match self.procedures.get(procedure) {
            Some(sources) => sources.fill_reaching(fact, reaching),
            None => {
                reaching.clear();
                Ok(())
            }
        }
    }

    /// What reaches `fact` at the start of a procedure over a call of it, by the graph that the
    /// sources are of: the facts at the call node, ascending, each with the function on the call
    /// edge. Nothing does where the node is no call of a procedure that begins at `start`. It takes
    /// logarithmic time and no memory.
    pub fn over_call(
        &self,
        graph: &Graph,
        call: Node,
        start: Node,
        fact: Fact,
    ) -> LentSources<'_, P::F>
        ensures { ForSources P.targets graph.now self.now (ReachOver P.targets graph.now call start fact result) }
    {
        sites_of_programs_are_joined();
        graphs_of_programs_are_closed();
        exits_of_programs_are_owned();
        ends_of_programs_are_nodes();
        if start as usize >= graph.node_count() {
            return LentSources::none();
        }
        let procedure = graph.procedure_of(start);
        let exit = graph.site(graph.exit_of(procedure));
        let Some(sources) = self.procedures.get(procedure) else {
            return LentSources::none();
        };
        let Some(caller) = caller_at(exit, call, start) else {
            return LentSources::none();
        };
        sources.over(fact, caller)
    }
}

/// The index of the call at that node among the callers of the procedure that begins at `start` and
/// has that site at its exit.
fn caller_at(exit: &Site, call: Node, start: Node) -> Option<usize>
    ensures found { IfSome result (IsCallerAt exit.now call start) }
    ensures none { IfNone result (HasNoCaller exit.now call start) }
{
    match exit {
        Site::Exit {
            start: own,
            callers,
        } if *own == start => place_of(callers.as_slice(), call),
        _ => None,
    }
}

/// The index of the caller at that call node, where callers ascend by it.
fn place_of(callers: &[Caller], call: Node) -> Option<usize>
    ensures found { IfSome result (IsCallAmong callers.now call) }
    ensures none { IfNone result (IsNoCallAmong callers.now call) }
{
    let place = callers.partition_point(|caller| caller.call_node < call);
    match callers.get(place) {
        Some(caller) if caller.call_node == call => Some(place),
        _ => None,
    }
}

/// The sources of each procedure.
fn sources_of<P: Problem>(alloc: Global, graph: &Graph) -> Result<Vec<SourceList<P::F>>, AllocError>
    ensures ascending { IfOk result (λ procedures. AreAscending procedures.items) }
    ensures exact { IfOk result (λ procedures. AreSourcesOf P.targets graph.now procedures.items) }
{
    let mut procedures = Vec::with_capacity(alloc, graph.procedure_count())?;
    for procedure in 0..graph.procedure_count() {
        let exit = graph.exit_of(procedure);
        let sources = sources_at::<P>(alloc, graph, graph.site(exit))?;
        procedures.push(SourceList::of(alloc, &sources)?)?;
    }
    Ok(procedures)
}

/// The sources of the procedure with that exit site, by the fact reached, then by caller, then by
/// the fact at the call node.
fn sources_at<P: Problem>(
    alloc: Global,
    graph: &Graph,
    site: &Site,
) -> Result<Vec<Source<P::F>>, AllocError>
    ensures ascending { IfOk result (λ sources. Ascends sources.items) }
    ensures exact { HasFewCallers site.now → IfOk result (λ sources. AreSourcesAt P.targets graph.now.facts site.now sources.items) }
{
    let mut sources = unsorted_sources_at::<P>(alloc, graph, site)?;
    sources.sort_by_key(|source| source.reached)?;
    Ok(sources)
}

/// The same by caller, then by the fact at the call node, then by the fact reached.
fn unsorted_sources_at<P: Problem>(
    alloc: Global,
    graph: &Graph,
    site: &Site,
) -> Result<Vec<Source<P::F>>, AllocError>
    ensures { HasFewCallers site.now → IfOk result (λ sources. sources.items ≡ sources_at P.targets graph.now.facts site.now) }
{
    let mut sources = Vec::new(alloc);
    match site {
        Site::Exit { callers, .. } => {
            add_callers::<P>(alloc, graph, callers.as_slice(), &mut sources)?;
            Ok(sources)
        }
        _ => Ok(sources),
    }
}

/// Adds what the call flow of each caller reaches. An exit has fewer callers than a graph has nodes.
fn add_callers<P: Problem>(
    alloc: Global,
    graph: &Graph,
    callers: &[Caller],
    sources: &mut Vec<Source<P::F>>,
) -> Result<(), AllocError>
    ensures { length callers.now ≤ 2 ^ 32 → OnOk result (sources.new.items ≡ sources.old.items ++ sources_from P.targets graph.now.facts 0 callers.now) }
{
    for (index, caller) in callers.iter().enumerate() {
        let Ok(index) = u32::try_from(index) else {
            break;
        };
        add_caller::<P>(alloc, graph, index, caller, sources)?;
    }
    Ok(())
}

/// Adds what the call flow of one caller reaches.
fn add_caller<P: Problem>(
    alloc: Global,
    graph: &Graph,
    caller_index: u32,
    caller: &Caller,
    sources: &mut Vec<Source<P::F>>,
) -> Result<(), AllocError>
    ensures { OnOk result (sources.new.items ≡ sources.old.items ++ sources_over P.targets graph.now.facts caller_index caller.now) }
{
    let mut targets = TargetList::new(alloc);
    for fact in 0..graph.fact_count() {
        let fact = fact as Fact;
        targets.clear();
        P::flow(&caller.call, fact, &mut targets)?;
        add_targets(caller_index, fact, &targets, sources)?;
    }
    Ok(())
}

/// Adds the targets of one fact.
fn add_targets<F: EdgeFn>(
    caller: u32,
    fact: Fact,
    targets: &TargetList<F>,
    sources: &mut Vec<Source<F>>,
) -> Result<(), AllocError>
    ensures { OnOk result (sources.new.items ≡ sources.old.items ++ map (source_of caller fact) targets.now.list.items) }
{
    for (reached, function) in targets.list.as_slice() {
        sources.push(Source {
            reached: *reached,
            from: Reaching {
                caller,
                fact,
                function: *function,
            },
        })?;
    }
    Ok(())
}
