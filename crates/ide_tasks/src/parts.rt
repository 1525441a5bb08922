//! The parts that a task owes: by edge in the site's order, then by partner, then by target.
ghost use Rattle.std.specs.Prelude.{◌≡◌, ◌++◌, [], ◌∷◌, IfOk, IfSome, OnOk, map};
ghost use Rattle.std.specs.List.{flat_map};
ghost use Rattle.ide_tasks.specs.Partners.{partners_lent};
ghost use Rattle.ide_tasks.specs.Parts.{owed, parts_at, flat_parts, seed_parts, after_parts, resumed_parts, summary_parts, returned_parts};

use crate::part_list::PartList;
use crate::partners::{LentPartners, Reaching};
use crate::task::Task;
use ide_graph::{Caller, EdgeData, Site};
use ide_lattice::EdgeFn;
use ide_problem::{Problem, TargetList};
use ide_wire::{Fact, Key, Node};
use std::alloc::{AllocError, Global};

/// The parts of the task, in their order.
pub fn parts_of<P: Problem>(alloc: Global, task: &Task<P>) -> Result<Vec<(Key, P::F)>, AllocError>
    ensures { IfOk result (λ parts. parts.items ≡ owed P.F.edge P.targets task.now) }
{
    let mut parts: PartList<P> = PartList::new(alloc);
    parts.fill(task.key, task.function, task.site.site(), &task.partners)?;
    Ok(parts.into_vec())
}

/// The parts of one key as they are gathered, and the list that flow fills.
#[derive(Drop)]
pub(crate) struct Parts<P: Problem> {
    pub(crate) list: Vec<(Key, P::F)>,
    pub(crate) targets: TargetList<P::F>,
}

impl<P: Problem> Parts<P> {
    /// No part yet. It allocates nothing.
    pub(crate) fn new(alloc: Global) -> Self
        ensures { result.list.items ≡ [] }
    {
        Parts {
            list: Vec::new(alloc),
            targets: TargetList::new(alloc),
        }
    }

    /// Adds the parts of a key with that function, at its site and with its partners.
    #[inline(always)]
    pub(crate) fn add_all(
        &mut self,
        key: Key,
        function: P::F,
        site: &Site,
        partners: LentPartners<'_, P::F>,
    ) -> Result<(), AllocError>
        ensures { OnOk result (self.new.list.items ≡ self.old.list.items ++ parts_at P.F.edge P.targets key function site.now (partners_lent partners.entry)) }
    {
        match (key, site, partners) {
            (Key::Jump(_, from, to), Site::Normal(edges), _) => {
                self.add_edges(edges.as_slice(), function, from, to)
            }
            (
                Key::Jump(_, from, to),
                Site::Call { calls, along },
                LentPartners::Entries(summaries),
            ) => {
                self.add_starts(calls.as_slice(), to)?;
                self.add_edge(along, function, from, to)?;
                self.add_over_call(along.end, summaries, function, from)
            }
            (Key::Jump(_, _, to), Site::Exit { callers, .. }, LentPartners::Callers(reaching)) => {
                self.add_exit(callers.as_slice(), reaching, function, to)
            }
            (Key::Summary(_, _, to), Site::Call { along, .. }, LentPartners::Entries(jumps)) => {
                self.add_summary(along.end, jumps, function, to)
            }
            _ => Ok(()),
        }
    }

    /// At a node that is neither call nor exit: `function`, then each target of each edge.
    #[inline(always)]
    pub(crate) fn add_edges(
        &mut self,
        edges: &[EdgeData],
        function: P::F,
        from: Fact,
        to: Fact,
    ) -> Result<(), AllocError>
        ensures { OnOk result (self.new.list.items ≡ self.old.list.items ++ flat_map (flat_parts P.F.edge P.targets from to function) edges.now) }
    {
        for edge in edges {
            self.add_edge(edge, function, from, to)?;
        }
        Ok(())
    }

    /// The jumps to the targets of `to` over one edge. Where that passes `to` on unchanged, its flow is not asked for.
    #[inline(always)]
    fn add_edge(
        &mut self,
        edge: &EdgeData,
        function: P::F,
        from: Fact,
        to: Fact,
    ) -> Result<(), AllocError>
        ensures { OnOk result (self.new.list.items ≡ self.old.list.items ++ flat_parts P.F.edge P.targets from to function edge.now) }
    {
        if let Some(part) = passed_part::<P>(edge, function, from, to) {
            self.list.push(part)?;
            return Ok(());
        }
        self.add_by_flow(edge, function, from, to)
    }

    /// The same, by the flow of the edge. It is not inlined, so that edges which pass the fact on do without its frame.
    #[inline(never)]
    fn add_by_flow(
        &mut self,
        edge: &EdgeData,
        function: P::F,
        from: Fact,
        to: Fact,
    ) -> Result<(), AllocError>
        ensures { OnOk result (self.new.list.items ≡ self.old.list.items ++ flat_parts P.F.edge P.targets from to function edge.now) }
    {
        self.flow(edge, to)?;
        let Parts { list, targets } = self;
        for (target, over) in targets.list.as_slice() {
            let key = Key::Jump(edge.end, from, *target);
            list.push((key, function.compose(*over)))?;
        }
        Ok(())
    }

    /// At a call node: the facts at each callee's start that `to` reaches.
    fn add_starts(&mut self, calls: &[EdgeData], to: Fact) -> Result<(), AllocError>
        ensures { OnOk result (self.new.list.items ≡ self.old.list.items ++ flat_map (seed_parts P.F.edge P.targets to) calls.now) }
    {
        for edge in calls {
            self.add_start(edge, to)?;
        }
        Ok(())
    }

    /// At a call node: what each summary over the call gives at the return site.
    fn add_over_call(
        &mut self,
        return_site: Node,
        summaries: &[(Fact, P::F)],
        function: P::F,
        from: Fact,
    ) -> Result<(), AllocError>
        ensures { OnOk result (self.new.list.items ≡ self.old.list.items ++ after_parts P.F.edge P.targets return_site from function summaries.now) }
    {
        for (fact, summary) in summaries {
            let key = Key::Jump(return_site, from, *fact);
            self.list.push((key, function.compose(*summary)))?;
        }
        Ok(())
    }

    /// The facts at a callee's start that `to` reaches: each begins a jump by the identity.
    fn add_start(&mut self, edge: &EdgeData, to: Fact) -> Result<(), AllocError>
        ensures { OnOk result (self.new.list.items ≡ self.old.list.items ++ seed_parts P.F.edge P.targets to edge.now) }
    {
        self.flow(edge, to)?;
        let Parts { list, targets } = self;
        for (target, _) in targets.list.as_slice() {
            list.push((Key::Jump(edge.end, *target, *target), P::F::id()))?;
        }
        Ok(())
    }

    /// At an exit: for each caller and fact at its call node, the summaries over the callee. The
    /// flow back to a caller is taken once for all its facts, which stand together.
    fn add_exit(
        &mut self,
        callers: &[Caller],
        reaching: &[Reaching<P::F>],
        function: P::F,
        to: Fact,
    ) -> Result<(), AllocError>
        ensures { OnOk result (self.new.list.items ≡ self.old.list.items ++ returned_parts P.F.edge P.targets to function callers.now reaching.now) }
    {
        let mut current = None;
        for source in reaching {
            let Some(caller) = callers.get(source.caller as usize) else {
                continue;
            };
            if current != Some(source.caller) {
                self.flow(&caller.back, to)?;
                current = Some(source.caller);
            }
            let through = source.function.compose(function);
            let targets = self.targets.list.as_slice();
            add_summaries(
                &mut self.list,
                targets,
                caller.call_node,
                source.fact,
                through,
            )?;
        }
        Ok(())
    }

    /// For a summary: each jump at its call node goes on to the return site.
    fn add_summary(
        &mut self,
        return_site: Node,
        jumps: &[(Fact, P::F)],
        summary: P::F,
        to: Fact,
    ) -> Result<(), AllocError>
        ensures { OnOk result (self.new.list.items ≡ self.old.list.items ++ resumed_parts P.F.edge P.targets return_site to summary jumps.now) }
    {
        for (from, jump) in jumps {
            let key = Key::Jump(return_site, *from, to);
            self.list.push((key, jump.compose(summary)))?;
        }
        Ok(())
    }

    /// Fills the targets with those of `fact` over the edge.
    #[inline(always)]
    fn flow(&mut self, edge: &EdgeData, fact: Fact) -> Result<(), AllocError>
        ensures targets { OnOk result (self.new.targets.list.items ≡ P.targets edge.now fact) }
        ensures parts { self.new.list ≡ self.old.list }
    {
        self.targets.clear();
        P::flow(edge, fact, &mut self.targets)?;
        Ok(())
    }
}

/// The one part over an edge that passes the fact on unchanged.
#[inline(always)]
fn passed_part<P: Problem>(
    edge: &EdgeData,
    function: P::F,
    from: Fact,
    to: Fact,
) -> Option<(Key, P::F)>
    ensures { IfSome result (λ part. flat_parts P.F.edge P.targets from to function edge.now ≡ part ∷ []) }
{
    if P::passes_unchanged(edge, to) {
        Some((Key::Jump(edge.end, from, to), function.compose(P::F::id())))
    } else {
        None
    }
}

/// The summaries from one fact at a call node to the targets at its return site.
fn add_summaries<F: EdgeFn>(
    list: &mut Vec<(Key, F)>,
    targets: &[(Fact, F)],
    call: Node,
    fact: Fact,
    through: F,
) -> Result<(), AllocError>
    ensures { OnOk result (list.new.items ≡ list.old.items ++ map (λ t. (Key.Summary call fact t.0, F.edge.compose through t.1)) targets.now) }
{
    for (target, back) in targets {
        let key = Key::Summary(call, fact, *target);
        list.push((key, through.compose(*back)))?;
    }
    Ok(())
}
