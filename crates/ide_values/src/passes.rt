//! Handing values on from call nodes to callees' starts.
ghost use Rattle.std.specs.Prelude.{false, [], ◌≡◌, ◌<◌, ◌≤◌, ◌+◌, Some, OnOk, IfOk, IfSome, length};
ghost use Rattle.std.specs.List.{All};
ghost use Rattle.ide_graph.specs.Edges.{EndsWithin};
ghost use Rattle.ide_values.specs.Falling.{StartsFall};
ghost use Rattle.ide_values.specs.Pass.{calls_of};
ghost use Rattle.ide_values.specs.Passing.{LowersAt, MarksFalls, PassesAll, PassesOver, PassesTo, WaitsLess};

use crate::rows::{procedure_at, start_place, value_at_place, value_before};
use ide_graph::{EdgeData, Graph, Site};
use ide_lattice::{EdgeFn, Lattice};
use ide_problem::{Problem, TargetList};
use ide_wire::{Fact, Key, Node};
use std::alloc::{AllocError, Global};

/// A jump function of the tables.
#[derive(Drop)]
pub(crate) struct JumpAt<F: EdgeFn> {
    pub(crate) node: Node,
    pub(crate) from: Fact,
    pub(crate) to: Fact,
    pub(crate) function: F,
}

/// The start values as they fall, and the places that wait to be gone through.
#[derive(Drop)]
pub(crate) struct Starts<P: Problem> {
    pub(crate) values: Vec<P::L>,
    /// Whether a value fell since this was last put out.
    pub(crate) has_fallen: bool,
    pub(crate) waiting: Vec<usize>,
    is_waiting: Vec<bool>,
}

impl<P: Problem> Starts<P> {
    /// The values, with no place waiting.
    pub(crate) fn of(alloc: Global, values: Vec<P::L>) -> Result<Starts<P>, AllocError>
        ensures { IfOk result (λ starts. starts.values.items ≡ values.items) }
    {
        let is_waiting = vec![in alloc; false; values.len()]?;
        Ok(Starts {
            values,
            has_fallen: false,
            waiting: Vec::new(alloc),
            is_waiting,
        })
    }

    /// The values.
    pub(crate) fn into_values(self) -> Vec<P::L>
        ensures { result.items ≡ self.values.items }
    {
        let Starts {
            values,
            has_fallen: _,
            waiting: _,
            is_waiting: _,
        } = self;
        values
    }

    /// Each place whose value is not top waits.
    pub(crate) fn wait_where_entered(&mut self) -> Result<(), AllocError>
        ensures { self.new.values ≡ self.old.values }
    {
        for place in 0..self.values.len() {
            if self.values[place] != P::L::top() {
                self.wait(place)?;
            }
        }
        Ok(())
    }

    /// A place that waits, which then waits no longer.
    pub(crate) fn leave(&mut self) -> Option<usize>
        ensures values { self.new.values ≡ self.old.values }
        ensures waits { IfSome result (λ _. WaitsLess self.old self.new) }
    {
        let place = self.waiting.pop()?;
        if let Some(is_waiting) = self.is_waiting.get_mut(place) {
            *is_waiting = false;
        }
        Some(place)
    }

    /// Puts a place among those that wait, unless it waits.
    fn wait(&mut self, place: usize) -> Result<(), AllocError>
        ensures values { self.new.values ≡ self.old.values }
        ensures waits { OnOk result (length self.new.waiting.items ≤ length self.old.waiting.items + 1) }
    {
        if let Some(is_waiting) = self.is_waiting.get_mut(place)
            && !*is_waiting
        {
            *is_waiting = true;
            self.waiting.push(place)?;
        }
        Ok(())
    }

    /// Meets the value at a place with another. A place whose value fell waits.
    fn lower(&mut self, place: usize, value: P::L) -> Result<(), AllocError>
        ensures lowered { OnOk result (LowersAt P.L.algebra place value self.old self.new) }
        ensures marks { OnOk result (MarksFalls self.old self.new) }
        ensures falls { OnOk result (StartsFall P.L.algebra self.old self.new) }
    {
        if place >= self.values.len() {
            return Ok(());
        }
        let old = value_at_place(self.values.as_slice(), place);
        let new = old.meet(value);
        if new == old {
            return Ok(());
        }
        let _old_is_proper = old.proper();
        let _value_is_proper = value.proper();
        self.wait(place)?;
        self.has_fallen = true;
        self.values[place] = new;
        Ok(())
    }

    /// Hands the value of a jump function on to a target at a callee's start.
    fn pass_to(
        &mut self,
        graph: &Graph,
        jump: &JumpAt<P::F>,
        start: Node,
        target: Fact,
        function: P::F,
    ) -> Result<(), AllocError>
        requires node { jump.now.node < graph.now.nodes }
        requires start { start < graph.now.nodes }
        ensures passed { OnOk result (PassesTo P.L.algebra P.F.edge P.targets graph.now jump.now start (target, function) self.old self.new) }
        ensures marks { OnOk result (MarksFalls self.old self.new) }
        ensures falls { OnOk result (StartsFall P.L.algebra self.old self.new) }
    {
        let value = value_before(graph, self.values.as_slice(), jump.node, jump.from);
        let place = start_place(graph, procedure_at(graph, start), target);
        self.lower(place, function.apply(jump.function.apply(value)))
    }

    /// Hands the value of a jump function on over a call edge.
    fn pass_over(
        &mut self,
        graph: &Graph,
        jump: &JumpAt<P::F>,
        edge: &EdgeData,
        targets: &mut TargetList<P::F>,
    ) -> Result<(), AllocError>
        requires node { jump.now.node < graph.now.nodes }
        requires end { edge.now.end < graph.now.nodes }
        ensures passes { OnOk result (PassesOver P.L.algebra P.F.edge P.targets graph.now jump.now edge.now self.old self.new) }
        ensures falls { OnOk result (StartsFall P.L.algebra self.old self.new) }
    {
        targets.clear();
        P::flow(edge, jump.to, targets)?;
        for target in targets.list.as_slice() {
            self.pass_to(graph, jump, edge.end, target.0, target.1)?;
        }
        Ok(())
    }

    /// Hands the value of a jump function on over call edges.
    pub(crate) fn pass_all(
        &mut self,
        graph: &Graph,
        jump: &JumpAt<P::F>,
        edges: &[EdgeData],
        targets: &mut TargetList<P::F>,
    ) -> Result<(), AllocError>
        requires node { jump.now.node < graph.now.nodes }
        requires ends { All (EndsWithin graph.now.nodes) edges.now }
        ensures passes { OnOk result (PassesAll P.L.algebra P.F.edge P.targets graph.now jump.now edges.now self.old self.new) }
        ensures falls { OnOk result (StartsFall P.L.algebra self.old self.new) }
    {
        for edge in edges {
            self.pass_over(graph, jump, edge, targets)?;
        }
        Ok(())
    }
}

/// Whether call edges leave a node, which need not be one of the graph.
#[inline(always)]
pub(crate) fn is_call(graph: &Graph, node: Node) -> bool
    ensures { result ≡ false → calls_of graph.now node ≡ [] }
{
    !calls_at(graph, node).is_empty()
}

/// The call edges at a node: none where it is no call node.
pub(crate) fn calls_at(graph: &Graph, node: Node) -> &[EdgeData]
    ensures calls { result.now ≡ calls_of graph.now node }
    ensures ends { All (EndsWithin graph.now.nodes) result.now }
{
    if node as usize >= graph.node_count() {
        return &[];
    }
    match graph.site(node) {
        Site::Call { calls, .. } => calls.as_slice(),
        _ => &[],
    }
}
