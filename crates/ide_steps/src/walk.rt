//! Walks: keys behind each other along a procedure, of which each does nothing but pass its function on.
ghost use Rattle.std.specs.Prelude.{◌≡◌, ◌<◌, ◌≤◌, ◌+◌, Ok, Some, true, false, IfOk, OnErr, IsOkUnless};
ghost use Rattle.ide_steps.specs.Walk.{GoesOnUnchanged, HasWalked, MayWalk, MayWalkIn, PassesAt, PassesFor, WaitsWith};
ghost use Rattle.ide_image.specs.Tables.{found};
ghost use Rattle.ide_image.specs.Worklist.{is_claimed, is_pending};
ghost use Rattle.ide_wire.specs.declared.key.Key.TheVariants.{Jump};

use crate::drain::DRAINING;
use crate::machine::Core;
use ide_graph::Graph;
use ide_image::KeyedImage;
use ide_lattice::EdgeFn;
use ide_problem::Problem;
use ide_tasks::{Task, passes_behind};
use ide_wire::{Fact, Key, Node, Refused};

impl<P: Problem> Core<P> {
    /// Walks on from a pending key that has that function, as [`Core::next_key`] does from the next one, and answers over how
    /// many nodes, and the key that this came to, which has the function now. Over none nothing changes, and it is the same key:
    /// that has other parts then, or parts that meet what is there.
    ///
    /// Refusal: `NoMemory`.
    #[inline(always)]
    pub(crate) fn walk_owed(
        &mut self,
        key: Key,
        function: P::F,
        most: usize,
    ) -> Result<(usize, Key), Refused>
        requires pending { is_pending self.old.pile key ≡ true }
        requires unclaimed { is_claimed self.old.pile key ≡ false }
        requires function { found self.old.table key ≡ Some function }
        ensures refused { IsOkUnless result Refused.NoMemory }
        ensures most { IfOk result (λ came. came.0 ≤ most) }
        ensures walked { IfOk result (λ came. HasWalked P.F.edge P.targets self.old self.new came.0) }
        ensures waits { IfOk result (λ came. WaitsWith function self.new came.1) }
        ensures unchanged { OnErr result (self.new ≡ self.old) }
    {
        let Key::Jump(node, from, to) = key else {
            return Ok((0, key));
        };
        let count = self.walk_length(node, from, to, function, most);
        if count == 0 {
            return Ok((0, key));
        }
        // Each claimed key is pending, so that the last one, which is not, is not claimed.
        let _ = self.image.claim(DRAINING);
        self.image.walk(node, from, to, function, count)?;
        Ok((count, Key::Jump(node + count as Node, from, to)))
    }

    /// Over how many nodes behind the pending jump at the node its function may be walked, up to a count.
    #[inline(always)]
    fn walk_length(&self, node: Node, from: Fact, to: Fact, function: P::F, most: usize) -> usize
        requires pending { is_pending self.now.pile (Jump node from to) ≡ true }
        ensures most { result ≤ most }
        ensures may { 0 < result → MayWalkIn P.F.edge P.targets self.now node from to result function }
    {
        match &self.loaded {
            Some(loaded) => length_of_walk::<P>(
                &loaded.graph,
                &self.image,
                node,
                from,
                to,
                function,
                most,
            ),
            None => 0,
        }
    }
}

/// Over how many nodes behind the jump at the node its function may be walked, up to a count.
#[inline(always)]
fn length_of_walk<P: Problem>(
    graph: &Graph,
    image: &KeyedImage<P::F, Task<P>>,
    node: Node,
    from: Fact,
    to: Fact,
    function: P::F,
    most: usize,
) -> usize
    requires node { node < graph.now.nodes }
    ensures most { result ≤ most }
    ensures may { 0 < result → MayWalk P.F.edge P.targets graph.now image.now node from to result function }
{
    if !goes_on_unchanged(function) {
        return 0;
    }
    let most = passing::<P>(graph, node, to, most.min(nodes_behind(node)));
    if most == 0 {
        return 0;
    }
    image.absent_behind(node, from, to, most)
}

/// How many nodes stand behind this one on a page of the image: no walk goes further.
#[inline(always)]
fn nodes_behind(node: Node) -> usize {
    63 - (node % 64) as usize
}

/// How many of the first nodes from this one on, up to a count, pass the fact on unchanged to the node behind them.
#[inline(always)]
fn passing<P: Problem>(graph: &Graph, node: Node, fact: Fact, most: usize) -> usize
    requires node { node < graph.now.nodes }
    ensures most { result ≤ most }
    ensures passes { PassesFor P.F.edge P.targets graph.now node fact result }
    ensures within { node + result < graph.now.nodes }
{
    // What is known of the graph: a node's number has 32 bits.
    let _ = graph.node_count();
    for count in 0..most {
        if !passes_at::<P>(graph, node + count as Node, fact) {
            return count;
        }
    }
    most
}

/// Whether the node passes the fact on unchanged to the node behind it. Its site is read only where its statement names the
/// fact, or where the analysis does not say that it keeps what is not named.
#[inline(always)]
fn passes_at<P: Problem>(graph: &Graph, node: Node, fact: Fact) -> bool
    requires node { node < graph.now.nodes }
    ensures passes { result ≡ true → PassesAt P.F.edge P.targets graph.now node fact }
    ensures within { result ≡ true → node + 1 < graph.now.nodes }
{
    if P::keeps_unnamed() && graph.passes_by(node, fact) {
        return true;
    }
    // There is a site for each node.
    let _ = graph.node_count();
    passes_behind::<P>(node, graph.site(node), fact)
}

/// Whether the function goes on as it is: each does by the laws, but the one that always gives top, which no key that is
/// present needs.
#[inline(always)]
fn goes_on_unchanged<F: EdgeFn>(function: F) -> bool
    ensures { result ≡ true → GoesOnUnchanged F.edge function }
{
    // Each function that a program holds is proper.
    let _ = function.proper();
    function != F::all_top()
}
