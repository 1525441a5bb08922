//! The image as a list, and an image made from one.
ghost use Rattle.std.specs.Prelude.{◌≡◌, ◌<◌, ◌≤◌, ℕ, ◌↔◌, Some, false, true, length, slice_get, IfErr, IfOk, IsTrue, OnErr, OnOk, map};
ghost use Rattle.std.specs.Option.{IsSomeAnd};
ghost use Rattle.ide_theory.specs.Within.{is_some_call};
ghost use Rattle.ide_image.specs.Notes.{noted_count};
ghost use Rattle.ide_image.specs.Tables.{Sets};
ghost use Rattle.ide_image.specs.Worklist.{claim_at, IsFree};
ghost use Rattle.ide_steps.specs.Changed.{Notes, Remembers};
ghost use Rattle.ide_steps.specs.Core.{IsSameProblem, IsUnchanged};
ghost use Rattle.ide_steps.specs.Items.{AreChangedItems, AreItems, IsKeyOf, SetsPending, item_of};

use crate::loaded::is_call;
use crate::machine::Core;
use ide_graph::Graph;
use ide_image::ChangedItems;
use ide_problem::Problem;
use ide_wire::{Fact, Key, Node, Refused};
use std::alloc::AllocError;

impl<P: Problem> Core<P> {
    /// The present keys, ascending, each with its function and whether it is pending.
    ///
    /// Refusal: `NoMemory`.
    pub fn items(&self) -> Result<Vec<(Key, P::F, bool)>, Refused>
        ensures items { IfOk result (λ items. AreItems self.now items.items) }
        ensures refused { IfErr result (λ e. e ≡ Refused.NoMemory) }
    {
        let keys = self.image.keys(self.alloc)?;
        let items = self.items_of(&keys)?;
        Ok(items)
    }

    /// The present keys whose entry is not the one that they had when changes were last asked for,
    /// ascending, each with its function and whether it is pending: none where nobody asked. It looks at
    /// the noted keys alone.
    ///
    /// Refusal: `NoMemory`.
    pub fn changed_items(&self) -> Result<ChangedItems<'_, P::F>, Refused>
        ensures items { IfOk result (AreChangedItems self.now) }
        ensures few { IfOk result (λ items. length items ≤ noted_count self.now.changes) }
        ensures refused { IfErr result (λ e. e ≡ Refused.NoMemory) }
    {
        let items = self.image.changed_items(self.alloc)?;
        Ok(items)
    }

    /// The items of the keys.
    fn items_of(&self, keys: &[Key]) -> Result<Vec<(Key, P::F, bool)>, AllocError>
        ensures { IfOk result (λ items. items.items ≡ map (item_of P.F.edge self.now) keys.now) }
    {
        keys.iter().map(|key| self.item(*key)).collect(self.alloc)
    }

    /// The item of a present key.
    fn item(&self, key: Key) -> (Key, P::F, bool)
        ensures { result ≡ item_of P.F.edge self.now key }
    {
        (key, self.image.function(key), self.is_pending(key))
    }

    /// Whether the core may have the key: a program is loaded, the key stands at a node of it, a
    /// summary at a call node, and its facts are facts of it.
    pub fn may_have(&self, key: Key) -> bool
        ensures { IsTrue result ↔ IsSomeAnd self.now.graph (λ graph. IsKeyOf graph key) }
    {
        match &self.loaded {
            Some(loaded) => is_key_of(&loaded.graph, key),
            None => false,
        }
    }

    /// Sets one entry, and whether its key is pending. It is for recovery, which makes an image
    /// from items before any hand has a claim: alone of all calls it is no step of a run.
    ///
    /// Refusal: `NoMemory`.
    pub fn set(&mut self, key: Key, function: P::F, pending: bool) -> Result<(), Refused>
        requires unclaimed { IsFree self.old.pile }
        requires place { IsSomeAnd self.old.graph (λ graph. IsKeyOf graph key) }
        requires present { P.F.eq function P.F.edge.all_top ≡ false }
        ensures sets { OnOk result (Sets self.old.table self.new.table key function) }
        ensures pending { OnOk result (SetsPending key pending self.old.pile self.new.pile) }
        ensures stays { IsSameProblem self.old self.new }
        ensures claims { (h : ℕ) → claim_at self.new.pile h ≡ claim_at self.old.pile h }
        ensures notes { OnOk result (Notes self.old self.new (Some key)) }
        ensures remembers { Remembers self.old self.new }
        ensures refused { IfErr result (λ e. e ≡ Refused.NoMemory) }
        ensures unchanged { OnErr result (IsUnchanged self.old self.new) }
    {
        self.image.set(key, function, pending)?;
        Ok(())
    }
}

/// Whether the key stands at a node of the graph, a summary at a call node, and its facts are facts
/// of the graph.
fn is_key_of(graph: &Graph, key: Key) -> bool
    ensures { IsTrue result ↔ IsKeyOf graph.now key }
{
    match key {
        Key::Jump(node, from, to) => {
            (node as usize) < graph.node_count() && are_facts(graph, from, to)
        }
        Key::Summary(call, from, to) => is_call_node(graph, call) && are_facts(graph, from, to),
    }
}

/// Whether both are facts of the graph.
fn are_facts(graph: &Graph, first: Fact, second: Fact) -> bool
    ensures { IsTrue result ↔ ((first < graph.now.facts) × (second < graph.now.facts)) }
{
    let facts = graph.fact_count();
    (first as usize) < facts && (second as usize) < facts
}

/// Whether a call stands at the node.
fn is_call_node(graph: &Graph, node: Node) -> bool
    ensures { IsTrue result ↔ (is_some_call (slice_get graph.now.sites node) ≡ true) }
{
    (node as usize) < graph.node_count() && is_call(graph.site(node))
}
