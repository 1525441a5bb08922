//! Claims: a hand takes a pending key with its task.
ghost use Rattle.std.specs.Prelude.{◌≡◌, ℕ, ◌<◌, true, false, None, Some, Ok, IfErr, IfOk, OnErr, OnOk, IsOkUnless};
ghost use Rattle.ide_graph.specs.Edges.{EdgesWithin};
ghost use Rattle.ide_wire.specs.declared.key.Key.{Key};
ghost use Rattle.ide_image.specs.Worklist.{claim_at, is_pending, is_claimed};
ghost use Rattle.ide_steps.specs.ClaimRefusal.{IsClaimRefusal, MayClaim};
ghost use Rattle.ide_steps.specs.Claiming.{BeginsClaim, FindsIdle, FindsQuiet, FindsTask, IfTask, KeepsAllBut};
ghost use Rattle.ide_steps.specs.Core.{IsUnchanged, StandsIn};
ghost use Rattle.ide_steps.specs.Kept.{FillsPartners, GivesPartners, GivesTask};

use crate::loaded::Loaded;
use crate::machine::{Core, HANDS};
use ide_graph::Site;
use ide_image::KeyedImage;
use ide_problem::Problem;
use ide_tasks::{PartnerLists, Partners, Task};
use ide_wire::{Key, Refused};
use std::alloc::Global;

/// What a claim gives.
#[derive(Drop)]
pub enum Claimed<P: Problem> {
    /// The task of the key that is now the hand's.
    Task(Task<P>),
    /// Keys are pending, and each is claimed.
    Idle,
    /// No key is pending.
    Quiet,
}

impl<P: Problem> Core<P> {
    /// Claims a pending key that no hand has claimed. The work of the task that it answers is not
    /// stale: it is the hand's claim, with no part done.
    ///
    /// Refusals, in this order: `Limit` where the hand's number is over 63; `NoProgram`; `Busy`
    /// where the hand has a claim; `NoMemory`.
    pub fn claim(&mut self, hand: usize) -> Result<Claimed<P>, Refused>
        ensures may { OnOk result (MayClaim self.old hand) }
        ensures refused { IfErr result (IsClaimRefusal self.old hand) }
        ensures keeps { KeepsAllBut hand self.old self.new }
        ensures task { IfTask result (FindsTask P.F.edge P.targets hand self.old self.new) }
        ensures idle { result ≡ Ok Claimed.Idle → FindsIdle self.old self.new }
        ensures quiet { result ≡ Ok Claimed.Quiet → FindsQuiet self.old self.new }
        ensures unchanged { OnErr result (IsUnchanged self.old self.new) }
    {
        if hand >= HANDS {
            return Err(Refused::Limit);
        }
        let Some(loaded) = &self.loaded else {
            return Err(Refused::NoProgram);
        };
        if self.image.claim(hand).is_some() {
            return Err(Refused::Busy);
        }
        if self.image.is_quiet() {
            return Ok(Claimed::Quiet);
        }
        let Some(key) = self.image.unclaimed() else {
            return Ok(Claimed::Idle);
        };
        let task = take_task(self.alloc, loaded, &mut self.image, hand, key)?;
        Ok(Claimed::Task(task))
    }
}

/// Takes the pending key for the hand, with its task, which the claim keeps too.
fn take_task<P: Problem>(
    alloc: Global,
    loaded: &Loaded<P>,
    image: &mut KeyedImage<P::F, Task<P>>,
    hand: usize,
    key: Key,
) -> Result<Task<P>, Refused>
    requires place { StandsIn loaded.now.graph key }
    requires hand_in { hand < 64 }
    requires free { claim_at image.old.pile hand ≡ None }
    requires pending { is_pending image.old.pile key ≡ true }
    requires unclaimed { is_claimed image.old.pile key ≡ false }
    ensures key { IfOk result (λ task. task.key ≡ key) }
    ensures is_task { GivesTask P.F.edge P.targets loaded.now image.old.table key result }
    ensures edges { IfOk result (λ task. EdgesWithin loaded.now.graph.nodes task.site) }
    ensures refused { IsOkUnless result Refused.NoMemory }
    ensures table { image.new.table ≡ image.old.table }
    ensures pending { image.new.pile.pending ≡ image.old.pile.pending }
    ensures changes { image.new.changes ≡ image.old.changes }
    ensures claims { IfOk result (BeginsClaim hand key image.old.pile image.new.pile) }
    ensures err { OnErr result ((h : ℕ) → claim_at image.new.pile h ≡ claim_at image.old.pile h) }
{
    let task = task_of(alloc, loaded, image, key)?;
    image.take(hand, key, task.copy(alloc)?)?;
    Ok(task)
}

/// The task of a key, with the partners that are present now.
fn task_of<P: Problem>(
    alloc: Global,
    loaded: &Loaded<P>,
    image: &KeyedImage<P::F, Task<P>>,
    key: Key,
) -> Result<Task<P>, Refused>
    requires { StandsIn loaded.now.graph key }
    ensures key { IfOk result (λ task. task.key ≡ key) }
    ensures is_task { GivesTask P.F.edge P.targets loaded.now image.now.table key result }
    ensures edges { IfOk result (λ task. EdgesWithin loaded.now.graph.nodes task.site) }
    ensures refused { IsOkUnless result Refused.NoMemory }
{
    let node = key.node();
    let site = loaded.graph.shared_site(node)?;
    let procedure = loaded.graph.procedure_of(node);
    let partners = partners_of(alloc, loaded, image, key, procedure, site.site())?;
    Ok(Task {
        key,
        function: image.function(key),
        site,
        partners,
    })
}

/// What the key's function is joined with, in lists of its own.
fn partners_of<P: Problem>(
    alloc: Global,
    loaded: &Loaded<P>,
    image: &KeyedImage<P::F, Task<P>>,
    key: Key,
    procedure: usize,
    site: &Site,
) -> Result<Partners<P::F>, Refused>
    ensures partners { GivesPartners P.F.edge P.targets loaded.now image.now.table key site.now procedure result }
    ensures refused { IsOkUnless result Refused.NoMemory }
{
    let mut lists = PartnerLists::new(alloc);
    fill_partners(loaded, image, key, procedure, site, &mut lists)?;
    Ok(lists.into_partners())
}

/// Makes the lists what the key's function is joined with: at a call node the summaries over the call,
/// at an exit what the callers' call flow reaches, for a summary the jumps at its call node. What was in
/// them is gone.
#[inline(always)]
pub(crate) fn fill_partners<P: Problem>(
    loaded: &Loaded<P>,
    image: &KeyedImage<P::F, Task<P>>,
    key: Key,
    procedure: usize,
    site: &Site,
    lists: &mut PartnerLists<P::F>,
) -> Result<(), Refused>
    ensures partners { FillsPartners P.F.edge P.targets loaded.now image.now.table key site.now procedure lists.new result }
    ensures refused { IsOkUnless result Refused.NoMemory }
{
    lists.are_callers = false;
    match (key, site) {
        (Key::Jump(call, _, to), Site::Call { .. }) => {
            image.fill_summaries_at(call, to, &mut lists.entries)
        }
        (Key::Jump(_, from, _), Site::Exit { .. }) => {
            lists.are_callers = true;
            loaded
                .sources
                .fill_reaching(procedure, from, &mut lists.callers)?;
            Ok(())
        }
        (Key::Jump(_, _, _), Site::Normal(_)) => {
            lists.entries.clear();
            Ok(())
        }
        (Key::Summary(call, from, _), _) => { image.fill_jumps_at(call, from, &mut lists.entries) }
    }
}
