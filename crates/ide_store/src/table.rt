//! The half of a store that works: the core, and the records of what it did that wait for the writer.
ghost use Rattle.std.specs.Prelude.{◌≡◌, ◌≤◌, ◌↔◌, [], None, Some, length, slice_get, false, true, Ok, IfErr, IfOk, IsTrue, OnErr, OnOk};
ghost use Rattle.ide_image.specs.Notes.{ended_key};
ghost use Rattle.ide_steps.specs.ClaimRefusal.{IsClaimRefusal};
ghost use Rattle.ide_steps.specs.Claiming.{FindsIdle, FindsQuiet, IfTask};
ghost use Rattle.ide_steps.specs.CloseRefusal.{IsFreezeRefusal};
ghost use Rattle.ide_steps.specs.Drain.{HasDonePart};
ghost use Rattle.ide_steps.specs.Frozen.{graph_in};
ghost use Rattle.ide_steps.specs.Steps.{FindsNone, HasReceived, IsCurrent, LowersPart, SkipsPart};
ghost use Rattle.ide_image.specs.Worklist.{claim_at};
ghost use Rattle.ide_store.specs.Freezing.{IsImageOver};
ghost use Rattle.ide_store.specs.Table.{IsSameTable, KeepsRest};
ghost use Rattle.ide_store.specs.TableCalls.{DoesPart, EndOverflows, EndsClaim, HasRoom, HasRoomForEnd, HasRoomForPart, PartOverflows, GivesClaimBack, IsFinishStop, IsFull, IsPartStop, IsRefusal, IsStaleClaim, TakesTask};

use crate::kept::Kept;
use crate::laws::calls_are_acts;
use crate::outbox::Outbox;
use ide_journal::Version;
use ide_lattice::EdgeFn;
use ide_problem::Problem;
use ide_steps::{Claimed, Closed, Core, Parted, cores_are_whole};
use ide_tasks::Work;
use ide_wire::{Key, Refused};
use std::alloc::Global;
use std::marker::Model;

/// The most keys of which changes are noted: those of one batch.
pub(crate) const MOST_CHANGED: usize = 65_536;

/// A core whose changes are noted, and the sealed records that the writer does not have yet.
#[derive(Drop)]
pub struct TableHalf<P: Problem> {
    pub(crate) alloc: Global,
    pub(crate) core: Core<P>,
    pub(crate) version: Version,
    pub(crate) outbox: Outbox,
    pub(crate) failed: bool,
}

impl<P: Problem> Model for TableHalf<P> {
    ghost use Rattle.ide_journal.specs.Lists.{entries_of};
    ghost use Rattle.ide_store.specs.Table.{IsTable, TableData};

    ghost Value = { TableData P.F };

    ghost view = { λ t. record { core = t.core; version = t.version; sealed = t.outbox.sealed; waiting = entries_of t.outbox.waiting.items; failed = t.failed } };

    ghost invariant = { λ t. IsTable t.core t.outbox.sealed (entries_of t.outbox.waiting.items) };
}

impl<P: Problem> TableHalf<P> {
    /// How many records were sealed.
    pub fn sealed(&self) -> u64
        ensures { result ≡ self.now.sealed }
    {
        self.outbox.sealed
    }

    /// The core, to be read.
    pub fn core(&self) -> &Core<P>
        ensures { result.now ≡ self.now.core }
    {
        &self.core
    }

    /// Claims a pending key that no hand has claimed. The work of the task that it answers is not stale.
    ///
    /// Refusals, in this order: `Failed`; those of [`Core::claim`].
    pub fn claim(&mut self, hand: usize) -> Result<Claimed<P>, Refused>
        ensures task { IfTask result (TakesTask ⟦<P as Kept>⟧.analysis hand self.old self.new) }
        ensures idle { result ≡ Ok Claimed.Idle → FindsIdle self.old.core self.new.core }
        ensures quiet { result ≡ Ok Claimed.Quiet → FindsQuiet self.old.core self.new.core }
        ensures rest { KeepsRest self.old self.new }
        ensures working { OnOk result (self.old.failed ≡ false) }
        ensures refused { IfErr result (IsRefusal self.old (IsClaimRefusal self.old.core hand)) }
        ensures unchanged { OnErr result (IsSameTable self.old self.new) }
    {
        calls_are_acts::<P>();
        cores_are_whole(&self.core);
        if self.failed {
            return Err(Refused::Failed);
        }
        self.core.claim(hand)
    }

    /// Does the next part of the hand's work.
    ///
    /// Refusals, in this order: `Failed`; `Stale`, as of [`Core::part`]; `Limit`, where the part would
    /// change a key beyond 65,536 changed ones: seal, then repeat it; `NoMemory`.
    pub fn part(&mut self, hand: usize, work: &mut Work<P>) -> Result<Parted, Refused>
        ensures lowered { result ≡ Ok Parted.Lowered → LowersPart P.F.edge P.targets hand self.old.core self.new.core work.old work.new }
        ensures same { result ≡ Ok Parted.Same → SkipsPart P.F.edge P.targets hand self.old.core self.new.core work.old work.new }
        ensures part { HasDonePart result → DoesPart ⟦<P as Kept>⟧.analysis hand self.old self.new work.old work.new }
        ensures no_part { result ≡ Ok Parted.NoPart → FindsNone self.old.core self.new.core work.old work.new }
        ensures rest { KeepsRest self.old self.new }
        ensures working { OnOk result (self.old.failed ≡ false) }
        ensures refused { IfErr result (IsRefusal self.old (IsPartStop P.F.edge P.targets self.old.core hand work.old)) }
        ensures unchanged { OnErr result (IsSameTable self.old self.new × (work.new ≡ work.old)) }
    {
        calls_are_acts::<P>();
        if self.failed {
            return Err(Refused::Failed);
        }
        if self.part_overflows(hand, work) {
            return Err(Refused::Limit);
        }
        self.core.part(hand, work)
    }

    /// Ends the hand's claim with all its parts done.
    ///
    /// Refusals, in this order: `Failed`; `Stale`, as of [`Core::finish`]; `Limit`, where the end would
    /// change a key beyond 65,536 changed ones: seal, then repeat it; `NoMemory`.
    pub fn finish(&mut self, hand: usize, work: &Work<P>) -> Result<(), Refused>
        ensures ends { OnOk result (EndsClaim ⟦<P as Kept>⟧.analysis hand self.old self.new) }
        ensures free { OnOk result (claim_at self.new.core.pile hand ≡ None) }
        ensures rest { KeepsRest self.old self.new }
        ensures working { OnOk result (self.old.failed ≡ false) }
        ensures refused { IfErr result (IsRefusal self.old (IsFinishStop P.F.edge P.targets self.old.core hand work.now)) }
        ensures unchanged { OnErr result (IsSameTable self.old self.new) }
    {
        calls_are_acts::<P>();
        if self.failed {
            return Err(Refused::Failed);
        }
        if self.end_overflows(hand, work) {
            return Err(Refused::Limit);
        }
        self.core.finish(hand, work)
    }

    /// Gives the hand's claim back. It takes no memory.
    ///
    /// Refusals, in this order: `Failed`; `Stale` where the hand has no claim.
    pub fn release(&mut self, hand: usize) -> Result<(), Refused>
        ensures gives { OnOk result (GivesClaimBack ⟦<P as Kept>⟧.analysis hand self.old self.new) }
        ensures free { OnOk result (claim_at self.new.core.pile hand ≡ None) }
        ensures rest { KeepsRest self.old self.new }
        ensures working { OnOk result (self.old.failed ≡ false) }
        ensures refused { IfErr result (IsRefusal self.old (IsStaleClaim self.old hand)) }
        ensures unchanged { OnErr result (IsSameTable self.old self.new) }
    {
        calls_are_acts::<P>();
        if self.failed {
            return Err(Refused::Failed);
        }
        self.core.release(hand)
    }

    /// The image as it stands, copied, with its program and roots: that of the store's world. The half
    /// goes on.
    ///
    /// Refusals, in this order: `Failed`; those of [`Core::freeze`].
    pub fn freeze(&self) -> Result<Closed<P>, Refused>
        ensures frozen { IfOk result (IsImageOver ⟦<P as Kept>⟧.analysis self.now) }
        ensures graph { IfOk result (λ closed. self.now.core.graph ≡ Some (graph_in closed)) }
        ensures table { IfOk result (λ closed. closed.tables.table ≡ self.now.core.table) }
        ensures roots { IfOk result (λ closed. closed.roots.items ≡ self.now.core.roots) }
        ensures quiet { IfOk result (λ _. self.now.core.pile.pending ≡ []) }
        ensures working { IfOk result (λ _. self.now.failed ≡ false) }
        ensures refused { IfErr result (IsRefusal self.now (IsFreezeRefusal self.now.core)) }
    {
        if self.failed {
            return Err(Refused::Failed);
        }
        self.core.freeze()
    }

    /// Whether as many keys are noted as a batch may have, and the work's next part would change another
    /// one.
    fn part_overflows(&self, hand: usize, work: &Work<P>) -> bool
        ensures yes { IsTrue result → PartOverflows P.F.edge P.targets self.now.core hand work.now }
        ensures no { result ≡ false → HasRoomForPart P.F.edge P.targets self.now.core hand work.now }
    {
        if !is_full_for(&self.core, hand, work) {
            return false;
        }
        let Some(part) = work.next() else {
            return false;
        };
        if self.core.is_changed(part.0) {
            return false;
        }
        !self.has_received(part.0, part.1)
    }

    /// Whether to meet the key's function with this one changes nothing.
    fn has_received(&self, key: Key, function: P::F) -> bool
        ensures { IsTrue result ↔ HasReceived P.F.edge P.targets self.now.core key function }
    {
        let before = self.core.get(key).unwrap_or(P::F::all_top());
        before.meet(function) == before
    }

    /// Whether as many keys are noted as a batch may have, and the end of the hand's claim would change
    /// another one.
    fn end_overflows(&self, hand: usize, work: &Work<P>) -> bool
        ensures yes { IsTrue result → EndOverflows P.F.edge P.targets self.now.core hand work.now }
        ensures no { result ≡ false → HasRoomForEnd P.F.edge P.targets self.now.core hand work.now }
    {
        if work.next().is_some() {
            return false;
        }
        if !is_full_for(&self.core, hand, work) {
            return false;
        }
        match self.core.claim_of(hand) {
            Some(claim) => !claim.lowered && !self.core.is_changed(claim.key),
            None => false,
        }
    }
}

/// Whether as many keys of the core are noted as a batch may have, and the work is the hand's claim.
/// That it is stale is told only then: it takes time.
fn is_full_for<P: Problem>(core: &Core<P>, hand: usize, work: &Work<P>) -> bool
    ensures full { IsTrue result → IsFull core.now }
    ensures current { IsTrue result → IsCurrent P.F.edge P.targets core.now hand work.now }
    ensures room { result ≡ false → HasRoom P.F.edge P.targets core.now hand work.now }
{
    if core.changed_count() < MOST_CHANGED {
        return false;
    }
    core.is_current(hand, work)
}
