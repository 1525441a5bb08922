//! All that is left, by one hand: what changes is sealed, one full batch after the other.
ghost use Rattle.std.specs.Prelude.{◌≡◌, ◌<◌, ◌≤◌, [], true, false, Ok, IfErr, IfOk, OnErr, OnOk, IsOkUnless};
ghost use Rattle.std.specs.Option.{is_some};
ghost use Rattle.ide_image.specs.Notes.{noted_count};
ghost use Rattle.ide_image.specs.Worklist.{IsFree, is_claimed, is_pending};
ghost use Rattle.ide_steps.specs.Changed.{Remembers};
ghost use Rattle.ide_steps.specs.Core.{AreInside, IsInside, IsSameProblem, IsUnchanged};
ghost use Rattle.ide_steps.specs.Drain.{HasLess};
ghost use Rattle.ide_steps.specs.DrainRefusal.{IsNoDrain, MayDrain};
ghost use Rattle.ide_steps.specs.Running.{IsNextOwed, IsTakenOut};
ghost use Rattle.ide_steps.specs.Steps.{SameTasks};
ghost use Rattle.ide_store.specs.Draining.{BarsDrain, ComesTo, DrainsAll, DrainsBy, RunsKeys, DrainsSome, IsSameCore, IsWorkStop, LowersOwed, SkipsOwed, StaysOwed, StopsAmid, StopsBy, WorksBy, WorksHeld};
ghost use Rattle.ide_store.specs.Table.{KeepsRest};
ghost use Rattle.ide_store.specs.TableCalls.{IsRefusal};

use crate::kept::Kept;
use crate::laws::calls_are_acts;
use crate::table::{MOST_CHANGED, TableHalf};
use ide_image::Change;
use ide_problem::Problem;
use ide_steps::{NextKey, calls_are_steps, cores_are_whole, is_lowered_too};
use ide_tasks::PartList;
use ide_wire::{Key, Refused};

impl<P: Problem> TableHalf<P> {
    /// Runs keys until none is pending, and answers how many, up to the largest number of 64 bits: to the
    /// store each is a claim by hand 0, its parts and its end. A batch that is full is sealed before the
    /// next part, and before the next end of a claim.
    ///
    /// Refusals, in this order: `Failed`; those of [`ide_steps::Core::may_drain`]; `NoMemory`, and
    /// `Limit` as of [`TableHalf::seal`]: these two keep what was done and sealed before, and to the store
    /// hand 0's claim was given back.
    pub fn drain(&mut self) -> Result<u64, Refused>
        ensures drains { IfOk result (DrainsBy ⟦<P as Kept>⟧.analysis self.old self.new) }
        ensures stops { StopsBy ⟦<P as Kept>⟧.analysis self.old self.new }
        ensures quiet { OnOk result (self.new.core.pile.pending ≡ []) }
        ensures free { IsFree self.old.core.pile → IsFree self.new.core.pile }
        ensures may { OnOk result (MayDrain self.old.core) }
        ensures working { OnOk result (self.old.failed ≡ false) }
        ensures refused { IfErr result (BarsDrain ⟦<P as Kept>⟧.analysis true self.old self.new) }
        ensures unchanged { IfErr result (StopsAmid self.old self.new) }
    {
        self.may_drain()?;
        self.run_all()
    }

    /// Runs up to so many keys, and answers how many: fewer only where none is pending then. To the store each is a claim
    /// by hand 0, its parts and its end, as of [`TableHalf::drain`]; but a batch that is full is not sealed.
    ///
    /// Refusals, in this order: `Failed`; those of [`ide_steps::Core::may_drain`]; `NoMemory`; and `Limit` where a batch is
    /// full: seal, then go on. These two keep what was done before, and to the store hand 0's claim was given back.
    pub fn drain_some(&mut self, most: usize) -> Result<usize, Refused>
        ensures runs { IfOk result (RunsKeys ⟦<P as Kept>⟧.analysis self.old self.new) }
        ensures most { IfOk result (λ count. count ≤ most) }
        ensures quiet { IfOk result (λ count. count < most → self.new.core.pile.pending ≡ []) }
        ensures stops { StopsBy ⟦<P as Kept>⟧.analysis self.old self.new }
        ensures rest { KeepsRest self.old self.new }
        ensures free { IsFree self.old.core.pile → IsFree self.new.core.pile }
        ensures may { OnOk result (MayDrain self.old.core) }
        ensures working { OnOk result (self.old.failed ≡ false) }
        ensures refused { IfErr result (BarsDrain ⟦<P as Kept>⟧.analysis false self.old self.new) }
        ensures unchanged { IfErr result (StopsAmid self.old self.new) }
    {
        self.may_drain()?;
        self.run_some(most)
    }

    /// Whether it may be drained.
    fn may_drain(&self) -> Result<(), Refused>
        ensures may { OnOk result (MayDrain self.now.core) }
        ensures working { OnOk result (self.now.failed ≡ false) }
        ensures refused { IfErr result (IsRefusal self.now (IsNoDrain self.now.core)) }
    {
        if self.failed {
            return Err(Refused::Failed);
        }
        self.core.may_drain()
    }

    /// Runs keys until none is pending, and counts them, up to the largest number of 64 bits. A batch that is full is sealed.
    fn run_all(&mut self) -> Result<u64, Refused>
        requires { MayDrain self.old.core }
        ensures drains { IfOk result (DrainsBy ⟦<P as Kept>⟧.analysis self.old self.new) }
        ensures stops { StopsBy ⟦<P as Kept>⟧.analysis self.old self.new }
        ensures quiet { OnOk result (self.new.core.pile.pending ≡ []) }
        ensures free { IsFree self.new.core.pile }
        ensures refused { IfErr result (IsWorkStop ⟦<P as Kept>⟧.analysis true self.new) }
    {
        let mut parts = PartList::new(self.alloc);
        let mut tasks = 0_u64;
        loop {
            let count = self.run_next(&mut parts, usize::MAX, true)?;
            if count == 0 {
                return Ok(tasks);
            }
            tasks = tasks.saturating_add(count as u64);
        }
    }

    /// Runs up to so many keys, and counts them. A batch that is full is left to others to seal.
    fn run_some(&mut self, most: usize) -> Result<usize, Refused>
        requires { MayDrain self.old.core }
        ensures runs { IfOk result (RunsKeys ⟦<P as Kept>⟧.analysis self.old self.new) }
        ensures most { IfOk result (λ count. count ≤ most) }
        ensures quiet { IfOk result (λ count. count < most → self.new.core.pile.pending ≡ []) }
        ensures stops { StopsBy ⟦<P as Kept>⟧.analysis self.old self.new }
        ensures rest { KeepsRest self.old self.new }
        ensures free { IsFree self.new.core.pile }
        ensures refused { IfErr result (IsWorkStop ⟦<P as Kept>⟧.analysis false self.new) }
    {
        let mut parts = PartList::new(self.alloc);
        let mut tasks = 0;
        while tasks < most {
            let count = self.run_next(&mut parts, most - tasks, false)?;
            if count == 0 {
                return Ok(tasks);
            }
            tasks += count;
        }
        Ok(tasks)
    }

    /// Runs the key that is next, with those behind it that only pass its function on, and the one that this comes to; answers
    /// how many these are, up to so many, and 0 where no key is pending. The list's room is used again.
    fn run_next(
        &mut self,
        parts: &mut PartList<P>,
        most: usize,
        seals: bool,
    ) -> Result<usize, Refused>
        requires may { MayDrain self.old.core }
        requires some { 0 < most }
        ensures works { IfOk result (RunsKeys ⟦<P as Kept>⟧.analysis self.old self.new) }
        ensures stops { StopsBy ⟦<P as Kept>⟧.analysis self.old self.new }
        ensures quiet { result ≡ Ok 0 → self.new.core.pile.pending ≡ [] }
        ensures falls { IfOk result (λ count. 0 < count → HasLess P.F.edge self.old.core self.new.core) }
        ensures most { IfOk result (λ count. count ≤ most) }
        ensures may { MayDrain self.new.core }
        ensures rest { seals ≡ false → KeepsRest self.old self.new }
        ensures refused { IfErr result (IsWorkStop ⟦<P as Kept>⟧.analysis seals self.new) }
    {
        match self.next_key(parts, most - 1)? {
            NextKey::Owes(walked, key) => {
                self.run(key, parts.as_slice(), seals)?;
                Ok(walked + 1)
            }
            NextKey::Walked(count) => Ok(count),
            NextKey::Nothing => Ok(0),
        }
    }

    /// Takes up the next key ([`ide_steps::Core::next_key`]): a walk goes over so many nodes at most, and as far as a batch
    /// has room for notes. To the store each key that a walk leaves is a claim by hand 0, its one part and its end.
    ///
    /// Refusal: `NoMemory`.
    #[inline(always)]
    fn next_key(&mut self, parts: &mut PartList<P>, most: usize) -> Result<NextKey, Refused>
        requires { MayDrain self.old.core }
        ensures comes { IfOk result (ComesTo ⟦<P as Kept>⟧.analysis self.old self.new most parts.new) }
        ensures may { MayDrain self.new.core }
        ensures rest { KeepsRest self.old self.new }
        ensures refused { IsOkUnless result Refused.NoMemory }
        ensures unchanged { OnErr result (self.new ≡ self.old) }
    {
        calls_are_steps::<P>();
        calls_are_acts::<P>();
        cores_are_whole(&self.core);
        let room = (MOST_CHANGED - 1).saturating_sub(self.core.changed_count());
        let next = self.core.next_key(most.min(room), parts)?;
        Ok(next)
    }

    /// Does the parts that the next key owes, and takes it out of the pending ones, unless one of them
    /// lowered the key itself. To the store this is a claim of hand 0, its parts and its end, with a batch
    /// wherever one is full, if it seals: nobody can see the core in between, so that the claim is not made.
    ///
    /// Refusals: why hand 0 does not go on. It gave the claim back then.
    fn run(&mut self, key: Key, parts: &[(Key, P::F)], seals: bool) -> Result<(), Refused>
        requires may { MayDrain self.old.core }
        requires owed { IsNextOwed P.F.edge P.targets self.old.core parts.now key }
        ensures works { OnOk result (WorksBy ⟦<P as Kept>⟧.analysis self.old self.new 1 0) }
        ensures stops { StopsBy ⟦<P as Kept>⟧.analysis self.old self.new }
        ensures falls { OnOk result (HasLess P.F.edge self.old.core self.new.core) }
        ensures may { MayDrain self.new.core }
        ensures rest { seals ≡ false → KeepsRest self.old self.new }
        ensures refused { IfErr result (IsWorkStop ⟦<P as Kept>⟧.analysis seals self.new) }
    {
        calls_are_acts::<P>();
        cores_are_whole(&self.core);
        let is_lowered = self.do_parts(key, parts, seals)?;
        if !is_lowered {
            self.make_room(seals)?;
            self.settle(key)?;
        }
        Ok(())
    }

    /// Does the parts, and answers whether one of them lowered the key itself. Before each there is made room for a note.
    fn do_parts(&mut self, key: Key, parts: &[(Key, P::F)], seals: bool) -> Result<bool, Refused>
        requires free { IsFree self.old.core.pile }
        requires pending { is_pending self.old.core.pile key ≡ true }
        requires inside { AreInside self.old.core parts.now }
        requires noting { is_some self.old.core.changes ≡ true }
        ensures all { IfOk result (DrainsAll ⟦<P as Kept>⟧.analysis key parts.now self.old self.new) }
        ensures some { DrainsSome ⟦<P as Kept>⟧.analysis key parts.now self.old self.new }
        ensures kept { StaysOwed key self.old.core self.new.core }
        ensures noting { is_some self.new.core.changes ≡ true }
        ensures rest { seals ≡ false → KeepsRest self.old self.new }
        ensures refused { IfErr result (IsWorkStop ⟦<P as Kept>⟧.analysis seals self.new) }
    {
        calls_are_acts::<P>();
        let mut is_lowered = false;
        for part in parts {
            self.make_room(seals)?;
            let change = self.lower(part.0, part.1)?;
            is_lowered = is_lowered_too(is_lowered, change, part.0, key);
        }
        Ok(is_lowered)
    }

    /// Does a part, where there is room for a note.
    fn lower(&mut self, key: Key, function: P::F) -> Result<Change, Refused>
        requires inside { IsInside self.old.core key }
        requires room { noted_count self.old.core.changes < 65536 }
        ensures lowered { result ≡ Ok Change.Lowered → LowersOwed P.F.edge P.targets key function self.old.core self.new.core }
        ensures same { result ≡ Ok Change.Same → SkipsOwed P.F.edge P.targets key function self.old.core self.new.core }
        ensures tasks { OnOk result (SameTasks self.old.core.pile self.new.core.pile) }
        ensures stays { IsSameProblem self.old.core self.new.core }
        ensures remembers { Remembers self.old.core self.new.core }
        ensures rest { KeepsRest self.old self.new }
        ensures noting { is_some self.old.core.changes ≡ true }
        ensures refused { IsOkUnless result Refused.NoMemory }
        ensures unchanged { OnErr result (IsUnchanged self.old.core self.new.core) }
    {
        let change = self.core.lower_owed(key, function)?;
        Ok(change)
    }

    /// Takes a pending key, which no hand has claimed, out, where there is room for a note.
    fn settle(&mut self, key: Key) -> Result<(), Refused>
        requires unclaimed { is_claimed self.old.core.pile key ≡ false }
        requires pending { is_pending self.old.core.pile key ≡ true }
        requires room { noted_count self.old.core.changes < 65536 }
        ensures settled { OnOk result (IsTakenOut key self.old.core.pile self.new.core.pile) }
        ensures claims { self.new.core.pile.claims ≡ self.old.core.pile.claims }
        ensures table { self.new.core.table ≡ self.old.core.table }
        ensures stays { IsSameProblem self.old.core self.new.core }
        ensures remembers { Remembers self.old.core self.new.core }
        ensures rest { KeepsRest self.old self.new }
        ensures noting { is_some self.old.core.changes ≡ true }
        ensures refused { IsOkUnless result Refused.NoMemory }
        ensures unchanged { OnErr result (self.new.core ≡ self.old.core) }
    {
        self.core.settle_owed(key)?;
        Ok(())
    }

    /// Seals what changed, where as many keys are noted as a batch may have. That is refused with `Limit` where it is left to
    /// others.
    fn make_room(&mut self, seals: bool) -> Result<(), Refused>
        ensures held { WorksHeld ⟦<P as Kept>⟧.analysis self.old self.new }
        ensures room { OnOk result (noted_count self.new.core.changes < 65536) }
        ensures core { IsSameCore self.old.core self.new.core }
        ensures noting { is_some self.new.core.changes ≡ true }
        ensures rest { seals ≡ false → KeepsRest self.old self.new }
        ensures refused { IfErr result (IsWorkStop ⟦<P as Kept>⟧.analysis seals self.new) }
    {
        if self.core.changed_count() < MOST_CHANGED {
            return Ok(());
        }
        if !seals {
            return Err(Refused::Limit);
        }
        let _ = self.seal_changes()?;
        Ok(())
    }
}
