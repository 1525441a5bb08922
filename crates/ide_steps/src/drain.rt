//! All steps that are left, by one hand.
ghost use Rattle.std.specs.Prelude.{◌≡◌, ◌<◌, ◌≤◌, ◌⊎◌, ◌||◌, [], true, false, Ok, Some, None, IfErr, IfOk, IsOk, OnErr, OnOk, IsOkUnless};
ghost use Rattle.ide_wire.specs.Key.{same_key};
ghost use Rattle.ide_steps.specs.Changed.{Notes, Remembers};
ghost use Rattle.ide_steps.specs.Core.{is_loaded, AllStandIn, AreInside, IsSameProblem, StandsIn};
ghost use Rattle.ide_steps.specs.DrainRefusal.{IsDrainRefusal, IsNoDrain, MayDrain};
ghost use Rattle.ide_steps.specs.Drain.{Drains, GoesOnPaid, HasLess};
ghost use Rattle.ide_steps.specs.Going.{GoesOn};
ghost use Rattle.ide_steps.specs.Room.{AreTasksFew};
ghost use Rattle.ide_steps.specs.Running.{AreAllClaimed, DoesAll, DoesSome, IsTakenOut, ListsParts, OwesParts, TakesUp};
ghost use Rattle.ide_image.specs.Tables.{found};
ghost use Rattle.ide_image.specs.Worklist.{is_claimed, is_pending, IsFree};

use crate::claim::fill_partners;
use crate::laws::{calls_are_steps, cores_are_whole, images_have_room};
use crate::loaded::Loaded;
use crate::machine::Core;
use ide_image::{Change, KeyedImage};
use ide_problem::Problem;
use ide_tasks::{PartList, Task};
use ide_wire::{Key, Refused};
use std::alloc::Global;

/// The hand that drains: that of the steps which a drain is to a run.
pub(crate) const DRAINING: usize = 0;

/// What the next key came to.
#[derive(Clone, Copy, PartialEq, Eq, Debug)]
pub enum NextKey {
    /// This key owes the parts that were listed: the one to which it was walked from the next key, over so many nodes, or that
    /// one itself, over none.
    Owes(usize, Key),
    /// It was walked on from it, over so many nodes, and memory was wanting for the parts of the key that this came to.
    Walked(usize),
    /// Each pending key is claimed.
    Nothing,
}

impl<P: Problem> Core<P> {
    /// Runs keys until none is pending, and answers how many, up to the largest number of 64 bits. To a
    /// run each is a claim by hand 0, its parts and its end; no claim is made, since no hand could see
    /// it. Each is paid for by a key that was pending, or by a part that lowered an entry, and each of those by a rank that an entry lost: in a run over the graph of a
    /// text there are at most as many as keys were pending, and `HEIGHT` for each jump of a node and
    /// two facts and each summary of a call and two facts.
    ///
    /// Refusals: `NoProgram`; `Busy` where hand 0 has a claim; `Unfinished` where another hand has
    /// one; all tested first, in this order. `NoMemory` keeps the steps done before it, and to a run
    /// hand 0 gave its claim back.
    pub fn drain(&mut self) -> Result<u64, Refused>
        ensures may { OnOk result (MayDrain self.old) }
        ensures refused { IfErr result (IsDrainRefusal self.old) }
        ensures quiet { OnOk result (self.new.pile.pending ≡ []) }
        ensures free { IsFree self.old.pile → IsFree self.new.pile }
        ensures claims { IfOk result (Drains P.L.algebra P.F.edge P.targets self.old self.new) }
        ensures few { IfOk result (AreTasksFew P.L.algebra P.F.edge P.targets self.old) }
        ensures goes { GoesOn P.L.algebra P.F.edge P.targets 0 self.old self.new }
        ensures remembers { Remembers self.old self.new }
        ensures unchanged { IfErr result (λ e. (e ≡ Refused.NoMemory) ⊎ (self.new ≡ self.old)) }
    {
        self.may_drain()?;
        let drained = self.run_all();
        images_have_room::<P>();
        cores_are_whole(self);
        drained
    }

    /// Whether it may be drained: a program is loaded, and no hand has a claim.
    ///
    /// Refusals: those of [`Core::drain`] but for `NoMemory`.
    pub fn may_drain(&self) -> Result<(), Refused>
        ensures may { OnOk result (MayDrain self.now) }
        ensures refused { IfErr result (IsNoDrain self.now) }
    {
        if self.loaded.is_none() {
            return Err(Refused::NoProgram);
        }
        if self.image.claim(DRAINING).is_some() {
            return Err(Refused::Busy);
        }
        if self.image.claimed_elsewhere(DRAINING) {
            return Err(Refused::Unfinished);
        }
        Ok(())
    }

    /// Runs keys until none is pending, and counts them, up to the largest number of 64 bits.
    fn run_all(&mut self) -> Result<u64, Refused>
        requires loaded { is_loaded self.old ≡ true }
        requires free { IsFree self.old.pile }
        ensures refused { IsOkUnless result Refused.NoMemory }
        ensures quiet { OnOk result (self.new.pile.pending ≡ []) }
        ensures free { IsFree self.new.pile }
        ensures claims { IfOk result (Drains P.L.algebra P.F.edge P.targets self.old self.new) }
        ensures goes { GoesOn P.L.algebra P.F.edge P.targets 0 self.old self.new }
        ensures remembers { Remembers self.old self.new }
    {
        let mut parts = PartList::new(self.alloc);
        let mut tasks = 0_u64;
        loop {
            let count = self.run_next(&mut parts)?;
            if count == 0 {
                return Ok(tasks);
            }
            tasks = tasks.saturating_add(count as u64);
        }
    }

    /// Runs the key that is next, with those behind it that only pass its function on, and the one that this comes to; answers
    /// how many these are, 0 where no key is pending. The list's room is used again.
    fn run_next(&mut self, parts: &mut PartList<P>) -> Result<usize, Refused>
        requires loaded { is_loaded self.old ≡ true }
        requires free { IsFree self.old.pile }
        ensures refused { IsOkUnless result Refused.NoMemory }
        ensures quiet { result ≡ Ok 0 → self.new.pile.pending ≡ [] }
        ensures falls { IfOk result (λ count. 0 < count → HasLess P.F.edge self.old self.new) }
        ensures free { IsFree self.new.pile }
        ensures claims { IfOk result (λ count. GoesOnPaid P.L.algebra P.F.edge P.targets count self.old self.new) }
        ensures goes { GoesOn P.L.algebra P.F.edge P.targets 0 self.old self.new }
        ensures remembers { Remembers self.old self.new }
    {
        calls_are_steps::<P>();
        match self.next_key(usize::MAX - 1, parts)? {
            NextKey::Owes(walked, key) => {
                self.run(key, parts.as_slice())?;
                Ok(walked + 1)
            }
            NextKey::Walked(count) => Ok(count),
            NextKey::Nothing => Ok(0),
        }
    }

    /// Takes up the next key: walks on from it as far as that goes, and makes the list the parts that the key to which this
    /// came owes as it stands ([`NextKey::Owes`]). What was in the list is gone then, and its room is used again. With
    /// [`Core::lower_owed`] for each part and [`Core::settle_owed`] behind the last one, unless a part lowered
    /// the key itself, that is to a run what a claim of the key, its parts and its end are (`WorksOff`).
    ///
    /// A walk goes on from a jump over the nodes behind its own, as long as one edge leads from each to the
    /// next and passes the fact on unchanged, and there is no jump between the facts at the next; to the end of a page of the
    /// image at most, and over at most so many nodes. To a run the key and those behind it, but for the last, are each
    /// claimed in turn, the one part is done, and the claim ended (`WalksOwed`).
    ///
    /// Refusal: `NoMemory`, which leaves the core as it was. Where memory is wanting for parts behind a walk, the walk stays, and
    /// is told ([`NextKey::Walked`]).
    #[inline(always)]
    pub fn next_key(&mut self, most: usize, parts: &mut PartList<P>) -> Result<NextKey, Refused>
        requires loaded { is_loaded self.old ≡ true }
        ensures takes { IfOk result (TakesUp P.F.edge P.targets most self.old self.new parts.new) }
        ensures refused { IsOkUnless result Refused.NoMemory }
        ensures unchanged { OnErr result (self.new ≡ self.old) }
    {
        let Some((key, function)) = self.image.unclaimed_entry() else {
            return Ok(NextKey::Nothing);
        };
        let (walked, key) = self.walk_owed(key, function, most)?;
        match self.fill(key, function, parts) {
            Ok(()) => Ok(NextKey::Owes(walked, key)),
            Err(refused) if walked == 0 => Err(refused),
            Err(_) => Ok(NextKey::Walked(walked)),
        }
    }

    /// Makes the list the parts that a pending key owes now.
    #[inline(always)]
    fn fill(&self, key: Key, function: P::F, parts: &mut PartList<P>) -> Result<(), Refused>
        requires loaded { is_loaded self.now ≡ true }
        requires pending { is_pending self.now.pile key ≡ true }
        requires function { found self.now.table key ≡ Some function }
        ensures parts { OnOk result (OwesParts P.F.edge P.targets self.now key parts.new) }
        ensures inside { OnOk result (AreInside self.now parts.new) }
        ensures refused { IsOkUnless result Refused.NoMemory }
    {
        match &self.loaded {
            Some(loaded) => fill_parts(self.alloc, loaded, &self.image, key, function, parts),
            None => unreachable!(),
        }
    }

    /// Makes a pending key, which no hand has claimed, pending no longer.
    ///
    /// Refusal: `NoMemory`, which never comes where nobody asked for changes.
    #[inline(always)]
    pub fn settle_owed(&mut self, key: Key) -> Result<(), Refused>
        requires unclaimed { is_claimed self.old.pile key ≡ false }
        requires pending { is_pending self.old.pile key ≡ true }
        ensures refused { IsOkUnless result Refused.NoMemory }
        ensures nobody { self.old.changes ≡ None → IsOk result }
        ensures settled { OnOk result (IsTakenOut key self.old.pile self.new.pile) }
        ensures claims { self.new.pile.claims ≡ self.old.pile.claims }
        ensures table { self.new.table ≡ self.old.table }
        ensures stays { IsSameProblem self.old self.new }
        ensures notes { OnOk result (Notes self.old self.new (Some key)) }
        ensures remembers { Remembers self.old self.new }
        ensures unchanged { OnErr result (self.new ≡ self.old) }
    {
        self.image.settle(key)?;
        Ok(())
    }

    /// Does the parts that a pending key owes, and takes it out of the pending ones, unless one of them
    /// lowered the key itself. To a run this is a claim by hand 0, its parts and its end: no hand can see
    /// the core in between, so that the claim and its task need not be made.
    ///
    /// Refusal: `NoMemory` keeps the parts done before it; to a run hand 0 gave its claim back then.
    fn run(&mut self, key: Key, parts: &[(Key, P::F)]) -> Result<(), Refused>
        requires free { IsFree self.old.pile }
        requires pending { is_pending self.old.pile key ≡ true }
        requires inside { AreInside self.old parts.now }
        requires owed { OwesParts P.F.edge P.targets self.old key parts.now }
        ensures refused { IsOkUnless result Refused.NoMemory }
        ensures falls { OnOk result (HasLess P.F.edge self.old self.new) }
        ensures free { IsFree self.new.pile }
        ensures claims { OnOk result (GoesOnPaid P.L.algebra P.F.edge P.targets 1 self.old self.new) }
        ensures goes { GoesOn P.L.algebra P.F.edge P.targets 0 self.old self.new }
        ensures remembers { Remembers self.old self.new }
    {
        calls_are_steps::<P>();
        let is_lowered = self.do_parts(key, parts)?;
        if !is_lowered {
            self.settle_owed(key)?;
        }
        Ok(())
    }

    /// Does the parts, and answers whether one of them lowered the key itself.
    fn do_parts(&mut self, key: Key, parts: &[(Key, P::F)]) -> Result<bool, Refused>
        requires free { IsFree self.old.pile }
        requires pending { is_pending self.old.pile key ≡ true }
        requires inside { AreInside self.old parts.now }
        ensures refused { IsOkUnless result Refused.NoMemory }
        ensures all { IfOk result (DoesAll P.L.algebra P.F.edge P.targets 0 key parts.now self.old self.new) }
        ensures some { DoesSome P.L.algebra P.F.edge P.targets 0 key parts.now self.old self.new }
        ensures free { IsFree self.new.pile }
        ensures pending { is_pending self.new.pile key ≡ true }
        ensures stays { IsSameProblem self.old self.new }
        ensures remembers { Remembers self.old self.new }
    {
        let mut is_lowered = false;
        for part in parts {
            let change = self.lower_owed(part.0, part.1)?;
            is_lowered = is_lowered_too(is_lowered, change, part.0, key);
        }
        Ok(is_lowered)
    }
}

/// Makes the list the parts that a key owes, at the site of its node and with the partners that are
/// present now. Most keys are jumps at nodes that are neither calls nor exits: these have no partners.
#[inline(always)]
fn fill_parts<P: Problem>(
    alloc: Global,
    loaded: &Loaded<P>,
    image: &KeyedImage<P::F, Task<P>>,
    key: Key,
    function: P::F,
    parts: &mut PartList<P>,
) -> Result<(), Refused>
    requires place { StandsIn loaded.now.graph key }
    requires function { found image.now.table key ≡ Some function }
    ensures parts { OnOk result (ListsParts P.F.edge P.targets loaded.now image.now.table key parts.new) }
    ensures inside { OnOk result (AllStandIn loaded.now.graph parts.new) }
    ensures refused { IsOkUnless result Refused.NoMemory }
{
    let node = key.node();
    let site = loaded.graph.site(node);
    if parts.fill_alone(key, function, site)? {
        return Ok(());
    }
    fill_from_partners(alloc, loaded, image, key, function, parts)
}

/// Makes the list the parts that a key owes, whatever stands at its node. The partners stand in lists that the list of
/// parts keeps for the next key; where one is refused, their room is given up. It is not inlined, so that keys which have
/// no partners do without its frame.
#[inline(never)]
fn fill_from_partners<P: Problem>(
    alloc: Global,
    loaded: &Loaded<P>,
    image: &KeyedImage<P::F, Task<P>>,
    key: Key,
    function: P::F,
    parts: &mut PartList<P>,
) -> Result<(), Refused>
    requires place { StandsIn loaded.now.graph key }
    requires function { found image.now.table key ≡ Some function }
    ensures parts { OnOk result (ListsParts P.F.edge P.targets loaded.now image.now.table key parts.new) }
    ensures inside { OnOk result (AllStandIn loaded.now.graph parts.new) }
    ensures refused { IsOkUnless result Refused.NoMemory }
{
    let node = key.node();
    let site = loaded.graph.site(node);
    let procedure = loaded.graph.procedure_of(node);
    let mut partners = parts.take_partners(alloc);
    fill_partners(loaded, image, key, procedure, site, &mut partners)?;
    parts.fill_from(key, function, site, partners)?;
    Ok(())
}

/// Whether a key that is drained was lowered itself, by a part of before or by this one.
pub fn is_lowered_too(is_lowered: bool, change: Change, part: Key, key: Key) -> bool
    ensures lowered { change ≡ Change.Lowered → result ≡ (same_key key part || is_lowered) }
    ensures same { change ≡ Change.Same → result ≡ is_lowered }
{
    is_lowered || (change == Change::Lowered && key == part)
}
