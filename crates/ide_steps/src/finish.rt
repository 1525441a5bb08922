//! The end of a claim: finished or released.
ghost use Rattle.std.specs.Prelude.{◌≡◌, ◌≢◌, [], filter, ◌↔◌, None, Err, IfErr, IsOk, OnErr, OnOk, length, IsOkUnless};
ghost use Rattle.std.specs.Option.{is_some};
ghost use Rattle.ide_image.specs.Notes.{ended_key};
ghost use Rattle.ide_image.specs.Worklist.{PutsClaim, claim_at};
ghost use Rattle.ide_steps.specs.Changed.{Notes, Remembers};
ghost use Rattle.ide_steps.specs.Core.{IsSameProblem};
ghost use Rattle.ide_steps.specs.Drain.{TakesOut};
ghost use Rattle.ide_steps.specs.PartRefusal.{IsFinishRefusal};
ghost use Rattle.ide_steps.specs.Steps.{EndsDone, EndsHeld, GivesAllBack, GivesBack, IsCurrent};

use crate::machine::Core;
use ide_problem::Problem;
use ide_tasks::Work;
use ide_wire::Refused;

impl<P: Problem> Core<P> {
    /// Ends the hand's claim with all its parts done: the key is no longer pending, unless it was
    /// lowered since the claim. It takes memory only where changes are noted.
    ///
    /// Refusals, in this order: `Stale` where the work is not the hand's claim as it stands, or parts
    /// are left; `NoMemory`, which never comes where nobody asked for changes.
    pub fn finish(&mut self, hand: usize, work: &Work<P>) -> Result<(), Refused>
        ensures refused { IfErr result (IsFinishRefusal P.F.edge P.targets self.old hand work.now) }
        ensures nobody { self.old.changes ≡ None → result ≢ Err Refused.NoMemory }
        ensures notes { OnOk result (Notes self.old self.new (ended_key (claim_at self.old.pile hand))) }
        ensures remembers { Remembers self.old self.new }
        ensures current { OnOk result (IsCurrent P.F.edge P.targets self.old hand work.now) }
        ensures finished { OnOk result (EndsDone P.F.edge P.targets hand self.old self.new) }
        ensures claims { OnOk result (PutsClaim hand None self.old.pile self.new.pile) }
        ensures count { OnOk result (TakesOut hand self.old.pile self.new.pile) }
        ensures stays { IsSameProblem self.old self.new }
        ensures table { self.new.table ≡ self.old.table }
        ensures unchanged { OnErr result (self.new ≡ self.old) }
    {
        if !self.is_current(hand, work) {
            return Err(Refused::Stale);
        }
        if work.next().is_some() {
            return Err(Refused::Stale);
        }
        self.end_claim(hand)?;
        Ok(())
    }

    /// Ends the hand's claim, and notes the entry of the key that this takes out.
    pub(crate) fn end_claim(&mut self, hand: usize) -> Result<(), Refused>
        ensures finished { OnOk result (EndsHeld P.F.edge P.targets hand self.old self.new) }
        ensures notes { OnOk result (Notes self.old self.new (ended_key (claim_at self.old.pile hand))) }
        ensures remembers { Remembers self.old self.new }
        ensures refused { IsOkUnless result Refused.NoMemory }
        ensures nobody { self.old.changes ≡ None → IsOk result }
        ensures unchanged { OnErr result (self.new ≡ self.old) }
        ensures stays { IsSameProblem self.old self.new }
        ensures table { self.new.table ≡ self.old.table }
        ensures claims { OnOk result (PutsClaim hand None self.old.pile self.new.pile) }
        ensures count { OnOk result (TakesOut hand self.old.pile self.new.pile) }
    {
        self.image.finish(hand)?;
        Ok(())
    }

    /// Gives the hand's claim back: the key is pending for any hand, and parts that were done
    /// stay done. It takes no memory.
    ///
    /// Refusal: `Stale` where the hand has no claim.
    pub fn release(&mut self, hand: usize) -> Result<(), Refused>
        ensures stale { (result ≡ Err Refused.Stale) ↔ (claim_at self.old.pile hand ≡ None) }
        ensures refused { IsOkUnless result Refused.Stale }
        ensures released { GivesBack P.F.edge P.targets hand self.old self.new }
        ensures claim { claim_at self.new.pile hand ≡ None }
        ensures claims { PutsClaim hand None self.old.pile self.new.pile }
        ensures stays { IsSameProblem self.old self.new }
        ensures table { self.new.table ≡ self.old.table }
        ensures pending { self.new.pile.pending ≡ self.old.pile.pending }
        ensures changes { self.new.changes ≡ self.old.changes }
    {
        match self.image.release(hand) {
            Some(_) => Ok(()),
            None => Err(Refused::Stale),
        }
    }

    /// Gives every claim back, and answers how many there were. It takes no memory.
    pub fn release_all(&mut self) -> usize
        ensures count { result ≡ length (filter is_some self.old.pile.claims) }
        ensures claims { self.new.pile.claims ≡ [] }
        ensures stays { IsSameProblem self.old self.new }
        ensures table { self.new.table ≡ self.old.table }
        ensures pending { self.new.pile.pending ≡ self.old.pile.pending }
        ensures changes { self.new.changes ≡ self.old.changes }
        ensures state { GivesAllBack P.F.edge P.targets self.old self.new }
    {
        self.image.release_all()
    }
}
