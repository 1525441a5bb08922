//! Parts: a hand gives what its task owes to the tables, one part a call.
ghost use Rattle.ide_image.specs.Worklist.{claim_at};
ghost use Rattle.ide_steps.specs.Drain.{HasDonePart, HasLess, HasNoMore, IsPartPaid, IsStill};
ghost use Rattle.std.specs.Prelude.{◌≡◌, ℕ, ◌<◌, ◌+◌, ◌-◌, ◌↔◌, None, Ok, Err, IfErr, IfOk, OnErr, OnOk, length, min, IsTrue, IsOkUnless};
ghost use Rattle.ide_tasks.specs.Parts.{owed};
ghost use Rattle.ide_steps.specs.PartRefusal.{IsPartRefusal};
ghost use Rattle.ide_steps.specs.Steps.{CountsParts, DoesNext, DoesOwn, DoesParts, FindsNone, IsClaimOfWork, IsCurrent, IsWorkInside, KeepTasks, KeepsWork, LowersOwn, LowersPart, SkipsOwn, SkipsPart, WhereAllDone};
ghost use Rattle.ide_steps.specs.Changed.{NotesPart, Remembers};
ghost use Rattle.ide_steps.specs.Core.{AreInside, IsSameProblem, IsUnchanged};

use crate::machine::Core;
use ide_image::Change;
use ide_problem::Problem;
use ide_tasks::Work;
use ide_wire::Refused;

/// What a part did.
#[derive(Clone, Copy, PartialEq, Eq, Debug)]
pub enum Parted {
    /// The part lowered its entry, whose key is pending now.
    Lowered,
    /// The entry was below the part already.
    Same,
    /// All parts are done; nothing changed.
    NoPart,
}

impl<P: Problem> Core<P> {
    /// Does the next part of the hand's work.
    ///
    /// Refusals, in this order: `Stale` exactly where the hand has no claim, or the work's task or
    /// count of parts done is not the claim's; `NoMemory`, which comes only where a part is left.
    /// Telling whether the work is the claim's takes time in proportion to its site and partners.
    pub fn part(&mut self, hand: usize, work: &mut Work<P>) -> Result<Parted, Refused>
        ensures refused { IfErr result (IsPartRefusal P.F.edge P.targets self.old hand work.old) }
        ensures current { OnOk result (IsCurrent P.F.edge P.targets self.old hand work.old) }
        ensures no_part { result ≡ Ok Parted.NoPart → FindsNone self.old self.new work.old work.new }
        ensures all_done { WhereAllDone hand self.old work.old (result ≡ Ok Parted.NoPart) }
        ensures lowered { result ≡ Ok Parted.Lowered → LowersPart P.F.edge P.targets hand self.old self.new work.old work.new }
        ensures same { result ≡ Ok Parted.Same → SkipsPart P.F.edge P.targets hand self.old self.new work.old work.new }
        ensures tasks { OnOk result (KeepTasks hand work.new.done self.old.pile self.new.pile) }
        ensures notes { result ≡ Ok Parted.Lowered → NotesPart work.old self.old self.new }
        ensures notes_none { result ≡ Ok Parted.Same → self.new.changes ≡ self.old.changes }
        ensures remembers { Remembers self.old self.new }
        ensures stays { IsSameProblem self.old self.new }
        ensures unchanged { OnErr result (IsUnchanged self.old self.new × (work.new ≡ work.old)) }
    {
        if !self.is_current(hand, work) {
            return Err(Refused::Stale);
        }
        self.parts_are_inside(hand);
        self.next_part(hand, work)
    }

    /// Does up to `most` of the next parts of the hand's work, one after the other, and answers how
    /// many: fewer than `most` only where no part is left then.
    ///
    /// Refusals: as of [`Core::part`]; `NoMemory` keeps the parts before the one that wanted memory,
    /// and the work counts them. Whether the work is the claim's is told once for all of these parts:
    /// that takes time in proportion to its site and partners once, and then that of each part.
    pub fn parts(&mut self, hand: usize, work: &mut Work<P>, most: usize) -> Result<usize, Refused>
        ensures refused { IfErr result (IsPartRefusal P.F.edge P.targets self.old hand work.old) }
        ensures current { OnOk result (IsCurrent P.F.edge P.targets self.old hand work.old) }
        ensures count { IfOk result (λ n. n ≡ min most (length work.old.parts - work.old.done)) }
        ensures done { IfOk result (λ n. work.new ≡ record work.old { done = work.old.done + n }) }
        ensures parts { DoesParts P.F.edge P.targets hand self.old self.new work.old work.new }
        ensures kept { (work.new.task ≡ work.old.task) × (work.new.parts ≡ work.old.parts) }
        ensures tasks { CountsParts hand self.old self.new work.old work.new }
        ensures remembers { Remembers self.old self.new }
        ensures stays { IsSameProblem self.old self.new }
        ensures free { (h : ℕ) → claim_at self.old.pile h ≡ None → claim_at self.new.pile h ≡ None }
        ensures unchanged { result ≡ Err Refused.Stale → (self.new ≡ self.old) × (work.new ≡ work.old) }
    {
        if self.is_current(hand, work) {
            self.parts_are_inside(hand);
            self.next_parts(hand, work, most)
        } else {
            Err(Refused::Stale)
        }
    }

    /// Whether the work is the hand's claim as it stands: its task, with as many parts done. It
    /// takes time in proportion to the site and the partners of the task.
    pub fn is_current(&self, hand: usize, work: &Work<P>) -> bool
        ensures current { IsTrue result ↔ IsClaimOfWork work.now (claim_at self.now.pile hand) }
        ensures owed { IsTrue result → work.now.parts ≡ owed P.F.edge P.targets work.now.task }
    {
        match self.image.claim(hand) {
            Some(claim) => claim.done == work.done() && claim.task.is_same(work.task()),
            None => false,
        }
    }

    /// It does nothing: its clause is what is known of the parts of work that is the hand's claim.
    pub(crate) fn parts_are_inside(&self, hand: usize)
        ensures { IsWorkInside P.F.edge P.targets self.now hand }
    {
        let _ = self.image.claim(hand);
    }

    /// Does the next part of work that is the hand's claim.
    pub(crate) fn next_part(&mut self, hand: usize, work: &mut Work<P>) -> Result<Parted, Refused>
        requires { AreInside self.old work.old.parts }
        ensures falls { result ≡ Ok Parted.Lowered → HasLess P.F.edge self.old self.new }
        ensures still { result ≡ Ok Parted.Same → IsStill P.F.edge hand self.old self.new }
        ensures paid { IfOk result (IsPartPaid P.F.edge hand self.old self.new) }
        ensures free { (h : ℕ) → claim_at self.old.pile h ≡ None → claim_at self.new.pile h ≡ None }
        ensures next { HasDonePart result → DoesNext work.old work.new }
        ensures refused { IsOkUnless result Refused.NoMemory }
        ensures left { OnErr result (work.old.done < length work.old.parts) }
        ensures no_part { result ≡ Ok Parted.NoPart → FindsNone self.old self.new work.old work.new }
        ensures all_done { work.old.done ≡ length work.old.parts → result ≡ Ok Parted.NoPart }
        ensures lowered { result ≡ Ok Parted.Lowered → LowersOwn P.F.edge P.targets hand self.old self.new work.old work.new }
        ensures same { result ≡ Ok Parted.Same → SkipsOwn P.F.edge P.targets hand self.old self.new work.old work.new }
        ensures progress { OnOk result (KeepsWork hand self.old self.new work.old work.new) }
        ensures tasks { HasDonePart result → KeepTasks hand work.new.done self.old.pile self.new.pile }
        ensures notes { result ≡ Ok Parted.Lowered → NotesPart work.old self.old self.new }
        ensures notes_none { result ≡ Ok Parted.Same → self.new.changes ≡ self.old.changes }
        ensures remembers { Remembers self.old self.new }
        ensures stays { IsSameProblem self.old self.new }
        ensures unchanged { OnErr result (IsUnchanged self.old self.new × (work.new ≡ work.old)) }
    {
        let Some(part) = work.next() else {
            return Ok(Parted::NoPart);
        };
        let change = self.lower_owed(part.0, part.1)?;
        work.advance();
        self.image.set_done(hand, work.done());
        match change {
            Change::Lowered => Ok(Parted::Lowered),
            Change::Same => Ok(Parted::Same),
        }
    }

    /// Does up to `most` of the next parts of work that is the hand's claim, and counts them.
    fn next_parts(&mut self, hand: usize, work: &mut Work<P>, most: usize) -> Result<usize, Refused>
        requires { AreInside self.old work.old.parts }
        ensures refused { IsOkUnless result Refused.NoMemory }
        ensures left { OnErr result (work.old.done < length work.old.parts) }
        ensures count { IfOk result (λ n. n ≡ min most (length work.old.parts - work.old.done)) }
        ensures done { IfOk result (λ n. work.new ≡ record work.old { done = work.old.done + n }) }
        ensures parts { DoesOwn P.F.edge P.targets hand self.old self.new work.old work.new }
        ensures kept { (work.new.task ≡ work.old.task) × (work.new.parts ≡ work.old.parts) }
        ensures remembers { Remembers self.old self.new }
        ensures tasks { CountsParts hand self.old self.new work.old work.new }
        ensures stays { IsSameProblem self.old self.new }
        ensures free { (h : ℕ) → claim_at self.old.pile h ≡ None → claim_at self.new.pile h ≡ None }
    {
        for count in 0..most {
            if self.next_part(hand, work)? == Parted::NoPart {
                return Ok(count);
            }
        }
        Ok(most)
    }
}
