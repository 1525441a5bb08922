//! A hand that drains: in one hold of the table's lock it does as many keys as its gate lets it do unasked. Nobody can see
//! the table meanwhile, so that no key is claimed.
ghost use Rattle.std.specs.Prelude.{◌≡◌, ◌↔◌, [], Ok, Some, IfErr, IfOk, IsTrue, OnOk};
ghost use Rattle.ide_image.specs.Worklist.{IsFree};
ghost use Rattle.ide_store.specs.Acting.{BeginsAnew};
ghost use Rattle.ide_service.specs.Holds.{FindsClaim, IfDrained, IsHoldRefusal};
ghost use Rattle.ide_service.specs.declared.draining.Hold.{Hold};
ghost use Rattle.ide_service.specs.declared.hands.Point.{Point};

use crate::hands::{Ended, Gate, Point, is_full};
use crate::service::Service;
use ide_desks::{Accord, TableDesk};
use ide_disk::Disk;
use ide_problem::Problem;
use ide_store::Kept;
use ide_wire::Refused;
use std::sync::Wait;
use std::time::Clock;

/// How a hold of the lock ended in which a hand wanted to drain.
#[derive(Clone, Copy, PartialEq, Eq, Debug)]
pub(crate) enum Hold {
    /// No key is pending.
    Quiet,
    /// As many keys were done as it may do unasked, or a batch was full and is sealed.
    Drained,
    /// Nothing was done: a hand has a claim.
    Claimed,
}

impl<P: Problem, D: Disk, J: Accord> Service<P, D, J> {
    /// Drains, in each hold of the table's lock as many keys as the gate lets a hand do unasked, until no key is pending or the
    /// gate stops it. Answers nothing where it finds that a hand has a claim: then each hand has to claim its keys.
    ///
    /// Refusals, in this order: `Failed`; `NoProgram`; `NoMemory`, and `Limit` as of a seal.
    pub(crate) fn drain_in_holds<R: Wait + Clock, G: Gate>(
        &self,
        rt: &R,
        gate: &G,
    ) -> Result<Option<Ended>, Refused>
        ensures stopped { result ≡ Ok (Some Ended.Stopped) → (point : Point) × G.may_stop gate.now point }
        ensures refused { IfErr result (IsHoldRefusal ⟦<P as Kept>⟧.analysis) }
    {
        let most = gate.ahead();
        for _ in rt.forever() {
            match drain_held(&mut *self.table_for(rt, most), most) {
                Ok(Hold::Quiet) => return Ok(Some(Ended::Quiet)),
                Ok(Hold::Claimed) => return Ok(None),
                Ok(Hold::Drained) => {
                    if !gate.pass(Point::Drained) {
                        return Ok(Some(Ended::Stopped));
                    }
                }
                Err(refused) => return Err(refused),
            }
        }
        unreachable!()
    }
}

/// Does up to so many keys in one hold of the lock, and seals a batch that is full.
fn drain_held<P: Problem, J: Accord>(
    table: &mut TableDesk<P, J>,
    most: usize,
) -> Result<Hold, Refused>
    ensures quiet { result ≡ Ok Hold.Quiet → table.new.half.core.pile.pending ≡ [] }
    ensures drained { IfDrained ⟦<P as Kept>⟧.analysis most result table.old.half table.new.half }
    ensures claimed { result ≡ Ok Hold.Claimed → ¬ (IsFree table.old.half.core.pile) }
    ensures unchanged { result ≡ Ok Hold.Claimed → table.new.half ≡ table.old.half }
    ensures refused { IfErr result (IsHoldRefusal ⟦<P as Kept>⟧.analysis) }
{
    match table.drain_some(most) {
        Ok(count) if count < most => Ok(Hold::Quiet),
        Ok(_) => Ok(Hold::Drained),
        Err(refused) => {
            if is_full(refused) {
                return seal_full(table);
            }
            if finds_claim(refused) {
                return Ok(Hold::Claimed);
            }
            Err(refused)
        }
    }
}

/// Seals a batch that is full.
fn seal_full<P: Problem, J: Accord>(table: &mut TableDesk<P, J>) -> Result<Hold, Refused>
    ensures says { IfOk result (λ hold. hold ≡ Hold.Drained) }
    ensures seals { OnOk result (BeginsAnew table.old.half.core table.new.half.core) }
    ensures refused { IfErr result (IsHoldRefusal ⟦<P as Kept>⟧.analysis) }
{
    match table.seal() {
        Ok(_) => Ok(Hold::Drained),
        Err(refused) => Err(refused),
    }
}

/// Whether a drain was refused since a hand has a claim.
fn finds_claim(refused: Refused) -> bool
    ensures { IsTrue result ↔ FindsClaim refused }
{
    matches!(refused, Refused::Busy | Refused::Unfinished)
}
