//! The one that writes: it seals what hands did, takes over what is sealed, and stores it.
ghost use Rattle.std.specs.Prelude.{◌≡◌, false, Ok, IfErr};
ghost use Rattle.ide_service.specs.Storing.{IsCommitRefusal};
ghost use Rattle.ide_service.specs.declared.hands.Point.{Point};

use crate::hands::{Ended, Gate};
use crate::service::Service;
use crate::storing::store_all;
use ide_desks::{Accord, TableDesk, WriterDesk};
use ide_disk::Disk;
use ide_problem::Problem;
use ide_wire::Refused;
use std::sync::Wait;
use std::thread;
use std::time::{Clock, Duration};

/// How many milliseconds a committer sleeps before it looks whether stop was raised.
const NAP: u64 = 2;
/// How often it does so between two seals: as much work may be lost where the process is killed.
const NAPS: u32 = 50;

impl<P: Problem, D: Disk, J: Accord> Service<P, D, J> {
    /// Seals what changed and stores what was sealed, again and again, until stop is raised and nothing is left to
    /// seal or to store, or until the gate stops it. While a disk call is made hands go on: their lock is held for
    /// the seal alone, and for the copy of the image where enough records are stored past the last checkpoint, so
    /// that a round makes one; what memory is wanting for is left to a later round. Where it is refused it raises
    /// stop, and behind a failed disk call no hand goes on either.
    ///
    /// Refusals: `Failed`; `Limit`, as of a seal; `NoMemory`; `Disk`, after which each call is refused.
    pub fn commit<R: Wait + Clock, G: Gate>(&self, rt: &R, gate: &G) -> Result<Ended, Refused>
        ensures stopped { result ≡ Ok Ended.Stopped → (point : Point) × G.may_stop gate.now point }
        ensures refused { J.told → IfErr result (λ why. ∥ IsCommitRefusal why ∥₁) }
    {
        let ended = self.commit_rounds(rt, gate);
        if let Err(refused) = ended {
            self.end_refused(rt, refused);
        }
        ended
    }

    /// Seals and stores until stop was raised before a round began.
    fn commit_rounds<R: Wait + Clock, G: Gate>(&self, rt: &R, gate: &G) -> Result<Ended, Refused>
        ensures stopped { result ≡ Ok Ended.Stopped → (point : Point) × G.may_stop gate.now point }
        ensures refused { J.told → IfErr result (λ why. ∥ IsCommitRefusal why ∥₁) }
    {
        for _ in rt.forever() {
            let last = self.stopped();
            match self.commit_round(rt, gate) {
                Ok(true) => {
                    if last {
                        return Ok(Ended::Quiet);
                    }
                }
                Ok(false) => return Ok(Ended::Stopped),
                Err(refused) => return Err(refused),
            }
            self.wait_for_stop(rt);
        }
        unreachable!()
    }

    /// Stores what an earlier round left, and then all that is sealed: false where the gate stopped it.
    fn commit_round<R: Wait, G: Gate>(&self, rt: &R, gate: &G) -> Result<bool, Refused>
        ensures stopped { result ≡ Ok false → (point : Point) × G.may_stop gate.now point }
        ensures refused { J.told → IfErr result (λ why. ∥ IsCommitRefusal why ∥₁) }
    {
        let mut writer = self.writer(rt);
        match store_all(rt, &mut *writer, gate) {
            Ok(true) => {}
            Ok(false) => return Ok(false),
            Err(refused) => return Err(refused),
        }
        if let Err(refused) = self.take_over(rt, &mut *writer) {
            return Err(refused);
        }
        store_all(rt, &mut *writer, gate)
    }

    /// Seals what changed, and has the writer take over all that is sealed, by one hold of the table's lock.
    fn take_over<R: Wait>(&self, rt: &R, writer: &mut WriterDesk<P, D, J>) -> Result<(), Refused>
        ensures { IfErr result IsCommitRefusal }
    {
        let mut table = self.table(rt);
        if let Err(refused) = table.seal() {
            return Err(refused);
        }
        if let Err(refused) = self.checkpoint_if_due(&mut *table, writer) {
            return Err(refused);
        }
        let _ = table.hand_over(writer);
        Ok(())
    }

    /// Begins a checkpoint, where enough records are stored past the last one. Where memory is wanting for it, or it
    /// has no room, the run goes on without it, and it is asked for again.
    fn checkpoint_if_due(
        &self,
        table: &mut TableDesk<P, J>,
        writer: &mut WriterDesk<P, D, J>,
    ) -> Result<(), Refused>
        ensures { IfErr result (λ why. why ≡ Refused.Failed) }
    {
        if writer.stored_past_checkpoint() < u64::from(self.checkpoint_every()) {
            return Ok(());
        }
        match table.checkpoint(self.alloc(), writer) {
            Err(Refused::Failed) => Err(Refused::Failed),
            _ => Ok(()),
        }
    }

    /// Behind a failed disk call no hand goes on; and whatever refused the committer, stop is raised.
    fn end_refused<R: Wait>(&self, rt: &R, refused: Refused) {
        if matches!(refused, Refused::Disk) {
            self.table(rt).stop();
        }
        self.raise_stop();
    }

    /// Waits until stop is raised, or a while.
    fn wait_for_stop<R: Clock>(&self, rt: &R) {
        for _ in 0..NAPS {
            if self.stopped() {
                return;
            }
            thread::sleep(rt, Duration::from_millis(NAP));
        }
    }
}
