//! All that is left, by one hand: each batch is stored as it is full.
ghost use Rattle.std.specs.Prelude.{IfOk, OnOk};
ghost use Rattle.ide_slot_store.specs.Working.{FillsBatch};

use crate::engine::SlotEngine;
use ide_disk::Disk;
use ide_problem::Problem;
use ide_store::{Kept, TableHalf};
use ide_wire::Refused;

/// The most batches of one run: more than a store has room for.
const MOST_BATCHES: u64 = u64::MAX;

impl<P: Problem, D: Disk> SlotEngine<P, D> {
    ghost use Rattle.ide_slot_store.specs.Engine.{HasHonestDisks};
    ghost use Rattle.ide_slot_store.specs.Working.{DoesBatch, WorksAll};

    /// Does all that is pending, by one hand, and stores it. A batch that is full is sealed and stored before the next
    /// keys: so one waits in memory at most, and a crash takes no more than one away.
    ///
    /// Refusals: those of [`TableHalf::drain_some`] but for `Limit`, then those of [`TableHalf::seal`] and of
    /// [`SlotEngine::store_all`]; what was done before is kept.
    pub fn work_off(&mut self) -> Result<(), Refused>
        ensures works { OnOk result (WorksAll ⟦<P as Kept>⟧.analysis self.old self.new) }
        ensures honest { HasHonestDisks self.old → HasHonestDisks self.new }
    {
        for _ in 0..MOST_BATCHES {
            if self.work_batch()? {
                return Ok(());
            }
        }
        Err(Refused::Limit)
    }

    /// Does keys until a batch is full or none is pending, seals what changed and stores it. Answers whether none is pending.
    fn work_batch(&mut self) -> Result<bool, Refused>
        ensures batch { IfOk result (DoesBatch ⟦<P as Kept>⟧.analysis self.old self.new) }
        ensures honest { HasHonestDisks self.old → HasHonestDisks self.new }
    {
        let is_quiet = fill_batch(&mut self.table)?;
        let _ = self.table.seal()?;
        self.store_all()?;
        Ok(is_quiet)
    }
}

/// Does keys until a batch is full or none is pending, and answers whether none is.
fn fill_batch<P: Problem>(table: &mut TableHalf<P>) -> Result<bool, Refused>
    ensures { IfOk result (FillsBatch ⟦<P as Kept>⟧.analysis table.old table.new) }
{
    match table.drain_some(usize::MAX) {
        Ok(count) => Ok(count < usize::MAX),
        Err(Refused::Limit) => Ok(false),
        Err(refused) => Err(refused),
    }
}
