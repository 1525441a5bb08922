//! What was sealed is stored: disk calls, one after the other, until none is left to make.
ghost use Rattle.std.specs.Prelude.{◌≡◌, true, Err, OnOk};

use crate::engine::SlotEngine;
use ide_disk::Disk;
use ide_problem::Problem;
use ide_store::Kept;
use ide_wire::Refused;

/// The most disk calls for all that was sealed: more than a store has room for.
const MOST_CALLS: u64 = u64::MAX;

impl<P: Problem, D: Disk> SlotEngine<P, D> {
    ghost use Rattle.ide_slot_journal.specs.Stands.{IsFilling};
    ghost use Rattle.ide_slot_store.specs.Engine.{HasHonestDisks};
    ghost use Rattle.ide_slot_store.specs.Half.{FailsNone};
    ghost use Rattle.ide_slot_store.specs.Storing.{StoresEngine};

    /// Makes disk calls until all that was sealed is stored, and a checkpoint that is planned made, or one
    /// is refused.
    ///
    /// Refusals: those of [`SlotEngine::disk_step`]; `Limit`, after more calls than a store has room for.
    pub fn store_all(&mut self) -> Result<(), Refused>
        ensures stored { OnOk result (StoresEngine ⟦<P as Kept>⟧.analysis self.old self.new) }
        ensures rests { OnOk result (IsFilling self.new.writer.journal → ⊥) }
        ensures honest { HasHonestDisks self.old → HasHonestDisks self.new }
        ensures fails { result ≡ Err Refused.Disk → self.new.table.failed ≡ true }
    {
        for _ in 0..MOST_CALLS {
            if !self.disk_step()? {
                return Ok(());
            }
        }
        Err(Refused::Limit)
    }
}
