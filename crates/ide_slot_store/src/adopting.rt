//! A store on one disk, which goes on as one on two.
ghost use Rattle.std.specs.Prelude.{◌≡◌, ◌⊎◌, IfErr, OnOk};

use crate::engine::SlotEngine;
use ide_disk::Disk;
use ide_problem::Problem;
use ide_slot_journal::put_closed;
use ide_store::Kept;
use ide_wire::Refused;
use std::alloc::Global;

impl<P: Problem, D: Disk> SlotEngine<P, D> {
    ghost use Rattle.ide_disk.specs.OneCall.{FailsOnce};
    ghost use Rattle.ide_slot_journal.specs.Adopting.{HasCheckpoint};
    ghost use Rattle.ide_slot_journal.specs.OneDisk.{FailsNoCall};
    ghost use Rattle.ide_slot_store.specs.Adopting.{AdoptsEngine, RefusesAdopting};
    ghost use Rattle.ide_slot_store.specs.Engine.{engine_sides_after};

    /// Adopts the store of this analysis that the disk A alone holds: a closed slot is put on B, in the place
    /// of what that held, and the store, of either version, is opened, as by [`SlotEngine::open`]. It goes on
    /// with the run that A was left by: its image is the fold of the records of A, all of them acknowledged. A
    /// crash meanwhile leaves A as it was: B is emptied then, and the store adopted again.
    ///
    /// Refusals: `Already`, where B has an open slot of generation 1 or more, whose first page is valid, and
    /// nothing is changed; `NoMemory` and `Disk`, of B; those of [`SlotEngine::open`]. The disks come back.
    pub fn adopt(alloc: Global, a: D, mut b: D) -> Result<Self, (Refused, D, D)>
        ensures adopts { AdoptsEngine ⟦<P as Kept>⟧.analysis P.TAG a b result }
        ensures none { D.honest b → OnOk result (HasCheckpoint (D.state b).now → ⊥) }
        ensures first_honest { D.honest a → D.honest b → D.honest (engine_sides_after result).a }
        ensures second_honest { D.honest a → D.honest b → D.honest (engine_sides_after result).b }
        ensures refused { RefusesAdopting ⟦<P as Kept>⟧.analysis P.TAG a b result }
        ensures first_failures { OnOk result (FailsNoCall D.Disk a (engine_sides_after result).a) }
        ensures second_failures { OnOk result (FailsNoCall D.Disk b (engine_sides_after result).b) }
    {
        match put_closed(alloc, &mut b, P::TAG) {
            Ok(()) => SlotEngine::open(alloc, a, b),
            Err(refused) => Err((refused, a, b)),
        }
    }
}
