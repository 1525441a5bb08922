//! A checkpoint of all that is sealed, which the engine is asked for.
ghost use Rattle.std.specs.Prelude.{◌≡◌, ◌↔◌, ◌<◌, [], true, Ok, Some, IfErr, IsTrue, OnErr, OnOk};
ghost use Rattle.ide_journal.specs.declared.version.Version.TheVariants.{Two};

use crate::engine::SlotEngine;
use crate::laws::slot_checkpoints_begin;
use crate::parts::image_parts;
use ide_disk::Disk;
use ide_journal::Version;
use ide_problem::Problem;
use ide_store::Kept;
use ide_wire::Refused;
use std::alloc::Global;

impl<P: Problem, D: Disk> SlotEngine<P, D> {
    ghost use Rattle.ide_slot_journal.specs.Stands.{IsCheckpointing};
    ghost use Rattle.ide_slot_store.specs.Asking.{AsksEngine, AsksInVain, CallsNoDisk, IsCheckpointStop, IsImageStop, IsSealAllStop, IsWorthAsking, PlansEngine, SealsEngine};
    ghost use Rattle.ide_slot_store.specs.Checkpoint.{ChangesVersion};
    ghost use Rattle.ide_slot_store.specs.Engine.{StaysFailed};

    /// Seals what changed, and begins a checkpoint of all that is sealed, by the image as it stands: once the
    /// records below it are stored, [`SlotEngine::disk_step`] makes its calls. Meanwhile the store goes on,
    /// and its records wait, spelled in the second version, as the slot has them that it turns to. False,
    /// where none begins: where one is under way, and nothing is done; where the current slot is of the second
    /// version and no sealed record stands at or past its base; or where no program is loaded.
    ///
    /// Refusals, in this order: `Failed`, where a call failed before; `Limit`, where the current slot is of
    /// generation 4,294,967,295; those of [`TableHalf::seal`]; `NoMemory`, `Limit` or `Failed`, where the
    /// image is not given in parts or the writer does not plan them: what changed is sealed then.
    ///
    /// [`TableHalf::seal`]: ide_store::TableHalf::seal
    pub fn checkpoint(&mut self, alloc: Global) -> Result<bool, Refused>
        ensures asks { AsksEngine ⟦<P as Kept>⟧.analysis self.old self.new result }
        ensures new { result ≡ Ok true → IsWorthAsking self.old self.new }
        ensures version { result ≡ Ok true → self.new.table.version ≡ Two }
        ensures disks { CallsNoDisk self.old self.new }
        ensures failed { StaysFailed result self.old self.new }
        ensures waits { AsksInVain result self.old self.new }
        ensures refused { IfErr result (IsCheckpointStop ⟦<P as Kept>⟧.analysis self.old self.new) }
    {
        if self.table.is_stopped() {
            return Err(Refused::Failed);
        }
        if self.writer.is_checkpointing() {
            return Ok(false);
        }
        if self.writer.generation() == u32::MAX {
            return Err(Refused::Limit);
        }
        if let Err(refused) = self.seal_all() {
            return Err(refused);
        }
        if !self.is_worth_a_checkpoint() {
            return Ok(false);
        }
        self.plan_image(alloc)
    }

    /// Whether a checkpoint would change what the disks hold: a sealed record stands at or past the base of
    /// the current slot, or that is of the first version.
    fn is_worth_a_checkpoint(&self) -> bool
        ensures { IsTrue result ↔ IsWorthAsking self.now self.now }
    {
        self.table.sealed() > u64::from(self.writer.base())
            || matches!(self.writer.version(), Version::One)
    }

    /// Seals what changed, and hands all that is sealed over to the writer.
    fn seal_all(&mut self) -> Result<(), Refused>
        ensures seals { SealsEngine ⟦<P as Kept>⟧.analysis self.old self.new }
        ensures handed { OnOk result (self.new.table.waiting ≡ []) }
        ensures still { OnOk result (self.new.table.core.changes ≡ Some []) }
        ensures journal { self.new.writer.journal ≡ self.old.writer.journal }
        ensures refused { IfErr result (IsSealAllStop ⟦<P as Kept>⟧.analysis self.old) }
    {
        match self.table.seal() {
            Ok(_) => self.writer.take_all_from(&mut self.table),
            Err(refused) => Err(refused),
        }
    }

    /// Plans a checkpoint of all that the writer has, by the image as it stands. Where one is planned, records are
    /// spelled in the second version from then on.
    fn plan_image(&mut self, alloc: Global) -> Result<bool, Refused>
        requires none { IsCheckpointing self.old.writer.journal → ⊥ }
        requires generation { self.old.writer.journal.generation < 4294967295 }
        requires handed { self.old.table.waiting ≡ [] }
        requires still { self.old.table.core.changes ≡ Some [] }
        ensures plans { PlansEngine ⟦<P as Kept>⟧.analysis self.old self.new result }
        ensures table { ChangesVersion self.old.table self.new.table }
        ensures version { result ≡ Ok true → self.new.table.version ≡ Two }
        ensures unchanged { OnErr result (self.new.table ≡ self.old.table) }
        ensures disks { CallsNoDisk self.old self.new }
        ensures refused { IfErr result (IsImageStop ⟦<P as Kept>⟧.analysis self.old) }
    {
        slot_checkpoints_begin::<P, D>();
        match image_parts(alloc, &self.table) {
            Ok(parts) => {
                let planned = self.writer.plan_all(alloc, parts.as_slice());
                if matches!(planned, Ok(true)) {
                    self.table.spell_in(Version::Two);
                }
                planned
            }
            Err(refused) => Err(refused),
        }
    }
}
