//! A checkpoint of all that is sealed, for which both desks are lent.
ghost use Rattle.std.specs.Prelude.{◌≡◌, ◌↔◌, ◌<◌, [], false, true, length, Err, Ok, Some, IfErr, IsTrue, OnErr, OnOk};
ghost use Rattle.ide_desks.specs.Asking.{BeginsCheckpoint, FindsNoCheckpoint, IsAskStop, IsPlanStop, SealsForNone};
ghost use Rattle.ide_desks.specs.Opened.{AreAgreed};
ghost use Rattle.ide_journal.specs.declared.version.Version.TheVariants.{Two};
ghost use Rattle.ide_slot_journal.specs.Stands.{IsCheckpointing, sides_of};
ghost use Rattle.ide_slot_store.specs.Asking.{IsWorthACheckpoint};
ghost use Rattle.ide_slot_store.specs.Checkpoint.{ChangesVersion};
ghost use Rattle.ide_slot_store.specs.Half.{HasNoCommand};

use crate::accord::Accord;
use crate::laws::{halves_meet, runs_are_live};
use crate::table::TableDesk;
use crate::writer::WriterDesk;
use ide_disk::Disk;
use ide_journal::Version;
use ide_problem::Problem;
use ide_slot_store::{SlotWriterHalf, image_parts, slot_checkpoints_begin};
use ide_store::{Kept, two_disks_are_a_store};
use ide_wire::Refused;
use std::alloc::Global;

impl<P: Problem, J: Accord> TableDesk<P, J> {
    /// Seals what changed, hands all that is sealed over, and begins a checkpoint of it, by the image as it
    /// stands: the writer's desk makes its calls once the records below it are stored. Meanwhile work goes on,
    /// and its records wait, spelled in the second version. No disk is called.
    ///
    /// False, where none begins: where one is under way, and nothing is done; where the writer has not stored all
    /// that it took over; where the current slot is of the second version and no sealed record stands at or past
    /// its base; or where no command is among the records, so that no program is loaded.
    ///
    /// Refusals, in this order: `Failed`, where a call of a disk failed before; `Limit`, where the current slot is
    /// of generation 4,294,967,295; those of [`TableDesk::seal`]; `NoMemory`, `Limit` or `Failed`, where the image
    /// is not given in parts or the writer does not plan them: what changed is sealed and handed over then.
    pub fn checkpoint<D: Disk>(
        &mut self,
        alloc: Global,
        writer: &mut WriterDesk<P, D, J>,
    ) -> Result<bool, Refused>
        ensures begins { result ≡ Ok true → BeginsCheckpoint writer.old.half self.new.half self.new.seat writer.new.seat }
        ensures none { result ≡ Ok false → FindsNoCheckpoint writer.old.half writer.old.seat self.new.half }
        ensures sealed { SealsForNone self.old.seat.sealed self.new.seat.sealed }
        ensures stored { writer.new.seat.stored ≡ writer.old.seat.stored }
        ensures disks { sides_of writer.new.half.journal ≡ sides_of writer.old.half.journal }
        ensures failed { writer.new.failed ≡ writer.old.failed }
        ensures refused { IfErr result (IsAskStop ⟦<P as Kept>⟧.analysis self.old.half self.new.half writer.old.half writer.old.failed) }
    {
        if self.half.is_stopped() || writer.failed {
            return Err(Refused::Failed);
        }
        if writer.half.is_checkpointing() {
            return Ok(false);
        }
        if writer.half.generation() == u32::MAX {
            return Err(Refused::Limit);
        }
        if let Err(refused) = self.seal() {
            return Err(refused);
        }
        if !self.hand_over(writer) || !is_worth_a_checkpoint(self.half.sealed(), &writer.half) {
            return Ok(false);
        }
        self.plan_image(alloc, writer)
    }

    /// Plans a checkpoint of all that the writer has taken over, by the image as it stands.
    fn plan_image<D: Disk>(
        &mut self,
        alloc: Global,
        writer: &mut WriterDesk<P, D, J>,
    ) -> Result<bool, Refused>
        requires none { IsCheckpointing writer.old.half.journal → ⊥ }
        requires generation { writer.old.half.journal.generation < 4294967295 }
        requires still { self.old.half.core.changes ≡ Some [] }
        requires handed { self.old.seat.handed ≡ length self.old.seat.sealed }
        requires taken { writer.old.seat.taken ≡ self.old.seat.sealed }
        requires agreed { AreAgreed self.old.switch writer.old.switch }
        ensures version { result ≡ Ok true → self.new.half.version ≡ Two }
        ensures none { result ≡ Ok false → HasNoCommand writer.old.half }
        ensures half { ChangesVersion self.old.half self.new.half }
        ensures unchanged { OnErr result (self.new.half ≡ self.old.half) }
        ensures seats { (self.new.seat ≡ self.old.seat) × (writer.new.seat ≡ writer.old.seat) }
        ensures disks { sides_of writer.new.half.journal ≡ sides_of writer.old.half.journal }
        ensures failed { writer.new.failed ≡ writer.old.failed }
        ensures refused { IfErr result (IsPlanStop ⟦<P as Kept>⟧.analysis self.old.half writer.old.half writer.old.failed) }
    {
        runs_are_live::<P, D>();
        slot_checkpoints_begin::<P, D>();
        halves_meet::<P, D>();
        two_disks_are_a_store::<P>();
        if writer.has_failed() || self.half.is_stopped() {
            return Err(Refused::Failed);
        }
        let parts = match image_parts(alloc, &self.half) {
            Ok(parts) => parts,
            Err(refused) => return Err(refused),
        };
        match writer.half.plan_all(alloc, parts.as_slice()) {
            Ok(true) => {
                self.half.spell_in(Version::Two);
                self.switch.note(&mut writer.switch);
                Ok(true)
            }
            Ok(false) => Ok(false),
            Err(refused) => Err(refused),
        }
    }
}

/// Whether a checkpoint would change what the disks hold: a sealed record stands at or past the base of the
/// current slot, or that is of the first version.
fn is_worth_a_checkpoint<D: Disk>(sealed: u64, writer: &SlotWriterHalf<D>) -> bool
    ensures { IsTrue result ↔ IsWorthACheckpoint writer.now.journal sealed }
{
    sealed > u64::from(writer.base()) || matches!(writer.version(), Version::One)
}
