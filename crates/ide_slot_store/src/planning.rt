//! A checkpoint of all records that a writer was handed.
ghost use Rattle.std.specs.Prelude.{◌≡◌, ◌<◌, ◌≤◌, ◌+◌, true, false, length, take, vec_capacity, IfErr, IfNone, IfSome, Ok};
ghost use Rattle.std.specs.List.{All};
ghost use Rattle.ide_journal.specs.Lists.{entries_of};
ghost use Rattle.ide_slot_journal.specs.Plans.{KeepsSides};
ghost use Rattle.ide_slot_journal.specs.Records.{KeepsRecord};
ghost use Rattle.ide_slot_journal.specs.Stands.{IsCheckpointing};
ghost use Rattle.ide_slots.specs.Slot.{IsPartEntry};
ghost use Rattle.ide_slot_store.specs.Commands.{HasNone, HasRoomForNext, PlansKept, RefusesKept};

use crate::commands::{add_waiting, are_fit};
use ide_disk::Disk;
use ide_journal::RawRecord;
use ide_slot_journal::SlotJournal;
use ide_slots::NumberedRecord;
use ide_store::MOST_RECORDS;
use ide_wire::Refused;
use std::alloc::Global;
use std::collections::VecDeque;

/// How many records are stored or wait, where there may be so many.
fn base_over(stored: u64, waiting: usize) -> Option<u32>
    ensures base { IfSome result (λ base. base ≡ stored + waiting) }
    ensures few { IfSome result (λ base. base ≤ 4294967295) }
    ensures none { IfNone result (4294967295 < stored + waiting) }
{
    if stored > MOST_RECORDS {
        return None;
    }
    if waiting as u64 > MOST_RECORDS - stored {
        return None;
    }
    Some((stored + waiting as u64) as u32)
}

/// Plans a checkpoint of the records that are stored and of those that wait: the commands, behind which
/// those that wait are added, and these parts. False, where there is no command.
#[tactic(auto, using(crate::specs::Commands::over_memory, crate::specs::Commands::over_failure, crate::specs::Commands::over_limit, crate::specs::Commands::over_unfit, crate::proofs::PlanningAll::make_up, crate::proofs::PlanningAll::planned_over, crate::proofs::PlanningAll::plan_stop))]
pub(crate) fn plan_over<D: Disk>(
    alloc: Global,
    journal: &mut SlotJournal<D>,
    commands: &mut Vec<NumberedRecord>,
    waiting: &VecDeque<RawRecord>,
    parts: &[RawRecord],
) -> Result<bool, Refused>
    requires none { IsCheckpointing journal.old → ⊥ }
    requires generation { journal.old.generation < 4294967295 }
    requires parts { All IsPartEntry (entries_of parts.now) }
    requires few { length parts.now ≤ 4294967295 }
    requires room { HasRoomForNext journal.old (length waiting.now.items) commands.old }
    ensures planned { PlansKept commands.old waiting.now result parts.now journal.old journal.new }
    ensures none { result ≡ Ok false → HasNone commands.old.items waiting.now.items journal.old }
    ensures unplanned { (result ≡ Ok true → ⊥) → journal.new.filler ≡ journal.old.filler }
    ensures record { KeepsRecord journal.old journal.new }
    ensures sides { KeepsSides journal.old journal.new }
    ensures stay { take (length commands.old.items) commands.new.items ≡ commands.old.items }
    ensures capacity { vec_capacity commands.old ≤ vec_capacity commands.new }
    ensures refused { IfErr result (RefusesKept commands.old waiting.now journal.old) }
{
    let stored = journal.count();
    let Some(base) = base_over(stored, waiting.len()) else {
        return Err(Refused::Limit);
    };
    add_waiting(alloc, commands, waiting, stored as u32)?;
    if commands.is_empty() {
        return Ok(false);
    }
    if !are_fit(commands.as_slice(), base) {
        return Err(Refused::Limit);
    }
    if waiting.is_empty() && !journal.is_idle() {
        return Err(Refused::Failed);
    }
    match journal.plan(alloc, base, commands.as_slice(), parts) {
        Ok(()) => Ok(true),
        Err(refused) => Err(refused),
    }
}
