//! A closed slot beside a store that stands on one disk.
ghost use Rattle.std.specs.Prelude.{◌≡◌, ◌↔◌, ◌<◌, length, IfErr, IfOk, IsTrue, OnErr, OnOk};
ghost use Rattle.ide_journal.specs.Moments.{OnlyLooks};
ghost use Rattle.ide_journal.specs.Refusals.{CountsFaults};
ghost use Rattle.ide_slot_journal.specs.Adopting.{HasCheckpoint, HasClosedSlot, IsCheckpointFront, IsClosingRefusal, TellsCheckpoint};
ghost use Rattle.ide_slot_journal.specs.OneDisk.{FailsNoCall};

use crate::opening::front_of;
use ide_disk::Disk;
use ide_journal::{Version, rewrite, spell_header};
use ide_slots::read_head;
use ide_wire::Refused;
use std::alloc::Global;

/// Whether the first page of a slot, with the gate behind it, tells of a checkpoint.
fn is_checkpoint_front(front: &[u8; 4097]) -> bool
    ensures { IsTrue result ↔ IsCheckpointFront front.now }
{
    if front[4096] == 0 {
        return false;
    }
    match read_head(front) {
        Some(head) => head.generation > 0,
        None => false,
    }
}

/// Whether the disk begins with a checkpoint.
fn has_checkpoint<D: Disk>(disk: &mut D) -> Result<bool, Refused>
    ensures has { D.honest disk.old → IfOk result (TellsCheckpoint D.Disk disk.old) }
    ensures same { OnlyLooks D.Disk disk.old disk.new }
    ensures failures { CountsFaults D.Disk result disk.old disk.new }
    ensures refused { IfErr result (λ refused. refused ≡ Refused.Disk) }
{
    match front_of(disk) {
        Ok(front) => match front {
            Some(front) => Ok(is_checkpoint_front(&front)),
            None => Ok(false),
        },
        Err(refused) => Err(refused),
    }
}

/// Puts a closed slot with that tag on the disk, as a new store has beside its current one, in the place of
/// what the disk held.
///
/// Refusals, in this order: `Already`, where the disk has an open slot of generation 1 or more, whose first
/// page is valid, and `NoMemory`: the disk stays as it is; `Disk`, where a call of it failed.
#[tactic(auto, using(crate::specs::Adopting::closing_memory, crate::specs::Adopting::closing_already, crate::specs::Adopting::closing_device))]
pub fn put_closed<D: Disk>(alloc: Global, disk: &mut D, tag: u8) -> Result<(), Refused>
    requires { 0 < tag }
    ensures closed { D.honest disk.old → OnOk result (HasClosedSlot D.Disk tag disk.new) }
    ensures none { D.honest disk.old → OnOk result (HasCheckpoint (D.state disk.old).now → ⊥) }
    ensures honest { D.honest disk.old → D.honest disk.new }
    ensures failures { OnOk result (FailsNoCall D.Disk disk.old disk.new) }
    ensures refused { IfErr result (IsClosingRefusal D.Disk disk.old disk.new) }
{
    match has_checkpoint(disk) {
        Ok(true) => return Err(Refused::Already),
        Ok(false) => {}
        Err(refused) => return Err(refused),
    }
    // A closed slot of generation 0 is spelled as a new store on one disk.
    let page = match spell_header(alloc, Version::Two, tag) {
        Ok(page) => page,
        Err(_) => return Err(Refused::NoMemory),
    };
    match rewrite(disk, &page) {
        Ok(()) => Ok(()),
        Err(_) => Err(Refused::Disk),
    }
}
