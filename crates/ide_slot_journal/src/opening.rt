//! What an opening does to the disks.
ghost use Rattle.std.specs.Prelude.{◌≡◌, ◌<◌, ◌≤◌, OnOk, IfOk, IfErr, IfNone, IfSome};
ghost use Rattle.ide_disk.specs.Disk.{CrashLeaves};
ghost use Rattle.ide_journal.specs.Moments.{LeavesNoMore, OnlyLooks};
ghost use Rattle.ide_journal.specs.Refusals.{CountsFaults, RunsOn};
ghost use Rattle.ide_slots.specs.Loading.{slot_of};
ghost use Rattle.ide_slots.specs.Slot.{slot_count};
ghost use Rattle.ide_slot_journal.specs.Opening.{ChoosesSide, CountsFaultsOfTwo, HasFront, IsLookRefusal, IsReadFrom, IsWholeSlot, OnlyCuts, RecoversSlot, RefusesRead, RefusesSide, StopsIfRefused, SyncsAll};

use ide_disk::Disk;
use ide_journal::{cut_behind, read_all};
use ide_slots::{LoadedSlot, Side, choose_slot, read_head, read_slot};
use ide_wire::Refused;
use std::alloc::Global;

// The first page of the file on the disk, and its first gate: none where the file is shorter.
pub(crate) fn front_of<D: Disk>(disk: &mut D) -> Result<Option<[u8; 4097]>, Refused>
    ensures front { D.honest disk.old → IfOk result (λ it. IfSome it (HasFront D.Disk disk.old)) }
    ensures long { IfOk result (λ it. IfSome it (λ _. 4097 ≤ D.size disk.old)) }
    ensures short { IfOk result (λ it. IfNone it (D.size disk.old ≤ 4096)) }
    ensures same { OnlyLooks D.Disk disk.old disk.new }
    ensures failures { CountsFaults D.Disk result disk.old disk.new }
    ensures refused { IfErr result (λ refused. refused ≡ Refused.Disk) }
{
    let len = match disk.len() {
        Ok(len) => len,
        Err(_) => return Err(Refused::Disk),
    };
    if len <= 4096 {
        return Ok(None);
    }
    let mut front = [0; 4097];
    match disk.read(0, &mut front) {
        Ok(()) => Ok(Some(front)),
        Err(_) => Err(Refused::Disk),
    }
}

// The same, where the file is long enough for a slot.
#[tactic(auto, using(crate::specs::Opening::look_device, crate::specs::Opening::look_short))]
pub(crate) fn read_front<D: Disk>(disk: &mut D) -> Result<[u8; 4097], Refused>
    ensures front { D.honest disk.old → IfOk result (HasFront D.Disk disk.old) }
    ensures long { OnOk result (4097 ≤ D.size disk.old) }
    ensures same { OnlyLooks D.Disk disk.old disk.new }
    ensures failures { CountsFaults D.Disk result disk.old disk.new }
    ensures refused { D.honest disk.old → IfErr result (IsLookRefusal (D.state disk.old).now) }
{
    match front_of(disk) {
        Ok(Some(front)) => Ok(front),
        Ok(None) => Err(Refused::NotAStore),
        Err(refused) => Err(refused),
    }
}

// The same, once what a read gives is on the disk.
#[tactic(auto, using(crate::specs::Opening::look_device))]
fn look<D: Disk>(disk: &mut D) -> Result<[u8; 4097], Refused>
    ensures front { D.honest disk.old → IfOk result (HasFront D.Disk disk.old) }
    ensures long { OnOk result (4097 ≤ D.size disk.new) }
    ensures synced { D.honest disk.old → OnOk result (SyncsAll D.Disk disk.old disk.new) }
    ensures runs { RunsOn D.Disk result disk.old disk.new (CrashLeaves (D.state disk.old)) }
    ensures refused { D.honest disk.old → IfErr result (IsLookRefusal (D.state disk.old).now) }
{
    let Ok(()) = disk.sync() else {
        return Err(Refused::Disk);
    };
    read_front(disk)
}

/// Which of the disks A and B has the current slot, if that has this tag, and whether the first gate of
/// the other is closed. What a read gives of either is on the disk then.
#[tactic(auto, using(crate::specs::Opening::choosing_device, crate::specs::Opening::choosing_slot))]
pub(crate) fn choose<D: Disk>(a: &mut D, b: &mut D, tag: u8) -> Result<(Side, bool), Refused>
    ensures chosen { ChoosesSide D.Disk tag result a.old b.old }
    ensures first_long { OnOk result (4097 ≤ D.size a.new) }
    ensures second_long { OnOk result (4097 ≤ D.size b.new) }
    ensures first_synced { D.honest a.old → OnOk result (SyncsAll D.Disk a.old a.new) }
    ensures second_synced { D.honest b.old → OnOk result (SyncsAll D.Disk b.old b.new) }
    ensures first_honest { D.honest a.old → D.honest a.new }
    ensures second_honest { D.honest b.old → D.honest b.new }
    ensures first_moments { D.honest a.old → LeavesNoMore D.Disk a.old a.new }
    ensures second_moments { D.honest b.old → LeavesNoMore D.Disk b.old b.new }
    ensures failures { CountsFaultsOfTwo D.Disk result a.old b.old a.new b.new }
    ensures refused { RefusesSide D.Disk tag result a.old b.old }
{
    let first = match look(a) {
        Ok(first) => first,
        Err(refused) => return Err(refused),
    };
    let second = match look(b) {
        Ok(second) => second,
        Err(refused) => return Err(refused),
    };
    let found = match choose_slot(&first, &second, tag) {
        Ok(found) => found,
        Err(refused) => return Err(refused),
    };
    match found.side {
        Side::First => Ok((Side::First, second[4096] == 0)),
        Side::Second => Ok((Side::Second, first[4096] == 0)),
    }
}

// The slot that the disk holds.
fn load<D: Disk>(alloc: Global, disk: &mut D) -> Result<LoadedSlot, Refused>
    ensures whole { IfOk result IsWholeSlot }
    ensures inside { IfOk result (λ slot. slot.gate < D.size disk.new) }
    ensures read { D.honest disk.old → IfOk result (IsReadFrom (D.state disk.old).now) }
    ensures same { OnlyLooks D.Disk disk.old disk.new }
    ensures failures { CountsFaults D.Disk result disk.old disk.new }
    ensures refused { D.honest disk.old → IfErr result (RefusesRead (D.state disk.old).now) }
{
    let bytes = match read_all(alloc, disk) {
        Ok(bytes) => bytes,
        Err(refused) => return Err(refused),
    };
    if bytes.len() <= 4096 {
        return Err(Refused::NotAStore);
    }
    let Some(head) = read_head(&bytes) else {
        return Err(Refused::NotAStore);
    };
    read_slot(alloc, &bytes, head)
}

/// The slot that the disk holds. Nothing stays behind its closed gate.
pub(crate) fn recover<D: Disk>(alloc: Global, disk: &mut D) -> Result<LoadedSlot, Refused>
    ensures whole { IfOk result IsWholeSlot }
    ensures inside { IfOk result (λ slot. slot.gate < D.size disk.new) }
    ensures recovered { RecoversSlot D.Disk result disk.old disk.new }
    ensures honest { D.honest disk.old → D.honest disk.new }
    ensures any_moment { OnlyCuts D.Disk disk.old disk.new }
    ensures stops { StopsIfRefused D.Disk result disk.old disk.new }
    ensures failures { CountsFaults D.Disk result disk.old disk.new }
    ensures refused { D.honest disk.old → IfErr result (RefusesRead (D.state disk.old).now) }
{
    let slot = match load(alloc, disk) {
        Ok(slot) => slot,
        Err(refused) => return Err(refused),
    };
    match cut_behind(disk, slot.gate) {
        Ok(()) => Ok(slot),
        Err(_) => Err(Refused::Disk),
    }
}

/// How many records a slot that was read stands for, those below its checkpoint too.
pub(crate) fn count_of(slot: &LoadedSlot) -> u64
    requires { IsWholeSlot slot.now }
    ensures count { result ≡ slot_count (slot_of slot.now) }
    ensures few { result ≤ 4294967295 }
{
    let behind = slot.records.len() as u64 - slot.head.checkpoint_len();
    u64::from(slot.head.base) + behind
}
