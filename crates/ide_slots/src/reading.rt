//! How a slot is read.
ghost use Rattle.std.specs.Prelude.{◌≡◌, ◌<◌, length, slice_index, IfOk, IfErr};
ghost use Rattle.ide_slots.specs.Loading.{ClosesIn, HasRecords, slot_of};
ghost use Rattle.ide_slots.specs.Reading.{Tells};
ghost use Rattle.ide_slots.specs.Records.{AreReadSo, all_numbered};
ghost use Rattle.ide_slots.specs.Refusals.{IsSlotRefusal};
ghost use Rattle.ide_slots.specs.Slot.{HoldsSlot};

use crate::record::read_record;
use crate::{NumberedRecord, SlotHead};
use ide_wire::Refused;
use std::alloc::Global;

/// A slot, as its file is read.
#[derive(Drop)]
pub struct LoadedSlot {
    pub head: SlotHead,
    /// Its commands under their old numbers, its parts, numbered from 0 on, and the records behind its
    /// checkpoint, numbered from the base on.
    pub records: Vec<NumberedRecord>,
    /// Where the closed gate behind them stands.
    pub gate: u64,
}

// The records of a slot behind its first page, and where the first closed gate stands.
#[tactic(auto, using(crate::specs::Refusals::slot_memory))]
fn read_records(
    alloc: Global,
    bytes: &[u8],
    head: &SlotHead,
) -> Result<(Vec<NumberedRecord>, usize), Refused>
    requires { 4096 < length bytes.now }
    ensures read { IfOk result (λ it. AreReadSo head.now (all_numbered it.0.items) it.1 bytes.now) }
    ensures closed { IfOk result (λ it. slice_index bytes.now it.1 ≡ 0) }
    ensures refused { IfErr result (IsSlotRefusal head.now bytes.now) }
{
    let mut records = Vec::new(alloc);
    let mut gate = 4096;
    let mut from = 0;
    while bytes[gate] != 0 {
        let place = records.len() as u64;
        match read_record(alloc, &bytes[gate + 1..], head, from, place)? {
            Some((found, size)) => {
                from = u64::from(found.number) + 1;
                records.push(found)?;
                gate += 1 + size;
            }
            None => return Err(Refused::Damaged(place)),
        }
    }
    Ok((records, gate))
}

/// The slot whose first page tells that. Refused where memory is, and where a record is missing or is
/// not whole: a command, a part or another in its place, under its number, with a gate behind it; the
/// refusal is E6 with the place of the first such record, counted from 0 on. What stands behind the
/// first closed gate is not read.
#[tactic(auto, using(crate::specs::Refusals::slot_memory))]
pub fn read_slot(alloc: Global, bytes: &[u8], head: SlotHead) -> Result<LoadedSlot, Refused>
    requires told { Tells head bytes.now }
    requires gate { 4096 < length bytes.now }
    ensures held { IfOk result (λ slot. HoldsSlot (slot_of slot) bytes.now) }
    ensures records { IfOk result HasRecords }
    ensures closed { IfOk result (ClosesIn bytes.now) }
    ensures refused { IfErr result (IsSlotRefusal head bytes.now) }
{
    let (records, gate) = read_records(alloc, bytes, &head)?;
    let count = records.len() as u64;
    if count < head.checkpoint_len() {
        return Err(Refused::Damaged(count));
    }
    let gate = gate as u64;
    Ok(LoadedSlot {
        head,
        records,
        gate,
    })
}
