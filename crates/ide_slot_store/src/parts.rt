//! The image in parts, of which a checkpoint is made.
ghost use Rattle.std.specs.Prelude.{◌≤◌, length, map, IfErr, IfOk};
ghost use Rattle.std.specs.List.Sorted.{IsStrictlySortedBy};
ghost use Rattle.ide_slot_store.specs.Parts.{AreInRawParts, AreRawParts, CommandsStayBelow, ImagePartsMakeCheckpoints, IsPartsStop, IsRawPart, IsSpellRefusal, PartsLeadUp};
ghost use Rattle.ide_wire.specs.KeyOrder.{key_cmp};

use ide_batch::{MOST, batch_to_raw};
use ide_journal::{RawRecord, Version};
use ide_lattice::EdgeFn;
use ide_problem::Problem;
use ide_store::{Kept, TableHalf};
use ide_wire::{Key, Refused};
use std::alloc::Global;

/// The kind of a part of an image, in a slot.
pub(crate) const PART: u8 = 4;

/// The most keys that the parts of a checkpoint have room for: 65,536 in each of 4,294,967,295.
const MOST_KEYS: usize = 281_474_976_645_120;

/// The image of the half that works, as it stands, in parts of 65,536 keys, of which the last may have
/// fewer: none where no key is present. The keys ascend through all of them.
///
/// Refusals: `Limit`, where there are more keys than the parts of a checkpoint have room for, or no
/// record spells the function of one of them; `NoMemory`.
pub fn image_parts<P: Problem>(
    alloc: Global,
    table: &TableHalf<P>,
) -> Result<Vec<RawRecord>, Refused>
    ensures parts { IfOk result (AreRawParts ⟦<P as Kept>⟧.analysis table.now) }
    ensures refused { IfErr result (IsPartsStop ⟦<P as Kept>⟧.analysis table.now) }
{
    let items = table.core().items()?;
    if items.len() > MOST_KEYS {
        return Err(Refused::Limit);
    }
    parts_of(alloc, items.as_slice())
}

/// The items in parts.
fn parts_of<F: EdgeFn>(alloc: Global, items: &[(Key, F, bool)]) -> Result<Vec<RawRecord>, Refused>
    requires { IsStrictlySortedBy key_cmp (map (λ item. item.0) items.now) }
    ensures parts { IfOk result (AreInRawParts F.proper F.form F.eq F.edge.all_top items.now) }
    ensures refused { IfErr result (IsSpellRefusal F.proper F.form F.eq F.edge.all_top items.now) }
{
    let mut parts = Vec::new(alloc);
    for chunk in items.chunks(MOST) {
        parts.push(part_of(alloc, chunk)?)?;
    }
    Ok(parts)
}

/// A part of these items.
fn part_of<F: EdgeFn>(alloc: Global, items: &[(Key, F, bool)]) -> Result<RawRecord, Refused>
    requires some { 1 ≤ length items.now }
    requires few { length items.now ≤ 65536 }
    requires ascending { IsStrictlySortedBy key_cmp (map (λ item. item.0) items.now) }
    ensures part { IfOk result (IsRawPart F.proper F.form F.eq F.edge.all_top items.now) }
    ensures refused { IfErr result (IsSpellRefusal F.proper F.form F.eq F.edge.all_top items.now) }
{
    let Some(mut part) = batch_to_raw(alloc, items, Version::Two)? else {
        return Err(Refused::Limit);
    };
    part.kind = PART;
    Ok(part)
}

/// The parts of an image lead to it from each image of the same program and roots that has, of what is
/// absent in it, the same. The image of the commands among records is such a one: so where all records
/// give back the image of a core, its parts make a checkpoint of them.
pub fn image_parts_make_checkpoints<P: Problem>()
    ensures below { CommandsStayBelow ⟦<P as Kept>⟧.analysis }
    ensures lead { PartsLeadUp ⟦<P as Kept>⟧.analysis }
    ensures make { ImagePartsMakeCheckpoints ⟦<P as Kept>⟧.analysis }
{}
