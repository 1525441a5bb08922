//! Records as the journal keeps them.
ghost use Rattle.std.specs.Prelude.{◌≡◌, ◌<◌, ◌≤◌, length, map, IfErr};
ghost use Rattle.std.specs.List.Sorted.{IsStrictlySortedBy};
ghost use Rattle.ide_batch.specs.Bodies.{IsRawOf, MayBeSpelled};
ghost use Rattle.ide_batch.specs.Forms.{IfNotRead, IfRead};
ghost use Rattle.ide_batch.specs.Records.{Batch, value_of_record};
ghost use Rattle.ide_journal.specs.Lists.{entry_of};
ghost use Rattle.ide_wire.specs.KeyOrder.{key_cmp};

use crate::list::are_ascending;
use crate::record::Record;
use crate::spelled::Spelled;
use crate::writer::BatchWriter;
use ide_image::ChangedItems;
use ide_journal::{RawRecord, Version};
use ide_lattice::EdgeFn;
use ide_wire::{Key, Refused};
use std::alloc::Global;

/// The kind that the journal notes of a load.
const LOAD: u8 = 1;

/// The kind that the journal notes of a root.
const ROOT: u8 = 2;

/// The most bytes of a text, or of a name.
const LONGEST: usize = 4_194_304;

/// Spells the record as a store of the version does, for its journal, which takes it. None where
/// the formats spell no such record: a text or a name of more than 4,194,304 bytes, or items that
/// no batch has.
///
/// Refusal: `NoMemory`.
pub fn to_raw<F: EdgeFn>(
    alloc: Global,
    change: &Record<F>,
    version: Version,
) -> Result<Option<RawRecord>, Refused>
    ensures raw { IfRead result (IsRawOf ⟦<F as Spelled>⟧.forms version (value_of_record change.now)) }
    ensures may { IfRead result (λ _. MayBeSpelled ⟦<F as Spelled>⟧.forms (value_of_record change.now)) }
    ensures none { IfNotRead result (¬ (MayBeSpelled ⟦<F as Spelled>⟧.forms (value_of_record change.now))) }
    ensures refused { IfErr result (λ e. e ≡ Refused.NoMemory) }
{
    match change {
        Record::Load(text) => text_to_raw(alloc, LOAD, text.as_slice()),
        Record::Root(name) => text_to_raw(alloc, ROOT, name.as_slice()),
        Record::Batch(items) => batch_to_raw(alloc, items.as_slice(), version),
    }
}

/// A record of that kind whose body is the text, if it is not too long.
fn text_to_raw(alloc: Global, kind: u8, text: &[u8]) -> Result<Option<RawRecord>, Refused>
    ensures raw { IfRead result (λ raw. entry_of raw ≡ (kind, text.now)) }
    ensures may { IfRead result (λ _. length text.now ≤ 4194304) }
    ensures none { IfNotRead result (4194304 < length text.now) }
    ensures refused { IfErr result (λ e. e ≡ Refused.NoMemory) }
{
    if text.len() > LONGEST {
        return Ok(None);
    }
    Ok(Some(RawRecord {
        kind,
        body: Vec::from_slice(alloc, text)?,
    }))
}

/// Spells a batch of the items as a store of the version does, for its journal, which takes it: none
/// where no batch has them.
///
/// Refusal: `NoMemory`.
pub fn batch_to_raw<F: EdgeFn>(
    alloc: Global,
    items: &[(Key, F, bool)],
    version: Version,
) -> Result<Option<RawRecord>, Refused>
    ensures raw { IfRead result (IsRawOf ⟦<F as Spelled>⟧.forms version (Batch items.now)) }
    ensures may { IfRead result (λ _. MayBeSpelled ⟦<F as Spelled>⟧.forms (Batch items.now)) }
    ensures none { IfNotRead result (¬ (MayBeSpelled ⟦<F as Spelled>⟧.forms (Batch items.now))) }
    ensures refused { IfErr result (λ e. e ≡ Refused.NoMemory) }
{
    if !are_ascending(items) {
        return Ok(None);
    }
    let mut writer = BatchWriter::new::<F>(alloc, version, items.len())?;
    for item in items {
        if !writer.put(version, *item)? {
            return Ok(None);
        }
    }
    Ok(writer.finish::<F>())
}

/// The same of what changed in an image, whose keys ascend. It is read as it is spelled.
///
/// Refusal: `NoMemory`.
pub fn changed_to_raw<F: EdgeFn>(
    alloc: Global,
    changed: ChangedItems<'_, F>,
    version: Version,
) -> Result<Option<RawRecord>, Refused>
    requires ascending { IsStrictlySortedBy key_cmp (map (λ item. item.0) changed) }
    ensures raw { IfRead result (IsRawOf ⟦<F as Spelled>⟧.forms version (Batch changed.entry)) }
    ensures may { IfRead result (λ _. MayBeSpelled ⟦<F as Spelled>⟧.forms (Batch changed.entry)) }
    ensures none { IfNotRead result (¬ (MayBeSpelled ⟦<F as Spelled>⟧.forms (Batch changed.entry))) }
    ensures refused { IfErr result (λ e. e ≡ Refused.NoMemory) }
{
    match version {
        Version::One => spell_changed(alloc, changed, Version::One),
        Version::Two => spell_changed(alloc, changed, Version::Two),
    }
}

/// The same. Each version has a loop of its own, with nothing of the other's in it.
#[inline(always)]
fn spell_changed<F: EdgeFn>(
    alloc: Global,
    changed: ChangedItems<'_, F>,
    version: Version,
) -> Result<Option<RawRecord>, Refused>
    requires ascending { IsStrictlySortedBy key_cmp (map (λ item. item.0) changed) }
    ensures raw { IfRead result (IsRawOf ⟦<F as Spelled>⟧.forms version (Batch changed.entry)) }
    ensures may { IfRead result (λ _. MayBeSpelled ⟦<F as Spelled>⟧.forms (Batch changed.entry)) }
    ensures none { IfNotRead result (¬ (MayBeSpelled ⟦<F as Spelled>⟧.forms (Batch changed.entry))) }
    ensures refused { IfErr result (λ e. e ≡ Refused.NoMemory) }
{
    let mut writer = BatchWriter::new::<F>(alloc, version, changed.len())?;
    for item in changed {
        if !writer.put(version, item)? {
            return Ok(None);
        }
    }
    Ok(writer.finish::<F>())
}
