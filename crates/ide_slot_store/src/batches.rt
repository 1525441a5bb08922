//! The records of a slot as those of a store on one disk.
ghost use Rattle.std.specs.Prelude.{◌≡◌, IfErr, IfOk};
ghost use Rattle.ide_journal.specs.Lists.{entries_of, entry_of};
ghost use Rattle.ide_slots.specs.Records.{numbered};
ghost use Rattle.ide_slot_store.specs.Batches.{batch_of, batches_of};
ghost use Rattle.ide_store.specs.TwoDisks.{unnumbered};

use crate::parts::PART;
use ide_journal::RawRecord;
use ide_slots::NumberedRecord;
use ide_wire::Refused;
use std::alloc::Global;

/// The kind of a batch.
const BATCH: u8 = 3;

/// The records without their numbers, each part as the batch of its items. Bodies are moved.
///
/// Refusal: `NoMemory`.
pub(crate) fn as_batches(
    alloc: Global,
    found: Vec<NumberedRecord>,
) -> Result<Vec<RawRecord>, Refused>
    ensures batches { IfOk result (λ records. entries_of records.items ≡ batches_of found.items) }
    ensures refused { IfErr result (λ e. e ≡ Refused.NoMemory) }
{
    let mut records = Vec::with_capacity(alloc, found.len())?;
    for one in found {
        records.push(as_batch(one))?;
    }
    Ok(records)
}

/// The record without its number: a part as the batch of its items.
fn as_batch(found: NumberedRecord) -> RawRecord
    ensures { entry_of result ≡ batch_of (unnumbered (numbered found)) }
{
    let NumberedRecord { raw, .. } = found;
    let kind = if raw.kind == PART { BATCH } else { raw.kind };
    RawRecord {
        kind,
        body: raw.body,
    }
}
