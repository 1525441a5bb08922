//! Records of a slot.
ghost use Rattle.std.specs.Prelude.{◌≡◌, ◌↔◌, ◌≤◌, length, IsTrue, IfOk, IfSome, IfNone};
ghost use Rattle.ide_slots.specs.Records.{IsFrame, IsReadAt, HasNoRecord, MayStand, NoneStands, MayStandAt, numbered};

use crate::SlotHead;
use crate::head::short_number;
use ide_journal::{RawRecord, framed_length, padding};
use std::alloc::{AllocError, Global};

/// A record with the number that stands in it.
#[derive(Drop)]
pub struct NumberedRecord {
    pub number: u32,
    pub raw: RawRecord,
}

// The number of the record that stands there, of whatever kind, and how many bytes its body has.
fn read_frame(bytes: &[u8]) -> Option<(u32, usize)>
    ensures whole { IfSome result (λ told. IsFrame told.0 told.1 bytes.now) }
    ensures none { IfNone result (HasNoRecord bytes.now) }
{
    let count = framed_length(bytes)?;
    let number = short_number(&bytes[1..9])?;
    Some((number, count))
}

// Whether the record may stand at that place of a slot, behind records whose numbers end before `from`.
fn may_stand(head: &SlotHead, from: u64, place: u64, found: &NumberedRecord) -> bool
    requires { length found.now.raw.body.items ≤ 4194304 }
    ensures { IsTrue result ↔ MayStand head.now from place (numbered found.now) }
{
    let SlotHead {
        base,
        commands,
        parts,
        ..
    } = *head;
    let (base, commands, parts) = (u64::from(base), u64::from(commands), u64::from(parts));
    let number = u64::from(found.number);
    let kind = found.raw.kind;
    if place < commands {
        return matches!(kind, 1..=2) && from <= number && number < base;
    }
    if place < commands + parts {
        return kind == 4 && number == place - commands;
    }
    let past = place - commands - parts;
    matches!(kind, 1..=3) && base <= number && number - base == past && number <= 4294967294
}

// The record that stands there, and how many bytes it takes, if it may stand at that place.
pub(crate) fn read_record(
    alloc: Global,
    bytes: &[u8],
    head: &SlotHead,
    from: u64,
    place: u64,
) -> Result<Option<(NumberedRecord, usize)>, AllocError>
    ensures whole { IfOk result (λ found. IfSome found (IsReadAt bytes.now)) }
    ensures place { IfOk result (λ found. IfSome found (MayStandAt head.now from place)) }
    ensures none { IfOk result (λ found. IfNone found (NoneStands head.now from place bytes.now)) }
{
    let Some((number, count)) = read_frame(bytes) else {
        return Ok(None);
    };
    let body = bytes[13..13 + count].to_vec(alloc)?;
    let kind = bytes[0];
    let found = NumberedRecord {
        number,
        raw: RawRecord { kind, body },
    };
    if !may_stand(head, from, place, &found) {
        return Ok(None);
    }
    Ok(Some((found, 13 + count + padding(count))))
}
