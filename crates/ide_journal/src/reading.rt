//! How records are read.
ghost use Rattle.std.specs.Prelude.{◌≡◌, ◌≢◌, ◌↔◌, ◌+◌, ◌<◌, length, slice_index, EachIndex, IsTrue, IfOk, IfErr, IfSome, IfNone};
ghost use Rattle.std.specs.Int.{w32, w64, to_le_bytes};
ghost use Rattle.ide_journal.specs.Format.{head_of, letters};
ghost use Rattle.ide_journal.specs.Lists.{entry_of, entries_of};
ghost use Rattle.ide_journal.specs.Opening.{IsLoaded};
ghost use Rattle.ide_journal.specs.Reading.{AreRead, IsDamaged, IsFramed, IsNoStore, IsRead, IsStore, IsUnframed, IsWholeRecord};
ghost use Rattle.ide_journal.specs.Refusals.{IsFileRefusal, IsRecordRefusal};

use crate::spelling::padding;
use crate::{RawRecord, Version};
use byteorder::{ByteOrder, LittleEndian};
use ide_wire::Refused;
use std::alloc::{AllocError, Global};

/// A store, as its file is read.
#[derive(Drop)]
pub(crate) struct Loaded {
    pub(crate) version: Version,
    pub(crate) records: Vec<RawRecord>,
    /// Where the closed gate behind the records stands.
    pub(crate) gate: u64,
}

/// Whether the bytes are zeros.
pub fn are_zeros(bytes: &[u8]) -> bool
    ensures { IsTrue result ↔ EachIndex bytes.now (λ k. slice_index bytes.now k ≡ 0) }
{
    bytes.iter().all(|byte| *byte == 0)
}

// Whether the bytes are those of the number.
fn spells(bytes: &[u8], number: u64) -> bool
    requires { length bytes.now ≡ 8 }
    ensures { IsTrue result ↔ (bytes.now ≡ to_le_bytes w64 number) }
{
    LittleEndian::read_u64(bytes) == number
}

/// The number that four bytes are of, the lowest of them first.
pub fn number_of(bytes: &[u8]) -> u32
    requires { length bytes.now ≡ 4 }
    ensures { bytes.now ≡ to_le_bytes w32 result }
{
    LittleEndian::read_u32(bytes)
}

/// How many bytes the body has of the record that stands there, of whatever kind and number.
pub fn framed_length(bytes: &[u8]) -> Option<usize>
    ensures framed { IfSome result (λ count. IsFramed count bytes.now) }
    ensures none { IfNone result (IsUnframed bytes.now) }
{
    if bytes.len() < 14 {
        return None;
    }
    let count = number_of(&bytes[9..13]) as usize;
    if count > 4194304 {
        return None;
    }
    let end = 13 + count;
    let size = end + padding(count);
    if size >= bytes.len() {
        return None;
    }
    let filled = are_zeros(&bytes[end..size]);
    if !filled {
        return None;
    }
    Some(count)
}

// How many bytes the body has of the whole record of that number that stands there.
fn body_length(bytes: &[u8], number: u64) -> Option<usize>
    ensures whole { IfSome result (λ count. IsWholeRecord number count bytes.now) }
    ensures damaged { IfNone result (IsDamaged number bytes.now) }
{
    let count = framed_length(bytes)?;
    if number > 4294967294 {
        return None;
    }
    let kind = bytes[0];
    if kind < 1 {
        return None;
    }
    if kind > 3 {
        return None;
    }
    let numbered = spells(&bytes[1..9], number);
    if !numbered {
        return None;
    }
    Some(count)
}

// The record of that number that stands there, and how many bytes it takes, if it is whole.
fn read_record(
    alloc: Global,
    bytes: &[u8],
    number: u64,
) -> Result<Option<(RawRecord, usize)>, AllocError>
    ensures whole { IfOk result (λ found. IfSome found (λ pair. IsRead number (entry_of pair.0) pair.1 bytes.now)) }
    ensures damaged { IfOk result (λ found. IfNone found (IsDamaged number bytes.now)) }
{
    match body_length(bytes, number) {
        None => Ok(None),
        Some(count) => {
            let body = bytes[13..13 + count].to_vec(alloc)?;
            let raw = RawRecord {
                kind: bytes[0],
                body,
            };
            Ok(Some((raw, 13 + count + padding(count))))
        }
    }
}

// The records of a file behind its first page, and where the first closed gate stands.
#[tactic(auto, using(crate::specs::Refusals::record_memory))]
fn read_records(alloc: Global, bytes: &[u8]) -> Result<(Vec<RawRecord>, usize), Refused>
    requires { 4096 < length bytes.now }
    ensures read { IfOk result (λ pair. AreRead (entries_of pair.0.items) pair.1 bytes.now) }
    ensures closed { IfOk result (λ pair. slice_index bytes.now pair.1 ≡ 0) }
    ensures refused { IfErr result (IsRecordRefusal bytes.now) }
{
    let mut records = Vec::new(alloc);
    let mut gate = 4096;
    while bytes[gate] != 0 {
        let number = records.len() as u64;
        match read_record(alloc, &bytes[gate + 1..], number)? {
            Some((raw, size)) => {
                records.push(raw)?;
                gate += 1 + size;
            }
            None => return Err(Refused::Damaged(number)),
        }
    }
    Ok((records, gate))
}

/// The version whose letters these are, all of them.
pub fn read_version(bytes: &[u8]) -> Option<Version>
    ensures letters { IfSome result (λ version. bytes.now ≡ letters version) }
    ensures none { IfNone result ((version : Version) → bytes.now ≢ letters version) }
{
    if bytes == Version::One.letters().as_slice() {
        return Some(Version::One);
    }
    if bytes == Version::Two.letters().as_slice() {
        return Some(Version::Two);
    }
    None
}

/// The version and the tag of a store.
pub(crate) fn read_head(bytes: &[u8]) -> Option<(Version, u8)>
    ensures store { IfSome result (λ told. IsStore (head_of told.0 told.1) bytes.now) }
    ensures none { IfNone result (IsNoStore bytes.now) }
{
    if bytes.len() <= 4096 {
        return None;
    }
    let version = read_version(&bytes[..8])?;
    let tag = bytes[8];
    if tag == 0 {
        return None;
    }
    let filled = are_zeros(&bytes[9..4096]);
    if !filled {
        return None;
    }
    Some((version, tag))
}

/// A file that is a store with that tag.
#[tactic(auto, using(crate::specs::Refusals::no_store))]
pub(crate) fn read_file(alloc: Global, bytes: &[u8], tag: u8) -> Result<Loaded, Refused>
    ensures loaded { IfOk result (IsLoaded tag bytes.now) }
    ensures refused { IfErr result (IsFileRefusal tag bytes.now) }
{
    let Some((version, told)) = read_head(bytes) else {
        return Err(Refused::NotAStore);
    };
    if told != tag {
        return Err(Refused::WrongInstance);
    }
    let (records, gate) = read_records(alloc, bytes)?;
    let gate = gate as u64;
    Ok(Loaded {
        version,
        records,
        gate,
    })
}
