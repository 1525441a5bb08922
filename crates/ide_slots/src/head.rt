//! The first page of a slot.
ghost use Rattle.std.specs.Prelude.{◌≡◌, ◌↔◌, ◌+◌, length, IsTrue, IfOk, IfSome, IfNone};
ghost use Rattle.std.specs.Int.{w64, to_le_bytes};
ghost use Rattle.ide_slots.specs.Slot.{IsValidHead, slot_header};
ghost use Rattle.ide_slots.specs.Reading.{IsNoShortNumber, Tells, TellsNothing};

use byteorder::{ByteOrder, LittleEndian};
use ide_journal::{Version, are_zeros, number_of, read_version};
use std::alloc::{AllocError, Global};
use std::marker::Model;

/// What the first page of a slot tells.
#[derive(Clone, Copy, PartialEq, Eq, Debug)]
pub struct SlotHead {
    pub version: Version,
    /// Of which analysis the slot is; 0 is of none.
    pub tag: u8,
    /// How many checkpoints led to the slot.
    pub generation: u32,
    /// How many records its checkpoint stands for, which is the number of the first record behind it.
    pub base: u32,
    /// How many commands its checkpoint has.
    pub commands: u32,
    /// In how many parts the image of its checkpoint is.
    pub parts: u32,
}

impl Model for SlotHead {
    ghost use Rattle.ide_journal.specs.Format.{head_of};
    ghost use Rattle.ide_slots.specs.Slot as slot;

    ghost Value = { slot.SlotHead };

    ghost view = { λ a. record {
      head = head_of a.version a.tag;
      generation = a.generation;
      base = a.base;
      commands = a.commands;
      parts = a.parts;
    } };

    ghost inverse = { λ told. record {
      version = told.head.version;
      tag = told.head.tag;
      generation = told.generation;
      base = told.base;
      commands = told.commands;
      parts = told.parts;
    } };
}

impl SlotHead {
    /// How many records its checkpoint has, commands and parts.
    pub fn checkpoint_len(&self) -> u64
        ensures { result ≡ self.now.commands + self.now.parts }
    {
        u64::from(self.commands) + u64::from(self.parts)
    }

    // Whether a first page may tell this.
    fn is_valid(&self) -> bool
        ensures { IsTrue result ↔ IsValidHead self.now }
    {
        let SlotHead {
            tag,
            generation,
            base,
            commands,
            parts,
            ..
        } = *self;
        if tag == 0 {
            return false;
        }
        if generation > 0 {
            return commands > 0;
        }
        base == 0 && commands == 0 && parts == 0
    }
}

/// Spells the first page of a slot, 4,096 bytes.
#[tactic(auto, unfolding(crate::specs::Slot::slot_header))]
pub fn spell_head(alloc: Global, head: &SlotHead) -> Result<Vec<u8>, AllocError>
    ensures spelled { IfOk result (λ page. page.items ≡ slot_header head.now) }
    ensures length { IfOk result (λ page. length page.items ≡ 4096) }
{
    let mut page = Vec::with_capacity(alloc, 4096)?;
    page.extend_from_slice(&head.version.letters())?;
    page.push(head.tag)?;
    page.extend_from_slice(&u64::from(head.generation).to_le_bytes())?;
    page.extend_from_slice(&u64::from(head.base).to_le_bytes())?;
    page.extend_from_slice(&head.commands.to_le_bytes())?;
    page.extend_from_slice(&head.parts.to_le_bytes())?;
    page.resize(4096, 0)?;
    Ok(page)
}

// The number that eight bytes are of, the lowest of them first, where it is one of 32 bits.
pub(crate) fn short_number(bytes: &[u8]) -> Option<u32>
    requires { length bytes.now ≡ 8 }
    ensures told { IfSome result (λ number. bytes.now ≡ to_le_bytes w64 number) }
    ensures none { IfNone result (IsNoShortNumber bytes.now) }
{
    let number = LittleEndian::read_u64(bytes);
    if number > 4294967295 {
        return None;
    }
    Some(number as u32)
}

/// What the first page of a slot tells, if it is valid. Bytes may follow it.
pub fn read_head(bytes: &[u8]) -> Option<SlotHead>
    ensures told { IfSome result (λ told. Tells told bytes.now) }
    ensures none { IfNone result (TellsNothing bytes.now) }
{
    if bytes.len() < 4096 {
        return None;
    }
    let version = read_version(&bytes[..8])?;
    let generation = short_number(&bytes[9..17])?;
    let base = short_number(&bytes[17..25])?;
    let filled = are_zeros(&bytes[33..4096]);
    if !filled {
        return None;
    }
    let head = SlotHead {
        version,
        tag: bytes[8],
        generation,
        base,
        commands: number_of(&bytes[25..29]),
        parts: number_of(&bytes[29..33]),
    };
    if !head.is_valid() {
        return None;
    }
    Some(head)
}
