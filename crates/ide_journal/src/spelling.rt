//! How a record is spelled.
ghost use Rattle.std.specs.Prelude.{◌≡◌, ◌+◌, ◌≤◌, ◌<◌, [], ◌∷◌, ◌++◌, length, OnOk, IfOk, vec_len};
ghost use Rattle.ide_journal.specs.Format.{after_gate, head_of, padding, zeros, header};
ghost use Rattle.ide_journal.specs.Lists.{entry_of};

use crate::{RawRecord, Version};
use byteorder::{ByteOrder, LittleEndian};
use std::alloc::{AllocError, Global};

/// How many zeros fill the last page of a record whose body has so many bytes.
#[tactic(auto, unfolding(crate::specs::Format::padding))]
pub fn padding(count: usize) -> usize
    requires { count ≤ 4194304 }
    ensures value { result ≡ padding count }
    ensures page { result < 4096 }
{
    (4096 - (14 + count) % 4096) % 4096
}

// Puts so many zeros behind the bytes.
#[tactic(auto, unfolding(crate::specs::Format::zeros))]
fn push_zeros(out: &mut Vec<u8>, count: usize) -> Result<(), AllocError>
    requires { count < 4096 }
    ensures items { OnOk result (out.new.items ≡ out.old.items ++ zeros count) }
    ensures len { OnOk result (vec_len out.new ≡ vec_len out.old + count) }
{
    out.resize(out.len() + count, 0)
}

/// Spells the first page, and a closed gate behind it.
#[tactic(auto, unfolding(crate::specs::Format::header))]
pub fn spell_header(alloc: Global, version: Version, tag: u8) -> Result<Vec<u8>, AllocError>
    ensures spelled { IfOk result (λ page. page.items ≡ header (head_of version tag) ++ 0 ∷ []) }
    ensures length { IfOk result (λ page. length page.items ≡ 4097) }
{
    let mut page = Vec::with_capacity(alloc, 4097)?;
    page.extend_from_slice(&version.letters())?;
    page.push(tag)?;
    push_zeros(&mut page, 4087)?;
    page.push(0)?;
    Ok(page)
}

/// Spells what stands behind the gate of a record under that number, and the next gate behind it.
/// What the vector held goes.
#[tactic(auto, unfolding(crate::specs::Format::after_gate))]
pub fn spell_record(
    out: &mut Vec<u8>,
    number: u64,
    raw: &RawRecord,
    gate: u8,
) -> Result<(), AllocError>
    requires { length raw.now.body.items ≤ 4194304 }
    ensures { OnOk result (out.new.items ≡ after_gate number (entry_of raw.now) ++ gate ∷ []) }
{
    let body = raw.body.as_slice();
    let zeros = padding(body.len());
    out.clear();
    out.reserve(14 + body.len() + zeros)?;
    let mut head = [raw.kind; 13];
    LittleEndian::write_u64(&mut head[1..], number);
    LittleEndian::write_u32(&mut head[9..], body.len() as u32);
    out.extend_from_slice(&head)?;
    out.extend_from_slice(body)?;
    push_zeros(out, zeros)?;
    out.push(gate)?;
    Ok(())
}
