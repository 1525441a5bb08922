//! The bytes of a checkpoint.
ghost use Rattle.std.specs.Prelude.{◌≡◌, ◌<◌, ◌≤◌, length, OnOk, IfOk, IfErr};
ghost use Rattle.std.specs.List.{All};
ghost use Rattle.ide_journal.specs.Lists.{entry_of};
ghost use Rattle.ide_slots.specs.Records.{all_numbered};
ghost use Rattle.ide_slot_journal.specs.Planning.{HasShortBody, HasShortRecord, IsSpelledFrom, SpellsAll, SpellsOne, SpellsOpen, numbered_parts};

use crate::filler::Filler;
use crate::stage::FillStage;
use ide_journal::{RawRecord, spell_record};
use ide_slots::{NumberedRecord, SlotHead, spell_head};
use ide_wire::Refused;
use std::alloc::Global;
use std::collections::VecDeque;

/// The records of a checkpoint that are spelled so far.
#[derive(Drop)]
struct Spelling {
    alloc: Global,
    /// What stands behind the gate of each, with the next gate.
    todo: VecDeque<Vec<u8>>,
}

impl Spelling {
    // Spells a record under that number behind those that are spelled, with the next gate.
    fn push(&mut self, number: u64, raw: &RawRecord, gate: u8) -> Result<(), Refused>
        requires { HasShortBody raw.now }
        ensures one { OnOk result (SpellsOne gate (number, entry_of raw.now) self.old self.new) }
        ensures refused { IfErr result (λ refused. refused ≡ Refused.NoMemory) }
    {
        let mut chunk = Vec::new(self.alloc);
        spell_record(&mut chunk, number, raw, gate)?;
        self.todo.push_back(chunk)?;
        Ok(())
    }

    // Spells commands, each with an open gate behind it.
    fn push_commands(&mut self, commands: &[NumberedRecord]) -> Result<(), Refused>
        requires { All HasShortRecord commands.now }
        ensures spelled { OnOk result (SpellsOpen (all_numbered commands.now) self.old self.new) }
        ensures refused { IfErr result (λ refused. refused ≡ Refused.NoMemory) }
    {
        for command in commands {
            self.push(u64::from(command.number), &command.raw, 1)?;
        }
        Ok(())
    }

    // Spells parts, numbered from 0 on, each with an open gate behind it.
    fn push_parts(&mut self, parts: &[RawRecord]) -> Result<(), Refused>
        requires { All HasShortBody parts.now }
        ensures spelled { OnOk result (SpellsOpen (numbered_parts parts.now) self.old self.new) }
        ensures refused { IfErr result (λ refused. refused ≡ Refused.NoMemory) }
    {
        for (number, part) in parts.iter().enumerate() {
            self.push(number as u64, part, 1)?;
        }
        Ok(())
    }
}

/// What stands behind the gate of each record of a checkpoint, with the next gate: all of them open, but
/// for the last one.
pub(crate) fn spell_records(
    alloc: Global,
    commands: &[NumberedRecord],
    parts: &[RawRecord],
) -> Result<VecDeque<Vec<u8>>, Refused>
    requires some { 0 < length commands.now }
    requires commands { All HasShortRecord commands.now }
    requires parts { All HasShortBody parts.now }
    ensures spelled { IfOk result (SpellsAll commands.now parts.now) }
    ensures refused { IfErr result (λ refused. refused ≡ Refused.NoMemory) }
{
    let mut spelling = Spelling {
        alloc,
        todo: VecDeque::new(alloc),
    };
    if let Some((last, parts)) = parts.split_last() {
        spelling.push_commands(commands)?;
        spelling.push_parts(parts)?;
        spelling.push(parts.len() as u64, last, 0)?;
        return Ok(spelling.todo);
    }
    let Some((last, commands)) = commands.split_last() else {
        unreachable!();
    };
    spelling.push_commands(commands)?;
    spelling.push(u64::from(last.number), &last.raw, 0)?;
    Ok(spelling.todo)
}

/// What fills the other slot with a checkpoint whose first page tells that.
pub(crate) fn spell_checkpoint(
    alloc: Global,
    head: SlotHead,
    closed: bool,
    commands: &[NumberedRecord],
    parts: &[RawRecord],
) -> Result<Filler, Refused>
    requires some { 0 < length commands.now }
    requires commands { All HasShortRecord commands.now }
    requires parts { All HasShortBody parts.now }
    ensures spelled { IfOk result (IsSpelledFrom head closed commands.now parts.now) }
    ensures refused { IfErr result (λ refused. refused ≡ Refused.NoMemory) }
{
    let page = spell_head(alloc, &head)?;
    let todo = spell_records(alloc, commands, parts)?;
    Ok(Filler {
        stage: FillStage::Waits,
        closed,
        generation: head.generation,
        base: head.base,
        page,
        todo,
        at: 4097,
    })
}
