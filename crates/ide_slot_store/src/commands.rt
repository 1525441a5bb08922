//! The commands among records, under their numbers.
ghost use Rattle.std.specs.Prelude.{◌≡◌, ◌↔◌, ◌<◌, ◌≤◌, ◌+◌, ◌&&◌, ℕ, drop, length, nat_le, take, vec_capacity, vec_len, IfErr, IfOk, IsTrue, OnOk};
ghost use Rattle.ide_slots.specs.Slot.{AreCommands, IsCommandEntry};
ghost use Rattle.ide_journal.specs.Lists.{entry_of};
ghost use Rattle.ide_slots.specs.Records.{all_numbered, numbered};
ghost use Rattle.ide_slot_store.specs.Commands.{AddsCommands, AreCommandsAmong};

use ide_journal::RawRecord;
use ide_slots::NumberedRecord;
use ide_wire::Refused;
use std::alloc::Global;
use std::collections::VecDeque;

/// Whether a record of that kind is a command: a load or a root.
fn is_of_command(kind: u8) -> bool
    ensures { result ≡ (nat_le 1 kind && nat_le kind 2) }
{
    1 <= kind && kind <= 2
}

/// A copy of the record, under that number.
///
/// Refusal: `NoMemory`.
fn copy_of(alloc: Global, number: u32, raw: &RawRecord) -> Result<NumberedRecord, Refused>
    ensures copy { IfOk result (λ copy. numbered copy ≡ (number, entry_of raw.now)) }
    ensures refused { IfErr result (λ e. e ≡ Refused.NoMemory) }
{
    let body = Vec::from_slice(alloc, raw.body.as_slice())?;
    Ok(NumberedRecord {
        number,
        raw: RawRecord {
            kind: raw.kind,
            body,
        },
    })
}

/// Copies of the commands among the records.
///
/// Refusal: `NoMemory`.
pub(crate) fn commands_among(
    alloc: Global,
    found: &[NumberedRecord],
) -> Result<Vec<NumberedRecord>, Refused>
    ensures commands { IfOk result (AreCommandsAmong found.now) }
    ensures refused { IfErr result (λ e. e ≡ Refused.NoMemory) }
{
    let mut commands = Vec::new(alloc);
    for one in found {
        if is_of_command(one.raw.kind) {
            commands.push(copy_of(alloc, one.number, &one.raw)?)?;
        }
    }
    Ok(commands)
}

/// Takes the oldest record that waits, and moves it behind the commands, under that number, if it is one.
pub(crate) fn keep_oldest(
    waiting: &mut VecDeque<RawRecord>,
    commands: &mut Vec<NumberedRecord>,
    number: u32,
)
    requires { vec_len commands.old < vec_capacity commands.old }
    ensures waiting { waiting.new.items ≡ drop 1 waiting.old.items }
    ensures commands { AddsCommands number (take 1 waiting.old.items) commands.old commands.new }
{
    let Some(raw) = waiting.pop_front() else {
        return;
    };
    if is_of_command(raw.kind) {
        commands.push_reserved(NumberedRecord { number, raw });
    }
}

/// Adds copies of the commands among the records that wait, of which the first has that number. Those
/// before them stay.
///
/// Refusal: `NoMemory`, and some of them may be added.
pub(crate) fn add_waiting(
    alloc: Global,
    commands: &mut Vec<NumberedRecord>,
    waiting: &VecDeque<RawRecord>,
    from: u32,
) -> Result<(), Refused>
    requires { from + length waiting.now.items ≤ 4294967295 }
    ensures added { OnOk result (AddsCommands from waiting.now.items commands.old commands.new) }
    ensures stay { take (length commands.old.items) commands.new.items ≡ commands.old.items }
    ensures room { vec_capacity commands.old ≤ vec_capacity commands.new }
    ensures refused { IfErr result (λ e. e ≡ Refused.NoMemory) }
{
    let mut number = from;
    for raw in waiting.iter() {
        if is_of_command(raw.kind) {
            commands.push(copy_of(alloc, number, raw)?)?;
        }
        number += 1;
    }
    Ok(())
}

/// Whether a checkpoint with that base can have these commands.
pub(crate) fn are_fit(commands: &[NumberedRecord], base: u32) -> bool
    ensures { IsTrue result ↔ AreCommands 0 base (all_numbered commands.now) }
{
    let mut from = 0;
    for one in commands {
        if u64::from(one.number) < from || one.number >= base || !is_fit(&one.raw) {
            return false;
        }
        from = u64::from(one.number) + 1;
    }
    true
}

/// Whether the record is a command, within the limit.
fn is_fit(raw: &RawRecord) -> bool
    ensures { IsTrue result ↔ IsCommandEntry (entry_of raw.now) }
{
    is_of_command(raw.kind) && raw.body.len() <= 4_194_304
}
