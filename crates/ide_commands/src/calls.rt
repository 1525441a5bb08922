//! What each command on a store does, over any disk, and what it prints.
ghost use Rattle.std.specs.Prelude.{◌≡◌, ◌++◌, ℕ, List, OnErr, OnOk, IfErr, IfOk};
ghost use Rattle.ide_commands.specs.Asked.{Answers, AreNow, Dumps, IsDumpRefusal, Prints, PrintsDump, WritesText};
ghost use Rattle.ide_commands.specs.Lines.{stored_line};
ghost use Rattle.ide_commands.specs.Stored.{EndsQuiet, MakesCheckpoint, MakesRoot, Migrates, PrintsGeneration, PrintsStored, PrintsVersion, StoresText};

use crate::lines::{append_line, version_number};
use ide_disk::Disk;
use ide_journal::Version;
use ide_lattice::Lattice;
use ide_problem::Problem;
use ide_slot_store::SlotEngine;
use ide_store::{Kept, TableHalf, Ticket};
use ide_text::parse;
use ide_values::{ValuePhase, Values};
use ide_wire::Refused;
use std::alloc::{AllocError, Global};
use std::io;
use std::io::Write;
use std::thread::Threads;

/// Loads the program that the text spells, and appends its record's number once it is stored.
pub(crate) fn load<P: Problem, D: Disk>(
    alloc: Global,
    engine: &mut SlotEngine<P, D>,
    text: &[u8],
    out: &mut Vec<u8>,
) -> Result<(), Refused>
    ensures { OnOk result (PrintsStored (StoresText ⟦<P as Kept>⟧.analysis engine.old engine.new text.now) out.old out.new) }
{
    let program = parse(alloc, text)?;
    let ticket = engine.table.load(program)?;
    engine.store_all()?;
    append_stored(ticket, out)?;
    Ok(())
}

/// Makes the procedure of that name a root, and appends its record's number once it is stored.
pub(crate) fn root<P: Problem, D: Disk>(
    engine: &mut SlotEngine<P, D>,
    name: &[u8],
    out: &mut Vec<u8>,
) -> Result<(), Refused>
    ensures { OnOk result (PrintsStored (MakesRoot ⟦<P as Kept>⟧.analysis engine.old engine.new name.now) out.old out.new) }
{
    let ticket = engine.table.root(name)?;
    engine.store_all()?;
    append_stored(ticket, out)?;
    Ok(())
}

/// Does what the hands left pending, each batch stored as it is full, and appends `quiet` once all is stored. Where nothing is
/// pending and all is stored, as the hands leave it, it makes no disk call.
pub fn end_work<P: Problem, D: Disk>(
    engine: &mut SlotEngine<P, D>,
    out: &mut Vec<u8>,
) -> Result<(), Refused>
    ensures { OnOk result (EndsQuiet ⟦<P as Kept>⟧.analysis engine.old engine.new out.old out.new) }
{
    engine.work_off()?;
    out.extend_from_slice(b"quiet\n")?;
    Ok(())
}

/// Makes a checkpoint of a store of the first version, where one begins, so that it is of the second then; of one of the
/// second it does nothing.
pub(crate) fn migrate<P: Problem, D: Disk>(
    alloc: Global,
    engine: &mut SlotEngine<P, D>,
) -> Result<(), Refused>
    ensures { OnOk result (Migrates ⟦<P as Kept>⟧.analysis engine.old engine.new) }
{
    match engine.version() {
        Version::One => checkpoint(alloc, engine),
        Version::Two => Ok(()),
    }
}

/// Makes a checkpoint, where one begins: disk calls, until none is left to make.
pub(crate) fn checkpoint<P: Problem, D: Disk>(
    alloc: Global,
    engine: &mut SlotEngine<P, D>,
) -> Result<(), Refused>
    ensures { OnOk result (MakesCheckpoint ⟦<P as Kept>⟧.analysis engine.old engine.new) }
{
    let _ = engine.checkpoint(alloc)?;
    engine.store_all()?;
    Ok(())
}

/// Appends the generation of the current slot.
pub(crate) fn append_generation<P: Problem, D: Disk>(
    engine: &SlotEngine<P, D>,
    out: &mut Vec<u8>,
) -> Result<(), AllocError>
    ensures { OnOk result (PrintsGeneration engine.now out.old out.new) }
{
    append_line(b"generation ", u64::from(engine.generation()), out)
}

/// Appends the version of the current slot.
pub(crate) fn append_version<P: Problem, D: Disk>(
    engine: &SlotEngine<P, D>,
    out: &mut Vec<u8>,
) -> Result<(), AllocError>
    ensures { OnOk result (PrintsVersion engine.now out.old out.new) }
{
    append_line(b"version ", version_number(engine.version()), out)
}

/// Appends the number of a stored record.
fn append_stored(ticket: Ticket, out: &mut Vec<u8>) -> Result<(), AllocError>
    ensures { OnOk result (out.new.items ≡ out.old.items ++ stored_line ticket.number) }
{
    append_line(b"stored ", ticket.number, out)
}

/// Appends the value of a fact at a position of a procedure.
///
/// Refusals, in this order: those of [`TableHalf::freeze`], of `Graph::find` and of `Values::at`.
pub(crate) fn ask<P: Problem>(
    alloc: Global,
    table: &TableHalf<P>,
    procedure: &[u8],
    position: u32,
    fact: &[u8],
    out: &mut Vec<u8>,
) -> Result<(), Refused>
    ensures { OnOk result (Prints (Answers ⟦<P as Kept>⟧.analysis P.L.shown table.now procedure.now position fact.now) out.old out.new) }
{
    let values = values_of(alloc, table)?;
    let (node, fact) = values.loaded().graph.find(procedure, position, fact)?;
    let value = values.at(node, fact)?;
    value.show(out)?;
    out.extend_from_slice(b"\n")?;
    Ok(())
}

/// Appends the dump of all values.
pub(crate) fn dump<P: Problem>(
    alloc: Global,
    table: &TableHalf<P>,
    out: &mut Vec<u8>,
) -> Result<(), Refused>
    ensures { OnOk result (PrintsDump ⟦<P as Kept>⟧.analysis P.L.shown table.now out.old out.new) }
{
    let values = values_of(alloc, table)?;
    values.dump(out)
}

/// Writes the dump of all values of the image as it stands: neither it nor all values stand in memory whole
/// ([`ValuePhase::write_values`]). Inside is how the output did.
///
/// Refusals, in this order: those of [`TableHalf::freeze`]; `NoMemory`. Nothing is written then.
pub fn write_dump<R: Threads + Sync, P: Problem, W: Write>(
    rt: &R,
    alloc: Global,
    table: &TableHalf<P>,
    out: &mut W,
) -> Result<io::Result<()>, Refused>
where
    P::F: Sync,
    P::L: Send + Sync,
    ensures written { IfOk result (λ end. WritesText (Dumps ⟦<P as Kept>⟧.analysis P.L.shown table.now) end (W.contents out.old) (W.contents out.new)) }
    ensures refused { IfErr result (IsDumpRefusal table.now) }
    ensures unchanged { OnErr result (out.new ≡ out.old) }
{
    match table.freeze() {
        Ok(closed) => closed.write_values(rt, alloc, 1, out),
        Err(refused) => Err(refused),
    }
}

/// The values of the image as it stands.
fn values_of<P: Problem>(alloc: Global, table: &TableHalf<P>) -> Result<Values<P>, Refused>
    ensures { IfOk result (AreNow ⟦<P as Kept>⟧.analysis table.now) }
{
    let closed = table.freeze()?;
    let values = closed.values_alone(alloc)?;
    Ok(values)
}
