//! How far a store has come.
ghost use Rattle.std.specs.Prelude.{◌≡◌, ◌++◌, OnOk, IfOk};
ghost use Rattle.ide_commands.specs.Status.{IsStatusOf, PrintsStatus, image_lines, program_line, slot_lines, status_lines};

use crate::lines::{append_line, version_number};
use ide_disk::Disk;
use ide_problem::Problem;
use ide_slot_store::SlotEngine;
use ide_wire::Refused;
use std::alloc::AllocError;

/// What is counted of a store.
#[derive(Clone, Copy, PartialEq, Eq, Debug)]
pub(crate) struct Status {
    /// Whether a program was loaded.
    has_program: bool,
    roots: u64,
    /// How many keys have an entry, and how many are pending.
    keys: u64,
    pending: u64,
    /// How many records are stored, and how many bytes both disks of the store have.
    records: u64,
    bytes: u64,
    /// The generation of the current slot, how many records stand below its checkpoint, and its version.
    generation: u64,
    base: u64,
    version: u64,
}

impl Status {
    /// The counts of an open store.
    ///
    /// Refusal: `Disk`, where a disk does not tell its length.
    pub(crate) fn of<P: Problem, D: Disk + Drop>(
        engine: SlotEngine<P, D>,
    ) -> Result<Status, Refused>
        ensures { IfOk result (IsStatusOf engine.table engine.writer) }
    {
        let core = engine.table.core();
        let has_program = core.program().is_some();
        let roots = core.roots().len() as u64;
        let keys = core.key_count() as u64;
        let pending = core.pending_count() as u64;
        let records = engine.acked();
        let generation = u64::from(engine.generation());
        let base = u64::from(engine.writer.base());
        let version = version_number(engine.version());
        let (mut a, mut b) = engine.into_disks();
        let first = length_of(&mut a)?;
        let second = length_of(&mut b)?;
        Ok(Status {
            has_program,
            roots,
            keys,
            pending,
            records,
            bytes: first.saturating_add(second),
            generation,
            base,
            version,
        })
    }

    /// Appends a line for each count: its name, a space, and the count.
    pub(crate) fn append(&self, out: &mut Vec<u8>) -> Result<(), AllocError>
        ensures { OnOk result (out.new.items ≡ out.old.items ++ status_lines self.now) }
    {
        self.append_image(out)?;
        self.append_slots(out)?;
        Ok(())
    }

    /// Those of the image.
    fn append_image(&self, out: &mut Vec<u8>) -> Result<(), AllocError>
        ensures { OnOk result (out.new.items ≡ out.old.items ++ image_lines self.now) }
    {
        out.extend_from_slice(program_line(self.has_program))?;
        append_line(b"roots ", self.roots, out)?;
        append_line(b"keys ", self.keys, out)?;
        append_line(b"pending ", self.pending, out)?;
        Ok(())
    }

    /// Those of the slots.
    fn append_slots(&self, out: &mut Vec<u8>) -> Result<(), AllocError>
        ensures { OnOk result (out.new.items ≡ out.old.items ++ slot_lines self.now) }
    {
        append_line(b"records ", self.records, out)?;
        append_line(b"bytes ", self.bytes, out)?;
        append_line(b"generation ", self.generation, out)?;
        append_line(b"base ", self.base, out)?;
        append_line(b"version ", self.version, out)?;
        Ok(())
    }
}

/// Appends the counts of an open store.
///
/// Refusals: `Disk`, where a disk does not tell its length; `NoMemory`.
pub(crate) fn append_status<P: Problem, D: Disk + Drop>(
    engine: SlotEngine<P, D>,
    out: &mut Vec<u8>,
) -> Result<(), Refused>
    ensures { OnOk result (PrintsStatus engine.table engine.writer out.old out.new) }
{
    let status = Status::of(engine)?;
    status.append(out)?;
    Ok(())
}

/// How many bytes the disk has.
fn length_of<D: Disk>(disk: &mut D) -> Result<u64, Refused>
    ensures { IfOk result (λ bytes. bytes ≡ D.size disk.old) }
{
    match disk.len() {
        Ok(bytes) => Ok(bytes),
        Err(_) => Err(Refused::Disk),
    }
}

/// The line that says whether there is a program.
fn program_line(has_program: bool) -> &'static [u8]
    ensures { result.now ≡ program_line has_program }
{
    if has_program {
        b"program yes\n"
    } else {
        b"program no\n"
    }
}
