//! A store on two disks that works and writes: a core whose steps are kept on the current disk.
ghost use Rattle.std.specs.Prelude.{◌≡◌, ◌↔◌, false, true, Err, Ok, IfErr, IfOk, IsTrue, OnOk};
ghost use Rattle.ide_slot_journal.specs.Stands.{records_stored};
ghost use Rattle.ide_slot_store.specs.Batches.{batches_of};
ghost use Rattle.ide_slot_store.specs.Engine.{HasFoldOf, RefusesTable};
ghost use Rattle.ide_store.specs.Opening.{GoesOnFrom};

use crate::batches::as_batches;
use crate::laws::{slot_halves_open, slot_journals_write_stores};
use crate::writer::SlotWriterHalf;
use ide_disk::Disk;
use ide_journal::Version;
use ide_problem::Problem;
use ide_slots::NumberedRecord;
use ide_store::{Kept, TableHalf};
use ide_wire::Refused;
use std::alloc::Global;

/// A store's two halves. Each may be lent to a worker of its own: they meet where records are handed
/// over.
#[derive(Drop)]
pub struct SlotEngine<P: Problem, D: Disk> {
    /// The half that works: it takes the calls of a core, and seals what they did.
    pub table: TableHalf<P>,
    /// The half that writes what was sealed.
    pub writer: SlotWriterHalf<D>,
}

impl<P: Problem, D: Disk> SlotEngine<P, D> {
    ghost use Rattle.ide_slot_journal.specs.Making.{ComeBackHonest, IsMakingRefusal};
    ghost use Rattle.ide_slot_journal.specs.OneDisk.{FailsNoCall};
    ghost use Rattle.ide_slot_journal.specs.Opened.{FailsOneDisk};
    ghost use Rattle.ide_slot_journal.specs.Stands.{IsFilling, pair_of, sides_of};
    ghost use Rattle.ide_slot_store.specs.Engine.{CrashesEngine, CrashesEngineOpening, HasHonestDisks, MakesEngine, OpensEngine, RefusesEngine, StaysFailed, StepsEngine, StopsEngineOpening, engine_sides_after};
    ghost use Rattle.ide_slot_store.specs.Half.{FailsNone, TellsFault};

    /// Makes a store with no program and no record on the disks A and B, whatever they held.
    ///
    /// Refusals: those of [`SlotWriterHalf::create`]; the disks come back.
    pub fn create(alloc: Global, a: D, b: D) -> Result<Self, (Refused, D, D)>
        ensures made { MakesEngine ⟦<P as Kept>⟧.analysis P.TAG a b result }
        ensures honest { D.honest a → D.honest b → IfOk result HasHonestDisks }
        ensures back { ComeBackHonest D.Disk a b result }
        ensures refused { IfErr result (λ all. IsMakingRefusal D.Disk a b all.1 all.2 all.0) }
    {
        slot_journals_write_stores::<P, D>();
        let table = TableHalf::new(alloc, Version::Two);
        match SlotWriterHalf::create(alloc, a, b, P::TAG) {
            Ok(writer) => Ok(SlotEngine { table, writer }),
            Err(all) => Err(all),
        }
    }

    /// Opens the store of this analysis that the disks A and B hold: its image is the fold of the records
    /// of its current slot, of either version, all of them are acknowledged, and no hand has a claim.
    ///
    /// Refusals: those of [`SlotWriterHalf::open`] and of [`TableHalf::open`]; `NoMemory`; the disks come
    /// back.
    pub fn open(alloc: Global, a: D, b: D) -> Result<Self, (Refused, D, D)>
        ensures opened { OpensEngine ⟦<P as Kept>⟧.analysis P.TAG a b result }
        ensures first_honest { D.honest a → D.honest b → D.honest (engine_sides_after result).a }
        ensures second_honest { D.honest a → D.honest b → D.honest (engine_sides_after result).b }

        // What a crash at any moment of the call leaves, one of each world whose disks they were may leave.
        // An opening that is refused has stopped in each of them.
        ensures crashes { CrashesEngineOpening ⟦<P as Kept>⟧.analysis a b result }
        ensures stops { StopsEngineOpening ⟦<P as Kept>⟧.analysis a b result }
        ensures refused { RefusesEngine ⟦<P as Kept>⟧.analysis P.TAG a b result }

        // `Disk` is answered where a call of one of the disks failed, and at Ok none did.
        ensures fault { IfErr result (FailsOneDisk D.Disk a b) }
        ensures first_failures { OnOk result (FailsNoCall D.Disk a (engine_sides_after result).a) }
        ensures second_failures { OnOk result (FailsNoCall D.Disk b (engine_sides_after result).b) }
    {
        slot_halves_open::<P, D>();
        match SlotWriterHalf::open(alloc, a, b, P::TAG) {
            Ok((writer, found)) => match table_over(alloc, found, &writer) {
                Ok(table) => Ok(SlotEngine { table, writer }),
                Err(refused) => {
                    let (a, b) = writer.into_disks();
                    Err((refused, a, b))
                }
            },
            Err(all) => Err(all),
        }
    }

    /// Makes the next disk call for the oldest record that is sealed and not stored or, where it is its
    /// turn, of the checkpoint, and answers whether there was one to make. After four for it a record is
    /// stored.
    ///
    /// Refusals: `Failed`, where a call failed before; `Disk`, where this one did: from then on each call
    /// is refused; `NoMemory`, before the first call for a record.
    pub fn disk_step(&mut self) -> Result<bool, Refused>
        ensures steps { StepsEngine ⟦<P as Kept>⟧.analysis self.old self.new result }
        ensures honest { HasHonestDisks self.old → HasHonestDisks self.new }

        // Where there was no call to make, it is no checkpoint's turn either.
        ensures rests { result ≡ Ok false → IsFilling self.new.writer.journal → ⊥ }

        // What a crash at any moment of the call leaves, one of each world on which the halves were at
        // work may leave.
        ensures crashes { CrashesEngine ⟦<P as Kept>⟧.analysis self.old self.new }

        // `Disk` is answered where a call of a disk failed, and at Ok none did. From then on nothing is
        // done.
        ensures failures { OnOk result (FailsNone self.old.writer.journal self.new.writer.journal) }
        ensures fault { TellsFault result self.old.writer.journal self.new.writer.journal }
        ensures failed { StaysFailed result self.old self.new }
        ensures fails { result ≡ Err Refused.Disk → self.new.table.failed ≡ true }
    {
        if self.table.is_stopped() {
            return Err(Refused::Failed);
        }
        self.writer.take_from(&mut self.table);
        match self.writer.disk_step() {
            Ok(called) => Ok(called),
            Err(refused) => {
                if is_fault(refused) {
                    self.table.stop();
                }
                Err(refused)
            }
        }
    }

    /// How many records are stored: those numbered below are acknowledged.
    pub fn acked(&self) -> u64
        ensures { result ≡ records_stored self.now.writer.journal }
    {
        self.writer.stored()
    }

    /// The generation of the current slot.
    pub fn generation(&self) -> u32
        ensures { result ≡ self.now.writer.journal.generation }
    {
        self.writer.generation()
    }

    /// The version of the current slot.
    pub fn version(&self) -> Version
        ensures { result ≡ self.now.writer.journal.version }
    {
        self.writer.version()
    }

    /// The disks A and B, as the store leaves them.
    pub fn into_disks(self) -> (D, D)
        ensures { result ≡ pair_of (sides_of self.writer.journal) }
    {
        let SlotEngine { writer, .. } = self;
        writer.into_disks()
    }
}

/// The half that works over the records of the writer's slot.
fn table_over<P: Problem, D: Disk>(
    alloc: Global,
    found: Vec<NumberedRecord>,
    writer: &SlotWriterHalf<D>,
) -> Result<TableHalf<P>, Refused>
    ensures opened { IfOk result (GoesOnFrom ⟦<P as Kept>⟧.analysis (batches_of found.items)) }
    ensures folds { OnOk result (HasFoldOf ⟦<P as Kept>⟧.analysis writer.now found.items) }
    ensures version { IfOk result (λ table. table.version ≡ writer.now.journal.version) }
    ensures sealed { IfOk result (λ table. table.sealed ≡ records_stored writer.now.journal) }
    ensures refused { IfErr result (RefusesTable ⟦<P as Kept>⟧.analysis writer.now found.items) }
{
    let records = as_batches(alloc, found)?;
    TableHalf::open(alloc, records.as_slice(), writer.version(), writer.stored())
}

/// Whether a call of a disk failed.
fn is_fault(refused: Refused) -> bool
    ensures { IsTrue result ↔ (refused ≡ Refused.Disk) }
{
    matches!(refused, Refused::Disk)
}
