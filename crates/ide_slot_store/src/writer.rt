//! The half of a store on two disks that writes: it takes sealed records to the current disk, and a
//! checkpoint to the other, one disk call at a time.
ghost use Rattle.std.specs.Prelude.{◌≡◌, ◌⊎◌, ◌↔◌, ◌+◌, ◌<◌, ◌≤◌, ◌∷◌, ◌++◌, [], true, false, length, Err, Ok, IfErr, IfOk, IsTrue, OnErr, OnOk};
ghost use Rattle.std.specs.List.{All};
ghost use Rattle.ide_journal.specs.Format.{IsEntry};
ghost use Rattle.ide_journal.specs.Lists.{entries_of, entry_of};
ghost use Rattle.ide_slots.specs.Records.{all_numbered};
ghost use Rattle.ide_slots.specs.Slot.{IsPartEntry};
ghost use Rattle.ide_slot_store.specs.Commands.{HasRoomForNext};

use crate::commands::{commands_among, keep_oldest};
use crate::planning::plan_over;
use ide_disk::Disk;
use ide_journal::{RawRecord, Version};
use ide_problem::Problem;
use ide_slot_journal::SlotJournal;
use ide_slots::NumberedRecord;
use ide_store::{MOST_RECORDS, TableHalf};
use ide_wire::Refused;
use std::alloc::Global;
use std::collections::VecDeque;

/// A journal on two disks, and the sealed records that it does not have yet.
#[derive(Drop)]
pub struct SlotWriterHalf<D: Disk> {
    pub(crate) journal: SlotJournal<D>,
    /// The oldest first: the one under way, where one is.
    waiting: VecDeque<RawRecord>,
    /// The commands among the stored records, under their numbers, with room for the record under way.
    commands: Vec<NumberedRecord>,
    ghost proper: { All (λ raw. IsEntry (entry_of raw)) waiting.items },
    ghost room: { HasRoomForNext journal (length waiting.items) commands },
}

impl<D: Disk> SlotWriterHalf<D> {
    ghost use Rattle.ide_slot_journal.specs.Checkpoints.{MayLeaveInCheckpoint};
    ghost use Rattle.ide_slot_journal.specs.Making.{ComeBackHonest, FailsNever, IsMakingRefusal};
    ghost use Rattle.ide_slot_journal.specs.OneDisk.{FailsNoCall};
    ghost use Rattle.ide_slot_journal.specs.Opened.{FailsOneDisk, MayStop, RefusesBoth, StopsBoth};
    ghost use Rattle.ide_slot_journal.specs.Planning.{MakeUpCheckpoint};
    ghost use Rattle.ide_slot_journal.specs.Plans.{IsPlanRefusal, MayHaveBase};
    ghost use Rattle.ide_slot_journal.specs.Records.{MayLeaveInRecord};
    ghost use Rattle.ide_slot_journal.specs.Stands.{AreHonest, HasFaulted, HasNoNext, IsCheckpointing, IsFilling, IsTurn, pair_of, records_stored, sides_of};
    ghost use Rattle.ide_store.specs.Table.{IsSameTable};
    ghost use Rattle.ide_slot_store.specs.Half.{CallsOver, CrashesStep, FailsNone, HasNoCommand, HasStoredAll, IsBeginRefusal, IsNewHalf, IsPlanAllRefusal, IsQuiet, IsSameHalf, KeepsWriting, OpensHalf, PlansAllOver, PlansGiven, Seals, StaysFaulted, StepsOver, TakesAllFrom, TakesFrom, TellsCall, TellsFault, WritesGiven, half_sides_after};

    /// Makes a store with no record on the disks A and B, whatever they held.
    ///
    /// Refusals: those of [`SlotJournal::create`]; the disks come back.
    pub fn create(alloc: Global, a: D, b: D, tag: u8) -> Result<Self, (Refused, D, D)>
        requires { 0 < tag }
        ensures made { D.honest a → D.honest b → IfOk result (IsNewHalf tag) }
        ensures honest { D.honest a → D.honest b → IfOk result (λ half. AreHonest half.journal) }
        ensures failures { IfOk result (λ half. FailsNever D.Disk a b half.journal) }
        ensures back { ComeBackHonest D.Disk a b result }
        ensures refused { IfErr result (λ all. IsMakingRefusal D.Disk a b all.1 all.2 all.0) }
    {
        match SlotJournal::create(alloc, a, b, tag) {
            Ok(journal) => Ok(SlotWriterHalf {
                journal,
                waiting: VecDeque::new(alloc),
                commands: Vec::new(alloc),
            }),
            Err(all) => Err(all),
        }
    }

    /// Opens the store with that tag that the disks A and B hold, and gives the records of its current slot:
    /// the commands of its checkpoint under their old numbers, its parts, numbered from 0 on, and the records
    /// behind it.
    ///
    /// Refusals: those of [`SlotJournal::open`]; `NoMemory`. The disks come back.
    pub fn open(
        alloc: Global,
        a: D,
        b: D,
        tag: u8,
    ) -> Result<(Self, Vec<NumberedRecord>), (Refused, D, D)>
        ensures opened { D.honest a → D.honest b → IfOk result (OpensHalf tag a b) }
        ensures first_honest { D.honest a → D.honest b → D.honest (half_sides_after result).a }
        ensures second_honest { D.honest a → D.honest b → D.honest (half_sides_after result).b }

        // What a crash at any moment leaves of both is something that an opening may have stopped with.
        ensures any_moment { MayStop D.Disk a b (half_sides_after result) }

        // One that is refused has stopped.
        ensures stops { D.honest a → D.honest b → IfErr result (StopsBoth D.Disk a b) }

        // `Disk` is answered where a call of one of the disks failed, and at Ok none did.
        ensures fault { IfErr result (FailsOneDisk D.Disk a b) }
        ensures first_failures { OnOk result (FailsNoCall D.Disk a (half_sides_after result).a) }
        ensures second_failures { OnOk result (FailsNoCall D.Disk b (half_sides_after result).b) }
        ensures refused { D.honest a → D.honest b → IfErr result (RefusesBoth D.Disk tag a b) }
    {
        match SlotJournal::open(alloc, a, b, tag) {
            Ok((journal, records)) => match commands_among(alloc, records.as_slice()) {
                Ok(commands) => {
                    let waiting = VecDeque::new(alloc);
                    let half = SlotWriterHalf {
                        journal,
                        waiting,
                        commands,
                    };
                    Ok((half, records))
                }
                Err(refused) => {
                    let (a, b) = journal.into_disks();
                    Err((refused, a, b))
                }
            },
            Err(all) => Err(all),
        }
    }

    /// The version of the current slot.
    pub fn version(&self) -> Version
        ensures { result ≡ self.now.journal.version }
    {
        self.journal.version()
    }

    /// The generation of the current slot.
    pub fn generation(&self) -> u32
        ensures { result ≡ self.now.journal.generation }
    {
        self.journal.generation()
    }

    /// How many records stand below the checkpoint of the current slot: 0 where it has none.
    pub fn base(&self) -> u32
        ensures { result ≡ self.now.journal.base }
    {
        self.journal.base()
    }

    /// Whether a checkpoint is planned, or makes its calls.
    pub fn is_checkpointing(&self) -> bool
        ensures { IsTrue result ↔ IsCheckpointing self.now.journal }
    {
        self.journal.is_checkpointing()
    }

    /// How many records are stored, those below the checkpoint too.
    pub fn stored(&self) -> u64
        ensures { result ≡ records_stored self.now.journal }
    {
        self.journal.count()
    }

    /// Seals a record: it is stored behind those sealed before it.
    ///
    /// Refusal: `NoMemory`, and nothing is sealed.
    pub fn seal(&mut self, raw: RawRecord) -> Result<(), Refused>
        requires { IsEntry (entry_of raw) }
        ensures sealed { OnOk result (Seals (entry_of raw) self.old self.new) }
        ensures unchanged { OnErr result (IsSameHalf self.old self.new) }
        ensures refused { IfErr result (λ e. e ≡ Refused.NoMemory) }
    {
        if self.waiting.push_back(raw).is_err() {
            return Err(Refused::NoMemory);
        }
        Ok(())
    }

    /// Plans a checkpoint that stands for the records below the base: these commands, under their old
    /// numbers, and these parts of an image. Its calls come once the records below the base are stored.
    ///
    /// Refusals: `NoMemory`; `Failed`, where a disk call failed before. Nothing is changed then.
    pub fn plan(
        &mut self,
        alloc: Global,
        base: u32,
        commands: &[NumberedRecord],
        parts: &[RawRecord],
    ) -> Result<(), Refused>
        requires none { IsCheckpointing self.old.journal → ⊥ }
        requires generation { self.old.journal.generation < 4294967295 }
        requires up_to { MayHaveBase self.old.journal base }
        requires proper { MakeUpCheckpoint base (all_numbered commands.now) (entries_of parts.now) }
        ensures planned { OnOk result (PlansGiven base commands.now parts.now self.old self.new) }
        ensures writes { OnOk result (WritesGiven base commands.now parts.now self.old self.new) }
        ensures disks { sides_of self.new.journal ≡ sides_of self.old.journal }
        ensures unchanged { OnErr result (KeepsWriting self.old self.new) }
        ensures quiet { OnErr result (IsQuiet self.old.journal self.new.journal) }
        ensures failed { HasFaulted self.old.journal → result ≡ Err Refused.Failed }
        ensures refused { IfErr result (IsPlanRefusal self.old.journal) }
    {
        self.journal.plan(alloc, base, commands, parts)
    }

    /// Plans a checkpoint of all records that were sealed, with the commands among them and these parts of
    /// an image, and answers whether there is a command among them: where there is none, none is planned.
    ///
    /// Refusals: `NoMemory`; `Failed`, where a disk call failed before; `Limit`, where the commands are not
    /// such that a checkpoint can have them. Nothing is changed then.
    #[tactic(auto, using(crate::proofs::PlanningAll::all_planned, crate::proofs::PlanningAll::none_kept, crate::proofs::PlanningAll::all_refused))]
    pub fn plan_all(&mut self, alloc: Global, parts: &[RawRecord]) -> Result<bool, Refused>
        requires none { IsCheckpointing self.old.journal → ⊥ }
        requires generation { self.old.journal.generation < 4294967295 }
        requires parts { All IsPartEntry (entries_of parts.now) }
        requires few { length parts.now ≤ 4294967295 }
        ensures planned { result ≡ Ok true → PlansAllOver (entries_of parts.now) self.old self.new }
        ensures none { result ≡ Ok false → HasNoCommand self.old }
        ensures disks { sides_of self.new.journal ≡ sides_of self.old.journal }
        ensures unplanned { (result ≡ Ok true → ⊥) → KeepsWriting self.old self.new }
        ensures quiet { (result ≡ Ok true → ⊥) → IsQuiet self.old.journal self.new.journal }
        ensures refused { IfErr result (IsPlanAllRefusal self.old) }
    {
        let kept = self.commands.len();
        let journal = &mut self.journal;
        let planned = plan_over(alloc, journal, &mut self.commands, &self.waiting, parts);
        self.commands.truncate(kept);
        planned
    }

    /// Makes the next disk call, for the oldest record that is not stored or, where it is its turn, of the
    /// checkpoint, and answers whether there was one to make. After four for it a record is stored.
    ///
    /// Refusals: `Disk`, where the call failed; `Failed`, where one failed before; `NoMemory`, before the
    /// first call of a record.
    pub fn disk_step(&mut self) -> Result<bool, Refused>
        ensures steps { AreHonest self.old.journal → StepsOver self.old self.new result }
        ensures honest { AreHonest self.old.journal → AreHonest self.new.journal }

        // Where there was none to make, it is no checkpoint's turn either.
        ensures rests { result ≡ Ok false → IsFilling self.new.journal → ⊥ }

        // A crash at any moment of the step leaves what one before it may leave, or what one behind a call
        // that failed may.
        ensures any_moment { AreHonest self.old.journal → CrashesStep self.old self.new }
        ensures failures { OnOk result (FailsNone self.old.journal self.new.journal) }
        ensures fault { TellsFault result self.old.journal self.new.journal }
        ensures failed { HasFaulted self.old.journal → result ≡ Err Refused.Failed }
    {
        if self.journal.is_checkpoints_turn() {
            return self.fill();
        }
        match self.begin_next() {
            Ok(true) => self.advance(),
            Ok(false) => Ok(false),
            Err(refused) => Err(refused),
        }
    }

    /// Puts the oldest record that waits under way, if none is, and answers whether one is then.
    #[tactic(auto, using(crate::specs::Half::memory, crate::specs::Half::limit))]
    fn begin_next(&mut self) -> Result<bool, Refused>
        requires { IsTurn self.old.journal }
        ensures writes { KeepsWriting self.old self.new }
        ensures quiet { IsQuiet self.old.journal self.new.journal }
        ensures turn { IsTurn self.new.journal }
        ensures busy { result ≡ Ok true → (HasNoNext self.new.journal → ⊥) }
        ensures rests { result ≡ Ok false → HasStoredAll self.old }
        ensures same { result ≡ Ok false → IsSameHalf self.old self.new }
        ensures failed { StaysFaulted result self.old.journal self.new.journal }
        ensures refused { IfErr result (IsBeginRefusal self.old) }
    {
        if !self.journal.is_idle() {
            return Ok(true);
        }
        let Some(next) = self.waiting.front() else {
            return Ok(false);
        };
        if self.journal.count() >= MOST_RECORDS {
            return Err(Refused::Limit);
        }
        if self.commands.reserve(1).is_err() {
            return Err(Refused::NoMemory);
        }
        match self.journal.begin(next) {
            Ok(()) => Ok(true),
            Err(refused) => Err(refused),
        }
    }

    /// Makes the next disk call for the record under way, and answers that there was one to make. Once
    /// none is under way any more, the oldest is stored, and kept if it is a command.
    fn advance(&mut self) -> Result<bool, Refused>
        requires busy { HasNoNext self.old.journal → ⊥ }
        requires turn { IsTurn self.old.journal }
        ensures calls { AreHonest self.old.journal → CallsOver self.old self.new result }
        ensures honest { AreHonest self.old.journal → AreHonest self.new.journal }
        ensures any_moment { MayLeaveInRecord self.old.journal self.new.journal }
        ensures told { TellsCall result self.old.journal self.new.journal }
    {
        let number = self.journal.count();
        match self.journal.advance() {
            Ok(_) => {
                if self.journal.is_idle() {
                    keep_oldest(&mut self.waiting, &mut self.commands, number as u32);
                }
                Ok(true)
            }
            Err(refused) => Err(refused),
        }
    }

    /// Makes the next disk call of the checkpoint, and answers that there was one to make.
    fn fill(&mut self) -> Result<bool, Refused>
        requires { IsFilling self.old.journal }
        ensures calls { AreHonest self.old.journal → CallsOver self.old self.new result }
        ensures honest { AreHonest self.old.journal → AreHonest self.new.journal }
        ensures any_moment { MayLeaveInCheckpoint self.old.journal self.new.journal }
        ensures told { TellsCall result self.old.journal self.new.journal }
    {
        match self.journal.advance_checkpoint() {
            Ok(_) => Ok(true),
            Err(refused) => Err(refused),
        }
    }

    /// Takes over the sealed records that wait with the half that works, where none waits here. It takes
    /// no memory.
    pub fn take_from<P: Problem>(&mut self, table: &mut TableHalf<P>)
        ensures hands { TakesFrom table.old table.new self.old self.new }
        ensures journal { self.new.journal ≡ self.old.journal }
        ensures commands { self.new.commands.items ≡ self.old.commands.items }
        ensures proper { All IsEntry (entries_of self.new.waiting.items) }
        ensures few { table.old.sealed ≤ 4294967295 }
    {
        table.hand_over(&mut self.waiting);
    }

    /// Takes over all sealed records that wait with the half that works, behind those that wait here.
    ///
    /// Refusal: `NoMemory`, and none is taken over.
    pub fn take_all_from<P: Problem>(&mut self, table: &mut TableHalf<P>) -> Result<(), Refused>
        ensures hands { OnOk result (TakesAllFrom table.old table.new self.old self.new) }
        ensures journal { self.new.journal ≡ self.old.journal }
        ensures commands { self.new.commands.items ≡ self.old.commands.items }
        ensures proper { All IsEntry (entries_of self.new.waiting.items) }
        ensures few { table.old.sealed ≤ 4294967295 }
        ensures unchanged { OnErr result (IsSameTable table.old table.new) }
        ensures queue { OnErr result (self.new.waiting.items ≡ self.old.waiting.items) }
        ensures refused { IfErr result (λ e. e ≡ Refused.NoMemory) }
    {
        table.hand_over_all(&mut self.waiting)
    }

    /// The disks A and B, as the writer leaves them.
    pub fn into_disks(self) -> (D, D)
        ensures { result ≡ pair_of (sides_of self.journal) }
    {
        let SlotWriterHalf { journal, .. } = self;
        journal.into_disks()
    }
}
