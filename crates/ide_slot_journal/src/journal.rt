//! A list of records on two disks.
ghost use Rattle.std.specs.Prelude.{◌≡◌, ◌↔◌, ◌+◌, ◌<◌, ◌≤◌, length, IsTrue, OnOk, OnErr, IfOk, IfErr, Err, Ok};
ghost use Rattle.ide_journal.specs.Format.{IsEntry};
ghost use Rattle.ide_slots.specs.Records.{all_numbered};
ghost use Rattle.ide_slot_journal.specs.OneDisk.{MakesDiskCall};
ghost use Rattle.ide_slot_journal.specs.Stages.{first_place, stage_call};

use crate::calls::{sync, write};
use crate::filler::Filler;
use crate::opening::{choose, count_of, recover};
use crate::planning::spell_checkpoint;
use crate::stage::{FillStage, RecordStage};
use ide_disk::{DeviceFault, Disk};
use ide_journal::{Phase, RawRecord, Version, rewrite, spell_header, spell_record};
use ide_slots::{LoadedSlot, NumberedRecord, Side, SlotHead};
use ide_wire::Refused;
use std::alloc::Global;
use std::mem;

/// A list of records on two disks, of which one is current. One more record may be under way; it is
/// stored after four disk calls.
#[derive(Drop)]
pub struct SlotJournal<D: Disk> {
    /// The disk of the current slot, and the other.
    current: D,
    other: D,
    /// Which of A and B the current one is.
    side: Side,
    version: Version,
    tag: u8,
    /// The generation of the current slot.
    generation: u32,
    /// How many records stand below the checkpoint of the current slot: 0 where it has none.
    base: u32,
    /// Where the closed gate behind the stored records stands.
    gate: u64,
    /// The same, or, once the next record is written, where the gate behind it stands.
    end: u64,
    /// How many records are stored, those below the checkpoint too.
    count: u64,
    /// The same, or one more where there is a next record.
    next: u64,
    stage: RecordStage,
    /// What stands behind the gate of the next record, with a closed gate.
    tail: Vec<u8>,
    /// What fills the other slot.
    filler: Filler,
    ghost behind: { 4096 ≤ gate },
    ghost forward: { gate ≤ end },
    ghost inside: { end < D.size current },
    ghost numbered: { next ≤ 4294967295 },
    ghost page: { 4097 ≤ filler.at },
    ghost placed: { first_place filler.stage filler.at ≡ 4097 },
    ghost reached: { filler.at ≤ D.size other },
}

impl<D: Disk> SlotJournal<D> {
    ghost use Rattle.ide_journal.specs.Lists.{entries_of, entry_of};
    ghost use Rattle.ide_journal.specs.Phases.{stage_after};
    ghost use Rattle.ide_slot_journal.specs.Checkpoints.{FillsOrTurns, IsCheckpointRefusal, KeepsNext, MakesCheckpointStep, MayLeaveInCheckpoint, TurnsOver, called_disk, still_disk};
    ghost use Rattle.ide_slot_journal.specs.Fillers.{next_place};
    ghost use Rattle.ide_slot_journal.specs.Making.{ComeBackHonest, FailsNever, IsMakingRefusal, StandsNew};
    ghost use Rattle.ide_slot_journal.specs.Opened.{CountsFailures, FailsOnlyIn, IsFresh, MayStop, OpensBoth, RefusesBoth, RefusesOne, Resumes, StopsBoth, disk_left, sides_left};
    ghost use Rattle.ide_slot_journal.specs.Opening.{OnlyCuts, StopsIfRefused};
    ghost use Rattle.ide_slots.specs.Sides.{off};
    ghost use Rattle.ide_slot_journal.specs.Planning.{MakeUpCheckpoint};
    ghost use Rattle.ide_slot_journal.specs.Plans.{IsPlanRefusal, KeepsSides, MayHaveBase, PlansFrom};
    ghost use Rattle.ide_slot_journal.specs.Records.{TouchesNoDisk, IsRecordRefusal, IsSameJournal, KeepsOther, KeepsRecord, MakesRecordStep, MayLeaveInRecord, PutsNext, PutsNone, ReachesPhase};
    ghost use Rattle.ide_slot_journal.specs.Stands.{AreHonest, CallsIfNoFault, HasFaulted, HasRoomToWrite, IsCheckpointing, IsFilling, HasNoNext, IsTurn, pair_of, sides_of, records_stored};

    /// Makes a store with no record on the disks A and B, whatever they held: both slots are of generation
    /// 0 and closed, and A is current.
    ///
    /// Refusals: `NoMemory`; `Disk`, where a call of a disk failed. The disks come back.
    #[tactic(auto, using(crate::specs::Making::making_memory, crate::specs::Making::making_first, crate::specs::Making::making_second))]
    pub fn create(alloc: Global, mut a: D, mut b: D, tag: u8) -> Result<Self, (Refused, D, D)>
        requires { 0 < tag }
        ensures stands { D.honest a → D.honest b → IfOk result (StandsNew tag) }
        ensures honest { D.honest a → D.honest b → IfOk result AreHonest }
        ensures idle { IfOk result HasNoNext }
        ensures rests { IfOk result (λ journal. journal.filler.stage ≡ FillStage.Rests) }
        ensures failures { IfOk result (λ journal. FailsNever D.Disk a b journal) }

        // The disks come back, as they were where memory was refused, and else one of them with one failure more.
        ensures back { ComeBackHonest D.Disk a b result }
        ensures refused { IfErr result (λ all. IsMakingRefusal D.Disk a b all.1 all.2 all.0) }
    {
        // A closed slot of generation 0 is spelled as a new store on one disk.
        let page = match spell_header(alloc, Version::Two, tag) {
            Ok(page) => page,
            Err(_) => return Err((Refused::NoMemory, a, b)),
        };
        let Ok(()) = rewrite(&mut a, &page) else {
            return Err((Refused::Disk, a, b));
        };
        let Ok(()) = rewrite(&mut b, &page) else {
            return Err((Refused::Disk, a, b));
        };
        Ok(SlotJournal {
            current: a,
            other: b,
            side: Side::First,
            version: Version::Two,
            tag,
            generation: 0,
            base: 0,
            gate: 4096,
            end: 4096,
            count: 0,
            next: 0,
            stage: RecordStage::Idle,
            tail: Vec::new(alloc),
            filler: Filler::new(alloc, true),
        })
    }

    /// Opens the store with that tag that the disks A and B hold, and gives the records of its current slot:
    /// the commands of its checkpoint under their old numbers, its parts, numbered from 0 on, and the records
    /// behind it. What stands behind the closed gate of that slot is cut off, and both disks are synced.
    ///
    /// Refusals: `Disk`, where a call of a disk failed; `NotAStore`, `WrongInstance`, where no slot is
    /// current, or one with another tag; `Damaged`, with the place of the first record of the current slot
    /// that is missing or not whole; `NoMemory`. The disks come back.
    pub fn open(
        alloc: Global,
        mut a: D,
        mut b: D,
        tag: u8,
    ) -> Result<(Self, Vec<NumberedRecord>), (Refused, D, D)>
        ensures opened { D.honest a → D.honest b → IfOk result (OpensBoth tag a b) }
        ensures idle { IfOk result (λ pair. HasNoNext pair.0) }
        ensures rests { IfOk result (λ pair. pair.0.filler.stage ≡ FillStage.Rests) }
        ensures first_honest { D.honest a → D.honest b → D.honest (sides_left result).a }
        ensures second_honest { D.honest a → D.honest b → D.honest (sides_left result).b }

        // What a crash at any moment leaves of both is something that an opening may have stopped with.
        ensures any_moment { MayStop D.Disk a b (sides_left result) }

        // One that is refused has stopped.
        ensures stops { D.honest a → D.honest b → IfErr result (StopsBoth D.Disk a b) }
        ensures failures { CountsFailures a b result }
        ensures refused { D.honest a → D.honest b → IfErr result (RefusesBoth D.Disk tag a b) }
    {
        match choose(&mut a, &mut b, tag) {
            Ok((Side::First, closed)) => Self::resume(alloc, Side::First, a, b, closed),
            Ok((Side::Second, closed)) => Self::resume(alloc, Side::Second, b, a, closed),
            Err(refused) => Err((refused, a, b)),
        }
    }

    // Goes on with the slot on the current disk, beside the other, whose first gate is closed or open.
    fn resume(
        alloc: Global,
        side: Side,
        mut current: D,
        other: D,
        closed: bool,
    ) -> Result<(Self, Vec<NumberedRecord>), (Refused, D, D)>
        requires { 4097 ≤ D.size other }
        ensures resumes { Resumes current result }
        ensures fresh { IfOk result (λ pair. IsFresh side closed other pair.0) }
        ensures other { off side (sides_left result) ≡ other }
        ensures honest { D.honest current → D.honest (disk_left side result) }
        ensures any_moment { OnlyCuts D.Disk current (disk_left side result) }
        ensures stops { StopsIfRefused D.Disk result current (disk_left side result) }
        ensures failures { FailsOnlyIn side current result }
        ensures refused { D.honest current → IfErr result (RefusesOne D.Disk current) }
    {
        match recover(alloc, &mut current) {
            Ok(slot) => {
                let count = count_of(&slot);
                let LoadedSlot {
                    head,
                    records,
                    gate,
                } = slot;
                let journal = SlotJournal {
                    current,
                    other,
                    side,
                    version: head.version,
                    tag: head.tag,
                    generation: head.generation,
                    base: head.base,
                    gate,
                    end: gate,
                    count,
                    next: count,
                    stage: RecordStage::Idle,
                    tail: Vec::new(alloc),
                    filler: Filler::new(alloc, closed),
                };
                Ok((journal, records))
            }
            Err(refused) => match side {
                Side::First => Err((refused, current, other)),
                Side::Second => Err((refused, other, current)),
            },
        }
    }

    /// Whether there is no next record, and no disk call failed.
    pub fn is_idle(&self) -> bool
        ensures { IsTrue result ↔ HasNoNext self.now }
    {
        self.stage == RecordStage::Idle
    }

    /// How many records are stored, those below the checkpoint too.
    pub fn count(&self) -> u64
        ensures { result ≡ records_stored self.now }
    {
        self.count
    }

    /// The version of the current slot.
    pub fn version(&self) -> Version
        ensures { result ≡ self.now.version }
    {
        self.version
    }

    /// The generation of the current slot.
    pub fn generation(&self) -> u32
        ensures { result ≡ self.now.generation }
    {
        self.generation
    }

    /// How many records stand below the checkpoint of the current slot: 0 where it has none.
    pub fn base(&self) -> u32
        ensures { result ≡ self.now.base }
    {
        self.base
    }

    /// Whether a checkpoint is planned, or makes its calls.
    pub fn is_checkpointing(&self) -> bool
        ensures { IsTrue result ↔ IsCheckpointing self.now }
    {
        self.filler.stage != FillStage::Rests
    }

    /// Whether a call for the next record can be made: no checkpoint makes its calls, and none waits for
    /// the records that are stored.
    pub fn is_records_turn(&self) -> bool
        ensures { IsTrue result ↔ IsTurn self.now }
    {
        match self.filler.stage {
            FillStage::Rests => true,
            FillStage::Waits => self.count < u64::from(self.filler.base),
            _ => false,
        }
    }

    /// Whether a call of a checkpoint can be made: one is planned, and the records below its base are
    /// stored.
    pub fn is_checkpoints_turn(&self) -> bool
        ensures { IsTrue result ↔ IsFilling self.now }
    {
        match self.filler.stage {
            FillStage::Rests => false,
            FillStage::Waits => u64::from(self.filler.base) <= self.count,
            _ => true,
        }
    }

    /// The disks A and B, as the journal leaves them.
    pub fn into_disks(self) -> (D, D)
        ensures { result ≡ pair_of (sides_of self) }
    {
        let SlotJournal {
            current,
            other,
            side,
            ..
        } = self;
        match side {
            Side::First => (current, other),
            Side::Second => (other, current),
        }
    }

    /// Puts a record behind those stored as the next one. It makes all the room that storing it takes,
    /// and no disk call.
    ///
    /// Refusal: `NoMemory`, and there is no next record still.
    pub fn begin(&mut self, raw: &RawRecord) -> Result<(), Refused>
        requires idle { HasNoNext self.old }
        requires room { records_stored self.old < 4294967295 }
        requires proper { IsEntry (entry_of raw.now) }
        ensures next { OnOk result (PutsNext (entry_of raw.now) self.old self.new) }
        ensures none { OnErr result (PutsNone self.old self.new) }
        ensures busy { OnOk result (self.new.stage ≡ RecordStage.Waits) }
        ensures idle { OnErr result (HasNoNext self.new) }
        ensures refused { IfErr result (λ refused. refused ≡ Refused.NoMemory) }
        ensures begun { TouchesNoDisk self.old self.new }
        ensures other { KeepsOther self.old self.new }
    {
        spell_record(&mut self.tail, self.count, raw, 0)?;
        self.next = self.count + 1;
        self.stage = RecordStage::Waits;
        Ok(())
    }

    /// Makes the next disk call for the next record, on the current disk. After the fourth it is stored.
    ///
    /// Refusals: `Disk`, where the call failed; `Failed`, where one failed before.
    #[tactic(auto, using(crate::specs::Records::record_device, crate::specs::Records::record_after_failure))]
    pub fn advance(&mut self) -> Result<Phase, Refused>
        requires busy { HasNoNext self.old → ⊥ }
        requires turn { IsTurn self.old }
        ensures steps { AreHonest self.old → MakesRecordStep self.old self.new result }
        ensures any_moment { MayLeaveInRecord self.old self.new }
        ensures honest { AreHonest self.old → AreHonest self.new }
        ensures phase { IfOk result (λ phase. ReachesPhase phase self.old self.new) }
        ensures call { CallsIfNoFault self.old result self.old.current self.new.current }
        ensures other { KeepsOther self.old self.new }
        ensures failed { HasFaulted self.old ↔ (result ≡ Err Refused.Failed) }
        ensures same { HasFaulted self.old → KeepsRecord self.old self.new }
        ensures refused { IfErr result (IsRecordRefusal self.old self.new) }
    {
        if self.stage == RecordStage::Failed {
            return Err(Refused::Failed);
        }
        match call_record(&mut self.current, self.stage, self.gate, &self.tail) {
            Ok(()) => Ok(self.reach_phase()),
            Err(_) => {
                self.stage = RecordStage::Failed;
                Err(Refused::Disk)
            }
        }
    }

    /// Plans a checkpoint that stands for the records below the base: these commands, under their old
    /// numbers, and these parts of an image. It makes all the room that the checkpoint takes, and no disk
    /// call; its calls come once the records below the base are stored.
    ///
    /// Refusals: `NoMemory`; `Failed`, where a disk call failed before. Nothing is changed then.
    #[tactic(auto, using(crate::specs::Plans::plan_memory, crate::specs::Plans::plan_after_failure))]
    pub fn plan(
        &mut self,
        alloc: Global,
        base: u32,
        commands: &[NumberedRecord],
        parts: &[RawRecord],
    ) -> Result<(), Refused>
        requires none { IsCheckpointing self.old → ⊥ }
        requires generation { self.old.generation < 4294967295 }
        requires up_to { MayHaveBase self.old base }
        requires proper { MakeUpCheckpoint base (all_numbered commands.now) (entries_of parts.now) }
        ensures planned { OnOk result (PlansFrom base commands.now parts.now self.old self.new) }
        ensures waits { OnOk result (self.new.filler.stage ≡ FillStage.Waits) }
        ensures none { OnErr result (self.new.filler ≡ self.old.filler) }
        ensures record { KeepsRecord self.old self.new }
        ensures sides { KeepsSides self.old self.new }
        ensures failed { HasFaulted self.old → result ≡ Err Refused.Failed }
        ensures refused { IfErr result (IsPlanRefusal self.old) }
    {
        if self.stage == RecordStage::Failed {
            return Err(Refused::Failed);
        }
        let head = SlotHead {
            version: Version::Two,
            tag: self.tag,
            generation: self.generation + 1,
            base,
            commands: commands.len() as u32,
            parts: parts.len() as u32,
        };
        self.filler = spell_checkpoint(alloc, head, self.filler.closed, commands, parts)?;
        Ok(())
    }

    /// Makes the next disk call of the checkpoint, on the other disk. After the last one, which answers true,
    /// its slot is current.
    ///
    /// Refusals: `Disk`, where the call failed; `Failed`, where one failed before.
    #[tactic(auto, using(crate::specs::Checkpoints::checkpoint_device, crate::specs::Checkpoints::checkpoint_after_failure))]
    pub fn advance_checkpoint(&mut self) -> Result<bool, Refused>
        requires turn { IsFilling self.old }
        ensures steps { AreHonest self.old → MakesCheckpointStep self.old self.new result }
        ensures any_moment { MayLeaveInCheckpoint self.old self.new }
        ensures honest { AreHonest self.old → AreHonest self.new }
        ensures moves { IfOk result (FillsOrTurns self.old self.new) }
        ensures call { CallsIfNoFault self.old result self.old.other (called_disk self.new result) }
        ensures still { still_disk self.new result ≡ self.old.current }
        ensures next { KeepsNext self.old self.new }
        ensures failed { HasFaulted self.old ↔ (result ≡ Err Refused.Failed) }
        ensures same { HasFaulted self.old → IsSameJournal self.old self.new }
        ensures refused { IfErr result (IsCheckpointRefusal self.old self.new) }
    {
        if self.stage == RecordStage::Failed {
            return Err(Refused::Failed);
        }
        match self.filler.call(&mut self.other) {
            Ok(()) => Ok(self.fill_on()),
            Err(_) => {
                self.stage = RecordStage::Failed;
                Err(Refused::Disk)
            }
        }
    }

    // Moves on after a good call of the checkpoint, and answers whether its slot is current.
    fn fill_on(&mut self) -> bool
        requires begun { self.old.filler.stage ≡ FillStage.Rests → ⊥ }
        requires room { next_place self.old.filler ≤ D.size self.old.other }
        ensures moves { FillsOrTurns self.old self.new result }
        ensures called { called_disk self.new (Ok result) ≡ self.old.other }
        ensures still { still_disk self.new (Ok result) ≡ self.old.current }
        ensures next { KeepsNext self.old self.new }
    {
        if self.filler.stage == FillStage::Lasts {
            self.turn_over();
            return true;
        }
        self.filler.move_on();
        false
    }

    // The other slot becomes the current one.
    fn turn_over(&mut self)
        requires { self.old.filler.stage ≡ FillStage.Lasts }
        ensures turned { TurnsOver self.old self.new }
        ensures current { self.new.current ≡ self.old.other }
        ensures next { KeepsNext self.old self.new }
    {
        mem::swap(&mut self.current, &mut self.other);
        self.side = match self.side {
            Side::First => Side::Second,
            Side::Second => Side::First,
        };
        self.version = Version::Two;
        self.generation = self.filler.generation;
        self.base = self.filler.base;
        self.gate = self.filler.at - 1;
        self.end = self.gate;
        self.filler.rest();
    }

    // Moves on after a good call for the next record, to the phase that it answers.
    fn reach_phase(&mut self) -> Phase
        requires busy { HasNoNext self.old → ⊥ }
        requires whole { HasFaulted self.old → ⊥ }
        requires room { HasRoomToWrite self.old }
        ensures phase { ReachesPhase result self.old self.new }
        ensures current { self.new.current ≡ self.old.current }
        ensures other { KeepsOther self.old self.new }
    {
        match self.stage {
            RecordStage::Waits => {
                self.end = self.gate + self.tail.len() as u64;
                self.stage = RecordStage::Written;
                Phase::Written
            }
            RecordStage::Written => {
                self.stage = RecordStage::BodySynced;
                Phase::BodySynced
            }
            RecordStage::BodySynced => {
                self.stage = RecordStage::GateWritten;
                Phase::GateWritten
            }
            RecordStage::GateWritten => {
                self.gate = self.end;
                self.count = self.next;
                self.stage = RecordStage::Idle;
                Phase::Stored
            }
            RecordStage::Idle | RecordStage::Failed => unreachable!(),
        }
    }
}

// Makes the disk call of the stage: what stands behind the gate is written, synced, the gate opened, synced.
fn call_record<D: Disk>(
    disk: &mut D,
    stage: RecordStage,
    gate: u64,
    tail: &[u8],
) -> Result<(), DeviceFault>
    requires inside { gate < D.size disk.old }
    requires busy { stage ≡ RecordStage.Idle → ⊥ }
    requires whole { stage ≡ RecordStage.Failed → ⊥ }
    ensures call { MakesDiskCall D.Disk (stage_call stage gate tail.now) result disk.old disk.new }
    ensures grows { D.size disk.old ≤ D.size disk.new }
    ensures room { stage ≡ RecordStage.Waits → OnOk result (gate + 1 + length tail.now ≤ D.size disk.new) }
{
    match stage {
        RecordStage::Waits => write(disk, gate + 1, tail),
        RecordStage::BodySynced => write(disk, gate, &[1]),
        RecordStage::Written | RecordStage::GateWritten => sync(disk),
        RecordStage::Idle | RecordStage::Failed => unreachable!(),
    }
}
