//! A journal over a disk.
ghost use Rattle.std.specs.Prelude.{◌≡◌, ◌↔◌, ◌+◌, ◌<◌, ◌≤◌, [], length, IsTrue, OnOk, OnErr, IfOk, IfErr};
ghost use Rattle.ide_journal.specs.Format.{IsEntry, head_of};
ghost use Rattle.ide_journal.specs.Phases.{LeadsTo};

use crate::disk_calls::rewrite;
use crate::opening::recover;
use crate::reading::Loaded;
use crate::spelling::{spell_header, spell_record};
use crate::stage::Stage;
use crate::{Phase, RawRecord, Version};
use ide_disk::{DeviceFault, Disk};
use ide_wire::Refused;
use std::alloc::Global;

/// A list of records on a disk. One more may be under way; it is stored after four disk calls.
#[derive(Drop)]
pub struct Journal<D: Disk> {
    disk: D,
    version: Version,
    /// Where the closed gate behind the stored records stands.
    gate: u64,
    /// The same, or, once the record under way is written, where the gate behind it stands.
    end: u64,
    /// How many records are stored.
    count: u64,
    /// The same, or one more where a record is under way.
    next: u64,
    stage: Stage,
    /// The record under way behind its gate, and the closed gate behind it.
    tail: Vec<u8>,
    ghost forward: { gate ≤ end },
    ghost inside: { end < D.size disk },
    ghost numbered: { next ≤ 4294967295 },
}

impl<D: Disk> Journal<D> {
    ghost use Rattle.ide_disk.specs.OneCall.{FailsOnce, MakesCall};
    ghost use Rattle.ide_journal.specs.Calls.{MakesItsCall};
    ghost use Rattle.ide_journal.specs.Lists.{IsAtRest, entry_of};
    ghost use Rattle.ide_journal.specs.Opening.{IsOpened, KeepsRecords, disk_after};
    ghost use Rattle.ide_journal.specs.Records.{GivesRecords, KeepsOrStores, LeavesRecords, PutsUnderWay, StaysAtRest};
    ghost use Rattle.ide_journal.specs.Refusals.{IsAdvanceRefusal, IsCreateRefusal, IsOpenRefusal};
    ghost use Rattle.ide_journal.specs.Stands.{HasFailed, IsIdle, KeepsCounts, KeepsStanding, MovesStanding, StoresStanding, stored_count, version_of};

    /// Makes a store of that version with no record on the disk, whatever it held.
    #[tactic(auto, using(crate::specs::Refusals::create_memory, crate::specs::Refusals::create_device))]
    pub fn create(
        alloc: Global,
        mut disk: D,
        tag: u8,
        version: Version,
    ) -> Result<Self, (Refused, D)>
        requires { 0 < tag }
        ensures at_rest { D.honest disk → IfOk result (IsAtRest (head_of version tag) []) }
        ensures honest { D.honest disk → IfOk result (λ journal. D.honest journal.disk) }
        ensures idle { IfOk result IsIdle }
        ensures count { IfOk result (λ journal. stored_count journal ≡ 0) }
        ensures version { IfOk result (λ journal. version_of journal ≡ version) }

        // The disk comes back, as it was where memory was refused, and else with one failure more.
        ensures refused { IfErr result (λ pair. IsCreateRefusal D.Disk disk pair.1 pair.0) }
    {
        let page = match spell_header(alloc, version, tag) {
            Ok(page) => page,
            Err(_) => return Err((Refused::NoMemory, disk)),
        };
        match rewrite(&mut disk, &page) {
            Ok(()) => Ok(Journal {
                disk,
                version,
                gate: 4096,
                end: 4096,
                count: 0,
                next: 0,
                stage: Stage::Idle,
                tail: Vec::new(alloc),
            }),
            Err(_) => Err((Refused::Disk, disk)),
        }
    }

    /// Opens the store with that tag that the disk holds, of either version, and gives its records.
    pub fn open(alloc: Global, mut disk: D, tag: u8) -> Result<(Self, Vec<RawRecord>), (Refused, D)>
        // The records and the version are those that the disk held, and a file holds one list at most, in one
        // version (`laws::holds_one_list`).
        ensures opened { D.honest disk → IfOk result (λ pair. IsOpened tag disk pair.0 pair.1.items) }
        ensures idle { IfOk result (λ pair. IsIdle pair.0) }
        ensures count { IfOk result (λ pair. stored_count pair.0 ≡ length pair.1.items) }
        ensures honest { D.honest disk → D.honest (disk_after result) }

        // A crash at any moment of the call leaves what one before it could leave, or the list that the disk held.
        ensures any_moment { D.honest disk → KeepsRecords D.Disk disk (disk_after result) }

        // The disk comes back, synced and with the bytes that it had where no call of it failed. Each refusal has
        // its cause, that of the disk in the count of failures.
        ensures refused { D.honest disk → IfErr result (λ pair. IsOpenRefusal D.Disk tag disk pair.1 pair.0) }
        ensures fault { IfErr result (λ pair. pair.0 ≡ Refused.Disk → FailsOnce D.Disk disk pair.1) }
        ensures failures { IfOk result (λ pair. D.failures pair.0.disk ≡ D.failures disk) }
    {
        match recover(alloc, &mut disk, tag) {
            Ok(
                Loaded {
                    version,
                    records,
                    gate,
                },
            ) => {
                let count = records.len() as u64;
                let journal = Journal {
                    disk,
                    version,
                    gate,
                    end: gate,
                    count,
                    next: count,
                    stage: Stage::Idle,
                    tail: Vec::new(alloc),
                };
                Ok((journal, records))
            }
            Err(refused) => Err((refused, disk)),
        }
    }

    /// Whether no record is under way.
    pub fn is_idle(&self) -> bool
        ensures { IsTrue result ↔ IsIdle self.now }
    {
        self.stage == Stage::Idle
    }

    /// How many records are stored.
    pub fn count(&self) -> u64
        ensures { result ≡ stored_count self.now }
    {
        self.count
    }

    /// The version of the store.
    pub fn version(&self) -> Version
        ensures { result ≡ version_of self.now }
    {
        self.version
    }

    /// The disk, as the journal leaves it.
    pub fn into_disk(self) -> D
        ensures { result ≡ self.disk }
    {
        let Journal { disk, .. } = self;
        disk
    }

    /// Puts a record under way. It makes all the room that storing it takes, and no disk call.
    pub fn begin(&mut self, raw: &RawRecord) -> Result<(), Refused>
        requires idle { IsIdle self.old }
        requires room { stored_count self.old < 4294967295 }
        requires proper { IsEntry (entry_of raw.now) }
        ensures under_way { OnOk result (PutsUnderWay (entry_of raw.now) self.old self.new) }
        ensures at_rest { OnErr result (StaysAtRest self.old self.new) }
        ensures busy { OnOk result (self.new.stage ≡ Stage.Begun) }
        ensures idle { OnErr result (IsIdle self.new) }
        ensures refused { IfErr result (λ refused. refused ≡ Refused.NoMemory) }
        ensures disk { self.new.disk ≡ self.old.disk }
        ensures gate { self.new.gate ≡ self.old.gate }
        ensures count { stored_count self.new ≡ stored_count self.old }
        ensures version { version_of self.new ≡ version_of self.old }
    {
        spell_record(&mut self.tail, self.count, raw, 0)?;
        self.next = self.count + 1;
        self.stage = Stage::Begun;
        Ok(())
    }

    /// Makes the next disk call for the record under way. After the fourth it is stored.
    #[tactic(auto, using(crate::specs::Refusals::advance_device, crate::specs::Refusals::advance_failed))]
    pub fn advance(&mut self) -> Result<Phase, Refused>
        requires { IsIdle self.old → ⊥ }
        ensures phase { IfOk result (LeadsTo self.old.stage self.new.stage) }

        // The record stays under way, or is stored, which is when the journal is idle again.
        ensures under_way { D.honest self.old.disk → KeepsOrStores self.old self.new }

        // A read gives the stored records, and from the write of the gate on the one under way with them.
        ensures holds { D.honest self.old.disk → GivesRecords self.old self.new }

        // A crash at any moment of the call leaves the stored records, or these and the one under way.
        ensures any_moment { D.honest self.old.disk → LeavesRecords self.old self.new }
        ensures honest { D.honest self.old.disk → D.honest self.new.disk }
        ensures version { version_of self.new ≡ version_of self.old }

        ensures call { (HasFailed self.old → ⊥) → MakesCall D.Disk result self.old.disk self.new.disk }

        // At Ok it is the call of the stage, to the letter.
        ensures exact { D.honest self.old.disk → OnOk result (MakesItsCall self.old self.new) }
        ensures failed { HasFailed self.old ↔ (result ≡ Err Refused.Failed) }
        ensures same { HasFailed self.old → self.new ≡ self.old }
        ensures refused { IfErr result (IsAdvanceRefusal self.old self.new) }
    {
        if self.stage == Stage::Failed {
            return Err(Refused::Failed);
        }
        match self.step() {
            Ok(phase) => Ok(phase),
            Err(_) => Err(Refused::Disk),
        }
    }

    // Makes the disk call of the stage.
    fn step(&mut self) -> Result<Phase, DeviceFault>
        requires busy { IsIdle self.old → ⊥ }
        requires whole { HasFailed self.old → ⊥ }
        ensures phase { IfOk result (LeadsTo self.old.stage self.new.stage) }
        ensures failed { OnErr result (HasFailed self.new) }
        ensures moves { D.honest self.old.disk → MovesStanding self.old self.new }
        ensures count { (IsIdle self.new → ⊥) → self.new.count ≡ self.old.count }
        ensures next { self.new.next ≡ self.old.next }
        ensures version { self.new.version ≡ self.old.version }
        ensures call { MakesCall D.Disk result self.old.disk self.new.disk }
        ensures exact { D.honest self.old.disk → OnOk result (MakesItsCall self.old self.new) }
    {
        match self.stage {
            Stage::Begun => {
                self.write_body()?;
                Ok(Phase::Written)
            }
            Stage::Written => {
                self.sync_body()?;
                Ok(Phase::BodySynced)
            }
            Stage::BodySynced => {
                self.write_gate()?;
                Ok(Phase::GateWritten)
            }
            Stage::GateWritten => {
                self.sync_gate()?;
                Ok(Phase::Stored)
            }
            Stage::Idle | Stage::Failed => unreachable!(),
        }
    }

    // Writes the record behind its gate, which stays closed.
    fn write_body(&mut self) -> Result<(), DeviceFault>
        requires { self.old.stage ≡ Stage.Begun }
        ensures ok { OnOk result (self.new.stage ≡ Stage.Written) }
        ensures failed { OnErr result (HasFailed self.new) }
        ensures counts { KeepsCounts self.old self.new }
        ensures call { MakesCall D.Disk result self.old.disk self.new.disk }
        ensures exact { D.honest self.old.disk → OnOk result (MakesItsCall self.old self.new) }
        ensures stands { D.honest self.old.disk → KeepsStanding self.old self.new }
    {
        match self.disk.write(self.gate + 1, &self.tail) {
            Ok(()) => {
                self.end = self.gate + self.tail.len() as u64;
                self.stage = Stage::Written;
                Ok(())
            }
            Err(fault) => {
                self.stage = Stage::Failed;
                Err(fault)
            }
        }
    }

    // Brings the record onto the disk.
    fn sync_body(&mut self) -> Result<(), DeviceFault>
        requires { self.old.stage ≡ Stage.Written }
        ensures ok { OnOk result (self.new.stage ≡ Stage.BodySynced) }
        ensures failed { OnErr result (HasFailed self.new) }
        ensures counts { KeepsCounts self.old self.new }
        ensures call { MakesCall D.Disk result self.old.disk self.new.disk }
        ensures exact { D.honest self.old.disk → OnOk result (MakesItsCall self.old self.new) }
        ensures stands { D.honest self.old.disk → KeepsStanding self.old self.new }
    {
        match self.disk.sync() {
            Ok(()) => {
                self.stage = Stage::BodySynced;
                Ok(())
            }
            Err(fault) => {
                self.stage = Stage::Failed;
                Err(fault)
            }
        }
    }

    // Opens the gate.
    fn write_gate(&mut self) -> Result<(), DeviceFault>
        requires { self.old.stage ≡ Stage.BodySynced }
        ensures ok { OnOk result (self.new.stage ≡ Stage.GateWritten) }
        ensures failed { OnErr result (HasFailed self.new) }
        ensures counts { KeepsCounts self.old self.new }
        ensures call { MakesCall D.Disk result self.old.disk self.new.disk }
        ensures exact { D.honest self.old.disk → OnOk result (MakesItsCall self.old self.new) }
        ensures stands { D.honest self.old.disk → KeepsStanding self.old self.new }
    {
        match self.disk.write(self.gate, &[1]) {
            Ok(()) => {
                self.stage = Stage::GateWritten;
                Ok(())
            }
            Err(fault) => {
                self.stage = Stage::Failed;
                Err(fault)
            }
        }
    }

    // Brings the open gate onto the disk.
    fn sync_gate(&mut self) -> Result<(), DeviceFault>
        requires { self.old.stage ≡ Stage.GateWritten }
        ensures ok { OnOk result (IsIdle self.new) }
        ensures failed { OnErr result (HasFailed self.new) }
        ensures count { OnOk result (self.new.count ≡ self.old.next) }
        ensures same { OnErr result (self.new.count ≡ self.old.count) }
        ensures next { self.new.next ≡ self.old.next }
        ensures version { self.new.version ≡ self.old.version }
        ensures call { MakesCall D.Disk result self.old.disk self.new.disk }
        ensures exact { D.honest self.old.disk → OnOk result (MakesItsCall self.old self.new) }
        ensures stored { D.honest self.old.disk → OnOk result (StoresStanding self.old self.new) }
        ensures stands { D.honest self.old.disk → OnErr result (KeepsStanding self.old self.new) }
    {
        match self.disk.sync() {
            Ok(()) => {
                self.gate = self.end;
                self.count = self.next;
                self.stage = Stage::Idle;
                self.tail.clear();
                Ok(())
            }
            Err(fault) => {
                self.stage = Stage::Failed;
                Err(fault)
            }
        }
    }
}
