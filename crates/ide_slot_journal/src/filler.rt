//! A checkpoint, as the bytes that fill the other slot.
ghost use Rattle.std.specs.Prelude.{◌≡◌, ◌^◌, ◌<◌, ◌≤◌, false, OnOk};
ghost use Rattle.ide_slot_journal.specs.OneDisk.{MakesDiskCall};
ghost use Rattle.ide_slot_journal.specs.Stages.{first_place};

use crate::calls::{cut, sync, write};
use crate::stage::FillStage;
use ide_disk::{DeviceFault, Disk};
use std::alloc::Global;
use std::collections::VecDeque;

/// What fills the other slot, and how far that is.
#[derive(Drop)]
pub(crate) struct Filler {
    pub(crate) stage: FillStage,
    /// Whether the first gate of the other slot is closed, while no checkpoint makes its calls.
    pub(crate) closed: bool,
    /// The generation of the slot that is filled.
    pub(crate) generation: u32,
    /// How many records its checkpoint stands for.
    pub(crate) base: u32,
    /// Its first page.
    pub(crate) page: Vec<u8>,
    /// What stands behind the gate of each record that is not written yet, with the next gate.
    pub(crate) todo: VecDeque<Vec<u8>>,
    /// Where the first of them goes.
    pub(crate) at: u64,
}

impl Filler {
    ghost use Rattle.ide_slot_journal.specs.Fillers.{HasMovedOn, call_of, next_place};

    /// There is no checkpoint. Tells whether the first gate of the other slot is closed.
    pub(crate) fn new(alloc: Global, closed: bool) -> Self
        ensures rests { result.stage ≡ FillStage.Rests }
        ensures closed { result.closed ≡ closed }
        ensures place { result.at ≡ 4097 }
    {
        Filler {
            stage: FillStage::Rests,
            closed,
            generation: 0,
            base: 0,
            page: Vec::new(alloc),
            todo: VecDeque::new(alloc),
            at: 4097,
        }
    }

    /// Makes its next disk call, on the other disk.
    pub(crate) fn call<D: Disk>(&self, disk: &mut D) -> Result<(), DeviceFault>
        requires begun { self.now.stage ≡ FillStage.Rests → ⊥ }
        requires page { 4097 ≤ self.now.at }
        requires placed { first_place self.now.stage self.now.at ≡ 4097 }
        requires room { self.now.at ≤ D.size disk.old }
        ensures call { MakesDiskCall D.Disk (call_of self.now) result disk.old disk.new }
        ensures room { self.now.at ≤ D.size disk.new }
        ensures next { OnOk result (next_place self.now ≤ D.size disk.new) }
    {
        match self.stage {
            FillStage::Waits => self.close(disk),
            FillStage::Trims => cut(disk, 4097),
            FillStage::Heads => write(disk, 0, &self.page),
            FillStage::Fills => self.write_next(disk),
            FillStage::OpensGate => write(disk, 4096, &[1]),
            FillStage::Settles | FillStage::Lasts => sync(disk),
            FillStage::Rests => unreachable!(),
        }
    }

    // Closes the first gate; or cuts behind it, where it is closed.
    fn close<D: Disk>(&self, disk: &mut D) -> Result<(), DeviceFault>
        requires waits { self.now.stage ≡ FillStage.Waits }
        requires placed { self.now.at ≡ 4097 }
        requires room { self.now.at ≤ D.size disk.old }
        ensures call { MakesDiskCall D.Disk (call_of self.now) result disk.old disk.new }
        ensures room { self.now.at ≤ D.size disk.new }
    {
        if self.closed {
            return cut(disk, 4097);
        }
        write(disk, 4096, &[0])
    }

    // Writes the next record; with all written, syncs them.
    fn write_next<D: Disk>(&self, disk: &mut D) -> Result<(), DeviceFault>
        requires fills { self.now.stage ≡ FillStage.Fills }
        requires room { self.now.at ≤ D.size disk.old }
        ensures call { MakesDiskCall D.Disk (call_of self.now) result disk.old disk.new }
        ensures room { self.now.at ≤ D.size disk.new }
        ensures next { OnOk result (next_place self.now ≤ D.size disk.new) }
    {
        match self.todo.front() {
            Some(chunk) => write(disk, self.at, chunk),
            None => sync(disk),
        }
    }

    /// There is no checkpoint any more, and the first gate of the other slot is open.
    pub(crate) fn rest(&mut self)
        ensures rests { self.new.stage ≡ FillStage.Rests }
        ensures open { self.new.closed ≡ false }
        ensures place { self.new.at ≡ 4097 }
    {
        self.stage = FillStage::Rests;
        self.closed = false;
        self.at = 4097;
        self.page.clear();
    }

    /// Moves on after a good call.
    pub(crate) fn move_on(&mut self)
        requires begun { self.old.stage ≡ FillStage.Rests → ⊥ }
        requires room { next_place self.old < 2 ^ 64 }
        ensures { HasMovedOn self.old self.new }
    {
        match self.stage {
            FillStage::Rests | FillStage::Lasts => {}
            FillStage::Waits => self.stage = FillStage::Settles,
            FillStage::Settles => self.stage = FillStage::Trims,
            FillStage::Trims => self.stage = FillStage::Heads,
            FillStage::Heads => self.stage = FillStage::Fills,
            FillStage::Fills => match self.todo.pop_front() {
                Some(chunk) => self.at += chunk.len() as u64,
                None => self.stage = FillStage::OpensGate,
            },
            FillStage::OpensGate => self.stage = FillStage::Lasts,
        }
    }
}
