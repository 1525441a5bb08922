//! What lies under the writer's lock: the half of a store that writes, and the writer's seat of the board.
ghost use Rattle.std.specs.Prelude.{◌≡◌, ◌↔◌, ◌<◌, ◌-◌, false, Ok, IfErr, IfOk, IsTrue, OnErr, OnOk};
ghost use Rattle.std.specs.Arc.{arc_value};
ghost use Rattle.ide_desks.specs.Desks.{CountsTaken, HasNoCallLeft, HasOwnStored, IsAllStored, IsWriterDesk, PublishesStep};
ghost use Rattle.ide_desks.specs.Keeping.{KeepsOwn, LeavesTaken};
ghost use Rattle.ide_desks.specs.Stepping.{IsStepRefusal, NotesFault, RefusesOnceFailed};
ghost use Rattle.ide_desks.specs.Switching.{version_after};
ghost use Rattle.ide_slot_journal.specs.Stands.{IsFilling, pair_of, records_stored, sides_of};

use crate::accord::Accord;
use crate::switch::WriterSwitch;
use crate::table::SealedRecord;
use ide_board::{Board, ClientSeat, WriterSeat};
use ide_disk::Disk;
use ide_problem::Problem;
use ide_slot_store::SlotWriterHalf;
use ide_store::{Kept, two_disks_are_a_store};
use ide_wire::Refused;
use std::marker::PhantomData;
use std::sync::Arc;

/// What a step of the disks came to.
#[derive(Clone, Copy, PartialEq, Eq, Debug)]
pub enum Stepped {
    /// There was no call to make: all that was taken over is stored, and no checkpoint is under way.
    Rested,
    /// A call was made.
    Called,
    /// A call was made, which stored a record.
    Stored,
}

/// The half of a store that writes, beside the writer's seat of the board.
#[derive(Drop)]
pub struct WriterDesk<P: Kept, D: Disk, J: Accord> {
    pub(crate) half: SlotWriterHalf<D>,
    pub(crate) seat: WriterSeat<SealedRecord>,
    board: Arc<Board<SealedRecord>>,
    pub(crate) switch: WriterSwitch,
    /// How many records were taken over.
    pub(crate) taken: u64,
    /// A call of a disk failed.
    pub(crate) failed: bool,
    of: PhantomData<(P, J)>,
    ghost named: { (arc_value board ≡ J.board) × (seat.board ≡ J.board) },
    ghost switched: { switch.seat.board ≡ J.switches },
    ghost counts: { CountsTaken seat taken },
    ghost kept: { (told : J.told)
        → ∥ IsWriterDesk P.analysis P.TAG (version_after (J.version told) switch.seat.taken) (J.first told) half seat failed ∥₁ },
}

impl<P: Problem, D: Disk, J: Accord> WriterDesk<P, D, J> {
    ghost use Rattle.ide_slot_store.specs.Half.{FailsNone, TellsFault};

    /// The desk over a half, of whose disks no call failed, beside its seat.
    pub(crate) fn over(
        half: SlotWriterHalf<D>,
        seat: WriterSeat<SealedRecord>,
        board: Arc<Board<SealedRecord>>,
        switch: WriterSwitch,
        taken: u64,
    ) -> Self
        requires named { (arc_value board ≡ J.board) × (seat.board ≡ J.board) }
        requires switched { switch.seat.board ≡ J.switches }
        requires counts { CountsTaken seat taken }
        requires kept { (told : J.told)
            → ∥ IsWriterDesk ⟦<P as Kept>⟧.analysis P.TAG (version_after (J.version told) switch.seat.taken) (J.first told) half seat false ∥₁ }
    {
        WriterDesk {
            half,
            seat,
            board,
            switch,
            taken,
            failed: false,
            of: PhantomData,
        }
    }

    /// The half, to be read.
    pub fn half(&self) -> &SlotWriterHalf<D>
        ensures { result.now ≡ self.now.half }
    {
        &self.half
    }

    /// Whether a call of a disk failed.
    pub fn has_failed(&self) -> bool
        ensures { result ≡ self.now.failed }
    {
        self.failed
    }

    /// Whether all that was taken over is stored, and no checkpoint is under way: there is no call to make.
    pub fn is_stored(&self) -> bool
        ensures { IsTrue result ↔ HasNoCallLeft self.now.seat self.now.half }
    {
        self.seat.stored() == self.taken && !self.half.is_checkpointing()
    }

    /// How many records were stored since the last checkpoint.
    pub fn stored_past_checkpoint(&self) -> u64
        ensures { result ≡ records_stored self.now.half.journal - self.now.half.journal.base }
    {
        self.half
            .stored()
            .saturating_sub(u64::from(self.half.base()))
    }

    /// Makes the next disk call, for the oldest record that was taken over and is not stored, or of a
    /// checkpoint. Where it stores the record, that is published on the board.
    ///
    /// Refusals: `Failed`, where a call failed before; `Disk`, where this one did; `NoMemory`, before the
    /// first call for a record.
    pub fn disk_step(&mut self) -> Result<Stepped, Refused>
        ensures published { IfOk result (PublishesStep self.old.seat self.new.seat) }
        ensures unpublished { OnErr result (self.new.seat ≡ self.old.seat) }
        ensures all { J.told → result ≡ Ok Stepped.Rested → IsAllStored self.old.seat }
        ensures rests { result ≡ Ok Stepped.Rested → IsFilling self.new.half.journal → ⊥ }

        // Whatever a crash at any moment of the call leaves holds the stored records, and perhaps some behind them.
        ensures crashes { (told : J.told) → self.old.failed ≡ false
            → LeavesTaken ⟦<P as Kept>⟧.analysis P.TAG (J.first told) self.old.seat self.old.half self.new.half }

        // `Disk` is answered where a call of a disk failed, and at Ok none did. From then on nothing is done.
        ensures failures { OnOk result (FailsNone self.old.half.journal self.new.half.journal) }
        ensures fault { TellsFault result self.old.half.journal self.new.half.journal }
        ensures failed { RefusesOnceFailed result self.old.failed self.old.half self.new.half }
        ensures fails { NotesFault result self.old.failed self.new.failed }
        ensures refused { J.told → IfErr result (λ why. ∥ IsStepRefusal why ∥₁) }
    {
        two_disks_are_a_store::<P>();
        if self.failed {
            return Err(Refused::Failed);
        }
        let before = self.half.stored();
        match self.half.disk_step() {
            Ok(false) => Ok(Stepped::Rested),
            Ok(true) => {
                let (after, stored) = (self.half.stored(), self.seat.stored());
                if is_one_more(before, after, stored, self.taken) {
                    self.board.publish(&mut self.seat);
                    return Ok(Stepped::Stored);
                }
                Ok(Stepped::Called)
            }
            Err(refused) => {
                if is_fault(refused) {
                    self.failed = true;
                }
                Err(refused)
            }
        }
    }

    /// Compares what a client has seen with what is stored, and changes nothing: each of the client's own
    /// records below the number that it has seen is stored, and whatever a crash leaves of the disks holds
    /// it, at its number.
    pub fn confirm(&mut self, client: &mut ClientSeat<SealedRecord>)
        requires { client.old.board ≡ J.board }
        ensures client { client.new ≡ client.old }
        ensures half { self.new.half ≡ self.old.half }
        ensures seat { self.new.seat ≡ self.old.seat }
        ensures own { HasOwnStored self.new.seat client.old }
        ensures kept { J.told → KeepsOwn ⟦<P as Kept>⟧.analysis P.TAG client.old self.new.half }
    {
        two_disks_are_a_store::<P>();
        self.board.confirm(&mut self.seat, client);
    }

    /// The disks A and B, as the writer leaves them.
    pub fn into_disks(self) -> (D, D)
        ensures { result ≡ pair_of (sides_of self.half.journal) }
    {
        let WriterDesk { half, .. } = self;
        half.into_disks()
    }
}

/// Whether more records are stored after a step than before it, and fewer are published than were taken over.
fn is_one_more(before: u64, after: u64, published: u64, taken: u64) -> bool
    ensures { IsTrue result ↔ (before < after) × (published < taken) }
{
    before < after && published < taken
}

/// Whether a call of a disk failed.
fn is_fault(refused: Refused) -> bool
    ensures { IsTrue result ↔ (refused ≡ Refused.Disk) }
{
    matches!(refused, Refused::Disk)
}
