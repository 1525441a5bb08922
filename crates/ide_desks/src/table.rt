//! What lies under the table's lock: the half of a store that works, and the table's seat of the board.
ghost use Rattle.std.specs.Prelude.{◌≡◌, ◌+◌, ◌<◌, ◌≤◌, ◌∷◌, [], None, Some, length, false, true, Ok, IfErr, IfOk, OnErr, OnOk};
ghost use Rattle.std.specs.Arc.{arc_value};
ghost use Rattle.ide_desks.specs.Desks.{CountsSealed, IsTableDesk, MarksLoad, MarksNone, MarksRoot, last_sealed, with_last, with_last_two};
ghost use Rattle.ide_board.specs.Records.{with_own};
ghost use Rattle.ide_desks.specs.Switching.{version_after};
ghost use Rattle.ide_desks.specs.Orders.{NotesLast, SpellsLoad, SpellsRoot};
ghost use Rattle.ide_desks.specs.Calls.{BarsClaim, BarsFinish, BarsFreeze, BarsPart, BarsRoot, BarsSeal, FindsNoPart, HasItsGraph, LeavesWork, Remains, SealsChanges};
ghost use Rattle.ide_steps.specs.Claiming.{FindsIdle, FindsQuiet, IfTask};
ghost use Rattle.ide_steps.specs.Drain.{HasDonePart};
ghost use Rattle.ide_image.specs.Worklist.{claim_at};
ghost use Rattle.ide_store.specs.Acting.{BeginsAnew};
ghost use Rattle.ide_store.specs.Draining.{BarsDrain, RunsKeys, StopsAmid, StopsBy};
ghost use Rattle.ide_store.specs.Freezing.{IsImageOver};
ghost use Rattle.ide_store.specs.Runs.{IsImageOfRun};
ghost use Rattle.ide_store.specs.Table.{IsSameTable, KeepsRest};
ghost use Rattle.ide_store.specs.TableCalls.{BeginsRoot, DoesPart, EndsClaim, FindsNothing, GivesClaimBack, IsLoadStop, IsRefusal, IsStaleClaim, LoadsProgram, TakesTask};
ghost use Rattle.ide_text.specs.Program.{value_of};

use crate::accord::Accord;
use crate::switch::TableSwitch;
use ide_board::{Board, ClientSeat, Shows, TableSeat};
use ide_journal::Version;
use ide_problem::Problem;
use ide_steps::{Claimed, Closed, Parted, cores_are_whole};
use ide_store::{Kept, TableHalf, Ticket};
use ide_tasks::Work;
use ide_text::Program;
use ide_wire::Refused;
use std::collections::LinkedList;
use std::marker::PhantomData;
use std::sync::Arc;

/// A sealed record, its version, its kind and its body, as the seats of a board know it. No value of it is made.
pub type SealedRecord = (Version, (u8, LinkedList<u8>));

/// Of a half, the last of the records that wait for the writer.
struct Last;

impl<P: Problem> Shows<TableHalf<P>, SealedRecord> for Last {
    ghost use Rattle.ide_desks.specs.Desks.{last_sealed};

    ghost shown = { λ table. last_sealed table };
}

/// Of a half, the last but one.
struct LastButOne;

impl<P: Problem> Shows<TableHalf<P>, SealedRecord> for LastButOne {
    ghost use Rattle.ide_desks.specs.Desks.{last_but_sealed};

    ghost shown = { λ table. last_but_sealed table };
}

/// The half of a store that works, beside the table's seat of the board.
#[derive(Drop)]
pub struct TableDesk<P: Kept, J: Accord> {
    pub(crate) half: TableHalf<P>,
    pub(crate) seat: TableSeat<SealedRecord>,
    pub(crate) board: Arc<Board<SealedRecord>>,
    pub(crate) switch: TableSwitch,
    of: PhantomData<J>,
    ghost named: { (arc_value board ≡ J.board) × (seat.board ≡ J.board) },
    ghost switched: { switch.board ≡ J.switches },
    ghost counts: { CountsSealed half seat },
    ghost kept: { (told : J.told)
        → ∥ IsTableDesk P.analysis P.TAG (version_after (J.version told) switch.seat.sealed) (J.first told) half seat ∥₁ },
}

impl<P: Problem, J: Accord> TableDesk<P, J> {
    /// The desk over a half, beside its seat.
    pub(crate) fn over(
        half: TableHalf<P>,
        seat: TableSeat<SealedRecord>,
        board: Arc<Board<SealedRecord>>,
        switch: TableSwitch,
    ) -> Self
        requires named { (arc_value board ≡ J.board) × (seat.board ≡ J.board) }
        requires switched { switch.board ≡ J.switches }
        requires counts { CountsSealed half seat }
        requires kept { (told : J.told)
            → ∥ IsTableDesk ⟦<P as Kept>⟧.analysis P.TAG (version_after (J.version told) switch.seat.sealed) (J.first told) half seat ∥₁ }
    {
        TableDesk {
            half,
            seat,
            board,
            switch,
            of: PhantomData,
        }
    }

    /// The half, to be read.
    pub fn half(&self) -> &TableHalf<P>
        ensures { result.now ≡ self.now.half }
    {
        &self.half
    }

    /// Claims a pending key that no hand has claimed: see [`TableHalf::claim`].
    pub fn claim(&mut self, hand: usize) -> Result<Claimed<P>, Refused>
        ensures task { IfTask result (TakesTask ⟦<P as Kept>⟧.analysis hand self.old.half self.new.half) }
        ensures idle { result ≡ Ok Claimed.Idle → FindsIdle self.old.half.core self.new.half.core }
        ensures quiet { result ≡ Ok Claimed.Quiet → FindsQuiet self.old.half.core self.new.half.core }
        ensures rest { KeepsRest self.old.half self.new.half }
        ensures seat { self.new.seat ≡ self.old.seat }
        ensures refused { IfErr result (BarsClaim self.old.half hand) }
        ensures unchanged { OnErr result (IsSameTable self.old.half self.new.half) }
    {
        self.half.claim(hand)
    }

    /// Does the next part of the hand's work: see [`TableHalf::part`].
    pub fn part(&mut self, hand: usize, work: &mut Work<P>) -> Result<Parted, Refused>
        ensures part { HasDonePart result → DoesPart ⟦<P as Kept>⟧.analysis hand self.old.half self.new.half work.old work.new }
        ensures no_part { FindsNoPart result self.old.half self.new.half work.old work.new }
        ensures rest { KeepsRest self.old.half self.new.half }
        ensures seat { self.new.seat ≡ self.old.seat }
        ensures refused { IfErr result (BarsPart P.F.edge P.targets self.old.half hand work.old) }
        ensures unchanged { LeavesWork result self.old.half self.new.half work.old work.new }
    {
        self.half.part(hand, work)
    }

    /// Ends the hand's claim, of which all parts are done: see [`TableHalf::finish`].
    pub fn finish(&mut self, hand: usize, work: &Work<P>) -> Result<(), Refused>
        ensures ends { OnOk result (EndsClaim ⟦<P as Kept>⟧.analysis hand self.old.half self.new.half) }
        ensures free { OnOk result (claim_at self.new.half.core.pile hand ≡ None) }
        ensures rest { KeepsRest self.old.half self.new.half }
        ensures seat { self.new.seat ≡ self.old.seat }
        ensures refused { IfErr result (BarsFinish P.F.edge P.targets self.old.half hand work.now) }
        ensures unchanged { OnErr result (IsSameTable self.old.half self.new.half) }
    {
        self.half.finish(hand, work)
    }

    /// Gives the hand's claim back: see [`TableHalf::release`].
    pub fn release(&mut self, hand: usize) -> Result<(), Refused>
        ensures gives { OnOk result (GivesClaimBack ⟦<P as Kept>⟧.analysis hand self.old.half self.new.half) }
        ensures free { OnOk result (claim_at self.new.half.core.pile hand ≡ None) }
        ensures rest { KeepsRest self.old.half self.new.half }
        ensures seat { self.new.seat ≡ self.old.seat }
        ensures refused { IfErr result (IsRefusal self.old.half (IsStaleClaim self.old.half hand)) }
        ensures unchanged { OnErr result (IsSameTable self.old.half self.new.half) }
    {
        self.half.release(hand)
    }

    /// Runs up to so many keys, where no hand has a claim: see [`TableHalf::drain_some`]. It seals nothing, so that each record
    /// that is sealed has its mark ([`TableDesk::seal`]).
    pub fn drain_some(&mut self, most: usize) -> Result<usize, Refused>
        ensures runs { IfOk result (RunsKeys ⟦<P as Kept>⟧.analysis self.old.half self.new.half) }
        ensures most { IfOk result (λ count. count ≤ most) }
        ensures quiet { IfOk result (λ count. count < most → self.new.half.core.pile.pending ≡ []) }
        ensures stops { StopsBy ⟦<P as Kept>⟧.analysis self.old.half self.new.half }
        ensures rest { KeepsRest self.old.half self.new.half }
        ensures seat { self.new.seat ≡ self.old.seat }
        ensures refused { IfErr result (BarsDrain ⟦<P as Kept>⟧.analysis false self.old.half self.new.half) }
        ensures unchanged { IfErr result (StopsAmid self.old.half self.new.half) }
    {
        self.half.drain_some(most)
    }

    /// The image as it stands, copied: see [`TableHalf::freeze`]. It is that of a run: so it answers with best
    /// values, as that of any run does.
    pub fn freeze(&self) -> Result<Closed<P>, Refused>
        ensures image { IfOk result (IsImageOver ⟦<P as Kept>⟧.analysis self.now.half) }
        ensures run { J.told → IfOk result (λ closed. ∥ IsImageOfRun ⟦<P as Kept>⟧.analysis closed ∥₁) }
        ensures graph { J.told → IfOk result (λ closed. ∥ HasItsGraph closed ∥₁) }
        ensures refused { IfErr result (BarsFreeze self.now.half) }
    {
        cores_are_whole(self.half.core());
        self.half.freeze()
    }

    /// Marks that a call of a disk failed: from then on each call is refused with `Failed`.
    pub fn stop(&mut self)
        ensures half { self.new.half ≡ record self.old.half { failed = true } }
        ensures seat { self.new.seat ≡ self.old.seat }
    {
        self.half.stop();
    }

    /// Seals what changed since the last record, if anything did, for no client: see [`TableHalf::seal`].
    pub fn seal(&mut self) -> Result<Option<Ticket>, Refused>
        ensures seals { SealsChanges ⟦<P as Kept>⟧.analysis result self.old.half self.new.half }
        ensures marked { MarksNone result self.old.seat self.new.seat self.new.half }
        ensures nothing { result ≡ Ok None → FindsNothing ⟦<P as Kept>⟧.analysis self.old.half self.new.half × (self.new.seat ≡ self.old.seat) }
        ensures anew { OnOk result (BeginsAnew self.old.half.core self.new.half.core) }
        ensures refused { IfErr result (BarsSeal ⟦<P as Kept>⟧.analysis self.old.half) }
        ensures unchanged { Remains result self.old.half self.new.half self.old.seat self.new.seat }
    {
        match self.half.seal() {
            Ok(sealed) => {
                let Some(ticket) = sealed else {
                    return Ok(None);
                };
                self.board
                    .seal_shown::<Last, TableHalf<P>>(&mut self.seat, &self.half, None);
                Ok(Some(ticket))
            }
            Err(refused) => Err(refused),
        }
    }

    /// Loads a program for the client, who notes the record and its number: see [`TableHalf::load`].
    pub fn load(
        &mut self,
        client: &mut ClientSeat<SealedRecord>,
        program: Program,
    ) -> Result<Ticket, Refused>
        requires { client.old.board ≡ J.board }
        ensures loads { IfOk result (λ ticket. LoadsProgram ⟦<P as Kept>⟧.analysis (value_of program) self.old.half self.new.half ticket.number) }
        ensures marked { MarksLoad result client.old self.old.seat self.new.seat self.new.half }
        ensures noted { IfOk result (NotesLast client.old client.new self.new.half) }
        ensures command { J.told → IfOk result (λ _. ∥ SpellsLoad ⟦<P as Kept>⟧.analysis (value_of program) (last_sealed self.new.half) ∥₁) }
        ensures refused { IfErr result (IsRefusal self.old.half (IsLoadStop self.old.half)) }
        ensures unchanged { Remains result self.old.half self.new.half self.old.seat self.new.seat }
        ensures not_noted { OnErr result (client.new ≡ client.old) }
    {
        match self.half.load(program) {
            Ok(ticket) => {
                note_last(&self.board, &mut self.seat, &self.half, client);
                Ok(ticket)
            }
            Err(refused) => Err(refused),
        }
    }

    /// Makes the procedure of that name a root for the client, who notes the record and its number. What
    /// changed is sealed first, if anything did, for no client: see [`TableHalf::root`].
    pub fn root(
        &mut self,
        client: &mut ClientSeat<SealedRecord>,
        name: &[u8],
    ) -> Result<Ticket, Refused>
        requires { client.old.board ≡ J.board }
        ensures begins { IfOk result (λ ticket. BeginsRoot ⟦<P as Kept>⟧.analysis name.now self.old.half self.new.half ticket.number) }
        ensures marked { MarksRoot result client.old self.old.seat self.new.seat self.new.half }
        ensures noted { IfOk result (NotesLast client.old client.new self.new.half) }
        ensures command { J.told → IfOk result (λ _. ∥ SpellsRoot ⟦<P as Kept>⟧.analysis name.now (last_sealed self.new.half) ∥₁) }
        ensures refused { IfErr result (BarsRoot ⟦<P as Kept>⟧.analysis self.old.half name.now) }
        ensures unchanged { Remains result self.old.half self.new.half self.old.seat self.new.seat }
        ensures not_noted { OnErr result (client.new ≡ client.old) }
    {
        let before = self.half.sealed();
        match self.half.root(name) {
            Ok(ticket) => {
                if ticket.number > before {
                    note_last_two(&self.board, &mut self.seat, &self.half, client);
                    return Ok(ticket);
                }
                note_last(&self.board, &mut self.seat, &self.half, client);
                Ok(ticket)
            }
            Err(refused) => Err(refused),
        }
    }
}

/// Seals the last record that waits with the half for the client, who notes it with its number.
fn note_last<P: Problem>(
    board: &Board<SealedRecord>,
    seat: &mut TableSeat<SealedRecord>,
    half: &TableHalf<P>,
    client: &mut ClientSeat<SealedRecord>,
)
    requires boards { (seat.old.board ≡ board.now) × (client.old.board ≡ board.now) }
    requires room { length seat.old.sealed < 4294967295 }
    requires handed { seat.old.handed ≤ length seat.old.sealed }
    ensures seat { seat.new ≡ with_last seat.old half.now (Some client.old.number) }
    ensures noted { client.new ≡ with_own client.old ((length seat.old.sealed, last_sealed half.now) ∷ []) }
    ensures seen { client.old.seen ≤ length seat.old.sealed }
{
    board.compare(seat, client);
    board.seal_shown::<Last, TableHalf<P>>(seat, half, Some(client.number()));
    board.note(seat, client);
}

/// Seals the last two records that wait, of which the first is of what changed and for no client, and the
/// other for the client, who notes it with its number.
fn note_last_two<P: Problem>(
    board: &Board<SealedRecord>,
    seat: &mut TableSeat<SealedRecord>,
    half: &TableHalf<P>,
    client: &mut ClientSeat<SealedRecord>,
)
    requires boards { (seat.old.board ≡ board.now) × (client.old.board ≡ board.now) }
    requires room { length seat.old.sealed < 4294967294 }
    requires handed { seat.old.handed ≤ length seat.old.sealed }
    ensures seat { seat.new ≡ with_last_two seat.old half.now (Some client.old.number) }
    ensures noted { client.new ≡ with_own client.old ((length seat.old.sealed + 1, last_sealed half.now) ∷ []) }
    ensures seen { client.old.seen ≤ length seat.old.sealed + 1 }
{
    board.seal_shown::<LastButOne, TableHalf<P>>(seat, half, None);
    note_last(board, seat, half, client);
}
