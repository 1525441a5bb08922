//! A service: a store that several hands work on at once, with one that writes what they did, and clients who
//! order commands and learn what is stored.
ghost use Rattle.std.specs.Prelude.{◌≡◌, ◌≤◌, ℕ, Some, max, Ok, IfErr, IfOk, OnErr};
ghost use Rattle.std.specs.Arc.{arc_value};
ghost use Rattle.ide_desks.specs.Opened.{IsRejoined, IsToldOf};
ghost use Rattle.ide_desks.specs.Orders.{SpellsRoot};
ghost use Rattle.ide_service.specs.Clients.{IsOrdered, IsTextRefusal, SpellsText};
ghost use Rattle.ide_service.specs.Holds.{IsWorkRefusal};
ghost use Rattle.ide_service.specs.Refusing.{HalfRefuses, IsRefusedIn, IsRefusedOver, to_seal};
ghost use Rattle.ide_service.specs.declared.hands.Point.{Point};
ghost use Rattle.ide_steps.specs.CloseRefusal.{IsFreezeRefusal};
ghost use Rattle.ide_steps.specs.Frozen.{graph_in, program_in};
ghost use Rattle.ide_steps.specs.Room.{IsGraphSaid};
ghost use Rattle.ide_store.specs.Runs.{IsImageOfRun};
ghost use Rattle.ide_store.specs.Table.{TableData};
ghost use Rattle.ide_store.specs.TableCalls.{IsRootStop};

use crate::hands::{Ended, Gate, Point, hand_loop};
use crate::patience::Leave;
use crate::progress::Progress;
use crate::sharing::SharingHand;
use ide_board::{Board, ClientSeat};
use ide_desks::{Accord, Opened, SealedRecord, TableDesk, WriterDesk};
use ide_disk::Disk;
use ide_problem::Problem;
use ide_slot_store::SlotEngine;
use ide_steps::{Closed, HANDS};
use ide_store::{Kept, Ticket};
use ide_text::parse;
use ide_wire::Refused;
use std::alloc::Global;
use std::sync::{Arc, Mutex, MutexGuard, Wait};
use std::time::Clock;

/// How many records are stored past a checkpoint before a committer makes the next one, where nothing else was
/// asked for.
const CHECKPOINT_EVERY: u32 = 1_024;

/// A store that hands and clients share, under two locks: the half that works lies under the table's, and the half
/// that writes under the writer's, each beside its seat of one board. So hands and clients need not wait for a
/// disk. Whoever takes both takes the writer's first.
///
/// The board, and on which run the store is, is told of the service's `J`: the caller of [`Service::new`] picks it.
#[derive(Drop)]
pub struct Service<P: Kept, D: Disk, J: Accord> {
    alloc: Global,
    board: Arc<Board<SealedRecord>>,
    table: Mutex<TableDesk<P, J>>,
    writer: Mutex<WriterDesk<P, D, J>>,
    /// How many records are stored past a checkpoint before the committer makes the next one.
    checkpoint_every: u32,
    ghost named: { arc_value board ≡ J.board },
}

impl<P: Problem, D: Disk, J: Accord> Service<P, D, J> {
    /// A service over an engine that was opened with a board, whose committer makes a checkpoint where 1,024 records
    /// are stored past the last one. Where `told` is picked as what holds of the engine, the clauses that ask for it
    /// tell of its run.
    pub fn new(alloc: Global, opened: Opened<P, D>) -> Self
        requires board { arc_value opened.board ≡ J.board }
        requires switches { opened.switch.board ≡ J.switches }
        requires told { (told : J.told) → IsToldOf ⟦<P as Kept>⟧.analysis P.TAG opened.engine (J.version told) (J.first told) }
    {
        Service::with_checkpoints(alloc, opened, CHECKPOINT_EVERY)
    }

    /// The same, with a checkpoint where so many records are stored past the last one.
    pub fn with_checkpoints(alloc: Global, opened: Opened<P, D>, checkpoint_every: u32) -> Self
        requires board { arc_value opened.board ≡ J.board }
        requires switches { opened.switch.board ≡ J.switches }
        requires told { (told : J.told) → IsToldOf ⟦<P as Kept>⟧.analysis P.TAG opened.engine (J.version told) (J.first told) }
    {
        let (table, writer, board) = opened.named::<J>();
        Service {
            alloc,
            board,
            table: Mutex::new(table),
            writer: Mutex::new(writer),
            checkpoint_every,
        }
    }

    /// Lets the hand work until no key is pending, or until the gate stops it. Where the gate lets it do tasks unasked and no
    /// hand has a claim, it drains: in each hold of the table's lock it does so many, with no claim, as
    /// [`ide_store::TableHalf::drain_some`] does. Else it claims and ends tasks; where every pending key is claimed it waits.
    /// Where a batch is full it is sealed. The hand has no claim at the end.
    ///
    /// Refusals, in this order: `Failed`; `Limit`, where the hand's number is over 63, or as of a seal;
    /// `NoProgram`; `Busy`, where the hand had a claim; `NoMemory`.
    pub fn work<R: Wait + Clock, G: Gate>(
        &self,
        rt: &R,
        hand: usize,
        gate: &G,
    ) -> Result<Ended, Refused>
        ensures stopped { result ≡ Ok Ended.Stopped → (point : Point) × G.may_stop gate.now point }
        ensures refused { IfErr result (IsWorkRefusal ⟦<P as Kept>⟧.analysis hand) }
    {
        if hand < HANDS && gate.ahead() > 0 {
            match self.drain_in_holds(rt, gate) {
                Ok(Some(ended)) => return Ok(ended),
                Ok(None) => {}
                Err(refused) => return Err(refused),
            }
        }
        let mut hands = SharingHand::new(rt, self, gate.ahead());
        hand_loop(rt, self.alloc, &mut hands, hand, gate)
    }

    /// Loads the program that the text spells, for the client, who notes the record and its number: see
    /// [`ide_store::TableHalf::load`]. The text is read before the lock is taken. No hand has a claim then.
    ///
    /// Refusals, in this order: `Text`; `Failed`; `Limit`; `NoMemory`, which may come anywhere. Nothing is noted
    /// then.
    pub fn load<R: Wait>(
        &self,
        rt: &R,
        client: &mut ClientSeat<SealedRecord>,
        text: &[u8],
    ) -> Result<Ticket, Refused>
        requires { client.old.board ≡ J.board }
        ensures ordered { IfOk result (λ ticket. IsOrdered J.told (SpellsText ⟦<P as Kept>⟧.analysis text.now) client.old client.new ticket.number) }
        ensures not_noted { OnErr result (client.new ≡ client.old) }
        ensures refused { IfErr result (IsTextRefusal P.F text.now) }
    {
        match parse(self.alloc, text) {
            Ok(program) => self.table(rt).load(client, program),
            Err(refused) => Err(refused),
        }
    }

    /// Makes the procedure of that name a root, for the client, who notes the record and its number: see
    /// [`ide_store::TableHalf::root`].
    pub fn root<R: Wait>(
        &self,
        rt: &R,
        client: &mut ClientSeat<SealedRecord>,
        name: &[u8],
    ) -> Result<Ticket, Refused>
        requires { client.old.board ≡ J.board }
        ensures ordered { IfOk result (λ ticket. IsOrdered J.told (SpellsRoot ⟦<P as Kept>⟧.analysis name.now) client.old client.new ticket.number) }
        ensures not_noted { OnErr result (client.new ≡ client.old) }
        ensures refused { IfErr result (IsRefusedIn (λ table. IsRootStop ⟦<P as Kept>⟧.analysis table name.now)) }
    {
        self.table(rt).root(client, name)
    }

    /// Seals what changed since the last record, if anything did: see [`ide_store::TableHalf::seal`].
    pub fn seal<R: Wait>(&self, rt: &R) -> Result<Option<Ticket>, Refused>
        ensures refused { IfErr result (IsRefusedOver (HalfRefuses ⟦<P as Kept>⟧.analysis) to_seal) }
    {
        self.table(rt).seal()
    }

    /// The image as it stands, copied: see [`ide_store::TableHalf::freeze`]. Whatever hands and clients did, it is
    /// that of a run.
    pub fn freeze<R: Wait>(&self, rt: &R) -> Result<Closed<P>, Refused>
        ensures run { J.told → IfOk result (λ closed. ∥ IsImageOfRun ⟦<P as Kept>⟧.analysis closed ∥₁) }
        ensures graph { J.told → IfOk result (λ closed. ∥ IsGraphSaid (Some (program_in closed)) (graph_in closed) ∥₁) }
        ensures refused { IfErr result (IsRefusedIn (λ (table : TableData P.F). IsFreezeRefusal table.core)) }
    {
        self.table(rt).freeze()
    }

    /// How many records are stored: those numbered below are acknowledged. It takes no lock, and is not below what
    /// the client has seen or learnt.
    pub fn acked(&self, client: &mut ClientSeat<SealedRecord>) -> u64
        requires { client.old.board ≡ J.board }
        ensures seen { client.old.seen ≤ result }
        ensures client { client.new ≡ record client.old { seen = result } }
    {
        self.board.acked(client)
    }

    /// Lets a client see what another has seen. It takes no lock.
    pub fn learn(&self, client: &mut ClientSeat<SealedRecord>, from: &mut ClientSeat<SealedRecord>)
        requires boards { (client.old.board ≡ J.board) × (from.old.board ≡ J.board) }
        ensures client { client.new ≡ record client.old { seen = max client.old.seen from.old.seen } }
        ensures from { from.new ≡ from.old }
    {
        self.board.learn(client, from);
    }

    /// Tells the committer that the hands have ended: it stores what is left, and ends. It takes no lock.
    pub fn raise_stop(&self) {
        self.board.raise_stop();
    }

    /// Whether stop was raised. It takes no lock.
    pub fn stopped(&self) -> bool {
        self.board.stopped()
    }

    /// How far the run has come, by one hold of the table's lock.
    pub fn progress<R: Wait>(&self, rt: &R) -> Progress {
        Progress::of(self.table(rt).half(), self.board.stored())
    }

    /// Takes the table's lock.
    pub(crate) fn table<R: Wait>(&self, rt: &R) -> MutexGuard<'_, TableDesk<P, J>> {
        self.table.lock(rt)
    }

    /// Takes the table's lock for a hand that does so many whole tasks under it. Where it does some and another has the
    /// lock, it sleeps for a while and tries again: who has it does as fast what there is to do as several would in turn,
    /// and the table stays in the cache of one processor.
    pub(crate) fn table_for<R: Wait + Clock>(
        &self,
        rt: &R,
        tasks: usize,
    ) -> MutexGuard<'_, TableDesk<P, J>> {
        if tasks == 0 {
            return self.table.lock(rt);
        }
        let mut leave = Leave::new();
        for _ in rt.forever() {
            if let Some(table) = self.table.try_lock() {
                return table;
            }
            leave.take(rt);
        }
        unreachable!()
    }

    /// Takes the writer's lock. Nobody does who has the table's.
    pub(crate) fn writer<R: Wait>(&self, rt: &R) -> MutexGuard<'_, WriterDesk<P, D, J>> {
        self.writer.lock(rt)
    }

    /// Where the hands allocate.
    pub(crate) fn alloc(&self) -> Global {
        self.alloc
    }

    /// How many records are stored past a checkpoint before the committer makes the next one.
    pub(crate) fn checkpoint_every(&self) -> u32 {
        self.checkpoint_every
    }

    /// Both desks, once nobody works on them.
    pub fn into_desks(self) -> (TableDesk<P, J>, WriterDesk<P, D, J>) {
        let Service { table, writer, .. } = self;
        (table.into_inner(), writer.into_inner())
    }

    /// The engine, once nobody works on it: see [`TableDesk::into_engine`]. Whatever hands, clients and the
    /// committer did, it is on a run.
    pub fn into_engine(self) -> SlotEngine<P, D>
        ensures { J.told → IsRejoined ⟦<P as Kept>⟧.analysis P.TAG result }
    {
        let (table, writer) = self.into_desks();
        table.into_engine(writer)
    }

    /// The disks A and B, once nobody works on them.
    pub fn into_disks(self) -> (D, D) {
        let (_, writer) = self.into_desks();
        writer.into_disks()
    }
}
