//! A new board over an engine, with the seats of both desks at it.
ghost use Rattle.std.specs.Prelude.{◌≡◌, ◌+◌, ◌<◌, ◌≤◌, length, Err, IfErr, IfOk, OnOk};
ghost use Rattle.std.specs.Arc.{arc_value};
ghost use Rattle.ide_board.specs.Records.{new_clients};
ghost use Rattle.ide_desks.specs.Desks.{with_unknown};
ghost use Rattle.ide_desks.specs.Calls.{IsBoardRefusal};
ghost use Rattle.ide_desks.specs.Opened.{AreNewSeats, IsNewSwitch, IsToldOf, StaysOnRun};
ghost use Rattle.ide_slot_journal.specs.Stands.{records_stored};

use crate::accord::Accord;
use crate::laws::runs_are_live;
use crate::switch::{TableSwitch, WriterSwitch};
use crate::table::{SealedRecord, TableDesk};
use crate::writer::WriterDesk;
use ide_board::{Board, ClientSeat, Shows, TableSeat, WriterSeat};
use ide_disk::Disk;
use ide_problem::Problem;
use ide_slot_store::SlotEngine;
use ide_store::Kept;
use ide_wire::Refused;
use std::alloc::Global;
use std::marker::Brand;
use std::sync::Arc;

/// A record that the board does not know.
struct Unknown;

impl Shows<Unknown, SealedRecord> for Unknown {
    ghost use Rattle.std.specs.Prelude.{[]};
    ghost use Rattle.ide_desks.specs.Keeping.{unknown};

    ghost shown = { λ _. unknown.0 };
}

/// An engine and a new board, with the seats of both desks at it. All that is sealed is handed over.
#[derive(Drop)]
pub struct Opened<P: Kept, D: Disk> {
    pub(crate) engine: SlotEngine<P, D>,
    pub(crate) board: Arc<Board<SealedRecord>>,
    pub(crate) board_of_table: Arc<Board<SealedRecord>>,
    pub(crate) board_of_writer: Arc<Board<SealedRecord>>,
    pub(crate) table: TableSeat<SealedRecord>,
    pub(crate) writer: WriterSeat<SealedRecord>,
    pub(crate) switch: TableSwitch,
    pub(crate) writers_switch: WriterSwitch,
    ghost same_for_table: { arc_value board_of_table ≡ arc_value board },
    ghost same_for_writer: { arc_value board_of_writer ≡ arc_value board },
    ghost switches: { IsNewSwitch switch writers_switch },
    ghost seats: { AreNewSeats (arc_value board) engine table writer },
}

/// The seats of a new board, which all share.
#[derive(Drop)]
struct NewSeats {
    board: Arc<Board<SealedRecord>>,
    board_of_table: Arc<Board<SealedRecord>>,
    board_of_writer: Arc<Board<SealedRecord>>,
    table: TableSeat<SealedRecord>,
    writer: WriterSeat<SealedRecord>,
    switch: TableSwitch,
    writers_switch: WriterSwitch,
    clients: Vec<ClientSeat<SealedRecord>>,
    ghost same_for_table: { arc_value board_of_table ≡ arc_value board },
    ghost same_for_writer: { arc_value board_of_writer ≡ arc_value board },
    ghost switches: { IsNewSwitch switch writers_switch },
}

/// How many clients a board may have.
const MOST_CLIENTS: u64 = 64;

impl<P: Problem, D: Disk> Opened<P, D> {
    /// A board for the engine, with seats for so many clients. What waits with the half that works is handed
    /// over to the half that writes.
    ///
    /// Refusals, in this order: `Limit`, where there are more than 64 clients, or more records are stored
    /// than were sealed, as in no engine that was made or opened; `NoMemory`. The engine comes back.
    pub fn new(
        alloc: Global,
        mut engine: SlotEngine<P, D>,
        clients: u64,
    ) -> Result<(Opened<P, D>, Vec<ClientSeat<SealedRecord>>), (Refused, SlotEngine<P, D>)>
        ensures clients { IfOk result (λ all. all.1.items ≡ new_clients (arc_value all.0.board) (records_stored engine.writer.journal) clients) }
        ensures run { IfOk result (λ all. StaysOnRun ⟦<P as Kept>⟧.analysis P.TAG engine all.0.engine) }
        ensures journal { IfOk result (λ all. all.0.engine.writer.journal ≡ engine.writer.journal) }
        ensures refused { IfErr result (λ all. IsBoardRefusal all.0) }
        ensures limit { 64 < clients → IfErr result (λ all. all.0 ≡ Refused.Limit) }
    {
        match seats_of(alloc, &mut engine, clients) {
            Ok(seats) => {
                let NewSeats {
                    board,
                    board_of_table,
                    board_of_writer,
                    table,
                    writer,
                    switch,
                    writers_switch,
                    clients,
                } = seats;
                let opened = Opened {
                    engine,
                    board,
                    board_of_table,
                    board_of_writer,
                    table,
                    writer,
                    switch,
                    writers_switch,
                };
                Ok((opened, clients))
            }
            Err(refused) => Err((refused, engine)),
        }
    }

    /// Both desks, under the name that the call picks.
    pub fn named<J: Accord>(
        self,
    ) -> (
        TableDesk<P, J>,
        WriterDesk<P, D, J>,
        Arc<Board<SealedRecord>>,
    )
        requires board { arc_value self.board ≡ J.board }
        requires switches { self.switch.board ≡ J.switches }
        requires told { (told : J.told) → IsToldOf ⟦<P as Kept>⟧.analysis P.TAG self.engine (J.version told) (J.first told) }
        ensures { arc_value result.2 ≡ J.board }
    {
        runs_are_live::<P, D>();
        let Opened {
            engine,
            board,
            board_of_table,
            board_of_writer,
            table,
            writer,
            switch,
            writers_switch,
        } = self;
        let SlotEngine {
            table: working,
            writer: writing,
        } = engine;
        let taken = working.sealed();
        let table = TableDesk::over(working, table, board_of_table, switch);
        let writer = WriterDesk::over(writing, writer, board_of_writer, writers_switch, taken);
        (table, writer, board)
    }
}

/// Seats of a new board for the engine, with all that is sealed handed over.
fn seats_of<P: Problem, D: Disk>(
    alloc: Global,
    engine: &mut SlotEngine<P, D>,
    clients: u64,
) -> Result<NewSeats, Refused>
    ensures seats { IfOk result (λ s. AreNewSeats (arc_value s.board) engine.new s.table s.writer) }
    ensures clients { IfOk result (λ s. s.clients.items ≡ new_clients (arc_value s.board) (records_stored engine.old.writer.journal) clients) }
    ensures journal { engine.new.writer.journal ≡ engine.old.writer.journal }
    ensures run { OnOk result (StaysOnRun ⟦<P as Kept>⟧.analysis P.TAG engine.old engine.new) }
    ensures refused { IfErr result IsBoardRefusal }
    ensures limit { 64 < clients → result ≡ Err Refused.Limit }
{
    let stored = engine.writer.stored();
    let sealed = engine.table.sealed();
    if clients > MOST_CLIENTS || stored > sealed {
        return Err(Refused::Limit);
    }
    engine.writer.take_all_from(&mut engine.table)?;
    let (board, mut table, mut writer, clients) = Board::new::<Brand>(alloc, stored, clients)?;
    seal_unknown(&board, &mut table, sealed - stored);
    board.hand_over(&mut table, &mut writer);
    let board = Arc::new(alloc, board)?;
    let board_of_table = Arc::try_clone(&board)?;
    let board_of_writer = Arc::try_clone(&board)?;
    let (switch, writers_switch) = new_switch(alloc)?;
    Ok(NewSeats {
        board,
        board_of_table,
        board_of_writer,
        table,
        writer,
        switch,
        writers_switch,
        clients,
    })
}

/// What both desks know of the version, on a new board on which nothing is noted.
fn new_switch(alloc: Global) -> Result<(TableSwitch, WriterSwitch), Refused>
    ensures new { IfOk result (λ both. IsNewSwitch both.0 both.1) }
    ensures refused { IfErr result (λ why. why ≡ Refused.NoMemory) }
{
    let (board, seat, writer, _) = Board::new::<Brand>(alloc, 0, 0)?;
    let switch = TableSwitch {
        board,
        seat,
        noted: false,
    };
    Ok((switch, WriterSwitch { seat: writer }))
}

/// Seals so many records of which the board does not know what they are.
fn seal_unknown(board: &Board<SealedRecord>, table: &mut TableSeat<SealedRecord>, count: u64)
    requires board { table.old.board ≡ board.now }
    requires room { length table.old.sealed + count ≤ 4294967295 }
    ensures { table.new ≡ with_unknown table.old count }
{
    for _ in 0..count {
        board.seal_shown::<Unknown, Unknown>(table, &Unknown, None);
    }
}
