//! Two locks on one board: what lies under each holds a seat, and both agree on the board by its name.
ghost use Rattle.std.specs.Prelude.{◌≡◌, ◌≤◌, [], ◌∷◌, length, IfSome, IfNone};
ghost use Rattle.ide_board.specs.Records.{AreStoredBelow, with_own};

use ide_board::{Board, ClientSeat, Naming, TableSeat, WriterSeat};
use std::marker::{Brand, Model, PhantomData};
use std::sync::{Mutex, Wait};
use std::test::Fail;
use std::thread;
use std::thread::Threads;

/// What lies under the table's lock: how many records are sealed, beside the seat that says so.
#[derive(Drop)]
pub struct TableDesk<J: Naming> {
    sealed: u64,
    seat: TableSeat<u64>,
    of: PhantomData<J>,
}

impl<J: Naming> Model for TableDesk<J> {
    ghost use Rattle.std.specs.Prelude.{◌≡◌, ℕ};
    ghost use Rattle.ide_board.specs.Records.{TableView};
    ghost use Rattle.ide_board_tests.specs.Desks.{IsTableDesk};

    ghost Value = { TableView ℕ };

    ghost view = { λ d. d.seat };

    ghost invariant = { λ d. (d.seat.board ≡ J.board) × IsTableDesk d.sealed d.seat };
}

/// What lies under the writer's lock: how many records were taken and how many are stored.
#[derive(Drop)]
pub struct WriterDesk<J: Naming> {
    taken: u64,
    stored: u64,
    seat: WriterSeat<u64>,
    of: PhantomData<J>,
}

impl<J: Naming> Model for WriterDesk<J> {
    ghost use Rattle.std.specs.Prelude.{◌≡◌, ℕ};
    ghost use Rattle.ide_board.specs.Records.{WriterView};
    ghost use Rattle.ide_board_tests.specs.Desks.{IsWriterDesk};

    ghost Value = { WriterView ℕ };

    ghost view = { λ d. d.seat };

    ghost invariant = { λ d. (d.seat.board ≡ J.board) × IsWriterDesk d.taken d.stored d.seat };
}

impl<J: Naming> TableDesk<J> {
    /// Seals a record for the client and notes it, and answers its number; of a thousand at most.
    fn order(&mut self, board: &Board<u64>, client: &mut ClientSeat<u64>, item: u64) -> Option<u64>
        requires { (board.now ≡ J.board) × (client.old.board ≡ J.board) }
        ensures noted { IfSome result (λ n. client.new ≡ with_own client.old ((n, item) ∷ [])) }
        ensures none { IfNone result (client.new ≡ client.old) }
    {
        if self.sealed >= 1000 {
            return None;
        }
        let number = self.sealed;
        board.compare(&mut self.seat, client);
        board.seal(&mut self.seat, &item, Some(client.number()));
        board.note(&mut self.seat, client);
        self.sealed += 1;
        Some(number)
    }

    /// Hands what is sealed over to the writer, which has stored all that it had.
    fn hand_over(&mut self, board: &Board<u64>, writer: &mut WriterDesk<J>)
        requires { board.now ≡ J.board }
    {
        board.hand_over(&mut self.seat, &mut writer.seat);
        writer.taken = self.sealed;
    }
}

impl<J: Naming> WriterDesk<J> {
    /// Stores one record, if one waits.
    fn store(&mut self, board: &Board<u64>)
        requires { board.now ≡ J.board }
    {
        if self.stored < self.taken {
            board.publish(&mut self.seat);
            self.stored += 1;
        }
    }

    /// The client's own records below the number that it has seen are stored.
    fn confirm(&mut self, board: &Board<u64>, client: &mut ClientSeat<u64>)
        requires { (board.now ≡ J.board) × (client.old.board ≡ J.board) }
        ensures client { client.new ≡ client.old }
        ensures own { let c = client.old in AreStoredBelow c.seen self.new.stored c.number c.own }
    {
        board.confirm(&mut self.seat, client);
    }
}

/// Takes both locks to hand over, lets the table's go, and stores a record.
fn commit<J: Naming>(
    rt: &impl Wait,
    board: &Board<u64>,
    table: &Mutex<TableDesk<J>>,
    writer: &Mutex<WriterDesk<J>>,
)
    requires { board.now ≡ J.board }
{
    let mut writer = writer.lock(rt);
    table.lock(rt).hand_over(board, &mut writer);
    writer.store(board);
}

/// Two clients order a record each in threads of their own, and one of them is stored. The first one looks,
/// and its own record is stored where it is below what was seen.
fn order_both<J: Naming + Send + Sync, R: Threads + Wait + Sync>(
    rt: &R,
    board: &Board<u64>,
    table: TableDesk<J>,
    writer: WriterDesk<J>,
    first: ClientSeat<u64>,
    second: ClientSeat<u64>,
) -> (WriterDesk<J>, ClientSeat<u64>)
    requires board { board.now ≡ J.board }
    requires clients { (first.board ≡ J.board) × (second.board ≡ J.board) }
    ensures own { let c = result.1 in AreStoredBelow c.seen result.0.stored c.number c.own }
{
    let table = Mutex::new(table);
    let writer = Mutex::new(writer);
    let (mut first, _) = thread::join(
        rt,
        || -> ClientSeat<u64>
            requires { (board.now ≡ J.board) × (first.board ≡ J.board) }
            ensures { result.board ≡ J.board }
        { order_locked(rt, board, &table, first, 7) },
        || -> ClientSeat<u64>
            requires { (board.now ≡ J.board) × (second.board ≡ J.board) }
        { order_locked(rt, board, &table, second, 8) },
    );
    commit(rt, board, &table, &writer);
    board.acked(&mut first);
    let mut writer = writer.into_inner();
    writer.confirm(board, &mut first);
    (writer, first)
}

fn order_locked<J: Naming>(
    rt: &impl Wait,
    board: &Board<u64>,
    table: &Mutex<TableDesk<J>>,
    mut client: ClientSeat<u64>,
    item: u64,
) -> ClientSeat<u64>
    requires { (board.now ≡ J.board) × (client.board ≡ J.board) }
    ensures { result.board ≡ J.board }
{
    table.lock(rt).order(board, &mut client, item);
    client
}

/// The desks of a board with no records, under the name of the board.
fn work<J: Naming + Send + Sync, R: Threads + Wait + Sync>(
    rt: &R,
    board: &Board<u64>,
    table: TableSeat<u64>,
    writer: WriterSeat<u64>,
    first: ClientSeat<u64>,
    second: ClientSeat<u64>,
) -> (u64, u64)
    requires board { board.now ≡ J.board }
    requires seats { (table.board ≡ J.board) × (writer.board ≡ J.board) }
    requires clients { (first.board ≡ J.board) × (second.board ≡ J.board) }
    requires table { (table.sealed ≡ []) × (table.handed ≡ 0) }
    requires writer { (writer.taken ≡ []) × (writer.stored ≡ []) }
{
    let table = TableDesk::<J> {
        sealed: 0,
        seat: table,
        of: PhantomData,
    };
    let writer = WriterDesk::<J> {
        taken: 0,
        stored: 0,
        seat: writer,
        of: PhantomData,
    };
    let (writer, first) = order_both(rt, board, table, writer, first, second);
    (writer.stored, first.seen())
}

#[test]
fn two_locks_agree_on_a_board(rt: HostRuntime) -> Result<(), Fail> {
    let (board, table, writer, mut clients) = Board::<u64>::new::<Brand>(rt.alloc(), 0, 2)?;
    let (Some(second), Some(first)) = (clients.pop(), clients.pop()) else {
        return Ok(());
    };
    let (stored, seen) = work::<Brand, _>(&rt, &board, table, writer, first, second);
    assert!(rt; stored == 1 && seen == 1);
    Ok(())
}
