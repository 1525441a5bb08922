//! A writer that publishes while a client reads, on threads.
ghost use Rattle.std.specs.Prelude.{◌≡◌, ◌+◌, ◌≤◌, length};

use ide_board::{Board, ClientSeat, TableSeat, WriterSeat};
use std::marker::Brand;
use std::sync::Wait;
use std::test::Fail;
use std::thread;
use std::thread::Threads;

/// How many records the writer publishes.
const COUNT: u64 = 1000;

/// Seals so many records, with no client.
fn seal_all(board: &Board<u64>, table: &mut TableSeat<u64>, count: u64)
    requires board { table.old.board ≡ board.now }
    requires room { length table.old.sealed + count ≤ 4294967295 }
    ensures board { table.new.board ≡ table.old.board }
    ensures count { length table.new.sealed ≡ length table.old.sealed + count }
{
    for number in 0..count {
        board.seal(table, &number, None);
    }
}

/// Publishes so many records.
fn publish_all(board: &Board<u64>, mut writer: WriterSeat<u64>, count: u64)
    requires board { writer.board ≡ board.now }
    requires waits { length writer.stored + count ≤ length writer.taken }
{
    for _number in 0..count {
        board.publish(&mut writer);
    }
}

/// Reads the acknowledged number until it is the last one. Answers whether it never fell, and what was
/// read last.
fn watch<R: Wait>(rt: &R, board: &Board<u64>, mut client: ClientSeat<u64>, last: u64) -> (bool, u64)
    requires { client.board ≡ board.now }
{
    let mut found = client.seen();
    let mut rises = true;
    for _ in rt.forever() {
        let before = found;
        found = board.acked(&mut client);
        rises = rises && before <= found;
        if found >= last {
            break;
        }
        thread::yield_now();
    }
    (rises, found)
}

/// Publishes in one thread and reads in another.
fn publish_and_watch<R: Threads + Wait + Sync>(
    rt: &R,
    board: &Board<u64>,
    writer: WriterSeat<u64>,
    client: ClientSeat<u64>,
) -> (bool, u64)
    requires boards { (writer.board ≡ board.now) × (client.board ≡ board.now) }
    requires waits { length writer.stored + 1000 ≤ length writer.taken }
{
    let (seen, _) = thread::join(
        rt,
        move || -> (bool, u64)
            requires { client.board ≡ board.now }
        { watch(rt, board, client, COUNT) },
        move || -> ()
            requires { (writer.board ≡ board.now) × (length writer.stored + 1000 ≤ length writer.taken) }
        { publish_all(board, writer, COUNT) },
    );
    seen
}

#[test]
fn what_is_read_rises_to_the_last(rt: HostRuntime) -> Result<(), Fail> {
    let (board, mut table, mut writer, mut clients) = Board::<u64>::new::<Brand>(rt.alloc(), 0, 1)?;
    let Some(client) = clients.pop() else {
        return Ok(());
    };
    seal_all(&board, &mut table, COUNT);
    board.hand_over(&mut table, &mut writer);
    let (rises, last) = publish_and_watch(&rt, &board, writer, client);
    assert!(rt; rises && last == COUNT);
    Ok(())
}
