//! One run by both desks: what a client orders and what hands do is sealed, handed over and stored.
ghost use Rattle.std.specs.Prelude.{◌≡◌, IfOk};
ghost use Rattle.std.specs.Arc.{arc_value};

use ide_board::{Board, ClientSeat};
use ide_desks::{Accord, Opened, SealedRecord, Stepped, TableDesk, WriterDesk};
use ide_disk::MemDisk;
use ide_instances::ShiftConst;
use ide_slot_store::SlotEngine;
use ide_steps::{Claimed, Parted};
use ide_tasks::{Task, Work};
use ide_text::parse;
use ide_wire::Refused;
use ide_worked::EMPTY;
use std::alloc::{AllocGlobal, Global};
use std::marker::Brand;
use std::process::Abort;
use std::test::Fail;

type Table<J> = TableDesk<ShiftConst, J>;

type Writer<J> = WriterDesk<ShiftConst, MemDisk, J>;

/// The most tasks, parts and disk calls of a run.
const MANY: usize = 200;

/// What a call gave that is not to be refused.
fn given<T>(rt: &impl Abort, found: Result<T, Refused>) -> T {
    match found {
        Ok(value) => value,
        Err(refused) => panic!(rt; "{refused}"),
    }
}

/// The work of a task.
fn work_of(alloc: Global, task: Task<ShiftConst>) -> Result<Work<ShiftConst>, Refused> {
    match Work::of(alloc, task) {
        Ok(work) => Ok(work),
        Err(_) => Err(Refused::NoMemory),
    }
}

/// Does all parts of a task that hand 0 has claimed, and ends its claim.
fn do_task<J: Accord>(
    alloc: Global,
    table: &mut Table<J>,
    task: Task<ShiftConst>,
) -> Result<(), Refused> {
    let mut work = work_of(alloc, task)?;
    for _ in 0..MANY {
        if table.part(0, &mut work)? == Parted::NoPart {
            break;
        }
    }
    table.finish(0, &work)?;
    Ok(())
}

/// Does tasks until nothing is pending, and answers how many there were.
fn drain<J: Accord>(alloc: Global, table: &mut Table<J>) -> Result<usize, Refused> {
    for count in 0..MANY {
        match table.claim(0)? {
            Claimed::Task(task) => do_task(alloc, table, task)?,
            Claimed::Idle | Claimed::Quiet => return Ok(count),
        }
    }
    Ok(MANY)
}

/// Makes disk calls until the writer rests, and answers how many records they stored.
fn store<J: Accord>(writer: &mut Writer<J>) -> Result<u64, Refused> {
    let mut stored: u64 = 0;
    for _ in 0..MANY {
        match writer.disk_step()? {
            Stepped::Rested => break,
            Stepped::Stored => stored = stored.saturating_add(1),
            Stepped::Called => {}
        }
    }
    Ok(stored)
}

/// Seals what changed, and answers the number of its record, if anything did.
fn seal<J: Accord>(table: &mut Table<J>) -> Result<Option<u64>, Refused> {
    match table.seal()? {
        Some(ticket) => Ok(Some(ticket.number)),
        None => Ok(None),
    }
}

/// Loads a program of one empty procedure for the client, and makes it a root.
fn order<J: Accord, R: Abort + AllocGlobal>(
    rt: &R,
    table: &mut Table<J>,
    client: &mut ClientSeat<SealedRecord>,
) -> Result<(), Refused>
    requires { client.old.board ≡ J.board }
    ensures { client.new.board ≡ J.board }
{
    let program = parse(rt.alloc(), EMPTY.as_bytes())?;
    let loaded = table.load(client, program)?;
    let rooted = table.root(client, b"main")?;
    assert!(rt; loaded.number == 0 && rooted.number == 1);
    Ok(())
}

/// Asserts that hand 0 finds three tasks, and that what they changed is record 2.
fn expect_work<J: Accord, R: Abort + AllocGlobal>(rt: &R, table: &mut Table<J>) {
    assert!(rt; given(rt, drain(rt.alloc(), table)) == 3);
    assert!(rt; given(rt, seal(table)) == Some(2));
}

/// Asserts that so many records wait for the disks, and that the client sees so many stored then.
fn expect_stored<J: Accord>(
    rt: &impl Abort,
    writer: &mut Writer<J>,
    board: &Board<SealedRecord>,
    client: &mut ClientSeat<SealedRecord>,
    count: u64,
    all: u64,
)
    requires { client.old.board ≡ board.now }
    ensures { client.new.board ≡ board.now }
{
    assert!(rt; board.acked(client) == all.saturating_sub(count), "before");
    assert!(rt; given(rt, store(writer)) == count);
    assert!(rt; board.acked(client) == all, "behind");
}

/// Asserts that a checkpoint begins where all is stored, that one does not beside it, and that its calls store no
/// record.
fn expect_checkpoint<J: Accord, R: Abort + AllocGlobal>(
    rt: &R,
    table: &mut Table<J>,
    writer: &mut Writer<J>,
) {
    assert!(rt; writer.is_stored() && writer.stored_past_checkpoint() == 3);
    assert!(rt; given(rt, table.checkpoint(rt.alloc(), writer)) && !writer.is_stored());
    assert!(rt;
        !given(rt, table.checkpoint(rt.alloc(), writer)),
        "one is under way"
    );
    assert!(rt; given(rt, store(writer)) == 0 && writer.is_stored());
    assert!(rt;
        !given(rt, table.checkpoint(rt.alloc(), writer)),
        "nothing is new"
    );
}

/// Asserts that the write of a record fails, and that the desk does nothing from then on.
fn expect_failed_write<J: Accord>(rt: &impl Abort, table: &mut Table<J>, writer: &mut Writer<J>) {
    assert!(rt; table.hand_over(writer) && !writer.has_failed());
    assert!(rt; store(writer) == Err(Refused::Disk) && writer.has_failed());
    assert!(rt; store(writer) == Err(Refused::Failed) && !table.hand_over(writer));
}

/// Asserts that a table that is stopped gives no work.
fn expect_stopped<J: Accord>(rt: &(impl Abort + AllocGlobal), table: &mut Table<J>) {
    table.stop();
    assert!(rt; drain(rt.alloc(), table) == Err(Refused::Failed));
}

/// Asserts that work goes on while two records wait for the disks, and that a client sees them once they are
/// stored. Where the disk fails, no record is stored, and the work ends.
fn expect_run<J: Accord, R: Abort + AllocGlobal>(
    rt: &R,
    table: &mut Table<J>,
    writer: &mut Writer<J>,
    board: &Board<SealedRecord>,
    client: &mut ClientSeat<SealedRecord>,
    fails: bool,
)
    requires { client.old.board ≡ board.now }
    ensures { client.new.board ≡ board.now }
{
    if fails {
        expect_failed_write(rt, table, writer);
        assert!(rt; board.acked(client) == 0);
        expect_stopped(rt, table);
        return;
    }
    assert!(rt; table.hand_over(writer), "nothing waits with the writer");
    expect_work(rt, table);
    assert!(rt;
        !table.hand_over(writer),
        "two records wait with the writer"
    );
    expect_stored(rt, writer, board, client, 2, 2);
    assert!(rt; table.hand_over(writer), "both are stored");
    expect_stored(rt, writer, board, client, 1, 3);
    expect_checkpoint(rt, table, writer);
}

/// A run by both desks, whose first record can't be stored where the disk fails. Answers how many keys there are at
/// its end, and the disks.
fn run<J: Accord, R: Abort + AllocGlobal>(
    rt: &R,
    opened: Opened<ShiftConst, MemDisk>,
    mut client: ClientSeat<SealedRecord>,
    fails: bool,
) -> (usize, (MemDisk, MemDisk))
    requires board { arc_value opened.board ≡ J.board }
    requires switches { opened.switch.board ≡ J.switches }
    requires client { client.board ≡ J.board }
    requires untold { J.told → ⊥ }
{
    let (mut table, mut writer, board) = opened.named::<J>();
    given(rt, order(rt, &mut table, &mut client));
    expect_run(rt, &mut table, &mut writer, &board, &mut client, fails);
    writer.confirm(&mut client);
    (table.half().core().key_count(), writer.into_disks())
}

/// A new store whose first disk fails in its call of that number.
fn create<R: Abort + AllocGlobal>(
    rt: &R,
    fails_at: u64,
) -> Result<SlotEngine<ShiftConst, MemDisk>, Refused> {
    let mut first = MemDisk::new(rt.alloc(), 40_000, 80_000)?;
    let second = MemDisk::new(rt.alloc(), 40_000, 80_000)?;
    first.fail_at(fails_at);
    match SlotEngine::create(rt.alloc(), first, second) {
        Ok(engine) => Ok(engine),
        Err((refused, _, _)) => Err(refused),
    }
}

/// A board over a new store, whose first disk fails in its call of that number, and a client of the board.
fn open<R: Abort + AllocGlobal>(
    rt: &R,
    fails_at: u64,
) -> Result<(Opened<ShiftConst, MemDisk>, ClientSeat<SealedRecord>), Refused>
    ensures { IfOk result (λ all. all.1.board ≡ arc_value all.0.board) }
{
    let engine = create(rt, fails_at)?;
    match Opened::new(rt.alloc(), engine, 1) {
        Ok((opened, mut clients)) => match clients.pop() {
            Some(client) => Ok((opened, client)),
            None => Err(Refused::Limit),
        },
        Err((refused, _)) => Err(refused),
    }
}

#[test]
fn both_desks_go_on_apart(rt: HostRuntime) -> Result<(), Fail> {
    let (opened, client) = open(&rt, 1000)?;
    let (keys, (a, b)) = run::<Brand, _>(&rt, opened, client, false);
    match SlotEngine::<ShiftConst, MemDisk>::open(rt.alloc(), a, b) {
        Ok(engine) => {
            assert!(rt; engine.acked() == 3 && engine.table.core().key_count() == keys);
            assert!(rt; engine.generation() == 1);
        }
        Err((refused, _, _)) => panic!(rt; "{refused}"),
    }
    Ok(())
}

#[test]
fn a_failed_disk_stops_both_desks(rt: HostRuntime) -> Result<(), Fail> {
    let (opened, client) = open(&rt, 6)?;
    let _ = run::<Brand, _>(&rt, opened, client, true);
    Ok(())
}

#[test]
fn a_board_has_up_to_64_clients(rt: HostRuntime) -> Result<(), Fail> {
    let engine = create(&rt, 1000)?;
    match Opened::new(rt.alloc(), engine, 65) {
        Ok((_opened, _clients)) => panic!(rt; "65 clients"),
        Err((refused, engine)) => assert!(rt; refused == Refused::Limit && engine.acked() == 0),
    }
    Ok(())
}
