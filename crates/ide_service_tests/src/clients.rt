//! Clients of a service, who order commands and learn what is stored.
ghost use Rattle.std.specs.Prelude.{◌≡◌};
ghost use Rattle.std.specs.Arc.{arc_value};

use crate::services::{Served, given};
use ide_desks::Accord;
use ide_disk::{Leave, MemDisk};
use ide_instances::CopyConst;
use ide_memory_stores::{Client, OpenedStore, open, opened_failing, opened_for_two, opened_new};
use ide_problem::Problem;
use ide_service::{Ended, Open, Service};
use ide_slot_journal::SlotJournal;
use ide_slots::NumberedRecord;
use ide_wire::Refused;
use ide_worked::{NUMBER, RECURSION};
use std::alloc::Global;
use std::marker::Brand;
use std::process::Abort;
use std::sync::Wait;
use std::test::Fail;
use std::thread;
use std::thread::Threads;
use std::time::Clock;

/// What a client orders: that a text is loaded, or that a procedure is made a root.
#[derive(Clone, Copy)]
enum Command<'a> {
    Load(&'a str),
    Root(&'a str),
}

/// Orders it for the client, and answers the number of its record.
fn order<J: Accord>(
    rt: &impl Wait,
    service: &Served<J>,
    client: &mut Client,
    command: Command<'_>,
) -> Result<u64, Refused>
    requires { client.old.board ≡ J.board }
    ensures { client.new.board ≡ J.board }
{
    let ordered = match command {
        Command::Load(text) => service.load(rt, client, text.as_bytes()),
        Command::Root(name) => service.root(rt, client, name.as_bytes()),
    };
    match ordered {
        Ok(ticket) => Ok(ticket.number),
        Err(refused) => Err(refused),
    }
}

/// The disks behind a crash that leaves nothing of what was not synced.
fn crashed(disks: (MemDisk, MemDisk)) -> (MemDisk, MemDisk) {
    let (mut a, mut b) = disks;
    a.crash(Leave::Old);
    b.crash(Leave::Old);
    (a, b)
}

/// Asserts that a client sees its commands once they are stored, and not before, and that a crash leaves them.
fn expect_seen<J: Accord, R: Wait + Clock + Abort + AllocGlobal>(
    rt: &R,
    service: Served<J>,
    mut client: Client,
)
    requires { client.board ≡ J.board }
{
    assert!(rt; order(rt, &service, &mut client, Command::Load(NUMBER)) == Ok(0));
    assert!(rt; order(rt, &service, &mut client, Command::Root("main")) == Ok(1));
    assert!(rt; service.acked(&mut client) == 0);
    service.raise_stop();
    assert!(rt; service.commit(rt, &Open { ahead: 0 }) == Ok(Ended::Quiet));
    assert!(rt; service.acked(&mut client) == 2);
    let again = given(rt, open(rt.alloc(), crashed(service.into_disks())));
    assert!(rt; again.acked() == 2 && again.table.core().key_count() == 1);
}

/// Asserts that a wrong text, a command with nothing loaded, and a procedure that is none are refused.
fn expect_refused<J: Accord>(rt: &(impl Wait + Abort), service: &Served<J>, mut client: Client)
    requires { client.board ≡ J.board }
{
    assert!(rt;
        matches!(
            order(rt, service, &mut client, Command::Load("proc")),
            Err(Refused::Text { .. })
        )
    );
    assert!(rt; order(rt, service, &mut client, Command::Root("main")) == Err(Refused::NoProgram));
    assert!(rt; order(rt, service, &mut client, Command::Load(NUMBER)) == Ok(0));
    assert!(rt;
        order(rt, service, &mut client, Command::Root("none")) == Err(Refused::NoProcedure)
    );
}

/// Asserts that behind a failed disk call the committer, hands and clients are refused, and nothing is seen.
fn expect_failed<J: Accord, R: Wait + Clock + Abort>(
    rt: &R,
    service: &Served<J>,
    mut client: Client,
)
    requires { client.board ≡ J.board }
{
    assert!(rt; order(rt, service, &mut client, Command::Load(NUMBER)) == Ok(0));
    let open = Open { ahead: 0 };
    assert!(rt; service.commit(rt, &open) == Err(Refused::Disk) && service.stopped());
    assert!(rt; service.commit(rt, &open) == Err(Refused::Failed));
    assert!(rt; service.work(rt, 0, &open) == Err(Refused::Failed));
    assert!(rt; order(rt, service, &mut client, Command::Root("main")) == Err(Refused::Failed));
    assert!(rt; service.acked(&mut client) == 0);
}

/// What is asserted of a service and its client.
#[derive(Clone, Copy)]
enum Asserted {
    Seen,
    Refused,
    Failed,
}

/// Asserts it of a service over the store.
fn expect<J: Accord, R: Wait + Clock + Abort + AllocGlobal>(
    rt: &R,
    opened: OpenedStore,
    client: Client,
    asserted: Asserted,
)
    requires board { arc_value opened.board ≡ J.board }
    requires switches { opened.switch.board ≡ J.switches }
    requires client { client.board ≡ J.board }
    requires untold { J.told → ⊥ }
{
    let service: Served<J> = Service::new(rt.alloc(), opened);
    match asserted {
        Asserted::Seen => expect_seen(rt, service, client),
        Asserted::Refused => expect_refused(rt, &service, client),
        Asserted::Failed => expect_failed(rt, &service, client),
    }
}

#[test]
fn a_client_sees_what_is_stored(rt: HostRuntime) {
    let (opened, client) = given(&rt, opened_new(rt.alloc()));
    expect::<Brand, HostRuntime>(&rt, opened, client, Asserted::Seen);
}

#[test]
fn a_client_is_refused_as_a_store_refuses(rt: HostRuntime) {
    let (opened, client) = given(&rt, opened_new(rt.alloc()));
    expect::<Brand, HostRuntime>(&rt, opened, client, Asserted::Refused);
}

#[test]
fn behind_a_failed_disk_nothing_goes_on(rt: HostRuntime) {
    let (opened, client) = given(&rt, opened_failing(rt.alloc(), 6));
    expect::<Brand, HostRuntime>(&rt, opened, client, Asserted::Failed);
}

/// Makes a procedure a root, from a thread of the client's, and looks how far the store is.
fn order_root<J: Accord>(
    rt: &impl Wait,
    service: &Served<J>,
    mut client: Client,
    name: &str,
) -> (Result<u64, Refused>, Client)
    requires { client.board ≡ J.board }
    ensures { result.1.board ≡ J.board }
{
    let ordered = order(rt, service, &mut client, Command::Root(name));
    service.acked(&mut client);
    (ordered, client)
}

/// Makes `main` a root for the one client and `rec` for the other, each from a thread of its own, and then tells the
/// committer to end.
fn order_both<J: Accord + Send + Sync, R: Threads + Wait + Sync>(
    rt: &R,
    service: &Served<J>,
    first: Client,
    second: Client,
) -> (
    (Result<u64, Refused>, Client),
    (Result<u64, Refused>, Client),
)
    requires { (first.board ≡ J.board) × (second.board ≡ J.board) }
    ensures { (result.0.1.board ≡ J.board) × (result.1.1.board ≡ J.board) }
{
    let both = thread::join(
        rt,
        || -> (Result<u64, Refused>, Client)
            requires { first.board ≡ J.board }
            ensures { result.1.board ≡ J.board }
        { order_root(rt, service, first, "main") },
        || -> (Result<u64, Refused>, Client)
            requires { second.board ≡ J.board }
            ensures { result.1.board ≡ J.board }
        { order_root(rt, service, second, "rec") },
    );
    service.raise_stop();
    both
}

/// The records of the store that the disks hold.
fn records_on(alloc: Global, disks: (MemDisk, MemDisk)) -> Result<Vec<NumberedRecord>, Refused> {
    match SlotJournal::open(alloc, disks.0, disks.1, CopyConst::TAG) {
        Ok((_journal, records)) => Ok(records),
        Err((refused, _, _)) => Err(refused),
    }
}

/// Whether the record of that number names the procedure as a root.
fn is_root(records: &[NumberedRecord], number: u64, name: &str) -> bool {
    records.iter().any(|record| {
        u64::from(record.number) == number && record.raw.body.as_slice() == name.as_bytes()
    })
}

/// Asserts that two clients who order commands in two threads, while a hand and a committer are at work, find each
/// its record in the store, under its number.
fn expect_both<J: Accord + Send + Sync, R: Threads + Wait + Clock + Sync + Abort + AllocGlobal>(
    rt: &R,
    opened: OpenedStore,
    mut first: Client,
    second: Client,
)
    requires board { arc_value opened.board ≡ J.board }
    requires switches { opened.switch.board ≡ J.switches }
    requires clients { (first.board ≡ J.board) × (second.board ≡ J.board) }
    requires untold { J.told → ⊥ }
{
    let service: Served<J> = Service::new(rt.alloc(), opened);
    assert!(rt; order(rt, &service, &mut first, Command::Load(RECURSION)) == Ok(0));
    let open = Open { ahead: 0 };
    let (both, ended) = thread::join(
        rt,
        || -> (
            (Result<u64, Refused>, Client),
            (Result<u64, Refused>, Client),
        )
            requires { (first.board ≡ J.board) × (second.board ≡ J.board) }
            ensures { (result.0.1.board ≡ J.board) × (result.1.1.board ≡ J.board) }
        { order_both(rt, &service, first, second) },
        || thread::join(
            rt,
            || service.work(rt, 0, &open),
            || service.commit(rt, &open),
        ),
    );
    assert!(rt; ended == (Ok(Ended::Quiet), Ok(Ended::Quiet)));
    let ((main, mut first), (rec, mut second)) = both;
    assert!(rt; service.acked(&mut first) > given(rt, main));
    service.learn(&mut second, &mut first);
    assert!(rt; second.seen() == first.seen() && second.seen() > given(rt, rec));
    let records = given(rt, records_on(rt.alloc(), crashed(service.into_disks())));
    assert!(rt; is_root(records.as_slice(), given(rt, main), "main"));
    assert!(rt; is_root(records.as_slice(), given(rt, rec), "rec"));
}

#[test]
fn two_clients_order_commands_at_once(rt: HostRuntime) -> Result<(), Fail> {
    let (opened, first, second) = given(&rt, opened_for_two(rt.alloc()));
    expect_both::<Brand, HostRuntime>(&rt, opened, first, second);
    Ok(())
}
