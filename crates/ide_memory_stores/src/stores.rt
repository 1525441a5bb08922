//! Stores by copy constants, opened for hands and for clients.
ghost use Rattle.std.specs.Prelude.{◌≡◌, IfOk};
ghost use Rattle.std.specs.Arc.{arc_value};

use ide_board::ClientSeat;
use ide_desks::{Opened, SealedRecord};
use ide_disk::MemDisk;
use ide_instances::CopyConst;
use ide_slot_store::SlotEngine;
use ide_text::{Program, parse};
use ide_wire::Refused;
use std::alloc::Global;

/// A store by copy constants, on two disks in memory.
pub type Store = SlotEngine<CopyConst, MemDisk>;

/// Such a store, opened with a board.
pub type OpenedStore = Opened<CopyConst, MemDisk>;

/// A client of a service.
pub type Client = ClientSeat<SealedRecord>;

/// A new store, whose first disk fails in its call of that number.
fn create(alloc: Global, fails_at: u64) -> Result<Store, Refused> {
    let mut a = MemDisk::new(alloc, 200_000, 400_000)?;
    let b = MemDisk::new(alloc, 200_000, 400_000)?;
    a.fail_at(fails_at);
    match SlotEngine::create(alloc, a, b) {
        Ok(engine) => Ok(engine),
        Err((refused, _, _)) => Err(refused),
    }
}

/// A call that no disk of a test makes.
const NEVER: u64 = 1_000_000;

/// The store that the disks hold.
pub fn open(alloc: Global, disks: (MemDisk, MemDisk)) -> Result<Store, Refused> {
    match SlotEngine::open(alloc, disks.0, disks.1) {
        Ok(engine) => Ok(engine),
        Err((refused, _, _)) => Err(refused),
    }
}

/// The program of a text.
fn program_of(alloc: Global, text: &str) -> Result<Program, Refused> {
    let program = parse(alloc, text.as_bytes())?;
    Ok(program)
}

/// A new store with the text's program, and `main` as its root.
pub fn begun(alloc: Global, text: &str) -> Result<Store, Refused> {
    let mut engine = create(alloc, NEVER)?;
    engine.table.load(program_of(alloc, text)?)?;
    engine.table.root(b"main")?;
    Ok(engine)
}

/// The store, opened with a board that has no client.
pub fn with_board(alloc: Global, engine: Store) -> Result<OpenedStore, Refused> {
    match Opened::new(alloc, engine, 0) {
        Ok((opened, _)) => Ok(opened),
        Err((refused, _)) => Err(refused),
    }
}

/// A store begun with the text's program, opened with a board that has no client.
pub fn opened(alloc: Global, text: &str) -> Result<OpenedStore, Refused> {
    with_board(alloc, begun(alloc, text)?)
}

/// The store, opened with a board that has one client.
fn with_client(alloc: Global, engine: Store) -> Result<(OpenedStore, Client), Refused>
    ensures { IfOk result (λ all. all.1.board ≡ arc_value all.0.board) }
{
    match Opened::new(alloc, engine, 1) {
        Ok((opened, mut clients)) => match clients.pop() {
            Some(client) => Ok((opened, client)),
            None => Err(Refused::Limit),
        },
        Err((refused, _)) => Err(refused),
    }
}

/// A new store, opened with a board that has one client; its first disk fails in its call of that number.
pub fn opened_failing(alloc: Global, fails_at: u64) -> Result<(OpenedStore, Client), Refused>
    ensures { IfOk result (λ all. all.1.board ≡ arc_value all.0.board) }
{
    with_client(alloc, create(alloc, fails_at)?)
}

/// A new store, opened with a board that has one client.
pub fn opened_new(alloc: Global) -> Result<(OpenedStore, Client), Refused>
    ensures { IfOk result (λ all. all.1.board ≡ arc_value all.0.board) }
{
    opened_failing(alloc, NEVER)
}

/// A store begun with the text's program, opened with a board that has one client.
pub fn opened_for_client(alloc: Global, text: &str) -> Result<(OpenedStore, Client), Refused>
    ensures { IfOk result (λ all. all.1.board ≡ arc_value all.0.board) }
{
    with_client(alloc, begun(alloc, text)?)
}

/// A new store, opened with a board that has two clients.
pub fn opened_for_two(alloc: Global) -> Result<(OpenedStore, Client, Client), Refused>
    ensures first { IfOk result (λ all. all.1.board ≡ arc_value all.0.board) }
    ensures second { IfOk result (λ all. all.2.board ≡ arc_value all.0.board) }
{
    match Opened::new(alloc, create(alloc, NEVER)?, 2) {
        Ok((opened, mut clients)) => match (clients.pop(), clients.pop()) {
            (Some(second), Some(first)) => Ok((opened, first, second)),
            _ => Err(Refused::Limit),
        },
        Err((refused, _)) => Err(refused),
    }
}
