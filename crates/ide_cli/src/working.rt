//! Work on a store in two files, by several hands and one that writes.
//!
//! The hands' work is written out for each analysis by a macro: the kit gives no proof of threads that are sent what rests
//! on a bound on a type parameter's own type, as that a problem's functions may be sent.
ghost use Rattle.std.specs.Prelude.{◌≡◌, OnOk};
ghost use Rattle.ide_cli.specs.Stores.{EndsWork, IsWorked};
ghost use Rattle.ide_cli.specs.Working.{board_of, switches_of};

use crate::telling::Telling;
use ide_commands::{Store, end_work};
use ide_desks::{Accord, Opened};
use ide_file::FileDisk;
use ide_instances::{CopyConst, ShiftConst, Uninit};
use ide_problem::Problem;
use ide_service::{Crew, Service, work_together};
use ide_slot_store::SlotEngine;
use ide_store::Kept;
use ide_wire::Refused;
use std::alloc::Global;
use std::fs::File;
use std::io::Stderr;
use std::marker::Brand;
use std::sync::Wait;
use std::thread::Threads;
use std::time::{Clock, Instant};

/// How many tasks a hand does in one hold of the store's lock: so many take some ten microseconds, less than a lock that is
/// handed on, and the one that writes waits for a few holds.
const AHEAD: usize = 64;
/// No client orders commands while hands work.
const NO_CLIENTS: u64 = 0;

/// A disk over a file.
type Disk = FileDisk<File>;

/// What `work` is asked for: by how many hands, after how many records past the last checkpoint the next one is
/// made, and the terminal, if there is one, on which it tells how far the run has come.
#[derive(Clone, Copy)]
pub(crate) struct Asked {
    pub(crate) workers: usize,
    pub(crate) checkpoint_every: u32,
    pub(crate) terminal: Option<Stderr>,
}

/// A store that was opened with a board, by its analysis.
#[derive(Drop)]
enum OpenedStore {
    Uninit(Opened<Uninit, Disk>),
    Copy(Opened<CopyConst, Disk>),
    Shift(Opened<ShiftConst, Disk>),
}

impl OpenedStore {
    /// The store with a new board, at which no client has a seat.
    ///
    /// Refusals: those of [`Opened::new`].
    fn of(alloc: Global, store: Store<Disk>) -> Result<OpenedStore, Refused> {
        match store {
            Store::Uninit(engine) => Ok(OpenedStore::Uninit(opened(alloc, engine)?)),
            Store::Copy(engine) => Ok(OpenedStore::Copy(opened(alloc, engine)?)),
            Store::Shift(engine) => Ok(OpenedStore::Shift(opened(alloc, engine)?)),
        }
    }
}

/// The engine with a new board, at which no client has a seat.
fn opened<P: Problem>(
    alloc: Global,
    engine: SlotEngine<P, Disk>,
) -> Result<Opened<P, Disk>, Refused> {
    match Opened::new(alloc, engine, NO_CLIENTS) {
        Ok((opened, _)) => Ok(opened),
        Err((refused, _)) => Err(refused),
    }
}

/// Lets hands do all that is pending in the engine that was opened with a board, while one stores what they do, and
/// appends `quiet`.
macro_rules! work_on {
    ($rt:expr, $opened:expr, $asked:expr, $out:expr) => {{
        let every = $asked.checkpoint_every;
        let service = Service::<_, _, J>::with_checkpoints($rt.alloc(), $opened, every);
        let gate = Telling {
            rt: $rt,
            service: &service,
            terminal: $asked.terminal,
            since: Instant::now($rt).ok(),
            ahead: AHEAD,
        };
        let crew = Crew {
            rt: $rt,
            service: &service,
            gate: &gate,
            keys: 1,
        };
        let worked = work_together($rt, $rt.alloc(), &crew, $asked.workers);
        gate.end();
        end(service.into_engine(), worked, $out)
    }};
}

/// Ends the work that hands did on the engine, where it was not refused, and appends `quiet`.
fn end<P: Problem>(
    mut engine: SlotEngine<P, Disk>,
    worked: Result<(), Refused>,
    out: &mut Vec<u8>,
) -> Result<(), Refused>
    ensures { OnOk result (EndsWork ⟦<P as Kept>⟧.analysis engine out.old out.new) }
{
    match worked {
        Ok(()) => end_work(&mut engine, out),
        Err(refused) => Err(refused),
    }
}

/// Lets hands do all that is pending in the store while one stores what they do, with a checkpoint each time where
/// so many records are stored past the last one, and appends `quiet` once the last batch is stored.
pub(crate) fn work<R: Threads + Wait + Clock + Sync + AllocGlobal>(
    rt: &R,
    store: Store<Disk>,
    asked: Asked,
    out: &mut Vec<u8>,
) -> Result<(), Refused>
    // It is the store that the hands left, and the same whether they told how far they had come.
    ensures { OnOk result (IsWorked asked.workers asked.checkpoint_every out.old out.new) }
{
    let opened = OpenedStore::of(rt.alloc(), store)?;
    work_opened::<Brand, R>(rt, opened, asked, out)
}

/// The same on a store that was opened with a board.
fn work_opened<J: Accord + Send + Sync, R: Threads + Wait + Clock + Sync + AllocGlobal>(
    rt: &R,
    opened: OpenedStore,
    asked: Asked,
    out: &mut Vec<u8>,
) -> Result<(), Refused>
    requires board { board_of opened ≡ J.board }
    requires switches { switches_of opened ≡ J.switches }
    requires untold { J.told → ⊥ }
    ensures { OnOk result (IsWorked asked.workers asked.checkpoint_every out.old out.new) }
{
    match opened {
        OpenedStore::Uninit(opened) => work_on!(rt, opened, asked, out),
        OpenedStore::Copy(opened) => work_on!(rt, opened, asked, out),
        OpenedStore::Shift(opened) => work_on!(rt, opened, asked, out),
    }
}
