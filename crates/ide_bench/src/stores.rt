//! A text's run in a store on two disks in memory, by copy constants or by a dear analysis, and what copying the bytes of
//! one takes.
ghost use Rattle.std.specs.Prelude.{◌≡◌, IfOk};
ghost use Rattle.ide_bench.specs.PlainDisk.{plain_size};
ghost use Rattle.ide_bench.specs.Stores.{AreAmountsOf};
ghost use Rattle.ide_bench.specs.Working.{run_board, run_switches};

use crate::dear::Spread;
use crate::figures::Figure;
use crate::plain_disk::PlainDisk;
use crate::records::Stored;
use anyhow::Result;
use ide_desks::{Accord, Opened};
use ide_disk::Disk;
use ide_instances::CopyConst;
use ide_problem::Problem;
use ide_service::{Crew, Open, Service, work_together};
use ide_slot_store::SlotEngine;
use ide_text::parse;
use std::alloc::Global;
use std::marker::Brand;
use std::sync::Wait;
use std::thread::Threads;
use std::time::Clock;

/// The most bytes of a disk.
const ROOM: usize = 16_777_216;
/// No client orders commands while hands work.
const NO_CLIENTS: u64 = 0;

/// What a store has on its disks, and how many keys it has.
#[derive(Clone, Copy)]
pub(crate) struct Amounts {
    stored: Stored,
    keys: usize,
}

impl Amounts {
    /// Each number by its name.
    pub(crate) fn figures(self) -> [Figure; 3] {
        let [records, bytes] = self.stored.figures();
        [records, bytes, ("keys", self.keys as u64)]
    }
}

/// The analysis by which workers end a run.
#[derive(Clone, Copy)]
pub(crate) enum Analysis {
    Copies,
    Dear,
}

/// A store with no record.
fn create<P: Problem>(alloc: Global) -> Result<SlotEngine<P, PlainDisk>> {
    let a = PlainDisk::new(alloc, ROOM)?;
    let b = PlainDisk::new(alloc, ROOM)?;
    match SlotEngine::create(alloc, a, b) {
        Ok(engine) => Ok(engine),
        Err((refused, _, _)) => Err(refused.into()),
    }
}

/// The store that the disks hold.
fn open(alloc: Global, a: PlainDisk, b: PlainDisk) -> Result<SlotEngine<CopyConst, PlainDisk>> {
    match SlotEngine::open(alloc, a, b) {
        Ok(engine) => Ok(engine),
        Err((refused, _, _)) => Err(refused.into()),
    }
}

/// Loads a text's program, with `main` as the root.
fn begin<P: Problem>(
    alloc: Global,
    engine: &mut SlotEngine<P, PlainDisk>,
    text: &[u8],
) -> Result<()> {
    engine.table.load(parse(alloc, text)?)?;
    engine.table.root(b"main")?;
    Ok(())
}

/// Tabulates a text's program, and stores what that does as it goes.
fn store_run(
    alloc: Global,
    engine: &mut SlotEngine<CopyConst, PlainDisk>,
    text: &[u8],
) -> Result<()> {
    begin(alloc, engine, text)?;
    engine.work_off()?;
    Ok(())
}

/// What the store came to.
fn measure_store<P: Problem>(engine: SlotEngine<P, PlainDisk>) -> Result<Amounts>
    ensures { IfOk result (AreAmountsOf engine) }
{
    let records = engine.acked();
    let keys = engine.table.core().key_count();
    let (mut a, mut b) = engine.into_disks();
    let first = a.len()?;
    let second = b.len()?;
    let bytes = first.saturating_add(second);
    Ok(Amounts {
        stored: Stored { records, bytes },
        keys,
    })
}

/// Keeps a text's run in a store.
pub(crate) fn keep(alloc: Global, text: &[u8]) -> Result<Amounts> {
    let mut engine = create(alloc)?;
    store_run(alloc, &mut engine, text)?;
    measure_store(engine)
}

/// How many workers there are, how many keys each of them has at once, and how many tasks it does in one hold of the lock.
#[derive(Clone, Copy)]
pub(crate) struct Pace {
    pub(crate) workers: usize,
    pub(crate) keys: usize,
    pub(crate) ahead: usize,
}

/// Lets workers and one that writes end the run of a store that was opened with a board.
macro_rules! end_run {
    ($rt:expr, $opened:expr, $pace:expr) => {{
        let service = Service::<_, _, J>::new($rt.alloc(), $opened);
        let crew = Crew {
            rt: $rt,
            service: &service,
            gate: &Open {
                ahead: $pace.ahead,
            },
            keys: $pace.keys,
        };
        work_together($rt, $rt.alloc(), &crew, $pace.workers)?;
        measure_store(service.into_engine())
    }};
}

/// A store that was opened with a board, by its analysis.
#[derive(Drop)]
enum OpenedStore {
    Copies(Opened<CopyConst, PlainDisk>),
    Dear(Opened<Spread, PlainDisk>),
}

impl OpenedStore {
    /// A new store of the analysis, as [`opened`] makes it.
    fn of(alloc: Global, text: &[u8], analysis: Analysis) -> Result<OpenedStore> {
        match analysis {
            Analysis::Copies => Ok(OpenedStore::Copies(opened(alloc, text)?)),
            Analysis::Dear => Ok(OpenedStore::Dear(opened(alloc, text)?)),
        }
    }
}

/// A new store with a board, which has a text's program, and `main` as the root.
fn opened<P: Problem>(alloc: Global, text: &[u8]) -> Result<Opened<P, PlainDisk>> {
    let mut engine = create(alloc)?;
    begin(alloc, &mut engine, text)?;
    match Opened::new(alloc, engine, NO_CLIENTS) {
        Ok((opened, _)) => Ok(opened),
        Err((refused, _)) => Err(refused.into()),
    }
}

/// Keeps a text's run by the analysis in a store, by workers and one that writes.
pub(crate) fn work<R: Threads + Wait + Clock + Sync + AllocGlobal>(
    rt: &R,
    text: &[u8],
    analysis: Analysis,
    pace: Pace,
) -> Result<Amounts> {
    let opened = OpenedStore::of(rt.alloc(), text, analysis)?;
    work_opened::<Brand, R>(rt, opened, pace)
}

/// The same on a store that was opened with a board.
fn work_opened<J: Accord + Send + Sync, R: Threads + Wait + Clock + Sync + AllocGlobal>(
    rt: &R,
    opened: OpenedStore,
    pace: Pace,
) -> Result<Amounts>
    requires board { run_board opened ≡ J.board }
    requires switches { run_switches opened ≡ J.switches }
    requires untold { J.told → ⊥ }
{
    match opened {
        OpenedStore::Copies(opened) => end_run!(rt, opened, pace),
        OpenedStore::Dear(opened) => end_run!(rt, opened, pace),
    }
}

/// Keeps a text's run in a store, and opens that store from its disks.
pub(crate) fn resume(alloc: Global, text: &[u8]) -> Result<Amounts> {
    let mut engine = create(alloc)?;
    store_run(alloc, &mut engine, text)?;
    let (a, b) = engine.into_disks();
    measure_store(open(alloc, a, b)?)
}

/// Keeps a text's run in a store, and makes a checkpoint of it.
pub(crate) fn checkpoint(alloc: Global, text: &[u8]) -> Result<Amounts> {
    let mut engine = create(alloc)?;
    store_run(alloc, &mut engine, text)?;
    engine.checkpoint(alloc)?;
    engine.store_all()?;
    measure_store(engine)
}

/// Keeps a text's run in a store, reads its first disk as an opening does, and answers how many bytes there are.
pub(crate) fn copy_disk(alloc: Global, text: &[u8]) -> Result<usize> {
    let mut engine = create(alloc)?;
    store_run(alloc, &mut engine, text)?;
    let (mut disk, _) = engine.into_disks();
    copied(alloc, &mut disk)
}

/// Copies the bytes of a disk by one read, and answers how many there are.
fn copied(alloc: Global, disk: &mut PlainDisk) -> Result<usize>
    ensures { IfOk result (λ bytes. bytes ≡ plain_size disk.old) }
{
    let length = disk.len()? as usize;
    let mut bytes = Vec::with_capacity(alloc, length)?;
    bytes.resize(length, 0)?;
    disk.read(0, &mut bytes)?;
    Ok(bytes.len())
}
