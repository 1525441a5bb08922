//! Commands on a store in two files: how they are opened, and what is read before any call.
ghost use Rattle.std.specs.Prelude.{◌≡◌, ◌++◌, OnErr, OnOk};
ghost use Rattle.ide_cli.specs.Stores.{IsObeyed, ObeysOver, WritesDumpOver, WritesStoreDump, adopted_line, created_line};

use crate::failure::{Failure, read_file};
use crate::working::{Asked, work};
use ide_commands::{Store, adopt as adopt_on, call, create as create_on, open, write_dump};
use ide_file::{FileDisk, FileFault};
use ide_instances::{CopyConst, ShiftConst, Uninit};
use ide_journal::tag;
use ide_problem::Problem;
use ide_wire::Refused;
use ide_words::{Instance, StoreCommand};
use std::alloc::Global;
use std::fs::{File, Files};
use std::io;
use std::io::{Stderr, Write};
use std::path::Path;
use std::sync::Wait;
use std::thread::Threads;
use std::time::Clock;

/// What the name of a store's second file has behind that of its first.
pub(crate) const SECOND: &str = ".2";

/// A disk over a file.
type Disk = FileDisk<File>;

/// What becomes of a file: it is opened, or it is made where it is not there. What it holds stays.
#[derive(Clone, Copy)]
enum Reach {
    Open,
    Make,
}

impl Reach {
    /// The disk over the file of that name.
    fn disk<R: Files<File = File> + AllocGlobal>(
        self,
        rt: &R,
        name: &str,
    ) -> Result<Disk, FileFault> {
        match self {
            Reach::Open => FileDisk::open(rt, Path::new(name)),
            Reach::Make => FileDisk::create(rt, Path::new(name)),
        }
    }
}

/// The disk over the first file of a store.
fn first_of<'a, R: Files<File = File> + AllocGlobal>(
    rt: &R,
    store: &'a str,
    reach: Reach,
) -> Result<Disk, Failure<'a>> {
    reach
        .disk(rt, store)
        .map_err(|_| Failure::CannotRead(store))
}

/// The disk over the second file of a store, beside that over its first.
fn beside<'a, R: Files<File = File> + AllocGlobal>(
    rt: &R,
    first: Disk,
    store: &'a str,
    reach: Reach,
) -> Result<(Disk, Disk), Failure<'a>> {
    let name = format!(in rt.alloc(); "{store}{SECOND}")?;
    match reach.disk(rt, &name) {
        Ok(second) => Ok((first, second)),
        Err(_) => Err(Failure::CannotReadSecond(store)),
    }
}

/// The disks over both files of a store.
fn both_of<'a, R: Files<File = File> + AllocGlobal>(
    rt: &R,
    store: &'a str,
    reach: Reach,
) -> Result<(Disk, Disk), Failure<'a>> {
    let first = first_of(rt, store, reach)?;
    beside(rt, first, store, reach)
}

/// Makes a store of the analysis in the files of that name, whatever they held.
pub(crate) fn create<'a, R: Files<File = File> + AllocGlobal>(
    rt: &R,
    store: &'a str,
    instance: Instance,
    out: &mut Vec<u8>,
) -> Result<(), Failure<'a>>
    ensures { OnOk result (out.new.items ≡ out.old.items ++ created_line) }
{
    let (a, b) = both_of(rt, store, Reach::Make)?;
    match instance {
        Instance::Uninit => create_of::<Uninit>(rt.alloc(), a, b)?,
        Instance::Copy => create_of::<CopyConst>(rt.alloc(), a, b)?,
        Instance::Shift => create_of::<ShiftConst>(rt.alloc(), a, b)?,
    }
    out.extend_from_slice(b"created\n")?;
    Ok(())
}

/// Makes a store of an analysis on the disks.
fn create_of<P: Problem>(alloc: Global, a: Disk, b: Disk) -> Result<(), Refused> {
    match create_on::<P, _>(alloc, a, b) {
        Ok(_) => Ok(()),
        Err(refused) => Err(refused),
    }
}

/// Goes on with the store in the one file of that name: its second file is made, where it is not there and the
/// first is a store's.
pub(crate) fn adopt<'a, R: Files<File = File> + AllocGlobal>(
    rt: &R,
    store: &'a str,
    out: &mut Vec<u8>,
) -> Result<(), Failure<'a>>
    ensures { OnOk result (out.new.items ≡ out.old.items ++ adopted_line) }
{
    let (a, b) = open_first(rt, store)?;
    adopt_of(rt.alloc(), a, b)?;
    out.extend_from_slice(b"adopted\n")?;
    Ok(())
}

/// Opens the first file of a store, and makes the second one, where it is not there and the first is a store's.
fn open_first<'a, R: Files<File = File> + AllocGlobal>(
    rt: &R,
    store: &'a str,
) -> Result<(Disk, Disk), Failure<'a>> {
    let mut first = first_of(rt, store, Reach::Open)?;
    tag(&mut first)?;
    beside(rt, first, store, Reach::Make)
}

/// Adopts the store that the first disk holds.
fn adopt_of(alloc: Global, a: Disk, b: Disk) -> Result<(), Refused> {
    match adopt_on(alloc, a, b) {
        Ok(_) => Ok(()),
        Err(refused) => Err(refused),
    }
}

/// Writes the dump of the store in the files of that name, which are opened first. Inside is how the output did.
pub(crate) fn dump<'a, R: Files<File = File> + AllocGlobal + Threads + Sync, O: Write>(
    rt: &R,
    store: &'a str,
    out: &mut O,
) -> Result<io::Result<()>, Failure<'a>>
    ensures written { WritesStoreDump result O.contents out.old out.new }
    ensures unchanged { OnErr result (out.new ≡ out.old) }
{
    let (a, b) = both_of(rt, store, Reach::Open)?;
    Ok(dump_on(rt, a, b, out)?)
}

/// Opens the store on the disks, and writes its dump. Inside is how the output did.
fn dump_on<R: AllocGlobal + Threads + Sync, O: Write>(
    rt: &R,
    a: Disk,
    b: Disk,
    out: &mut O,
) -> Result<io::Result<()>, Refused>
    ensures written { WritesStoreDump result O.contents out.old out.new }
    ensures unchanged { OnErr result (out.new ≡ out.old) }
{
    let store = open(rt.alloc(), a, b)?;
    dump_of(rt, &store, out)
}

/// Writes the dump of the store. Inside is how the output did.
fn dump_of<R: AllocGlobal + Threads + Sync, O: Write>(
    rt: &R,
    store: &Store<Disk>,
    out: &mut O,
) -> Result<io::Result<()>, Refused>
    ensures written { WritesDumpOver store.now result O.contents out.old out.new }
    ensures unchanged { OnErr result (out.new ≡ out.old) }
{
    let alloc = rt.alloc();
    match store {
        Store::Uninit(engine) => write_dump(rt, alloc, &engine.table, out),
        Store::Copy(engine) => write_dump(rt, alloc, &engine.table, out),
        Store::Shift(engine) => write_dump(rt, alloc, &engine.table, out),
    }
}

/// Does a command on the store in the files of that name, and appends what it prints.
///
/// The store's files are opened first, and then a text is read, before any call can be refused. How far `work`
/// has come is told on the terminal, if there is one, unless it is to be quiet.
pub(crate) fn obey<'a, R: Files<File = File> + AllocGlobal + Threads + Wait + Clock + Sync>(
    rt: &R,
    store: &'a str,
    command: StoreCommand<'a>,
    terminal: Option<Stderr>,
    out: &mut Vec<u8>,
) -> Result<(), Failure<'a>>
    ensures { OnOk result (IsObeyed command.entry out.old out.new) }
{
    let (a, b) = both_of(rt, store, Reach::Open)?;
    match text_of(rt, command) {
        Ok(text) => Ok(obey_on(rt, a, b, command, &text, terminal, out)?),
        Err(failure) => Err(failure),
    }
}

/// The text that the command reads, if it reads one.
fn text_of<'a, R: Files<File = File> + AllocGlobal>(
    rt: &R,
    command: StoreCommand<'a>,
) -> Result<Vec<u8>, Failure<'a>> {
    match command {
        StoreCommand::Load { file } => read_file(rt, file),
        _ => Ok(Vec::new(rt.alloc())),
    }
}

/// Opens the store on the disks, and does the command.
fn obey_on<R: AllocGlobal + Threads + Wait + Clock + Sync>(
    rt: &R,
    a: Disk,
    b: Disk,
    command: StoreCommand<'_>,
    text: &[u8],
    terminal: Option<Stderr>,
    out: &mut Vec<u8>,
) -> Result<(), Refused>
    ensures { OnOk result (IsObeyed command.entry out.old out.new) }
{
    let opened = open(rt.alloc(), a, b)?;
    if let StoreCommand::Work {
        workers,
        quiet,
        checkpoint_every,
    } = command
    {
        let asked = Asked {
            workers,
            checkpoint_every,
            terminal: if quiet { None } else { terminal },
        };
        return work(rt, opened, asked, out);
    }
    call_on(rt.alloc(), opened, command, text, out)
}

/// Makes the calls of a command but `work` on a store.
fn call_on(
    alloc: Global,
    store: Store<Disk>,
    command: StoreCommand<'_>,
    text: &[u8],
    out: &mut Vec<u8>,
) -> Result<(), Refused>
    ensures { OnOk result (ObeysOver store command.entry text.now out.old out.new) }
{
    match store {
        Store::Uninit(engine) => call(alloc, engine, command, text, out),
        Store::Copy(engine) => call(alloc, engine, command, text, out),
        Store::Shift(engine) => call(alloc, engine, command, text, out),
    }
}
