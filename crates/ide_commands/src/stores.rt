//! Stores of the program's analyses, and which calls each command on one makes.
ghost use Rattle.std.specs.Prelude.{◌≡◌, IfOk, Ok, OnOk};
ghost use Rattle.ide_commands.specs.Analyses.{tag_of};
ghost use Rattle.ide_commands.specs.Obeyed.{Obeys};
ghost use Rattle.ide_commands.specs.Opened.{IsAdopted, IsOpened};
ghost use Rattle.ide_slot_journal.specs.Opened.{states_of};
ghost use Rattle.ide_slot_store.specs.Engine.{MakesEngine};
ghost use Rattle.ide_words.specs.declared.words.StoreCommand.TheVariants.{Status};

use crate::calls;
use crate::status::append_status;
use ide_disk::Disk;
use ide_instances::{CopyConst, ShiftConst, Uninit};
use ide_journal::tag;
use ide_problem::Problem;
use ide_slot_journal::current_tag;
use ide_slot_store::SlotEngine;
use ide_store::Kept;
use ide_wire::Refused;
use ide_words::{Instance, StoreCommand};
use std::alloc::Global;

/// An open store, by its analysis.
#[derive(Drop)]
pub enum Store<D: Disk> {
    Uninit(SlotEngine<Uninit, D>),
    Copy(SlotEngine<CopyConst, D>),
    Shift(SlotEngine<ShiftConst, D>),
}

/// A new store of an analysis, whatever the disks A and B held.
///
/// Refusals: `NoMemory`; `Disk`.
pub fn create<P: Problem, D: Disk + Drop>(
    alloc: Global,
    a: D,
    b: D,
) -> Result<SlotEngine<P, D>, Refused>
    ensures { MakesEngine ⟦<P as Kept>⟧.analysis P.TAG a b result }
{
    engine_of(SlotEngine::create(alloc, a, b))
}

/// The engine, or why there is none: the disks that come back with a refusal are let go of.
fn engine_of<P: Problem, D: Disk + Drop>(
    made: Result<SlotEngine<P, D>, (Refused, D, D)>,
) -> Result<SlotEngine<P, D>, Refused>
    ensures { IfOk result (λ engine. made ≡ Ok engine) }
{
    match made {
        Ok(engine) => Ok(engine),
        Err((refused, _, _)) => Err(refused),
    }
}

/// Opens the store that the disks A and B hold, of the analysis whose tag its current slot has.
///
/// Refusals, in this order: `Disk` and `NotAStore`, where no tag can be read; `WrongInstance`, where the tag
/// is of no analysis of the program; those of [`SlotEngine::open`].
pub fn open<D: Disk + Drop>(alloc: Global, mut a: D, mut b: D) -> Result<Store<D>, Refused>
    ensures { D.honest a → D.honest b → IfOk result (IsOpened (states_of D.Disk a b)) }
{
    let tag = current_tag(&mut a, &mut b)?;
    match instance_of(tag)? {
        Instance::Uninit => Ok(Store::Uninit(engine_of(SlotEngine::open(alloc, a, b))?)),
        Instance::Copy => Ok(Store::Copy(engine_of(SlotEngine::open(alloc, a, b))?)),
        Instance::Shift => Ok(Store::Shift(engine_of(SlotEngine::open(alloc, a, b))?)),
    }
}

/// Goes on with the store that the disk A alone holds, of the analysis whose tag it has: a closed slot is put on
/// B, in the place of what that held.
///
/// Refusals, in this order: `Disk` and `NotAStore`, where A has no tag; `WrongInstance`, where the tag is of no
/// analysis of the program; those of [`SlotEngine::adopt`].
pub fn adopt<D: Disk + Drop>(alloc: Global, mut a: D, b: D) -> Result<Store<D>, Refused>
    ensures { D.honest a → D.honest b → IfOk result (IsAdopted (D.state a)) }
{
    let tag = tag(&mut a)?;
    match instance_of(tag)? {
        Instance::Uninit => Ok(Store::Uninit(engine_of(SlotEngine::adopt(alloc, a, b))?)),
        Instance::Copy => Ok(Store::Copy(engine_of(SlotEngine::adopt(alloc, a, b))?)),
        Instance::Shift => Ok(Store::Shift(engine_of(SlotEngine::adopt(alloc, a, b))?)),
    }
}

/// The analysis of the program whose stores have that tag.
///
/// Refusal: `WrongInstance`, where it is of none.
fn instance_of(tag: u8) -> Result<Instance, Refused>
    ensures { IfOk result (λ instance. tag ≡ tag_of instance) }
{
    if tag == Uninit::TAG {
        Ok(Instance::Uninit)
    } else if tag == CopyConst::TAG {
        Ok(Instance::Copy)
    } else if tag == ShiftConst::TAG {
        Ok(Instance::Shift)
    } else {
        Err(Refused::WrongInstance)
    }
}

/// Makes the calls of a command on an open store by one hand, and appends what it prints. The text is the one
/// to be loaded, where one is; of `work` it makes the last calls ([`end_work`](crate::end_work)).
///
/// It is refused as the calls of the store are, which [`SlotEngine`] and its halves state.
pub fn call<P: Problem, D: Disk + Drop>(
    alloc: Global,
    mut engine: SlotEngine<P, D>,
    command: StoreCommand<'_>,
    text: &[u8],
    out: &mut Vec<u8>,
) -> Result<(), Refused>
    ensures { OnOk result (Obeys ⟦<P as Kept>⟧.analysis P.L.shown engine command.entry text.now out.old out.new) }
{
    match command {
        StoreCommand::Status => append_status(engine, out),
        asked => obey(alloc, &mut engine, asked, text, out),
    }
}

/// The same of each command but `status`, which takes the store apart. The store is lent, so that no arm has to let
/// go of it.
fn obey<P: Problem, D: Disk>(
    alloc: Global,
    engine: &mut SlotEngine<P, D>,
    command: StoreCommand<'_>,
    text: &[u8],
    out: &mut Vec<u8>,
) -> Result<(), Refused>
    requires { command ≡ Status → ⊥ }
    ensures { OnOk result (Obeys ⟦<P as Kept>⟧.analysis P.L.shown engine.old command.entry text.now out.old out.new) }
{
    match command {
        StoreCommand::Load { .. } => calls::load(alloc, engine, text, out),
        StoreCommand::Root { procedure } => calls::root(engine, procedure.as_bytes(), out),
        StoreCommand::Work { .. } => calls::end_work(engine, out),
        StoreCommand::Checkpoint => {
            calls::checkpoint(alloc, engine)?;
            Ok(calls::append_generation(engine, out)?)
        }
        StoreCommand::Migrate => {
            calls::migrate(alloc, engine)?;
            Ok(calls::append_version(engine, out)?)
        }
        StoreCommand::Ask {
            procedure,
            position,
            fact,
        } => calls::ask(
            alloc,
            &engine.table,
            procedure.as_bytes(),
            position,
            fact.as_bytes(),
            out,
        ),
        StoreCommand::Dump => calls::dump(alloc, &engine.table, out),
        StoreCommand::Status => unreachable!(),
    }
}
