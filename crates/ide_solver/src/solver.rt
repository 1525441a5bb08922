//! Solving a text in memory, with one hand. The values may be filled by several workers.
ghost use Rattle.std.specs.Prelude.{◌≡◌, IfErr, IfOk, OnErr, OnOk};
ghost use Rattle.ide_solver.specs.Begun.{AreBegunFor};
ghost use Rattle.ide_solver.specs.Refusal.{BarsRoots, IsSharedRefusal, IsSolveRefusal};
ghost use Rattle.ide_solver.specs.Solve.{AreSolvedFor, LeadsToSolved, SolvesFor, WritesFor, names_of};
ghost use Rattle.ide_solver.specs.Started.{ForStarted, IsPreparedFor};
ghost use Rattle.ide_values.specs.Refusal.{AreWorkers};

use crate::shown::Shown;
use ide_graph::{
    ends_of_programs_are_nodes, exits_of_programs_are_owned, graphs_of_programs_are_closed,
    sites_of_programs_are_joined,
};
use ide_problem::Problem;
use ide_steps::{Closed, Core};
use ide_text::parse;
use ide_theory::{graphs_are_supergraphs, runs_go_on, sites_make_a_graph};
use ide_values::{ValuePhase, Values, check_workers};
use ide_wire::Refused;
use std::alloc::Global;
use std::io;
use std::io::Write;
use std::thread::Threads;

/// Appends the dump of the program that the text spells, with the procedures of these names as
/// roots: at each node and fact the best value, the greatest one below the effect of every valid
/// path from a root.
///
/// Refusals, in this order: `Text` where the text has a fault; then, root by root, `NoProcedure`,
/// `HasParameters` and `Already`. `NoMemory` may come anywhere. After each the vector has what it
/// had.
pub fn solve<P: Problem>(
    alloc: Global,
    text: &[u8],
    roots: &[&[u8]],
    out: &mut Vec<u8>,
) -> Result<(), Refused>
    ensures solution { SolvesFor ⟦<P as Shown>⟧.analysis result text.now roots.now out.old out.new }
    ensures refused { IfErr result (IsSolveRefusal text.now (names_of roots.now)) }
    ensures unchanged { OnErr result (out.new.items ≡ out.old.items) }
{
    let values = values_of::<P>(alloc, text, roots)?;
    values.dump(out)
}

/// The same as [`solve`] by so many workers, from 1 to 64, which share the fill of the values. The
/// dump is the same for any number of them.
///
/// Refusals, in this order: `Limit` where there are no workers or more than 64; those of [`solve`].
/// After each the vector has what it had.
pub fn solve_shared<R: Threads + Sync, P: Problem>(
    rt: &R,
    alloc: Global,
    text: &[u8],
    roots: &[&[u8]],
    workers: usize,
    out: &mut Vec<u8>,
) -> Result<(), Refused>
where
    P::F: Sync,
    P::L: Send + Sync,
    ensures solution { SolvesFor ⟦<P as Shown>⟧.analysis result text.now roots.now out.old out.new }
    ensures refused { IfErr result (IsSharedRefusal workers text.now (names_of roots.now)) }
    ensures unchanged { OnErr result (out.new.items ≡ out.old.items) }
{
    let values = values_shared::<R, P>(rt, alloc, text, roots, workers)?;
    values.dump(out)
}

/// Writes the dump that [`solve_shared`] appends: neither it nor all values stand in memory whole
/// ([`ValuePhase::write_values`]), nor do the program's statements once its graph is made. Nothing
/// is written before the image is whole, of which each value follows. Inside is how the output did.
///
/// Refusals: those of [`solve_shared`]. After each nothing is written.
pub fn solve_onto<R: Threads + Sync, P: Problem, W: Write>(
    rt: &R,
    alloc: Global,
    text: Vec<u8>,
    roots: &[&[u8]],
    workers: usize,
    out: &mut W,
) -> Result<io::Result<()>, Refused>
where
    P::F: Sync,
    P::L: Send + Sync,
    ensures solution { IfOk result (λ end. WritesFor ⟦<P as Shown>⟧.analysis text.items roots.now end (W.contents out.old) (W.contents out.new)) }
    ensures refused { IfErr result (IsSharedRefusal workers text.items (names_of roots.now)) }
    ensures unchanged { OnErr result (out.new ≡ out.old) }
{
    check_workers(workers)?;
    let core = started::<P>(alloc, text, roots)?;
    let closed = drained(core)?;
    closed.write_values(rt, alloc, workers, out)
}

/// The values of the program that the text spells, with the procedures of these names as roots.
/// It is refused as [`solve`] is.
pub fn values_of<P: Problem>(
    alloc: Global,
    text: &[u8],
    roots: &[&[u8]],
) -> Result<Values<P>, Refused>
    ensures solved { IfOk result (AreSolvedFor ⟦<P as Shown>⟧.analysis text.now roots.now) }
    ensures refused { IfErr result (IsSolveRefusal text.now (names_of roots.now)) }
{
    let closed = closed_of::<P>(alloc, text, roots)?;
    closed.values_alone(alloc)
}

/// The same by so many workers, from 1 to 64, which share the fill. It is refused as
/// [`solve_shared`] is.
pub fn values_shared<R: Threads + Sync, P: Problem>(
    rt: &R,
    alloc: Global,
    text: &[u8],
    roots: &[&[u8]],
    workers: usize,
) -> Result<Values<P>, Refused>
where
    P::F: Sync,
    P::L: Send + Sync,
    ensures workers { OnOk result (AreWorkers workers) }
    ensures solved { IfOk result (AreSolvedFor ⟦<P as Shown>⟧.analysis text.now roots.now) }
    ensures refused { IfErr result (IsSharedRefusal workers text.now (names_of roots.now)) }
{
    check_workers(workers)?;
    let closed = closed_of::<P>(alloc, text, roots)?;
    closed.values(rt, alloc, workers)
}

/// The quiet image of the program that the text spells, with the procedures of these names as roots.
fn closed_of<P: Problem>(alloc: Global, text: &[u8], roots: &[&[u8]]) -> Result<Closed<P>, Refused>
    ensures leads { IfOk result (LeadsToSolved ⟦<P as Shown>⟧.analysis text.now roots.now) }
    ensures refused { IfErr result (IsSolveRefusal text.now (names_of roots.now)) }
{
    let core = started::<P>(alloc, Vec::from_slice(alloc, text)?, roots)?;
    drained(core)
}

/// The quiet image of a core that was started. For each text and each names of roots that it was started with, the
/// image's best values are theirs, and it is refused for want of memory alone.
fn drained<P: Problem>(core: Core<P>) -> Result<Closed<P>, Refused>
    ensures leads { ForStarted ⟦<P as Shown>⟧.analysis core (λ text roots. IfOk result (LeadsToSolved ⟦<P as Shown>⟧.analysis text roots)) }
    ensures refused { ForStarted ⟦<P as Shown>⟧.analysis core (λ text roots. IfErr result (IsSolveRefusal text (names_of roots))) }
{
    sites_make_a_graph::<P>();
    runs_go_on::<P>();
    let mut core = core;
    core.drain()?;
    match core.close() {
        Ok(closed) => Ok(closed),
        Err((refused, _)) => Err(refused),
    }
}

/// A core with the program that the text spells, and the procedures of these names as its roots.
fn started<P: Problem>(alloc: Global, text: Vec<u8>, roots: &[&[u8]]) -> Result<Core<P>, Refused>
    ensures started { IfOk result (IsPreparedFor ⟦<P as Shown>⟧.analysis text.items roots.now) }
    ensures refused { IfErr result (IsSolveRefusal text.items (names_of roots.now)) }
{
    graphs_are_supergraphs::<P>();
    sites_of_programs_are_joined();
    graphs_of_programs_are_closed();
    exits_of_programs_are_owned();
    ends_of_programs_are_nodes();
    sites_make_a_graph::<P>();
    runs_go_on::<P>();
    let mut core: Core<P> = Core::new(alloc);
    let program = parse(alloc, &text)?;
    core.load_spelled(program, text)?;
    begin_roots(&mut core, roots)?;
    Ok(core)
}

/// Makes the procedures of these names roots, one after the other.
fn begin_roots<P: Problem>(core: &mut Core<P>, names: &[&[u8]]) -> Result<(), Refused>
    ensures begun { OnOk result (AreBegunFor ⟦<P as Shown>⟧.analysis core.old core.new names.now) }
    ensures refused { IfErr result (BarsRoots core.old names.now) }
{
    sites_make_a_graph::<P>();
    runs_go_on::<P>();
    for name in names {
        core.root(name)?;
    }
    Ok(())
}
