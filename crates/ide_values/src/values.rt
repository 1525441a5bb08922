//! The values of a program.
ghost use Rattle.std.specs.Prelude.{◌≡◌, ◌↔◌, Err, IfErr, IfOk, OnErr, OnOk, IsOkUnless};
ghost use Rattle.ide_steps.specs.Frozen.{graph_in, program_in};
ghost use Rattle.ide_steps.specs.declared.closed.Closed.{Closed};
ghost use Rattle.ide_steps.specs.ProgramText.{said_by};
ghost use Rattle.ide_values.specs.Chunks.{WritesDumpOf};
ghost use Rattle.ide_values.specs.Closed.{FollowFrom, LeadOn};
ghost use Rattle.ide_values.specs.Frozen.{AreBestOf, AreValuesOf, FollowClosed};
ghost use Rattle.ide_values.specs.Refusal.{AreWorkers, IsValuesRefusal};
ghost use Rattle.ide_values.specs.Settled.{AreStartRows};
ghost use Rattle.ide_values.specs.Values.{AreValues, IsOutside, value_there};

use crate::chunks::{chunk_size, write_chunks};
use crate::dump::piece_room;
use crate::fill::fill;
use crate::laws::following_values_are_best;
use crate::rows::{place_of, tops, value_at_place};
use crate::shared_fill::{FillGate, NoGate, fill_by};
use crate::starts::start_values;
use ide_graph::Graph;
use ide_image::Tables;
use ide_problem::Problem;
use ide_steps::{Closed, HANDS, Loaded, ProgramText};
use ide_theory::sites_make_a_graph;
use ide_wire::{Fact, Node, Refused};
use std::alloc::{AllocError, Global};
use std::io;
use std::io::Write;
use std::marker::Model;
use std::sync::Arc;
use std::thread::Threads;

/// The value of each fact at each node of a program, for its roots.
#[derive(Drop)]
pub struct Values<P: Problem> {
    pub(crate) loaded: Arc<Loaded<P>>,
    roots: Vec<usize>,
    /// Rows by node, one value for each fact.
    pub(crate) values: Vec<P::L>,
}

impl<P: Problem> Model for Values<P> {
    ghost use Rattle.std.specs.Arc.{arc_value};
    ghost use Rattle.ide_steps.specs.declared.loaded.Loaded.{Loaded};
    ghost use Rattle.ide_steps.specs.ProgramText.{said_by};
    ghost use Rattle.ide_values.specs.Values.{ValuesData};

    ghost Value = { ValuesData P.L };

    ghost view = { λ v. record { program = said_by (arc_value {X = Loaded P P.L P.F} v.loaded).program; graph = (arc_value {X = Loaded P P.L P.F} v.loaded).graph; roots = v.roots.items; values = v.values.items } };
}

/// The phase that turns a quiet image into values.
pub trait ValuePhase<P: Problem> {
    ghost image: { Self → Closed P P.L P.F };

    /// The image whose values they are.
    fn image(&self) -> &Closed<P>
        ensures { result.now ≡ image self.now };

    /// The values of the image, by the calling thread alone.
    ///
    /// Refusal: `NoMemory`. It reads each cell of the tables once, for the fill, after work in proportion
    /// to how the start values fall; and before that those at call nodes twice, to list them by where they
    /// start from, and to see that no start value falls any more.
    final fn values_alone(&self, alloc: Global) -> Result<Values<P>, Refused>
        ensures refused { IsOkUnless result Refused.NoMemory }
        ensures program { IfOk result (λ values. values.program ≡ program_in (image self.now)) }
        ensures graph { IfOk result (λ values. values.graph ≡ graph_in (image self.now)) }
        ensures roots { IfOk result (λ values. values.roots ≡ (image self.now).roots.items) }
        ensures follow { IfOk result (FollowClosed P.L.algebra P.F.edge P.targets (image self.now)) }
        ensures values { IfOk result (AreValuesOf P.L.algebra P.F.edge P.targets (image self.now)) }
        ensures best { IfOk result (AreBestOf P.L.algebra P.F.edge P.targets (image self.now).tables.table) }
    {
        Ok(values_of(alloc, self.image())?)
    }

    /// The values of the image, by so many workers. They are the same for any number of them.
    ///
    /// Refusals, in this order: `Limit` where there are no workers or more than 64; `NoMemory`.
    final fn values<R: Threads + Sync>(
        &self,
        rt: &R,
        alloc: Global,
        workers: usize,
    ) -> Result<Values<P>, Refused>
    where
        P::F: Sync,
        P::L: Send + Sync,
        ensures workers { OnOk result (AreWorkers workers) }
        ensures refused { IfErr result (IsValuesRefusal workers) }
        ensures program { IfOk result (λ values. values.program ≡ program_in (image self.now)) }
        ensures graph { IfOk result (λ values. values.graph ≡ graph_in (image self.now)) }
        ensures roots { IfOk result (λ values. values.roots ≡ (image self.now).roots.items) }
        ensures follow { IfOk result (FollowClosed P.L.algebra P.F.edge P.targets (image self.now)) }
        ensures values { IfOk result (AreValuesOf P.L.algebra P.F.edge P.targets (image self.now)) }
        ensures best { IfOk result (AreBestOf P.L.algebra P.F.edge P.targets (image self.now).tables.table) }
    {
        self.values_with(rt, alloc, workers, &NoGate)
    }

    /// The same, with a gate that is told of each worker before it fills its first node, also where
    /// it has none. Of N nodes a worker i of W fills those from i * N / W up to (i + 1) * N / W,
    /// exclusive, in a thread of its own, which is joined. Where no thread can be made for it, the
    /// one that was to start it fills them.
    ///
    /// A worker reads the cells of the tables that are at its nodes, and of each page at others where it
    /// begins. Start values are found before, by the calling thread.
    final fn values_with<R: Threads + Sync, G: FillGate + Sync>(
        &self,
        rt: &R,
        alloc: Global,
        workers: usize,
        gate: &G,
    ) -> Result<Values<P>, Refused>
    where
        P::F: Sync,
        P::L: Send + Sync,
        ensures workers { OnOk result (AreWorkers workers) }
        ensures refused { IfErr result (IsValuesRefusal workers) }
        ensures program { IfOk result (λ values. values.program ≡ program_in (image self.now)) }
        ensures graph { IfOk result (λ values. values.graph ≡ graph_in (image self.now)) }
        ensures roots { IfOk result (λ values. values.roots ≡ (image self.now).roots.items) }
        ensures follow { IfOk result (FollowClosed P.L.algebra P.F.edge P.targets (image self.now)) }
        ensures values { IfOk result (AreValuesOf P.L.algebra P.F.edge P.targets (image self.now)) }
        ensures best { IfOk result (AreBestOf P.L.algebra P.F.edge P.targets (image self.now).tables.table) }
    {
        check_workers(workers)?;
        Ok(values_by(rt, alloc, self.image(), workers, gate)?)
    }

    /// Writes the dump of the image's values, as [`Values::write_dump`] does, by so many workers, with no more
    /// of the values in memory than those of a part in 64 of the nodes, or 16,384 of them, if these are more: rows
    /// are filled and written, and then the next ones. Start values are found before anything is written.
    /// Inside is how the output did, or the lines of a node for want of memory.
    ///
    /// It passes over the pages of the tables as often as there are chunks, 64 times at most, and reads
    /// the cells that are at the nodes of a chunk for that one alone.
    ///
    /// Refusals, in this order: `Limit` where there are no workers or more than 64; `NoMemory`. Nothing is
    /// written then.
    final fn write_values<R: Threads + Sync, W: Write>(
        &self,
        rt: &R,
        alloc: Global,
        workers: usize,
        out: &mut W,
    ) -> Result<io::Result<()>, Refused>
    where
        P::F: Sync,
        P::L: Send + Sync,
        ensures workers { OnOk result (AreWorkers workers) }
        ensures refused { IfErr result (IsValuesRefusal workers) }
        ensures written { WritesDumpOf P.L.algebra P.F.edge P.targets P.L.shown (image self.now) result (W.contents out.old) (W.contents out.new) }
        ensures unchanged { OnErr result (out.new ≡ out.old) }
    {
        check_workers(workers)?;
        following_values_are_best::<P>();
        let closed = self.image();
        let graph = &closed.loaded.graph;
        let tables = &closed.tables;
        let starts = leading_starts::<P>(alloc, graph, tables, closed.roots.as_slice())?;
        let size = chunk_size(graph);
        let mut rows = tops(alloc, size as usize * graph.fact_count())?;
        let mut piece = Vec::with_capacity(alloc, piece_room(graph))?;
        Ok(write_chunks(
            rt,
            graph,
            tables,
            starts.as_slice(),
            workers,
            size,
            rows.as_mut_slice(),
            &mut piece,
            out,
        ))
    }
}

impl<P: Problem> ValuePhase<P> for Closed<P> {
    ghost image = { λ closed. closed };

    fn image(&self) -> &Closed<P> {
        self
    }
}

/// Tests that so many workers may share a fill.
///
/// Refusal: `Limit` where there are no workers or more than 64.
pub fn check_workers(workers: usize) -> Result<(), Refused>
    ensures workers { OnOk result (AreWorkers workers) }
    ensures refused { IfErr result (IsValuesRefusal workers) }
    ensures limit { IsOkUnless result Refused.Limit }
{
    if workers == 0 || workers > HANDS {
        return Err(Refused::Limit);
    }
    Ok(())
}

/// The values of an image, by the calling thread.
fn values_of<P: Problem>(alloc: Global, closed: &Closed<P>) -> Result<Values<P>, AllocError>
    ensures program { IfOk result (λ values. values.program ≡ program_in closed.now) }
    ensures graph { IfOk result (λ values. values.graph ≡ graph_in closed.now) }
    ensures roots { IfOk result (λ values. values.roots ≡ closed.now.roots.items) }
    ensures follow { IfOk result (FollowClosed P.L.algebra P.F.edge P.targets closed.now) }
    ensures values { IfOk result (AreValuesOf P.L.algebra P.F.edge P.targets closed.now) }
    ensures best { IfOk result (AreBestOf P.L.algebra P.F.edge P.targets closed.now.tables.table) }
{
    let rows = rows_of::<P>(
        alloc,
        &closed.loaded.graph,
        &closed.tables,
        closed.roots.as_slice(),
    )?;
    values_from(alloc, closed, rows)
}

/// The values of an image, by so many workers.
fn values_by<R: Threads + Sync, P: Problem, G: FillGate + Sync>(
    rt: &R,
    alloc: Global,
    closed: &Closed<P>,
    workers: usize,
    gate: &G,
) -> Result<Values<P>, AllocError>
where
    P::F: Sync,
    P::L: Send + Sync,
    requires { AreWorkers workers }
    ensures program { IfOk result (λ values. values.program ≡ program_in closed.now) }
    ensures graph { IfOk result (λ values. values.graph ≡ graph_in closed.now) }
    ensures roots { IfOk result (λ values. values.roots ≡ closed.now.roots.items) }
    ensures follow { IfOk result (FollowClosed P.L.algebra P.F.edge P.targets closed.now) }
    ensures values { IfOk result (AreValuesOf P.L.algebra P.F.edge P.targets closed.now) }
    ensures best { IfOk result (AreBestOf P.L.algebra P.F.edge P.targets closed.now.tables.table) }
{
    let rows = rows_by::<R, P, G>(
        rt,
        alloc,
        &closed.loaded.graph,
        &closed.tables,
        closed.roots.as_slice(),
        workers,
        gate,
    )?;
    values_from(alloc, closed, rows)
}

/// The values of an image whose rows these are.
fn values_from<P: Problem>(
    alloc: Global,
    closed: &Closed<P>,
    rows: Vec<P::L>,
) -> Result<Values<P>, AllocError>
    requires follow { FollowFrom P.L.algebra P.F.edge P.targets (graph_in closed.now) closed.now.tables.table closed.now.roots.items rows.items }
    requires values { AreValues P.L.algebra P.F.edge P.targets (graph_in closed.now) closed.now.tables.table closed.now.roots.items rows.items }
    ensures program { IfOk result (λ values. values.program ≡ program_in closed.now) }
    ensures graph { IfOk result (λ values. values.graph ≡ graph_in closed.now) }
    ensures roots { IfOk result (λ values. values.roots ≡ closed.now.roots.items) }
    ensures follow { IfOk result (FollowClosed P.L.algebra P.F.edge P.targets closed.now) }
    ensures values { IfOk result (AreValuesOf P.L.algebra P.F.edge P.targets closed.now) }
    ensures best { IfOk result (AreBestOf P.L.algebra P.F.edge P.targets closed.now.tables.table) }
{
    following_values_are_best::<P>();
    Ok(Values {
        loaded: Arc::try_clone(&closed.loaded)?,
        roots: closed.roots.to_vec(alloc)?,
        values: rows,
    })
}

/// The rows of values of a graph, by the calling thread.
fn rows_of<P: Problem>(
    alloc: Global,
    graph: &Graph,
    tables: &Tables<P::F>,
    roots: &[usize],
) -> Result<Vec<P::L>, AllocError>
    ensures follow { IfOk result (λ rows. FollowFrom P.L.algebra P.F.edge P.targets graph.now tables.now.table roots.now rows.items) }
    ensures values { IfOk result (λ rows. AreValues P.L.algebra P.F.edge P.targets graph.now tables.now.table roots.now rows.items) }
{
    let starts = leading_starts::<P>(alloc, graph, tables, roots)?;
    let values = fill(alloc, graph, tables, starts.as_slice())?;
    Ok(values)
}

/// The rows of values of a graph, by so many workers.
fn rows_by<R: Threads + Sync, P: Problem, G: FillGate + Sync>(
    rt: &R,
    alloc: Global,
    graph: &Graph,
    tables: &Tables<P::F>,
    roots: &[usize],
    workers: usize,
    gate: &G,
) -> Result<Vec<P::L>, AllocError>
where
    P::F: Sync,
    P::L: Send + Sync,
    requires { AreWorkers workers }
    ensures follow { IfOk result (λ rows. FollowFrom P.L.algebra P.F.edge P.targets graph.now tables.now.table roots.now rows.items) }
    ensures values { IfOk result (λ rows. AreValues P.L.algebra P.F.edge P.targets graph.now tables.now.table roots.now rows.items) }
{
    let starts = leading_starts::<P>(alloc, graph, tables, roots)?;
    let values = fill_by(rt, alloc, graph, tables, starts.as_slice(), workers, gate)?;
    Ok(values)
}

/// The start values of a graph, from which a fill leads to the values that follow.
pub(crate) fn leading_starts<P: Problem>(
    alloc: Global,
    graph: &Graph,
    tables: &Tables<P::F>,
    roots: &[usize],
) -> Result<Vec<P::L>, AllocError>
    ensures starts { IfOk result (AreStartRows P.L.algebra P.F.edge P.targets graph.now tables.now.table roots.now) }
    ensures lead { IfOk result (LeadOn P.L.algebra P.F.edge P.targets graph.now tables.now.table roots.now) }
{
    sites_make_a_graph::<P>();
    start_values::<P>(alloc, graph, tables, roots)
}

impl<P: Problem> Values<P> {
    /// The value of the fact at the node, in constant time. It takes no memory.
    ///
    /// Refusal: `OutOfRange` where the node or the fact is not there.
    pub fn at(&self, node: Node, fact: Fact) -> Result<P::L, Refused>
        ensures out_of_range { (result ≡ Err Refused.OutOfRange) ↔ IsOutside self.now node fact }
        ensures refused { IsOkUnless result Refused.OutOfRange }
        ensures value { IfOk result (λ value. value ≡ value_there P.L.algebra self.now node fact) }
    {
        let graph = &self.loaded.graph;
        if node as usize >= graph.node_count() || fact as usize >= graph.fact_count() {
            return Err(Refused::OutOfRange);
        }
        Ok(value_at_place(self.values.as_slice(), place_of(graph, node, fact)))
    }

    /// The program whose values they are, as its text.
    pub fn program(&self) -> &ProgramText
        ensures { said_by result.now ≡ self.now.program }
    {
        &self.loaded.program
    }

    /// The program and its graph, by which nodes and facts are found.
    pub fn loaded(&self) -> &Loaded<P>
        ensures program { said_by result.now.program ≡ self.now.program }
        ensures graph { result.now.graph ≡ self.now.graph }
    {
        &*self.loaded
    }

    /// The roots, as indices of procedures.
    pub fn roots(&self) -> &[usize]
        ensures { result.now ≡ self.now.roots }
    {
        self.roots.as_slice()
    }
}
