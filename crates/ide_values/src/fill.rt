//! The fill: each jump function lowers the value where it ends.
ghost use Rattle.std.specs.Prelude.{◌≡◌, ◌+◌, ◌*◌, ◌^◌, ◌<◌, ◌≤◌, None, IfOk, IfSome, length};
ghost use Rattle.ide_image.specs.Cells.{AreAlike, BeginsWith, ShowTable};
ghost use Rattle.ide_values.specs.Fill.{FillsFrom, FillsRows, IsFilledBy};
ghost use Rattle.ide_values.specs.Near.{AreNear, HasNoJump};
ghost use Rattle.ide_values.specs.Runs.{FillsRun};
ghost use Rattle.ide_values.specs.Start.{AreTops, row_value};
ghost use Rattle.ide_values.specs.Stretches.{AreOwnedBy, AreStretches};
ghost use Rattle.ide_wire.specs.declared.key.Key.TheVariants.{Jump};

use crate::rows::{lower, start_place, tops, value_at_place};
use crate::stretches::Stretches;
use ide_graph::Graph;
use ide_image::Tables;
use ide_lattice::{EdgeFn, Lattice};
use ide_wire::{Fact, Key, Node};
use std::alloc::{AllocError, Global};

/// How many cells a page has.
pub(crate) const PAGE: usize = 64;

/// The first of the 64 jumps that have the cells of a page: each other one goes between the same facts, and
/// ends so many nodes further on.
#[derive(Clone, Copy, Drop)]
pub(crate) struct PageJump {
    pub(crate) node: Node,
    pub(crate) from: Fact,
    pub(crate) to: Fact,
}

/// The values of an image whose start values these are: rows by node, one value for each fact.
pub fn fill<F: EdgeFn>(
    alloc: Global,
    graph: &Graph,
    tables: &Tables<F>,
    starts: &[F::L],
) -> Result<Vec<F::L>, AllocError>
    ensures filled { IfOk result (FillsRows F.L.algebra F.edge graph.now tables.now.table starts.now) }
    ensures count { IfOk result (λ values. length values.items ≡ graph.now.nodes * graph.now.facts) }
{
    let mut values = tops(alloc, graph.node_count() * graph.fact_count())?;
    fill_rows(graph, tables, starts, 0, values.as_mut_slice());
    Ok(values)
}

/// Fills rows of tops, of which the first is that of a node. Of each page of the tables that has summaries, or jumps at the
/// nodes of other blocks, it looks at the key alone, and of the others it reads the cells that are at the nodes of the rows.
pub(crate) fn fill_rows<F: EdgeFn>(
    graph: &Graph,
    tables: &Tables<F>,
    starts: &[F::L],
    first: Node,
    rows: &mut [F::L],
)
    requires { AreTops F.L.algebra rows.old }
    ensures count { length rows.new ≡ length rows.old }
    ensures filled { FillsFrom F.L.algebra F.edge graph.now tables.now.table starts.now first rows.new }
{
    let more = whole_rows(graph, rows.len());
    // Blocks of nodes that have all rows, and at most one more.
    let begin = first as usize / PAGE;
    let end = begin + more / PAGE + 2;
    let pages = tables.cell_count() / PAGE;
    let mut stretches = Stretches::unscanned(graph);
    let mut page = tables.next_page(0, begin, end);
    while page < pages {
        fill_page(
            graph,
            tables,
            starts,
            first,
            more,
            page,
            &mut stretches,
            rows,
        );
        page = tables.next_page(page + 1, begin, end);
    }
}

/// Fills rows, which are the first node's and those of so many more nodes at most, by the cells of a page,
/// where they are filled by those of the pages before. The cells of a stretch of nodes of one procedure
/// are gone through at once.
fn fill_page<F: EdgeFn>(
    graph: &Graph,
    tables: &Tables<F>,
    starts: &[F::L],
    first: Node,
    more: usize,
    page: usize,
    stretches: &mut Stretches,
    rows: &mut [F::L],
)
    requires few { 0 < graph.now.facts → length rows.old < (more + 1) * graph.now.facts }
    requires shown { ShowTable tables.now }
    requires page { 64 * page + 64 < 2 ^ 64 }
    requires stretches { AreStretches graph.now stretches.old }
    requires filled { IsFilledBy F.L.algebra F.edge graph.now tables.now starts.now first (64 * page) rows.old }
    ensures count { length rows.new ≡ length rows.old }
    ensures stretches { AreStretches graph.now stretches.new }
    ensures filled { IsFilledBy F.L.algebra F.edge graph.now tables.now starts.now first (64 * page + 64) rows.new }
{
    let Some(jump) = first_jump(tables, page) else {
        return;
    };
    let (begin, end) = near_offsets(first, more, jump.node);
    let node = jump.node as usize;
    let mut offset = begin;
    while offset < end {
        let stretch = stretches.stretch_at(graph, node + offset, node + end);
        let next = end.min(stretch.end - node);
        fill_stretch(
            graph,
            tables,
            starts,
            first,
            page,
            jump,
            stretch.procedure,
            offset,
            next,
            rows,
        );
        offset = next;
    }
}

/// Fills rows by the cells of a page from one offset to before another, whose nodes are of one procedure.
/// So what each of their functions is applied to is its one value of the fact where the jumps begin. Mostly
/// cells side by side have the same function, and these are gone through at once.
fn fill_stretch<F: EdgeFn>(
    graph: &Graph,
    tables: &Tables<F>,
    starts: &[F::L],
    first: Node,
    page: usize,
    jump: PageJump,
    procedure: usize,
    begin: usize,
    end: usize,
    rows: &mut [F::L],
)
    requires shown { ShowTable tables.now }
    requires page { 64 * page + 64 < 2 ^ 64 }
    requires jump { BeginsWith tables.now page (Jump jump.node jump.from jump.to) }
    requires order { begin ≤ end }
    requires end { end ≤ 64 }
    requires near { first ≤ jump.node + begin }
    requires procedure { AreOwnedBy graph.now (jump.node + begin) (jump.node + end) procedure }
    requires filled { IsFilledBy F.L.algebra F.edge graph.now tables.now starts.now first (64 * page + begin) rows.old }
    ensures count { length rows.new ≡ length rows.old }
    ensures filled { IsFilledBy F.L.algebra F.edge graph.now tables.now starts.now first (64 * page + end) rows.new }
{
    let start = start_of(graph, starts, procedure, jump.from);
    let cells = PAGE * page;
    let mut offset = begin;
    while offset < end {
        let next = tables.alike_to(cells + offset, cells + end) - cells;
        fill_run(graph, tables, first, page, jump, start, offset, next, rows);
        offset = next;
    }
}

/// Fills rows by the cells of a page from one offset to before another, which all have the same function, or
/// none, where the fact at which the jumps begin has one start value. So the function is applied once.
fn fill_run<F: EdgeFn>(
    graph: &Graph,
    tables: &Tables<F>,
    first: Node,
    page: usize,
    jump: PageJump,
    start: F::L,
    begin: usize,
    end: usize,
    rows: &mut [F::L],
)
    requires shown { ShowTable tables.now }
    requires page { 64 * page + 64 < 2 ^ 64 }
    requires jump { BeginsWith tables.now page (Jump jump.node jump.from jump.to) }
    requires order { begin ≤ end }
    requires end { end ≤ 64 }
    requires near { first ≤ jump.node + begin }
    requires alike { AreAlike tables.now (64 * page + begin) (64 * page + end) }
    ensures count { length rows.new ≡ length rows.old }
    ensures filled { FillsRun F.L.algebra F.edge graph.now tables.now first page jump start
        begin end rows.old rows.new }
{
    let Some(function) = tables.function_in(PAGE * page + begin) else {
        return;
    };
    let value = function.apply(start);
    let facts = graph.fact_count();
    let mut place = (jump.node as usize + begin - first as usize) * facts + jump.to as usize;
    for _offset in begin..end {
        lower(rows, place, value);
        place += facts;
    }
}

/// The jump whose cell is the first of a page: none where the page has summaries, which lower no value and
/// hand none on, and where there is no such page.
pub(crate) fn first_jump<F: EdgeFn>(tables: &Tables<F>, page: usize) -> Option<PageJump>
    ensures first { IfSome result (λ jump. BeginsWith tables.now page (Jump jump.node jump.from jump.to)) }
    ensures few { IfSome result (λ jump. jump.node + 64 ≤ 2 ^ 32) }
    ensures none { result ≡ None → HasNoJump tables.now page }
{
    match tables.first_key(page)? {
        Key::Jump(node, from, to) => Some(PageJump { node, from, to }),
        Key::Summary(_, _, _) => None,
    }
}

/// The offsets of a page, whose first cell is at a node, that are at the first of some nodes or at one of so
/// many more: from one to before another, which are the same where the page is at other nodes.
#[inline(always)]
fn near_offsets(first: Node, more: usize, node: Node) -> (usize, usize)
    ensures { AreNear first more node result.0 result.1 }
{
    let past = (first as usize).saturating_add(more).saturating_add(1);
    let begin = (first as usize).saturating_sub(node as usize).min(PAGE);
    let end = past.saturating_sub(node as usize).min(PAGE);
    (begin, end.max(begin))
}

/// How many whole rows so many values are.
fn whole_rows(graph: &Graph, count: usize) -> usize
    ensures { 0 < graph.now.facts → count < (result + 1) * graph.now.facts }
{
    count / graph.fact_count().max(1)
}

/// The value of a fact at the start of a procedure.
fn start_of<L: Lattice>(graph: &Graph, starts: &[L], procedure: usize, fact: Fact) -> L
    ensures { result ≡ row_value L.algebra graph.now starts.now procedure fact }
{
    value_at_place(starts, start_place(graph, procedure, fact))
}
