//! Start values: the value of each fact at each procedure's start.
ghost use Rattle.std.specs.Prelude.{◌≡◌, ◌+◌, ◌*◌, ◌<◌, ◌≤◌, ◌^◌, OnOk, IfOk};
ghost use Rattle.ide_values.specs.Falling.{StartsFall};
ghost use Rattle.ide_image.specs.Cells.{BeginsWith};
ghost use Rattle.ide_values.specs.CallPages.{AreOnPage, KnowsCalls};
ghost use Rattle.ide_values.specs.NextCalls.{AreNextCalls, AreNextCallsIn, HaveNoCalls, IsNextCall};
ghost use Rattle.ide_values.specs.Passing.{Comes, LeavesEach, LeavesOffsets, PassesBy, RisesNowhere, Rests};
ghost use Rattle.ide_values.specs.Settled.{AreStartRows};
ghost use Rattle.ide_wire.specs.declared.key.Key.TheVariants.{Jump};

use crate::call_pages::{CallPages, PageCells};
use crate::enter::entered_rows;
use crate::fill::{PAGE, PageJump, first_jump};
use crate::passes::{JumpAt, Starts, calls_at, is_call};
use crate::rows::{procedure_at, start_place};
use ide_graph::Graph;
use ide_image::Tables;
use ide_problem::{Problem, TargetList};
use ide_wire::{Fact, Key, Node};
use std::alloc::{AllocError, Global};

/// The start values of a quiet image: a row for each procedure, one value for each fact.
///
/// Work is done in proportion to what changes: a place whose value fell waits once, and its jumps
/// at call nodes are gone through again.
pub fn start_values<P: Problem>(
    alloc: Global,
    graph: &Graph,
    tables: &Tables<P::F>,
    roots: &[usize],
) -> Result<Vec<P::L>, AllocError>
    ensures { IfOk result (AreStartRows P.L.algebra P.F.edge P.targets graph.now tables.now.table roots.now) }
{
    let mut starts = Starts::<P>::of(alloc, entered_rows(alloc, graph, roots)?)?;
    starts.wait_where_entered()?;
    starts.come_to_rest(alloc, graph, tables)?;
    Ok(starts.into_values())
}

impl<P: Problem> Starts<P> {
    /// Goes through the places that wait and then once through all jump functions at call nodes, until
    /// that changes nothing. Each round but the last lowers some value.
    fn come_to_rest(
        &mut self,
        alloc: Global,
        graph: &Graph,
        tables: &Tables<P::F>,
    ) -> Result<(), AllocError>
        ensures comes { Comes P.L.algebra P.F.edge P.targets graph.now tables.now.table result self.old self.new }
        ensures steady { OnOk result (Rests P.L.algebra P.F.edge P.targets graph.now tables.now.table self.new) }
    {
        let calls = pages_with_calls::<P>(alloc, graph, tables, self.values.len())?;
        let mut targets = TargetList::new(alloc);
        loop {
            self.settle(graph, tables, &calls, &mut targets)?;
            self.has_fallen = false;
            self.pass_each(graph, tables, &calls, &mut targets)?;
            if !self.has_fallen {
                return Ok(());
            }
        }
    }

    /// Goes through the places that wait until none does. Each place that is left has waited, and
    /// waits again only when its value has fallen.
    fn settle(
        &mut self,
        graph: &Graph,
        tables: &Tables<P::F>,
        calls: &CallPages,
        targets: &mut TargetList<P::F>,
    ) -> Result<(), AllocError>
        requires { KnowsCalls graph.now calls.now }
        ensures comes { Comes P.L.algebra P.F.edge P.targets graph.now tables.now.table result self.old self.new }
        ensures falls { OnOk result (RisesNowhere P.L.algebra self.old self.new) }
    {
        while let Some(place) = self.leave() {
            self.pass_from(graph, tables, calls, place, targets)?;
        }
        Ok(())
    }

    /// Takes the value at a place through the jumps from there.
    fn pass_from(
        &mut self,
        graph: &Graph,
        tables: &Tables<P::F>,
        calls: &CallPages,
        place: usize,
        targets: &mut TargetList<P::F>,
    ) -> Result<(), AllocError>
        requires { KnowsCalls graph.now calls.now }
        ensures comes { Comes P.L.algebra P.F.edge P.targets graph.now tables.now.table result self.old self.new }
        ensures falls { OnOk result (StartsFall P.L.algebra self.old self.new) }
    {
        let mut index = calls.last_from(place);
        while let Some(cells) = calls.cells_at(index) {
            self.pass_cells(graph, tables, calls, cells, targets)?;
            index = calls.before(index);
        }
        Ok(())
    }

    /// Hands on by each of the jump functions at call nodes, which are all entries of the tables that hand
    /// anything on.
    fn pass_each(
        &mut self,
        graph: &Graph,
        tables: &Tables<P::F>,
        calls: &CallPages,
        targets: &mut TargetList<P::F>,
    ) -> Result<(), AllocError>
        requires { KnowsCalls graph.now calls.now }
        ensures comes { Comes P.L.algebra P.F.edge P.targets graph.now tables.now.table result self.old self.new }
        ensures rests { OnOk result (LeavesEach P.L.algebra P.F.edge P.targets graph.now tables.now.table self.old self.new) }
        ensures falls { OnOk result (StartsFall P.L.algebra self.old self.new) }
    {
        for page in 0..tables.cell_count() / PAGE {
            let cells = PageCells {
                page,
                begin: 0,
                end: PAGE,
            };
            self.pass_cells(graph, tables, calls, cells, targets)?;
        }
        Ok(())
    }

    /// Hands on by the jump functions in cells of a page that are at call nodes. The other entries there hand nothing on,
    /// and a page of summaries is passed over.
    fn pass_cells(
        &mut self,
        graph: &Graph,
        tables: &Tables<P::F>,
        calls: &CallPages,
        cells: PageCells,
        targets: &mut TargetList<P::F>,
    ) -> Result<(), AllocError>
        requires calls { KnowsCalls graph.now calls.now }
        requires page { AreOnPage cells }
        ensures leaves { OnOk result (LeavesOffsets P.L.algebra P.F.edge P.targets graph.now tables.now cells.page cells.begin cells.end self.old self.new) }
        ensures comes { Comes P.L.algebra P.F.edge P.targets graph.now tables.now.table result self.old self.new }
        ensures falls { OnOk result (StartsFall P.L.algebra self.old self.new) }
    {
        let Some(first) = first_jump(tables, cells.page) else {
            return Ok(());
        };
        let mut offset = next_offset(graph, calls.nexts.as_slice(), first.node, cells.begin);
        while offset < cells.end {
            self.pass_cell(graph, tables, cells.page, first, offset, targets)?;
            offset = next_offset(graph, calls.nexts.as_slice(), first.node, offset + 1);
        }
        Ok(())
    }

    /// Hands on by the entry that a cell of a page shows, at an offset there.
    #[inline(always)]
    fn pass_cell(
        &mut self,
        graph: &Graph,
        tables: &Tables<P::F>,
        page: usize,
        first: PageJump,
        offset: usize,
        targets: &mut TargetList<P::F>,
    ) -> Result<(), AllocError>
        requires page { 64 * page + 64 < 2 ^ 64 }
        requires within { offset < 64 }
        requires first { BeginsWith tables.now page (Jump first.node first.from first.to) }
        requires few { first.node + 64 ≤ 2 ^ 32 }
        ensures leaves { OnOk result (LeavesOffsets P.L.algebra P.F.edge P.targets graph.now tables.now page offset (offset + 1) self.old self.new) }
        ensures comes { Comes P.L.algebra P.F.edge P.targets graph.now tables.now.table result self.old self.new }
        ensures falls { OnOk result (StartsFall P.L.algebra self.old self.new) }
    {
        // No two cells are of one key.
        let _ = tables.cell_count();
        let Some(function) = tables.function_in(PAGE * page + offset) else {
            return Ok(());
        };
        let key = Key::Jump(first.node + offset as Node, first.from, first.to);
        self.pass_by(graph, key, function, targets)?;
        Ok(())
    }

    /// Hands on by an entry of the tables.
    fn pass_by(
        &mut self,
        graph: &Graph,
        key: Key,
        function: P::F,
        targets: &mut TargetList<P::F>,
    ) -> Result<(), AllocError>
        ensures passes { OnOk result (PassesBy P.L.algebra P.F.edge P.targets graph.now key function self.old self.new) }
        ensures falls { OnOk result (StartsFall P.L.algebra self.old self.new) }
    {
        let Key::Jump(node, from, to) = key else {
            return Ok(());
        };
        if node as usize >= graph.node_count() {
            return Ok(());
        }
        let jump = JumpAt {
            node,
            from,
            to,
            function,
        };
        self.pass_all(graph, &jump, calls_at(graph, node), targets)
    }
}

/// The cells of pages with jump functions at call nodes, where these start from so many places.
fn pages_with_calls<P: Problem>(
    alloc: Global,
    graph: &Graph,
    tables: &Tables<P::F>,
    places: usize,
) -> Result<CallPages, AllocError>
    ensures { IfOk result (KnowsCalls graph.now) }
{
    let mut calls = CallPages::new(alloc, next_calls(alloc, graph)?, places)?;
    for page in 0..tables.cell_count() / PAGE {
        add_page::<P>(graph, tables, page, &mut calls)?;
    }
    Ok(calls)
}

/// For each node the first call node that is not before it: where there is none, how many nodes there are.
fn next_calls(alloc: Global, graph: &Graph) -> Result<Vec<Node>, AllocError>
    ensures { IfOk result (AreNextCallsIn graph.now) }
{
    let mut node = graph.node_count();
    let mut next = node as Node;
    let mut nexts = vec![in alloc; next; node]?;
    while node > 0 {
        node -= 1;
        next = next_call(graph, node as Node, next);
        nexts[node] = next;
    }
    Ok(nexts)
}

/// The first call node that is not before a node, where that for the node behind it is given.
fn next_call(graph: &Graph, node: Node, behind: Node) -> Node
    requires { IsNextCall graph.now (node + 1) behind }
    ensures { IsNextCall graph.now node result }
{
    if is_call(graph, node) { node } else { behind }
}

/// Adds the cells of a page with jump functions at call nodes. Those that start from one place stand side by side.
fn add_page<P: Problem>(
    graph: &Graph,
    tables: &Tables<P::F>,
    page: usize,
    calls: &mut CallPages,
) -> Result<(), AllocError>
    requires calls { KnowsCalls graph.now calls.old }
    requires page { 64 * page + 64 < 2 ^ 64 }
    ensures { calls.new.nexts ≡ calls.old.nexts }
{
    let Some(first) = first_jump(tables, page) else {
        return Ok(());
    };
    let mut last = None;
    let mut offset = next_offset(graph, calls.nexts.as_slice(), first.node, 0);
    while offset < PAGE {
        let place = place_of_jump::<P>(graph, tables, page, first, offset);
        if let Some(place) = place
            && last != Some(place)
        {
            calls.add(place, PAGE * page + offset)?;
            last = Some(place);
        }
        offset = next_offset(graph, calls.nexts.as_slice(), first.node, offset + 1);
    }
    Ok(())
}

/// The first offset of a page, whose first cell is at a node, that is at a call node and not before another
/// offset: 64 where there is none.
#[inline(always)]
fn next_offset(graph: &Graph, nexts: &[Node], first: Node, offset: usize) -> usize
    requires nexts { AreNextCalls graph.now nexts.now }
    requires within { offset ≤ 64 }
    ensures order { offset ≤ result }
    ensures within { result ≤ 64 }
    ensures none { HaveNoCalls graph.now (first + offset) (first + result) }
{
    let node = first as usize + offset;
    if node >= graph.node_count() {
        return PAGE;
    }
    (nexts[node] as usize - first as usize).min(PAGE)
}

/// The place that the jump at an offset of a page starts from, if its key is present.
#[inline(always)]
fn place_of_jump<P: Problem>(
    graph: &Graph,
    tables: &Tables<P::F>,
    page: usize,
    first: PageJump,
    offset: usize,
) -> Option<usize>
    requires page { 64 * page + 64 < 2 ^ 64 }
    requires within { offset < 64 }
    requires few { first.node + 64 ≤ 2 ^ 32 }
{
    // Whether there is a function is enough.
    let _ = tables.function_in(PAGE * page + offset)?;
    let procedure = procedure_at(graph, first.node + offset as Node);
    Some(start_place(graph, procedure, first.from))
}
