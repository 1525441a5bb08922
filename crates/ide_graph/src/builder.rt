//! The second pass over a program: the sites of its nodes.
ghost use Rattle.std.specs.Prelude.{ℕ, ◌≡◌, ◌-◌, ◌+◌, ◌<◌, ◌≤◌, [], length, map, IfOk, IfSome, IsOkUnless};
ghost use Rattle.std.specs.List.{All};
ghost use Rattle.ide_wire.specs.declared.refused.Refused.TheVariants.{NoMemory};
ghost use Rattle.ide_graph.specs.Edges.{EdgesWithin, EndsWithin, IsCallerWithin};
ghost use Rattle.ide_graph.specs.Numbered.{IsNumbered};
ghost use Rattle.ide_graph.specs.ProgramEdges.{AreSitesOf, IsCall, IsSiteOf, edge_of};

use crate::call::Call;
use crate::directory::Directory;
use crate::edge::{EdgeData, EdgeKind, Effect};
use crate::edges::Edges;
use crate::globals::Globals;
use crate::numbering::{Numbering, Place, Spot};
use crate::scope::Scope;
use crate::site::{Caller, Site};
use ide_text::{Name, Statement};
use ide_wire::{Listing, Node, Refused};
use std::alloc::Global;
use std::mem;

/// What the sites of a program are made from: its names and the numbers that the first pass gave.
#[derive(Drop)]
pub(crate) struct Builder<'a, 'p> {
    pub alloc: Global,
    pub globals: &'a Globals,
    pub directory: &'a Directory,
    pub numbering: &'a Numbering<'p>,
    /// How many facts the program has.
    pub facts: u32,
    /// The last node.
    pub last: Node,
}

impl<'a, 'p> Builder<'a, 'p> {
    ghost use Rattle.ide_graph.specs.Building.{IsReady, IsCallOf, IsScopeOf, AllCallersBefore, AllCallersFrom, AreProcedures, HasNormal, ListsCallers, node_count, procedure_count};
    ghost use Rattle.ide_graph.specs.Exact.{AddsCallers, AreCallees, ForCall, ForCallAt, ForCallee, ForNode, ForProcedure, ForProgram, ForSpot, ForStatement, HasNormalTo, IsOfBranch, KeepsCallers};

    /// A builder over what the first pass found.
    pub fn new(
        alloc: Global,
        globals: &'a Globals,
        directory: &'a Directory,
        numbering: &'a Numbering<'p>,
        facts: u32,
    ) -> Builder<'a, 'p>
        requires numbered { IsNumbered numbering.now }
        requires counted { directory.now.count ≡ length numbering.now.layouts.items }
        ensures ready { IsReady result }
        ensures same { result.numbering ≡ numbering.entry }
        ensures globals { result.globals ≡ globals.entry }
        ensures directory { result.directory ≡ directory.entry }
        ensures facts { result.facts ≡ facts }
    {
        let last = (numbering.spots.len() as Node).saturating_sub(1);
        Builder {
            alloc,
            globals,
            directory,
            numbering,
            facts,
            last,
        }
    }

    /// The sites of all nodes, in order. Time grows with the number of edges.
    pub fn sites(&self) -> Result<Vec<Site>, Refused>
        requires { IsReady self.now }
        ensures whole { IfOk result (λ sites. length sites.items ≡ node_count self.now) }
        ensures within { IfOk result (λ sites. All (EdgesWithin (node_count self.now)) sites.items) }
        ensures exact { ForProgram self.now (λ p. IfOk result (λ sites. AreSitesOf p sites.items)) }
        ensures refused { IsOkUnless result NoMemory }
    {
        let mut callers = self.callers()?;
        let mut sites = Vec::with_capacity(self.alloc, self.numbering.spots.len())?;
        for (node, spot) in self.numbering.spots.iter().enumerate() {
            sites.push(self.site(node as Node, *spot, &mut callers)?)?;
        }
        Ok(sites)
    }

    /// The callers of each procedure, by ascending call node.
    fn callers(&self) -> Result<Vec<Vec<Caller>>, Refused>
        requires { IsReady self.now }
        ensures lists { IfOk result (λ callers. ListsCallers self.now callers.items) }
        ensures exact { ForProgram self.now (λ p. IfOk result (λ callers. AllCallersBefore p (node_count self.now) callers.items)) }
        ensures refused { IsOkUnless result NoMemory }
    {
        let mut callers = self.no_callers()?;
        for (node, spot) in self.numbering.spots.iter().enumerate() {
            self.add_call_at(node as Node, *spot, &mut callers)?;
        }
        Ok(callers)
    }

    /// An empty list of callers for each procedure.
    fn no_callers(&self) -> Result<Vec<Vec<Caller>>, Refused>
        ensures lists { IfOk result (λ callers. ListsCallers self.now callers.items) }
        ensures empty { IfOk result (λ callers. All (λ calls. calls.items ≡ []) callers.items) }
        ensures refused { IsOkUnless result NoMemory }
    {
        let mut callers = Vec::with_capacity(self.alloc, self.numbering.layouts.len())?;
        for _layout in &self.numbering.layouts {
            callers.push(Vec::new(self.alloc))?;
        }
        Ok(callers)
    }

    /// Adds the call that stands at a node, where one does, to the callers of each procedure that
    /// it may call.
    fn add_call_at(
        &self,
        node: Node,
        spot: Spot<'p>,
        callers: &mut Vec<Vec<Caller>>,
    ) -> Result<(), Refused>
        requires ready { IsReady self.now }
        requires node { node < node_count self.now }
        requires procedure { spot.procedure < procedure_count self.now }
        requires callers { ListsCallers self.now callers.old.items }
        ensures callers { ListsCallers self.now callers.new.items }
        ensures exact { ForSpot self.now node spot.entry (λ p. AddsCallers p node result callers.old.items callers.new.items) }
        ensures refused { IsOkUnless result NoMemory }
    {
        let Place::Statement(statement) = spot.place else {
            return Ok(());
        };
        let Statement::Call {
            target,
            callees,
            arguments,
        } = statement
        else {
            return Ok(());
        };
        let scope = self.scope(spot);
        let call = self.call(node, scope, target, callees, arguments)?;
        self.add_callers(&call, callers)
    }

    /// Adds a call to the callers of each procedure that it may call.
    fn add_callers(
        &self,
        call: &Call<'a, 'p>,
        callers: &mut Vec<Vec<Caller>>,
    ) -> Result<(), Refused>
        requires ready { IsReady self.now }
        requires node { call.now.node < node_count self.now }
        requires callees { AreProcedures self.now call.now.callees.items }
        requires callers { ListsCallers self.now callers.old.items }
        ensures callers { ListsCallers self.now callers.new.items }
        ensures exact { ForCall self.now call.now (λ p. AddsCallers p call.now.node result callers.old.items callers.new.items) }
        ensures refused { IsOkUnless result NoMemory }
    {
        for callee in &call.callees {
            callers[*callee].push(Caller {
                call_node: call.node,
                call: self.call_edge(call, *callee)?,
                back: self.edge(call.return_site(), EdgeKind::Return(call.target)),
            })?;
        }
        Ok(())
    }

    /// The site of a node. An exit takes its procedure's callers.
    fn site(
        &self,
        node: Node,
        spot: Spot<'p>,
        callers: &mut Vec<Vec<Caller>>,
    ) -> Result<Site, Refused>
        requires ready { IsReady self.now }
        requires node { node < node_count self.now }
        requires procedure { spot.procedure < procedure_count self.now }
        requires callers { ListsCallers self.now callers.old.items }
        ensures callers { ListsCallers self.now callers.new.items }
        ensures edges { IfOk result (λ site. EdgesWithin (node_count self.now) site) }
        ensures exact { ForSpot self.now node spot.entry (λ p. AllCallersFrom p node callers.old.items → IfOk result (IsSiteOf p node)) }
        ensures left { ForSpot self.now node spot.entry (λ p. KeepsCallers p node callers.old.items callers.new.items) }
        ensures refused { IsOkUnless result NoMemory }
    {
        let scope = self.scope(spot);
        let next = node.saturating_add(1);
        match spot.place {
            Place::Start => Ok(self.normal(next, scope.enter())),
            Place::Statement(statement) => self.statement_site(node, scope, statement),
            Place::ReturnSite => Ok(self.normal(next, Effect::Nothing)),
            Place::Exit => {
                let owner = &mut callers[spot.procedure as usize];
                Ok(Site::Exit {
                    start: scope.layout.start,
                    callers: Listing::of(mem::replace(owner, Vec::new(self.alloc))),
                })
            }
        }
    }

    /// The site of a statement.
    fn statement_site(
        &self,
        node: Node,
        scope: Scope<'a, 'p>,
        statement: &'p Statement,
    ) -> Result<Site, Refused>
        requires ready { IsReady self.now }
        requires node { node < node_count self.now }
        ensures edges { IfOk result (λ site. EdgesWithin (node_count self.now) site) }
        ensures exact { ForStatement self.now scope.entry node statement.now (λ p. IfOk result (IsSiteOf p node)) }
        ensures refused { IsOkUnless result NoMemory }
    {
        let next = node.saturating_add(1);
        match statement {
            Statement::Assign(target, expression) => {
                Ok(self.normal(next, scope.assign(target, expression)))
            }
            Statement::Skip | Statement::At(_) => Ok(self.normal(next, Effect::Nothing)),
            Statement::Goto(label) => Ok(self.normal(scope.label(label), Effect::Nothing)),
            Statement::Branch(label) => self.branch(next, scope.label(label)),
            Statement::Call {
                target,
                callees,
                arguments,
            } => self.call_site(&self.call(node, scope, target, callees, arguments)?),
            Statement::Return(None) => Ok(self.normal(scope.layout.exit, Effect::Nothing)),
            Statement::Return(Some(value)) => {
                Ok(self.normal(scope.layout.exit, scope.give_back(value)))
            }
        }
    }

    /// A site with one normal edge.
    fn normal(&self, end: Node, effect: Effect) -> Site
        requires ready { IsReady self.now }
        requires some { 0 < node_count self.now }
        ensures edges { EdgesWithin (node_count self.now) result }
        ensures exact { ForNode self.now end (λ p. HasNormalTo p end effect result) }
    {
        Site::Normal(Edges::one(self.edge(end, EdgeKind::Normal(effect))))
    }

    /// The site of a branch: the edges to the next node and to the label's, once if they are one.
    fn branch(&self, next: Node, label: Node) -> Result<Site, Refused>
        requires ready { IsReady self.now }
        requires some { 0 < node_count self.now }
        ensures edges { IfOk result (λ site. EdgesWithin (node_count self.now) site) }
        ensures exact { ForNode self.now next (λ p. label < node_count self.now → IfOk result (HasNormal (IsOfBranch p next label))) }
        ensures refused { IsOkUnless result NoMemory }
    {
        if next == label {
            return Ok(self.normal(next, Effect::Nothing));
        }
        let mut edges = Vec::with_capacity(self.alloc, 2)?;
        edges.push(self.edge(next.min(label), EdgeKind::Normal(Effect::Nothing)))?;
        edges.push(self.edge(next.max(label), EdgeKind::Normal(Effect::Nothing)))?;
        Ok(Site::Normal(Edges::of(edges)))
    }

    /// The site of a call.
    fn call_site(&self, call: &Call<'a, 'p>) -> Result<Site, Refused>
        requires ready { IsReady self.now }
        requires node { call.now.node < node_count self.now }
        requires callees { AreProcedures self.now call.now.callees.items }
        ensures edges { IfOk result (λ site. EdgesWithin (node_count self.now) site) }
        ensures exact { ForCall self.now call.now (λ p. IfOk result (IsSiteOf p call.now.node)) }
        ensures refused { IsOkUnless result NoMemory }
    {
        let mut calls = Vec::with_capacity(self.alloc, call.callees.len())?;
        for callee in &call.callees {
            calls.push(self.call_edge(call, *callee)?)?;
        }
        Ok(Site::Call {
            calls: Listing::of(calls),
            along: self.edge(call.return_site(), EdgeKind::CallToReturn(call.target)),
        })
    }

    /// A call statement at a node, with its names looked up.
    fn call(
        &self,
        node: Node,
        scope: Scope<'a, 'p>,
        target: &Option<Name>,
        callees: &[Name],
        arguments: &'p [Name],
    ) -> Result<Call<'a, 'p>, Refused>
        requires { IsReady self.now }
        ensures node { IfOk result (λ call. call.node ≡ node) }
        ensures callees { IfOk result (λ call. AreProcedures self.now call.callees.items) }
        ensures exact { ForCallAt self.now scope.entry node target.now callees.now arguments.now (λ p. IfOk result (IsCallOf p)) }
        ensures refused { IsOkUnless result NoMemory }
    {
        Ok(Call {
            node,
            scope,
            target: scope.assigned(target),
            callees: self.callees(callees)?,
            arguments,
        })
    }

    /// The procedures of these names, each once in ascending order. A parsed program declares them
    /// all; a name that is not declared is left out.
    fn callees(&self, names: &[Name]) -> Result<Vec<usize>, Refused>
        requires { IsReady self.now }
        ensures callees { IfOk result (λ callees. AreProcedures self.now callees.items) }
        ensures exact { ForProgram self.now (λ p. IfOk result (AreCallees p names.now)) }
        ensures refused { IsOkUnless result NoMemory }
    {
        let mut callees = Vec::with_capacity(self.alloc, names.len())?;
        for name in names {
            if let Some(callee) = self.directory.find(name.as_bytes()) {
                callees.push(callee)?;
            }
        }
        callees.sort_unstable();
        callees.dedup();
        Ok(callees)
    }

    /// The call edge to a procedure, with each argument's fact and its parameter's.
    fn call_edge(&self, call: &Call<'a, 'p>, callee: usize) -> Result<EdgeData, Refused>
        requires ready { IsReady self.now }
        requires some { 0 < node_count self.now }
        requires callee { callee < procedure_count self.now }
        ensures within { IfOk result (λ edge. EndsWithin (node_count self.now) edge) }
        ensures exact { ForCallee self.now call.now callee (λ p. IfOk result (IsCall p call.now.node callee)) }
        ensures refused { IsOkUnless result NoMemory }
    {
        let layout = &self.numbering.layouts[callee];
        let mut passed = Vec::with_capacity(self.alloc, call.arguments.len())?;
        for (index, argument) in call.arguments.iter().enumerate() {
            if index < layout.parameter_count {
                passed.push((call.scope.fact(argument), self.globals.own_fact(index)))?;
            }
        }
        Ok(self.edge(layout.start, EdgeKind::Call(Listing::of(passed))))
    }

    /// An edge. A parsed program has a node wherever an edge ends; one past them all would end at
    /// the last.
    fn edge(&self, end: Node, kind: EdgeKind) -> EdgeData
        requires ready { IsReady self.now }
        requires some { 0 < node_count self.now }
        ensures within { EndsWithin (node_count self.now) result }
        ensures exact { ForNode self.now end (λ p. result ≡ edge_of p end kind) }
    {
        EdgeData {
            end: end.min(self.last),
            result: self.globals.result_fact(),
            facts: self.facts,
            kind,
        }
    }

    /// What the names of a node's statement stand for.
    fn scope(&self, spot: Spot<'p>) -> Scope<'a, 'p>
        requires ready { IsReady self.now }
        requires procedure { spot.procedure < procedure_count self.now }
        ensures within { result.layout.now.start < node_count self.now }
        ensures exact { ForProcedure self.now spot.entry.procedure (λ p i q. IsScopeOf p i q result) }
    {
        let procedure = spot.procedure as usize;
        Scope {
            globals: self.globals,
            layout: &self.numbering.layouts[procedure],
            labels: &self.numbering.labels[procedure],
        }
    }
}
