//! The supergraph of a program.
ghost use Rattle.std.specs.Prelude.{◌≡◌, ℕ, true, ◌+◌, ◌↔◌, None, Err, ◌<◌, ◌≤◌, ◌^◌, IfOk, IfErr, IfSome, length, map, slice_index, slice_index_or, IsOkUnless};
ghost use Rattle.std.specs.List.{All};
ghost use Rattle.std.specs.Option.{option_copied};
ghost use Rattle.ide_wire.specs.declared.refused.Refused.TheVariants.{NoMemory, NoProcedure, OutOfRange};
ghost use Rattle.ide_graph.specs.Edges.{EdgesWithin};
ghost use Rattle.ide_graph.specs.GraphOf.{IsGraphOf};
ghost use Rattle.ide_graph.specs.ProgramEdges.{HasEdgesOf};
ghost use Rattle.ide_graph.specs.Steps.{PassesBy};

use crate::builder::Builder;
use crate::directory::Directory;
use crate::globals::Globals;
use crate::layout::Layout;
use crate::numbering::{Numbering, Spot};
use crate::shared_site::SharedSite;
use crate::site::Site;
use crate::step::{Step, steps_of};
use ide_text::Program;
use ide_wire::{Fact, Node, Refused};
use std::alloc::{AllocError, Global};
use std::marker::Model;
use std::sync::Arc;

/// The supergraph of a program: the sites of its nodes, and the names of its procedures and facts.
///
/// Nodes are numbered from 0, procedure by procedure in the program's order: the start, then each
/// statement's node (a call has its call node and then its return site), then the exit. Fact 0 is
/// `@zero`, the globals are 1 and on, then comes `@result`, and then the parameters and locals of
/// a procedure, whose numbers all procedures share. A position is a node's number less that of its
/// procedure's start.
///
/// Every call takes constant time but [`Graph::of`]. Contracts see the counts, and what stands
/// where.
#[derive(Drop)]
pub struct Graph {
    globals: Globals,
    directory: Directory,
    layouts: Vec<Layout>,
    sites: Arc<Vec<Site>>,
    /// The procedure of each node.
    owners: Vec<u32>,
    /// The most parameters and locals that a procedure has.
    most_own: usize,
    /// What is told of each node beside its site.
    steps: Vec<Step>,
}

impl Model for Graph {
    ghost use Rattle.ide_graph.specs.Supergraph.{Supergraph};

    ghost Value = { Supergraph };

    ghost use Rattle.ide_graph.specs.Whole.{counts_of, IsWhole};

    ghost view = { counts_of };

    ghost invariant = { IsWhole };
}

impl Graph {
    ghost use Rattle.ide_graph.specs.Supergraph.{IsFindRefusal, IsFoundAt, IsMissing, procedure_named, name_at};

    /// The graph of a program. Time grows with the number of edges and the program's size.
    pub fn of(alloc: Global, program: &Program) -> Result<Graph, Refused>
        ensures numbered { IfOk result (IsGraphOf program.now) }
        ensures edges { IfOk result (HasEdgesOf program.now) }
        ensures refused { IsOkUnless result NoMemory }
    {
        let globals = Globals::of(alloc, program.globals())?;
        let procedures = program.procedures();
        let directory = Directory::of(alloc, procedures)?;
        let numbering = Numbering::of(alloc, procedures)?;
        let most_own = most_own_of(&numbering.layouts);
        let facts = globals.fact_count(most_own) as u32;
        let sites = Builder::new(alloc, &globals, &directory, &numbering, facts).sites()?;
        let Numbering { spots, layouts, .. } = numbering;
        let owners = owners_of(alloc, &spots)?;
        drop_shrunk(spots);
        let steps = steps_of(alloc, &sites, facts)?;
        let sites = Arc::new(alloc, sites)?;
        Ok(Graph {
            globals,
            directory,
            layouts,
            sites,
            owners,
            most_own,
            steps,
        })
    }

    /// How many procedures there are.
    pub fn procedure_count(&self) -> usize
        ensures { result ≡ self.now.procedures }
    {
        self.layouts.len()
    }

    /// How many nodes there are.
    pub fn node_count(&self) -> usize
        ensures count { result ≡ self.now.nodes }
        ensures sited { length self.now.sites ≡ self.now.nodes }
        ensures few { result < 2 ^ 32 }
    {
        self.sites.len()
    }

    /// How many facts there are: the entry facts, `@result`, and the most parameters and locals
    /// that a procedure has.
    pub fn fact_count(&self) -> usize
        ensures count { result ≡ self.now.facts }
        ensures few { result ≤ 2 ^ 16 }
        ensures entries { self.now.entries ≤ self.now.facts }
    {
        self.globals.fact_count(self.most_own)
    }

    /// How many facts may hold where the program is entered: `@zero` and the globals.
    pub fn entry_count(&self) -> usize
        ensures count { result ≡ self.now.entries }
        ensures facts { result ≤ self.now.facts }
    {
        usize::from(self.globals.result_fact())
    }

    /// What stands at a node.
    pub fn site(&self, node: Node) -> &Site
        requires { node < self.now.nodes }
        ensures site { result.now ≡ slice_index_or self.now.sites node result.now }
        ensures edges { EdgesWithin self.now.nodes result.now }
    {
        &self.sites[node as usize]
    }

    /// What stands at a node, to be carried away. It takes no memory, and is refused where the
    /// sites have as many holders as can be counted.
    pub fn shared_site(&self, node: Node) -> Result<SharedSite, Refused>
        requires { node < self.now.nodes }
        ensures site { IfOk result (λ site. site ≡ slice_index_or self.now.sites node site) }
        ensures edges { IfOk result (EdgesWithin self.now.nodes) }
        ensures refused { IsOkUnless result NoMemory }
    {
        Ok(SharedSite::of(&self.sites, node as usize)?)
    }

    /// Whether one edge leaves the node, to the node behind it, by a statement that does not name the fact. Where it answers
    /// `false`, that may be so all the same: of `@zero`, and of what goes on at a procedure's start, it is not told.
    /// The node's site is not read.
    #[inline(always)]
    pub fn passes_by(&self, node: Node, fact: Fact) -> bool
        requires { node < self.now.nodes }
        ensures passes { result ≡ true → PassesBy self.now.sites node fact }
        ensures within { result ≡ true → node + 1 < self.now.nodes }
    {
        usize::from(fact) < self.fact_count() && self.steps[node as usize].passes_by(fact)
    }

    /// The index of the procedure that a node belongs to.
    pub fn procedure_of(&self, node: Node) -> usize
        requires { node < self.now.nodes }
        ensures owner { result ≡ slice_index self.now.owners node }
        ensures within { result < self.now.procedures }
    {
        self.owners[node as usize] as usize
    }

    /// The start of a procedure.
    pub fn start_of(&self, procedure: usize) -> Node
        requires { procedure < self.now.procedures }
        ensures start { result ≡ slice_index self.now.starts procedure }
        ensures within { result < self.now.nodes }
    {
        self.layouts[procedure].start
    }

    /// The exit of a procedure.
    pub fn exit_of(&self, procedure: usize) -> Node
        requires { procedure < self.now.procedures }
        ensures exit { result ≡ slice_index self.now.exits procedure }
        ensures within { result < self.now.nodes }
    {
        self.layouts[procedure].exit
    }

    /// How many parameters a procedure has.
    pub fn parameter_count(&self, procedure: usize) -> usize
        requires { procedure < self.now.procedures }
        ensures { result ≡ slice_index self.now.parameters procedure }
    {
        self.layouts[procedure].parameter_count
    }

    /// The index of the procedure of a name.
    pub fn procedure_named(&self, name: &[u8]) -> Option<usize>
        ensures value { result ≡ procedure_named self.now name.now }
        ensures within { IfSome result (λ procedure. procedure < self.now.procedures) }
    {
        self.directory.find(name)
    }

    /// What a fact is called at a node: `None` past the facts of the node's procedure, and past
    /// the nodes.
    pub fn fact_name(&self, node: Node, fact: Fact) -> Option<&[u8]>
        ensures name { option_copied result ≡ name_at self.now node fact }
        ensures within { IfSome result (λ _. fact < self.now.facts) }
    {
        let owner = *self.owners.get(node as usize)?;
        let layout = &self.layouts[owner as usize];
        self.globals.name_of(&layout.own, fact)
    }

    /// The node at a position of a procedure, and the fact of a name there.
    ///
    /// It is refused with [`Refused::NoProcedure`] where no procedure has the name, and else with
    /// [`Refused::OutOfRange`] where the procedure has no such position or no fact of the name.
    pub fn find(
        &self,
        procedure: &[u8],
        position: u32,
        fact: &[u8],
    ) -> Result<(Node, Fact), Refused>
        ensures found { IfOk result (λ found. IsFoundAt self.now procedure.now position fact.now found.0 found.1) }
        ensures node { IfOk result (λ found. found.0 < self.now.nodes) }
        ensures fact { IfOk result (λ found. found.1 < self.now.facts) }
        ensures no_procedure { (result ≡ Err NoProcedure) ↔ (procedure_named self.now procedure.now ≡ None) }
        ensures out_of_range { result ≡ Err OutOfRange → IsMissing self.now procedure.now position fact.now }
        ensures refused { IfErr result IsFindRefusal }
    {
        let index = self.procedure_named(procedure).ok_or(Refused::NoProcedure)?;
        let layout = &self.layouts[index];
        let node = layout.node_at(position).ok_or(Refused::OutOfRange)?;
        let fact = self.globals.fact_named(&layout.own, fact);
        let fact = fact.ok_or(Refused::OutOfRange)?;
        Ok((node, fact))
    }
}

/// The procedure of each node.
fn owners_of(alloc: Global, spots: &[Spot]) -> Result<Vec<u32>, AllocError>
    ensures { IfOk result (λ owners. owners.items ≡ map (λ spot. spot.procedure) spots.now) }
{
    spots.iter().map(|spot| spot.procedure).collect(alloc)
}

/// Drops the spots, once nearly all of their memory is given back where it is. The C library takes a freed block, if that
/// was mapped apart for its size, as a sign that such sizes come and go, and has blocks up to that size in its heap from then
/// on: there each list that grows leaves holes, where it would have been mapped apart.
fn drop_shrunk(mut spots: Vec<Spot>) {
    spots.truncate(1);
    spots.shrink_to_fit();
}

/// The most parameters and locals that one of the procedures has.
fn most_own_of(layouts: &[Layout]) -> usize
    ensures most { All (λ layout. length layout.own ≤ result) layouts.now }
    ensures least { (n : ℕ) → All (λ layout. length layout.own ≤ n) layouts.now → result ≤ n }
{
    layouts
        .iter()
        .map(|layout| layout.own.len())
        .max()
        .unwrap_or(0)
}
