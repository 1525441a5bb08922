//! Roots: where analysis begins.
ghost use Rattle.std.specs.Prelude.{◌≡◌, ◌≤◌, ◌<◌, ◌^◌, ◌↔◌, ◌⊎◌, ◌++◌, ◌∷◌, [], None, IfErr, IfOk, IsTrue, OnErr, OnOk, IsOkUnless};
ghost use Rattle.ide_image.specs.Tables.{found};
ghost use Rattle.ide_steps.specs.Changed.{Remembers};
ghost use Rattle.ide_steps.specs.Core.{AreInside, IsUnchanged};
ghost use Rattle.ide_steps.specs.Refusal.{IsNoRoot, IsRootName, IsRootNow, IsRootRefusal, RootFault};
ghost use Rattle.ide_steps.specs.Rooted.{AllAbsent, AllAt, AreSeedEntries, Enters, IsBegun};
ghost use Rattle.ide_steps.specs.Steps.{SameTasks};

use crate::machine::Core;
use ide_graph::Graph;
use ide_lattice::EdgeFn;
use ide_problem::Problem;
use ide_theory::{runs_go_on, sites_make_a_graph, starts_are_seeded};
use ide_wire::{Fact, Key, Node, Refused};
use std::alloc::AllocError;

impl<P: Problem> Core<P> {
    /// Makes the procedure of that name a root: each jump of an entry fact at its start to itself
    /// that is absent becomes the identity, pending. A present one stays as it is: a run brought it
    /// there, and it is below the identity.
    ///
    /// Refusals, in this order: `NoProgram`; `NoProcedure`; `HasParameters`; `Already`;
    /// `NoMemory`. After each the core is as it was.
    pub fn root(&mut self, name: &[u8]) -> Result<(), Refused>
        ensures refused { IfErr result (IsRootRefusal self.old.graph self.old.roots name.now) }
        ensures same { IfErr result (λ e. (e ≡ Refused.NoMemory) ⊎ (self.new ≡ self.old)) }
        ensures unchanged { OnErr result (IsUnchanged self.old self.new) }
        ensures remembers { Remembers self.old self.new }
        ensures begun { OnOk result (IsBegun P.L.algebra P.F.edge P.targets self.old self.new name.now) }
    {
        sites_make_a_graph::<P>();
        runs_go_on::<P>();
        starts_are_seeded::<P>();
        let Some(loaded) = &self.loaded else {
            return Err(Refused::NoProgram);
        };
        let graph = &loaded.graph;
        let procedure = find_root(graph, self.roots.as_slice(), name)?;
        let start = graph.start_of(procedure);
        let entries = graph.entry_count();
        // Entry facts are facts, and so few enough for a `Fact`.
        let facts = graph.fact_count();
        prove!(entries <= facts);
        let jumps = self.absent_jumps(start, entries)?;
        self.begin(procedure, &jumps)?;
        Ok(())
    }

    /// The index of the procedure of that name, if it may be a root now: what [`Core::root`] tests before
    /// it changes anything.
    ///
    /// Refusals, in this order: `NoProgram`; `NoProcedure`; `HasParameters`; `Already`.
    pub fn root_of(&self, name: &[u8]) -> Result<usize, Refused>
        ensures root { IfOk result (IsRootNow self.now.graph self.now.roots name.now) }
        ensures refused { IfErr result (IsNoRoot self.now.graph self.now.roots name.now) }
    {
        match &self.loaded {
            Some(loaded) => find_root(&loaded.graph, self.roots.as_slice(), name),
            None => Err(Refused::NoProgram),
        }
    }

    /// The jumps of the first `entries` facts of the start to themselves that are absent, each with
    /// the identity.
    fn absent_jumps(&self, start: Node, entries: usize) -> Result<Vec<(Key, P::F)>, AllocError>
        requires few { entries ≤ 2 ^ 16 }
        ensures place { IfOk result (λ jumps. AllAt start jumps.items) }
        ensures absent { IfOk result (λ jumps. AllAbsent self.now jumps.items) }
        ensures entered { IfOk result (λ jumps. AreSeedEntries P.F.edge P.targets self.now start entries jumps.items) }
    {
        let mut jumps = Vec::new(self.alloc);
        for fact in 0..entries {
            let fact = fact as Fact;
            let key = Key::Jump(start, fact, fact);
            if self.is_absent(key) {
                jumps.push((key, P::F::id()))?;
            }
        }
        Ok(jumps)
    }

    /// Whether the key has no entry.
    fn is_absent(&self, key: Key) -> bool
        ensures { IsTrue result ↔ (found self.now.table key ≡ None) }
    {
        self.image.get(key).is_none()
    }

    /// Makes the procedure a root, whose jumps at its start have these functions now and are
    /// pending. It makes its room first, and so leaves all as it was where memory is wanting.
    fn begin(&mut self, procedure: usize, jumps: &[(Key, P::F)]) -> Result<(), Refused>
        requires inside { AreInside self.old jumps.now }
        requires absent { AllAbsent self.old jumps.now }
        ensures program { self.new.program ≡ self.old.program }
        ensures graph { self.new.graph ≡ self.old.graph }
        ensures roots { OnOk result (self.new.roots ≡ self.old.roots ++ procedure ∷ []) }
        ensures state { OnOk result (Enters P.F.edge P.targets self.old self.new jumps.now) }
        ensures progress { OnOk result (SameTasks self.old.pile self.new.pile) }
        ensures remembers { Remembers self.old self.new }
        ensures refused { IsOkUnless result Refused.NoMemory }
        ensures unchanged { OnErr result (IsUnchanged self.old self.new) }
    {
        self.roots.reserve(1)?;
        self.image.set_all(jumps)?;
        self.roots.push_reserved(procedure);
        Ok(())
    }
}

/// The procedure of that name, if it can be a root beside these: the refusal is the fault that it has.
fn find_root(graph: &Graph, roots: &[usize], name: &[u8]) -> Result<usize, Refused>
    ensures root { IfOk result (IsRootName graph.now roots.now name.now) }
    ensures within { IfOk result (λ root. root < graph.now.procedures) }
    ensures fault { IfErr result (RootFault graph.now roots.now name.now) }
{
    let Some(procedure) = graph.procedure_named(name) else {
        return Err(Refused::NoProcedure);
    };
    if graph.parameter_count(procedure) != 0 {
        return Err(Refused::HasParameters);
    }
    if roots.contains(&procedure) {
        return Err(Refused::Already);
    }
    Ok(procedure)
}
