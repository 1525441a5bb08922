//! The trait of analyses.
ghost use Rattle.std.specs.Prelude.{◌≡◌, ◌<◌, ℕ, [], true, OnOk, OnErr};
ghost use Rattle.ide_problem.specs.Flow.{IsFlow, IsPassed, KeepsUnnamed, Targets};

use crate::target_list::TargetList;
use ide_graph::EdgeData;
use ide_lattice::{EdgeFn, Lattice};
use ide_wire::Fact;
use std::alloc::AllocError;

/// An interprocedural distributive environment problem over the supergraphs of programs.
pub trait Problem {
    /// The values of facts.
    type L: Lattice;
    /// The functions on edges.
    type F: EdgeFn<L = Self::L>;

    /// The number of the analysis in the header of a store, 1 to 255.
    const TAG: u8;

    ghost TAG: { ℕ };

    ghost targets: { Targets Self.F };

    /// Fills the empty list with the targets of `fact` over `edge`, ascending, each with its
    /// function. It depends on the edge and the fact alone. At an error the list is empty.
    fn flow(edge: &EdgeData, fact: Fact, out: &mut TargetList<Self::F>) -> Result<(), AllocError>
        requires { out.old.list.items ≡ [] }
        ensures ok { OnOk result (out.new.list.items ≡ targets edge.now fact) }
        ensures err { OnErr result (out.new.list.items ≡ []) };

    /// Whether the edge passes the fact on unchanged: to itself alone, by the identity. Where it does, the solver need not
    /// ask for the flow, so an analysis in which most facts stay as they are is solved faster if it tells. `false`,
    /// which is what an analysis answers that has no such method, is always right.
    fn passes_unchanged(edge: &EdgeData, fact: Fact) -> bool
        ensures { result ≡ true → IsPassed Self.F.edge.id (targets edge.now fact) fact }
    {
        false // so its flow is asked for
    }

    /// Whether each edge within a procedure passes each fact on unchanged that its statement does not name, be it to assign
    /// it or to read it; of `@zero`, and of a procedure's start, it is not asked. Where that is so, the solver reads next to
    /// nothing of most nodes, so an analysis of assignments is solved faster if it tells. `false`, which is what an analysis
    /// answers that has no such method, is always right.
    fn keeps_unnamed() -> bool
        ensures { result ≡ true → KeepsUnnamed Self.F.edge.id targets }
    {
        false // so each edge is asked about
    }

    ghost lawful: { IsFlow Self.F.edge targets };

    ghost tag_not_zero: { 0 < TAG };

    ghost top_is_not_bottom: { Self.L.algebra.top ≡ Self.L.algebra.bottom → ⊥ };
}
