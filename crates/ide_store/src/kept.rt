//! Analyses as the contracts of a store see them.
use ide_problem::Problem;

/// An analysis whose runs a store keeps: each one is. It has no calls, and contracts alone speak of it.
pub trait Kept: Problem {
    ghost use Rattle.ide_store.specs.Table.{Analysis};

    ghost analysis: { Analysis Self.F Self.L };
}

impl<P: Problem> Kept for P {
    ghost analysis = { record { lattice = P.L.algebra; functions = P.F.edge; targets = P.targets; same = P.F.eq; proper = P.F.proper; form = P.F.form } };
}
