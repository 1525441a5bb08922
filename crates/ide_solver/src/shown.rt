//! Analyses as the contracts of the solver see them.
use ide_problem::Problem;

/// An analysis whose values are shown: each one is. It has no calls, and contracts alone speak of it.
pub trait Shown: Problem {
    ghost use Rattle.ide_solver.specs.Shown.{ShownAnalysis};

    ghost analysis: { ShownAnalysis Self.F Self.L };
}

impl<P: Problem> Shown for P {
    ghost analysis = { record { lattice = P.L.algebra; functions = P.F.edge; targets = P.targets; shown = P.L.shown } };
}
