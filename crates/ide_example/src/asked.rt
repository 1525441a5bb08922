//! One question to the solver.
ghost use Rattle.std.specs.Prelude.{◌≡◌, IfOk};
ghost use Rattle.ide_example.specs.Asked.{IsAnswer};

use crate::inputs::Inputs;
use crate::origin::Origin;
use ide_solver::values_of;
use ide_wire::Refused;
use std::alloc::Global;

/// A variable at a position of a procedure: positions count from 0, the procedure's start.
#[derive(Clone, Copy)]
pub struct Place<'a> {
    pub procedure: &'a [u8],
    pub position: u32,
    pub variable: &'a [u8],
}

/// Whether the variable may hold what came from an input when control is at its place, over all
/// paths from the start of the procedure `root`.
///
/// Refusals: those of [`values_of`]; then `NoProcedure` and `OutOfRange` where the program has no
/// such place.
pub fn may_be_input(
    alloc: Global,
    text: &[u8],
    root: &[u8],
    place: Place<'_>,
) -> Result<bool, Refused>
    ensures { IfOk result (λ answer. IsAnswer text.now root.now place.entry answer) }
{
    let values = values_of::<Inputs>(alloc, text, &[root])?;
    let graph = &values.loaded().graph;
    let (node, fact) = graph.find(place.procedure, place.position, place.variable)?;
    let origin = values.at(node, fact)?;
    Ok(origin == Origin::Input)
}
