//! The analysis: how the origin of values flows over edges.
ghost use Rattle.std.specs.Prelude.{◌≡◌, ◌<◌, Option};
ghost use Rattle.std.proofs.Common.{lit≤};
ghost use Rattle.ide_example.specs.Inputs.{received_on, received_over};

use crate::carry::Carry;
use crate::origin::Origin;
use ide_graph::{EdgeData, EdgeKind, Effect};
use ide_problem::{Problem, TargetList, add_targets, unchanged_over};
use ide_wire::Fact;
use std::alloc::AllocError;

/// Which variables may hold what came from an input. The globals of a root may, from the start.
pub struct Inputs;

impl Problem for Inputs {
    ghost use Rattle.ide_example.specs.Inputs.{inputs_targets};
    ghost use Rattle.ide_example.specs.InputsLaws.{inputs_flow};
    ghost use Rattle.ide_example.specs.OriginLaws.{program_is_not_input};

    type L = Origin;

    type F = Carry;

    const TAG: u8 = 100;

    ghost TAG = { 100 };

    ghost targets = { inputs_targets };

    fn flow(edge: &EdgeData, fact: Fact, out: &mut TargetList<Carry>) -> Result<(), AllocError> {
        add_targets(edge, received_on(edge, fact), Carry::Nothing, fact, out)
    }

    fn passes_unchanged(edge: &EdgeData, fact: Fact) -> bool {
        unchanged_over(edge, received_on(edge, fact), fact)
    }

    #[tactic(auto, using(crate::specs::InputsLaws::inputs_keep))]
    fn keeps_unnamed() -> bool {
        true
    }

    ghost lawful = { inputs_flow };

    ghost tag_not_zero = { lit≤ tt };

    ghost top_is_not_bottom = { program_is_not_input };
}

/// What the variable that the edge's statement assigns, if it is one, receives from `fact`.
fn received_on(edge: &EdgeData, fact: Fact) -> Option<Carry>
    ensures { result ≡ received_on edge.now.kind fact }
{
    match &edge.kind {
        EdgeKind::Normal(effect) => received(*effect, fact),
        _ => None,
    }
}

/// What the variable that a statement assigns receives from `fact`: an input is told by `@zero`,
/// which is the bottom wherever a path reaches.
fn received(effect: Effect, fact: Fact) -> Option<Carry>
    ensures { result ≡ received_over effect fact }
{
    let is_read = match effect {
        Effect::Unknown { .. } => fact == 0,
        Effect::Copy { source, .. }
        | Effect::Sum { source, .. }
        | Effect::Difference { source, .. } => fact == source,
        Effect::Mix { first, second, .. } => fact == first || fact == second,
        Effect::Nothing | Effect::Number { .. } | Effect::Enter { .. } => false,
    };
    is_read.then_some(Carry::Origin)
}
