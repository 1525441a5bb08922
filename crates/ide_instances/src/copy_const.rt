//! Copy-constant propagation.
ghost use Rattle.std.specs.Prelude.{◌≡◌, ◌<◌, Option};
ghost use Rattle.std.proofs.Common.{lit≤};
ghost use Rattle.ide_instances.specs.Received.{copy_received, received_by};

use crate::const_fn::ConstFn;
use crate::const_value::ConstValue;
use ide_graph::{EdgeData, EdgeKind, Effect};
use ide_problem::{Problem, TargetList, add_targets, unchanged_over};
use ide_wire::Fact;
use std::alloc::AllocError;

/// Copy constants: a variable keeps a constant through assignments of numbers and copies; a sum, a
/// difference, an input or a mix makes it unknown.
pub struct CopyConst;

impl Problem for CopyConst {
    ghost use Rattle.ide_instances.specs.Received.{copy_targets};
    ghost use Rattle.ide_instances.specs.FlowLaws.{copy_flow};
    ghost use Rattle.ide_instances.specs.ConstValueLaws.{const_top_is_not_bottom};

    type L = ConstValue;

    type F = ConstFn;

    const TAG: u8 = 2;

    ghost TAG = { 2 };

    ghost targets = { copy_targets };

    #[inline(always)]
    fn flow(edge: &EdgeData, fact: Fact, out: &mut TargetList<ConstFn>) -> Result<(), AllocError> {
        add_targets(edge, received_by(edge, fact), ConstFn::Bottom, fact, out)
    }

    #[inline(always)]
    fn passes_unchanged(edge: &EdgeData, fact: Fact) -> bool {
        unchanged_over(edge, received_by(edge, fact), fact)
    }

    #[tactic(auto, using(crate::specs::UnnamedLaws::copy_keeps))]
    #[inline(always)]
    fn keeps_unnamed() -> bool {
        true
    }

    ghost lawful = { copy_flow };

    ghost tag_not_zero = { lit≤ tt };

    ghost top_is_not_bottom = { const_top_is_not_bottom };
}

/// What the fact that the edge's statement assigns, if it is one, receives from `fact`.
#[inline(always)]
fn received_by(edge: &EdgeData, fact: Fact) -> Option<ConstFn>
    ensures { result ≡ received_by copy_received edge.now.kind fact }
{
    match &edge.kind {
        EdgeKind::Normal(effect) => received(*effect, fact),
        _ => None,
    }
}

/// What the fact that a statement assigns receives from `fact`.
#[inline(always)]
pub(crate) fn received(effect: Effect, fact: Fact) -> Option<ConstFn>
    ensures { result ≡ copy_received effect fact }
{
    match effect {
        Effect::Nothing | Effect::Enter { .. } => None,
        Effect::Number { number, .. } => (fact == 0).then_some(ConstFn::Const(number)),
        Effect::Copy { source, .. } => (fact == source).then_some(ConstFn::Shift(0)),
        Effect::Sum { .. }
        | Effect::Difference { .. }
        | Effect::Unknown { .. }
        | Effect::Mix { .. } => (fact == 0).then_some(ConstFn::Bottom),
    }
}
