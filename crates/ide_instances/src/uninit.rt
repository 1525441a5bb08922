//! Uninitialised variables.
ghost use Rattle.std.specs.Prelude.{◌≡◌, ◌<◌, Option};
ghost use Rattle.std.proofs.Common.{lit≤};
ghost use Rattle.ide_instances.specs.Received.{uninit_received, received_by};

use crate::uninit_fn::UninitFn;
use crate::uninit_value::UninitValue;
use ide_graph::{EdgeData, EdgeKind, Effect};
use ide_problem::{Problem, TargetList, add_targets, unchanged_over};
use ide_wire::Fact;
use std::alloc::AllocError;

/// Variables that may be read before they are written: bottom says that a variable may hold what it
/// held at its procedure's start, or what such a variable gave it; top that it surely does not, or
/// that nothing reaches.
pub struct Uninit;

impl Problem for Uninit {
    ghost use Rattle.ide_instances.specs.Received.{uninit_targets};
    ghost use Rattle.ide_instances.specs.FlowLaws.{uninit_flow};
    ghost use Rattle.ide_instances.specs.UninitLaws.{uninit_top_is_not_bottom};

    type L = UninitValue;

    type F = UninitFn;

    const TAG: u8 = 1;

    ghost TAG = { 1 };

    ghost targets = { uninit_targets };

    #[inline(always)]
    fn flow(edge: &EdgeData, fact: Fact, out: &mut TargetList<UninitFn>) -> Result<(), AllocError> {
        add_targets(edge, received_by(edge, fact), UninitFn::Id, fact, out)
    }

    #[inline(always)]
    fn passes_unchanged(edge: &EdgeData, fact: Fact) -> bool {
        unchanged_over(edge, received_by(edge, fact), fact)
    }

    #[tactic(auto, using(crate::specs::UnnamedLaws::uninit_keeps))]
    #[inline(always)]
    fn keeps_unnamed() -> bool {
        true
    }

    ghost lawful = { uninit_flow };

    ghost tag_not_zero = { lit≤ tt };

    ghost top_is_not_bottom = { uninit_top_is_not_bottom };
}

/// What the fact that the edge's statement assigns, if it is one, receives from `fact`.
#[inline(always)]
fn received_by(edge: &EdgeData, fact: Fact) -> Option<UninitFn>
    ensures { result ≡ received_by uninit_received edge.now.kind fact }
{
    match &edge.kind {
        EdgeKind::Normal(effect) => received(*effect, fact),
        _ => None,
    }
}

/// What the fact that a statement assigns receives from `fact`.
fn received(effect: Effect, fact: Fact) -> Option<UninitFn>
    ensures { result ≡ uninit_received effect fact }
{
    let is_read = match effect {
        Effect::Copy { source, .. }
        | Effect::Sum { source, .. }
        | Effect::Difference { source, .. } => fact == source,
        Effect::Mix { first, second, .. } => fact == first || fact == second,
        Effect::Nothing | Effect::Number { .. } | Effect::Unknown { .. } | Effect::Enter { .. } => {
            false
        }
    };
    is_read.then_some(UninitFn::Id)
}
