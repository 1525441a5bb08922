//! Linear constants of factor 1.
ghost use Rattle.std.specs.Prelude.{◌≡◌, ◌<◌, Option};
ghost use Rattle.std.proofs.Common.{lit≤};
ghost use Rattle.ide_instances.specs.Modular.{negated_of};
ghost use Rattle.ide_instances.specs.Received.{shift_received, received_by};

use crate::const_fn::ConstFn;
use crate::const_value::ConstValue;
use crate::copy_const;
use ide_graph::{EdgeData, EdgeKind, Effect};
use ide_problem::{Problem, TargetList, add_targets, unchanged_over};
use ide_wire::Fact;
use std::alloc::AllocError;

/// Constants through copies, sums and differences with numbers, modulo 2^64: the linear constants of
/// Sagiv, Reps and Horwitz (Theoretical Computer Science 167, 1996) whose factor is 1. An input or a
/// mix makes a variable unknown.
pub struct ShiftConst;

impl Problem for ShiftConst {
    ghost use Rattle.ide_instances.specs.Received.{shift_targets};
    ghost use Rattle.ide_instances.specs.FlowLaws.{shift_flow};
    ghost use Rattle.ide_instances.specs.ConstValueLaws.{const_top_is_not_bottom};

    type L = ConstValue;

    type F = ConstFn;

    const TAG: u8 = 3;

    ghost TAG = { 3 };

    ghost targets = { shift_targets };

    #[inline(always)]
    fn flow(edge: &EdgeData, fact: Fact, out: &mut TargetList<ConstFn>) -> Result<(), AllocError> {
        add_targets(edge, received_by(edge, fact), ConstFn::Bottom, fact, out)
    }

    #[inline(always)]
    fn passes_unchanged(edge: &EdgeData, fact: Fact) -> bool {
        unchanged_over(edge, received_by(edge, fact), fact)
    }

    #[tactic(auto, using(crate::specs::UnnamedLaws::shift_keeps))]
    #[inline(always)]
    fn keeps_unnamed() -> bool {
        true
    }

    ghost lawful = { shift_flow };

    ghost tag_not_zero = { lit≤ tt };

    ghost top_is_not_bottom = { const_top_is_not_bottom };
}

/// What the fact that the edge's statement assigns, if it is one, receives from `fact`.
#[inline(always)]
fn received_by(edge: &EdgeData, fact: Fact) -> Option<ConstFn>
    ensures { result ≡ received_by shift_received edge.now.kind fact }
{
    match &edge.kind {
        EdgeKind::Normal(effect) => received(*effect, fact),
        _ => None,
    }
}

/// What the fact that a statement assigns receives from `fact`: but for sums and differences, what
/// it receives in copy-constant propagation.
fn received(effect: Effect, fact: Fact) -> Option<ConstFn>
    ensures { result ≡ shift_received effect fact }
{
    match effect {
        Effect::Sum { source, number, .. } => (fact == source).then_some(ConstFn::Shift(number)),
        Effect::Difference { source, number, .. } => {
            (fact == source).then_some(ConstFn::Shift(negated(number)))
        }
        _ => copy_const::received(effect, fact),
    }
}

/// What adds to zero with the number, modulo 2^64.
fn negated(number: u64) -> u64
    ensures { result ≡ negated_of number }
{
    number.wrapping_neg()
}
