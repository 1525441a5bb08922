//! Reached nodes.
ghost use Rattle.std.proofs.Common.{lit≤};

use crate::uninit_fn::UninitFn;
use crate::uninit_value::UninitValue;
use ide_graph::EdgeData;
use ide_problem::{Problem, TargetList};
use ide_wire::Fact;
use std::alloc::AllocError;

/// Which nodes a valid path from a root reaches: `@zero` is bottom there, and top elsewhere. Every
/// other fact is top.
pub struct Reach;

impl Problem for Reach {
    ghost use Rattle.ide_instances.specs.Reach.{reach_targets, reach_flow};
    ghost use Rattle.ide_instances.specs.UninitLaws.{uninit_top_is_not_bottom};

    type L = UninitValue;

    type F = UninitFn;

    const TAG: u8 = 200;

    ghost TAG = { 200 };

    ghost targets = { reach_targets };

    fn flow(
        _edge: &EdgeData,
        fact: Fact,
        out: &mut TargetList<UninitFn>,
    ) -> Result<(), AllocError> {
        if fact == 0 {
            out.add(0, UninitFn::Id)?;
        }
        Ok(())
    }

    ghost lawful = { reach_flow };

    ghost tag_not_zero = { lit≤ tt };

    ghost top_is_not_bottom = { uninit_top_is_not_bottom };
}
