//! A committer that makes checkpoints.
ghost use Rattle.std.specs.Prelude.{◌≡◌};
ghost use Rattle.std.specs.Arc.{arc_value};

use crate::services::{Served, given};
use ide_desks::Accord;
use ide_memory_stores::{OpenedStore, opened};
use ide_service::{Ended, Open, Service};
use ide_worked::NUMBER;
use std::marker::Brand;
use std::process::Abort;
use std::sync::Wait;
use std::test::Fail;
use std::time::Clock;

/// Asserts that a committer which was told that the hands have ended comes to its end three times, with a
/// checkpoint of the two records in the second round.
fn expect_checkpoint<J: Accord, R: Wait + Clock + Abort + AllocGlobal>(rt: &R, opened: OpenedStore)
    requires board { arc_value opened.board ≡ J.board }
    requires switches { opened.switch.board ≡ J.switches }
    requires untold { J.told → ⊥ }
{
    let service: Served<J> = Service::with_checkpoints(rt.alloc(), opened, 2);
    service.raise_stop();
    for _ in 0..3 {
        assert!(rt; service.commit(rt, &Open { ahead: 0 }) == Ok(Ended::Quiet));
    }
    let engine = service.into_engine();
    assert!(rt; engine.generation() == 1 && engine.writer.base() == 2 && engine.acked() == 2);
}

// A committer makes a checkpoint where enough records are stored past the last one.
#[test]
fn a_committer_makes_checkpoints(rt: HostRuntime) -> Result<(), Fail> {
    let opened = given(&rt, opened(rt.alloc(), NUMBER));
    expect_checkpoint::<Brand, HostRuntime>(&rt, opened);
    Ok(())
}
