//! Several hands and one that writes, on threads of their own.
ghost use Rattle.std.specs.Prelude.{◌≡◌};
ghost use Rattle.std.specs.Arc.{arc_value};
ghost use Rattle.ide_desks.specs.Opened.{IsToldOf};

use super::gates::{Crossing, Holding};
use super::services::{Served, given, value_at};
use super::stops::{Sealing, reopened};
use ide_desks::Accord;
use ide_instances::{ConstValue, CopyConst};
use ide_memory_stores::{OpenedStore, open, opened, with_board};
use ide_service::{Crew, Gate, Open, Service, work_together};
use ide_store::Kept;
use ide_wire::Refused;
use ide_worked::{NUMBER, TWO_CALLS};
use std::marker::Brand;
use std::process::Abort;
use std::sync::Wait;
use std::thread::Threads;
use std::time::Clock;

/// Lets so many workers work together on a service, each with so many keys at once, and one that writes.
fn work_on<J: Accord + Send + Sync, R: Threads + Wait + Clock + Sync + AllocGlobal, G: Gate + Sync>(
    rt: &R,
    service: &Served<J>,
    workers: usize,
    keys: usize,
    gate: &G,
) -> Result<(), Refused> {
    let crew = Crew {
        rt,
        service,
        gate,
        keys,
    };
    work_together(rt, rt.alloc(), &crew, workers)
}

/// Asserts that the image of a service has the values of the two calls.
fn expect_values<J: Accord>(rt: &(impl Wait + Abort + AllocGlobal), service: &Served<J>) {
    assert!(rt; value_at(rt, rt.alloc(), service, 10, 4) == Ok(ConstValue::Const(5)));
    assert!(rt; value_at(rt, rt.alloc(), service, 10, 5) == Ok(ConstValue::Const(6)));
}

/// Asserts that the store that a service leaves has all stored, and that all is found again.
fn expect_all_stored<J: Accord>(rt: &(impl Abort + AllocGlobal), service: Served<J>) {
    let engine = service.into_engine();
    assert!(rt; engine.acked() == engine.table.sealed());
    let keys = engine.table.core().key_count();
    let again = given(rt, open(rt.alloc(), engine.into_disks()));
    assert!(rt; again.table.core().is_quiet() && again.table.core().key_count() == keys);
}

/// Asserts that so many hands end with the values of the two calls, and that all is stored and found again. What a
/// store on a run has told of it is told of the service.
fn expect_solved_by<
    J: Accord + Send + Sync,
    R: Threads + Wait + Clock + Sync + Abort + AllocGlobal,
>(rt: &R, opened: OpenedStore, workers: usize, keys: usize, ahead: usize)
    requires board { arc_value opened.board ≡ J.board }
    requires switches { opened.switch.board ≡ J.switches }
    requires told { (told : J.told) → IsToldOf ⟦<CopyConst as Kept>⟧.analysis 2 opened.engine (J.version told) (J.first told) }
{
    let service: Served<J> = Service::new(rt.alloc(), opened);
    assert!(rt; work_on(rt, &service, workers, keys, &Open { ahead }) == Ok(()));
    expect_values(rt, &service);
    expect_all_stored(rt, service);
}

/// The same on a store of the two calls.
fn expect_solved<R: Threads + Wait + Clock + Sync + Abort + AllocGlobal>(
    rt: &R,
    workers: usize,
    keys: usize,
    ahead: usize,
) {
    let opened = given(rt, opened(rt.alloc(), TWO_CALLS));
    expect_solved_by::<Brand, R>(rt, opened, workers, keys, ahead);
}

// One hand, two and four solve the two calls, by single calls and with tasks ahead; and two workers of three hands each.
#[test]
fn workers_and_a_writer_solve_and_store(rt: HostRuntime) {
    expect_solved(&rt, 1, 1, 0);
    expect_solved(&rt, 2, 1, 0);
    expect_solved(&rt, 4, 1, 3);
    expect_solved(&rt, 2, 3, 0);
}

/// Asserts that one hand does a part while another is held behind its first claim.
fn expect_two_at_once<
    J: Accord + Send + Sync,
    R: Threads + Wait + Clock + Sync + Abort + AllocGlobal,
>(rt: &R, service: &Served<J>) {
    let gate = Holding::new();
    assert!(rt; work_on(rt, service, 2, 1, &gate) == Ok(()));
    assert!(rt; gate.has_seen());
}

/// Asserts that a hand does a part while the writer is at its first disk call, which the hand waited for.
fn expect_crossing<J: Accord + Send + Sync, R: Threads + Wait + Clock + Sync + Abort + AllocGlobal>(
    rt: &R,
    service: Served<J>,
) {
    let gate = Crossing::new();
    assert!(rt; work_on(rt, &service, 1, 1, &gate) == Ok(()));
    assert!(rt; gate.have_crossed());
    expect_values(rt, &service);
    expect_all_stored(rt, service);
}

/// Asserts that no workers, and more than 64, are refused, and so are keys.
fn expect_limits<J: Accord + Send + Sync, R: Threads + Wait + Clock + Sync + Abort + AllocGlobal>(
    rt: &R,
    service: &Served<J>,
) {
    let open = Open { ahead: 0 };
    assert!(rt; work_on(rt, service, 0, 1, &open) == Err(Refused::Limit));
    assert!(rt; work_on(rt, service, 65, 1, &open) == Err(Refused::Limit));
    assert!(rt; work_on(rt, service, 1, 0, &open) == Err(Refused::Limit));
    assert!(rt; work_on(rt, service, 1, 65, &open) == Err(Refused::Limit));
}

/// What is asserted of workers on a service.
#[derive(Clone, Copy)]
enum Asserted {
    TwoAtOnce,
    Crossing,
    Limits,
}

/// Asserts it of a service over the store.
fn expect<J: Accord + Send + Sync, R: Threads + Wait + Clock + Sync + Abort + AllocGlobal>(
    rt: &R,
    opened: OpenedStore,
    asserted: Asserted,
)
    requires board { arc_value opened.board ≡ J.board }
    requires switches { opened.switch.board ≡ J.switches }
    requires untold { J.told → ⊥ }
{
    let service: Served<J> = Service::new(rt.alloc(), opened);
    match asserted {
        Asserted::TwoAtOnce => expect_two_at_once(rt, &service),
        Asserted::Crossing => expect_crossing(rt, service),
        Asserted::Limits => expect_limits(rt, &service),
    }
}

// No lock is held between two calls of a hand.
#[test]
fn two_hands_work_at_once(rt: HostRuntime) {
    let first = given(&rt, opened(rt.alloc(), NUMBER));
    let again = reopened::<Brand, HostRuntime>(&rt, first, 2, Sealing::Left);
    assert!(rt; again.table.core().pending_count() == 3);
    let second = given(&rt, with_board(rt.alloc(), again));
    expect::<Brand, HostRuntime>(&rt, second, Asserted::TwoAtOnce);
}

// The writer holds its own lock while it waits for a disk, and no hand waits for that.
#[test]
fn a_hand_works_while_the_writer_waits_for_a_disk(rt: HostRuntime) {
    let opened = given(&rt, opened(rt.alloc(), TWO_CALLS));
    expect::<Brand, HostRuntime>(&rt, opened, Asserted::Crossing);
}

// There are from 1 to 64 workers, and as many hands.
#[test]
fn workers_have_a_limit(rt: HostRuntime) {
    let opened = given(&rt, opened(rt.alloc(), NUMBER));
    expect::<Brand, HostRuntime>(&rt, opened, Asserted::Limits);
}
