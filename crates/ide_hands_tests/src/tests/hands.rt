//! A hand's loop over a service that one hand has to itself, and what its gate stops.
ghost use Rattle.std.specs.Prelude.{◌≡◌};
ghost use Rattle.std.specs.Arc.{arc_value};

use super::gates::Counting;
use super::services::{Served, given};
use ide_desks::Accord;
use ide_instances::CopyConst;
use ide_memory_stores::{OpenedStore, Store, begun, opened, with_board};
use ide_service::{Ended, Gate, Hands, Open, Point, Service, Span, hand_loop};
use ide_slot_store::SlotEngine;
use ide_steps::Claimed;
use ide_store::TableHalf;
use ide_tasks::Work;
use ide_wire::Refused;
use ide_worked::TWO_CALLS;
use std::marker::Brand;
use std::process::Abort;
use std::sync::Wait;
use std::time::Clock;

/// Which hands work: one, or several as one.
#[derive(Clone, Copy)]
enum Working {
    Alone(usize),
    Apart(Span),
}

/// Lets the hands work on a service over the store, and answers how that ended, and the store.
fn work<J: Accord, R: Wait + Clock + AllocGlobal, G: Gate>(
    rt: &R,
    opened: OpenedStore,
    hands: Working,
    gate: &G,
) -> (Result<Ended, Refused>, Store)
    requires board { arc_value opened.board ≡ J.board }
    requires switches { opened.switch.board ≡ J.switches }
    requires untold { J.told → ⊥ }
{
    let service: Served<J> = Service::new(rt.alloc(), opened);
    let ended = match hands {
        Working::Alone(hand) => service.work(rt, hand, gate),
        Working::Apart(span) => service.work_apart(rt, span, gate),
    };
    (ended, service.into_engine())
}

/// The same over a store of the two calls.
fn work_on_calls<R: Wait + Clock + AllocGlobal + Abort, G: Gate>(
    rt: &R,
    hands: Working,
    gate: &G,
) -> (Result<Ended, Refused>, Store) {
    let opened = given(rt, opened(rt.alloc(), TWO_CALLS));
    work::<Brand, R, G>(rt, opened, hands, gate)
}

// A gate that stops nobody lets the loop do all tasks.
#[test]
fn a_loop_ends_where_nothing_is_pending(rt: HostRuntime) {
    let (ended, engine) = work_on_calls(&rt, Working::Alone(0), &Open { ahead: 0 });
    assert!(rt; ended == Ok(Ended::Quiet));
    assert!(rt; engine.table.core().is_quiet() && engine.table.core().key_count() > 11);
}

/// Asserts that a loop whose gate lets so many such points pass is stopped there, with so many keys, and that
/// its claim is given back.
fn expect_stopped<R: Abort + Wait + Clock + AllocGlobal>(
    rt: &R,
    at: Point,
    points: u64,
    keys: usize,
) {
    let (ended, engine) = work_on_calls(rt, Working::Alone(5), &Counting::new(at, points));
    assert!(rt; ended == Ok(Ended::Stopped));
    assert!(rt; engine.table.core().claim_of(5).is_none() && !engine.table.core().is_quiet());
    assert!(rt; engine.table.core().key_count() == keys);
}

// A root makes one key, and each part of the first task one more.
#[test]
fn a_gate_stops_a_loop_between_two_parts(rt: HostRuntime) {
    expect_stopped(&rt, Point::Claimed, 0, 1);
    expect_stopped(&rt, Point::Parted, 0, 2);
    expect_stopped(&rt, Point::Parted, 1, 3);
}

/// Asserts that a hand that may do so many tasks unasked is stopped once it has drained so many times as many, and has no
/// claim.
fn expect_stopped_between_holds<R: Abort + Wait + Clock + AllocGlobal>(
    rt: &R,
    holds: u64,
    ahead: usize,
    keys: usize,
) {
    let gate = Counting::with_ahead(Point::Drained, holds.saturating_sub(1), ahead);
    let (ended, engine) = work_on_calls(rt, Working::Alone(5), &gate);
    assert!(rt; ended == Ok(Ended::Stopped));
    assert!(rt; engine.table.core().claim_of(5).is_none() && !engine.table.core().is_quiet());
    assert!(rt; engine.table.core().key_count() == keys);
}

// A hand that drains is asked behind each hold of the lock.
#[test]
fn a_gate_stops_a_hand_between_two_holds(rt: HostRuntime) {
    expect_stopped_between_holds(&rt, 1, 1, 7);
    expect_stopped_between_holds(&rt, 2, 1, 8);
    expect_stopped_between_holds(&rt, 1, 2, 8);
}

// There is no hand of that number, also where it might drain.
#[test]
fn a_hand_number_has_a_limit(rt: HostRuntime) {
    for ahead in 0..2 {
        let (ended, _engine) = work_on_calls(&rt, Working::Alone(64), &Open { ahead });
        assert!(rt; ended == Err(Refused::Limit));
    }
}

/// Claims a key for a hand of the store.
fn claim(store: &mut Store, hand: usize) -> Result<bool, Refused> {
    match store.table.claim(hand)? {
        Claimed::Task(_) => Ok(true),
        _ => Ok(false),
    }
}

// Where another hand has a claim, a hand does not drain: it claims, and its gate is asked of the task behind those ahead.
#[test]
fn a_hand_claims_beside_a_claim(rt: HostRuntime) {
    let mut store = given(&rt, begun(rt.alloc(), TWO_CALLS));
    assert!(rt; store.table.drain_some(1) == Ok(1));
    assert!(rt; claim(&mut store, 3) == Ok(true));
    let opened = given(&rt, with_board(rt.alloc(), store));
    let gate = Counting::with_ahead(Point::Claimed, 0, 1);
    let (ended, engine) = work::<Brand, HostRuntime, Counting>(
        &rt,
        opened,
        Working::Alone(5),
        &gate,
    );
    assert!(rt; ended == Ok(Ended::Stopped));
    assert!(rt;
        engine.table.core().claim_of(3).is_some() && engine.table.core().claim_of(5).is_none()
    );
}

/// Asserts that three hands that work as one are stopped at such a point, where the gate lets so many of them pass, with
/// so many keys, and that each claim is given back.
fn expect_apart_stopped<R: Abort + Wait + Clock + AllocGlobal>(
    rt: &R,
    at: Point,
    points: u64,
    keys: usize,
) {
    let hands = Working::Apart(Span { first: 2, count: 3 });
    let (ended, engine) = work_on_calls(rt, hands, &Counting::new(at, points));
    assert!(rt; ended == Ok(Ended::Stopped));
    for hand in 2..5 {
        assert!(rt; engine.table.core().claim_of(hand).is_none());
    }
    assert!(rt; !engine.table.core().is_quiet() && engine.table.core().key_count() == keys);
}

// In the first hold the root's key is claimed, whose task has six parts; in the second they are given, and three of the
// keys that they made are claimed.
#[test]
fn a_gate_stops_hands_that_work_as_one(rt: HostRuntime) {
    expect_apart_stopped(&rt, Point::Claimed, 0, 1);
    expect_apart_stopped(&rt, Point::Parted, 0, 7);
    expect_apart_stopped(&rt, Point::Claimed, 1, 7);
}

/// A half whose batch is full after each of the first parts that it does, and before the first ends of claims,
/// so many times each.
#[derive(Drop)]
struct Filling {
    table: TableHalf<CopyConst>,
    parts: u32,
    ends: u32,
}

impl Hands<CopyConst> for Filling {
    ghost rests = { λ _. Unit {0} };

    ghost waits = { λ _. Unit {0} };

    ghost is_free = { λ _ _. Unit {0} };

    ghost takes = { λ _ _ _ _. Unit {0} };

    ghost is_sealed = { λ _. Unit {0} };

    ghost refuses = { λ _ _ _. Unit {0} };

    fn claim(&mut self, hand: usize) -> Result<Claimed<CopyConst>, Refused> {
        self.table.claim(hand)
    }

    fn parts(
        &mut self,
        hand: usize,
        work: &mut Work<CopyConst>,
        most: usize,
    ) -> Result<usize, Refused> {
        if self.parts == 0 {
            return match Hands::parts(&mut self.table, hand, work, most) {
                Ok(count) => Ok(count),
                Err(refused) => Err(refused),
            };
        }
        self.parts -= 1;
        match Hands::parts(&mut self.table, hand, work, most.min(1)) {
            Ok(_) => Err(Refused::Limit),
            Err(refused) => Err(refused),
        }
    }

    fn finish(&mut self, hand: usize, work: &Work<CopyConst>) -> Result<(), Refused> {
        if self.ends == 0 {
            return self.table.finish(hand, work);
        }
        self.ends -= 1;
        Err(Refused::Limit)
    }

    fn release(&mut self, hand: usize) {
        Hands::release(&mut self.table, hand);
    }

    fn seal(&mut self) -> Result<(), Refused> {
        Hands::seal(&mut self.table)
    }

    fn pause(&mut self) {}
}

// A batch may be full several times in one task: it is sealed each time, and the loop goes on.
#[test]
fn a_loop_seals_as_often_as_a_batch_is_full(rt: HostRuntime) {
    let SlotEngine { table, .. } = given(&rt, begun(rt.alloc(), TWO_CALLS));
    let mut filling = Filling {
        table,
        parts: 3,
        ends: 2,
    };
    let open = Open { ahead: 0 };
    let ended = hand_loop(&rt, rt.alloc(), &mut filling, 0, &open);
    assert!(rt; ended == Ok(Ended::Quiet));
    assert!(rt; filling.parts == 0);
    assert!(rt; filling.ends == 0);
    assert!(rt; filling.table.core().is_quiet());
}
