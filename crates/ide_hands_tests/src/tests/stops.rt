//! What a gate stops: a committer between two records, and a hand behind its claim or a part; and what of it is kept.
ghost use Rattle.std.specs.Prelude.{◌≡◌};
ghost use Rattle.std.specs.Arc.{arc_value};

use super::gates::Counting;
use super::services::{Served, given};
use ide_desks::Accord;
use ide_memory_stores::{Client, OpenedStore, Store, open, opened, opened_for_client};
use ide_service::{Ended, Open, Point, Service};
use ide_worked::NUMBER;
use std::marker::Brand;
use std::process::Abort;
use std::sync::Wait;
use std::time::Clock;

/// Asserts that a committer that its gate stops before a record has stored those before it.
fn expect_one_stored<J: Accord, R: Wait + Clock + Abort + AllocGlobal>(
    rt: &R,
    opened: OpenedStore,
    mut client: Client,
)
    requires board { arc_value opened.board ≡ J.board }
    requires switches { opened.switch.board ≡ J.switches }
    requires client { client.board ≡ J.board }
    requires untold { J.told → ⊥ }
{
    let service: Served<J> = Service::new(rt.alloc(), opened);
    let none = Counting::new(Point::BeforeSync, 0);
    assert!(rt; service.commit(rt, &none) == Ok(Ended::Stopped));
    assert!(rt; service.acked(&mut client) == 0);
    let one = Counting::new(Point::Stored, 0);
    assert!(rt; service.commit(rt, &one) == Ok(Ended::Stopped));
    assert!(rt; service.acked(&mut client) == 1);
}

#[test]
fn a_gate_stops_a_committer_between_two_records(rt: HostRuntime) {
    let (opened, client) = given(&rt, opened_for_client(rt.alloc(), NUMBER));
    expect_one_stored::<Brand, HostRuntime>(&rt, opened, client);
}

/// Asserts that a hand that is stopped behind its claim, of which nothing was done, leaves nothing to seal, and that
/// another does all.
fn expect_no_part<J: Accord, R: Wait + Clock + Abort + AllocGlobal>(rt: &R, opened: OpenedStore)
    requires board { arc_value opened.board ≡ J.board }
    requires switches { opened.switch.board ≡ J.switches }
    requires untold { J.told → ⊥ }
{
    let service: Served<J> = Service::new(rt.alloc(), opened);
    let claimed = Counting::new(Point::Claimed, 0);
    assert!(rt; service.work(rt, 0, &claimed) == Ok(Ended::Stopped));
    assert!(rt; given(rt, service.seal(rt)).is_none());
    assert!(rt; service.work(rt, 1, &Open { ahead: 0 }) == Ok(Ended::Quiet));
}

#[test]
fn a_hand_that_is_stopped_gives_its_claim_back(rt: HostRuntime) {
    let opened = given(&rt, opened(rt.alloc(), NUMBER));
    expect_no_part::<Brand, HostRuntime>(&rt, opened);
}

/// Who seals what a hand did: the test, or the committer by itself.
#[derive(Clone, Copy)]
pub(crate) enum Sealing {
    Asked,
    Left,
}

/// The store that is opened again where the first hand did so many parts of the root's task, and they were stored, as
/// record 2.
pub(crate) fn reopened<J: Accord, R: Wait + Clock + Abort + AllocGlobal>(
    rt: &R,
    opened: OpenedStore,
    parts: u64,
    sealing: Sealing,
) -> Store
    requires board { arc_value opened.board ≡ J.board }
    requires switches { opened.switch.board ≡ J.switches }
    requires untold { J.told → ⊥ }
{
    let service: Served<J> = Service::new(rt.alloc(), opened);
    let parted = Counting::new(Point::Parted, parts.saturating_sub(1));
    assert!(rt; service.work(rt, 0, &parted) == Ok(Ended::Stopped));
    if let Sealing::Asked = sealing {
        let sealed = given(rt, service.seal(rt));
        assert!(rt; sealed.is_some_and(|ticket| ticket.number == 2));
    }
    service.raise_stop();
    assert!(rt; service.commit(rt, &Open { ahead: 0 }) == Ok(Ended::Quiet));
    given(rt, open(rt.alloc(), service.into_disks()))
}

// What a hand did before it was stopped behind its first part is found again: two keys, both pending.
#[test]
fn what_a_stopped_hand_did_is_kept(rt: HostRuntime) {
    let opened = given(&rt, opened(rt.alloc(), NUMBER));
    let again = reopened::<Brand, HostRuntime>(&rt, opened, 1, Sealing::Asked);
    assert!(rt; again.table.core().key_count() == 2 && again.table.core().pending_count() == 2);
}
