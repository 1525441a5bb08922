//! Claims: who gets one, and what work of before a load, a release or a finish still does.
use super::cores::{begin, given, load};
use super::hands::{Given, Hand, release};
use ide_instances::CopyConst;
use ide_problem::Problem;
use ide_steps::{Core, Parted};
use ide_wire::Refused;
use ide_worked::{EMPTY, NUMBER};
use std::process::Abort;

/// Asserts what a claim of the hand of that number gives.
fn expect_claim<P: Problem>(
    rt: &(impl Abort + AllocGlobal),
    core: &mut Core<P>,
    number: usize,
    want: Result<Given, Refused>,
) {
    let found = Hand::new(number).claim(rt, core);
    assert!(rt; found == want, "hand {number}");
}

/// The refusal of a freeze, if it was refused.
fn refused_freeze<P: Problem>(core: &Core<P>) -> Option<Refused> {
    match core.freeze() {
        Ok(_) => None,
        Err(refused) => Some(refused),
    }
}

/// Asserts whether a freeze is refused, and for what.
fn expect_freeze<P: Problem>(rt: &impl Abort, core: &Core<P>, want: Option<Refused>) {
    assert!(rt; refused_freeze(core) == want);
}

/// Asserts what a release of the claim of hand 0 gives.
fn expect_release<P: Problem>(rt: &impl Abort, core: &mut Core<P>, want: Result<(), Refused>) {
    assert!(rt; release(core, 0) == want);
}

/// Claims a key for the hand, which gets a task.
pub(crate) fn claim_task<P: Problem>(
    rt: &(impl Abort + AllocGlobal),
    core: &mut Core<P>,
    hand: &mut Hand<P>,
) {
    let found = given(rt, hand.claim(rt, core));
    assert!(rt; found == Given::Task, "no task");
}

/// Asserts what claims of several hands give, and that nothing is claimed without a root.
fn expect_claims<P: Problem>(rt: &(impl Abort + AllocGlobal), core: &mut Core<P>) {
    expect_claim(rt, core, 0, Err(Refused::NoProgram));
    begin(rt, core, NUMBER);
    expect_claim(rt, core, 0, Ok(Given::Task));
    expect_claim(rt, core, 1, Ok(Given::Idle));
    expect_claim(rt, core, 0, Err(Refused::Busy));
    expect_claim(rt, core, 64, Err(Refused::Limit));
    expect_freeze(rt, core, Some(Refused::Unfinished));
    expect_release(rt, core, Ok(()));
    expect_release(rt, core, Err(Refused::Stale));
    load(rt, core, EMPTY);
    expect_claim(rt, core, 0, Ok(Given::Quiet));
    expect_freeze(rt, core, None);
}

#[test]
fn claims_of_several_hands(rt: HostRuntime) {
    let mut core: Core<CopyConst> = Core::new(rt.alloc());
    expect_claims(&rt, &mut core);
}

/// A core, and the hand of number 0 that works with it.
#[derive(Drop)]
struct Desk<P: Problem> {
    core: Core<P>,
    hand: Hand<P>,
}

/// Asserts what the next part of the hand's work does.
fn expect_part<P: Problem>(rt: &impl Abort, desk: &mut Desk<P>, want: Result<Parted, Refused>) {
    let found = desk.hand.part(&mut desk.core);
    assert!(rt; found == want, "{found:?}");
}

/// Asserts that the hand's work is not its claim as it stands.
fn expect_stale<P: Problem>(rt: &impl Abort, desk: &mut Desk<P>) {
    expect_part(rt, desk, Err(Refused::Stale));
}

/// Asserts what an end of the hand's claim gives.
fn expect_finish<P: Problem>(rt: &impl Abort, desk: &mut Desk<P>, want: Result<(), Refused>) {
    assert!(rt; desk.hand.finish(&mut desk.core) == want);
}

/// Loads the program with a number, and claims the first key for the hand.
fn begin_work<P: Problem>(rt: &(impl Abort + AllocGlobal), desk: &mut Desk<P>) {
    begin(rt, &mut desk.core, NUMBER);
    claim_task(rt, &mut desk.core, &mut desk.hand);
}

/// Releases the claim of hand 0, and claims its key again.
fn claim_again<P: Problem>(rt: &(impl Abort + AllocGlobal), core: &mut Core<P>) {
    expect_release(rt, core, Ok(()));
    expect_claim(rt, core, 0, Ok(Given::Task));
}

/// Asserts that work of before a load is stale.
fn expect_stale_after_load<P: Problem>(rt: &(impl Abort + AllocGlobal), desk: &mut Desk<P>) {
    begin_work(rt, desk);
    load(rt, &mut desk.core, EMPTY);
    expect_stale(rt, desk);
    assert!(rt; desk.core.key_count() == 0);
    expect_claim(rt, &mut desk.core, 0, Ok(Given::Quiet));
}

/// Asserts that work of before a load goes on where the same key is claimed again.
fn expect_work_that_goes_on<P: Problem>(rt: &(impl Abort + AllocGlobal), desk: &mut Desk<P>) {
    begin_work(rt, desk);
    begin(rt, &mut desk.core, NUMBER);
    expect_claim(rt, &mut desk.core, 0, Ok(Given::Task));
    expect_part(rt, desk, Ok(Parted::Lowered));
}

/// Asserts that work of before a release is stale, of which a part was done.
fn expect_stale_after_release<P: Problem>(rt: &(impl Abort + AllocGlobal), desk: &mut Desk<P>) {
    begin_work(rt, desk);
    expect_part(rt, desk, Ok(Parted::Lowered));
    claim_again(rt, &mut desk.core);
    expect_stale(rt, desk);
}

/// Asserts that parts of before a release are stale.
fn expect_stale_parts<P: Problem>(rt: &(impl Abort + AllocGlobal), desk: &mut Desk<P>) {
    begin_work(rt, desk);
    assert!(rt; desk.hand.parts(&mut desk.core, 1) == Ok(1));
    claim_again(rt, &mut desk.core);
    assert!(rt; desk.hand.parts(&mut desk.core, 1) == Err(Refused::Stale));
}

/// Asserts that all claims are released by one call.
fn expect_all_released<P: Problem>(rt: &(impl Abort + AllocGlobal), desk: &mut Desk<P>) {
    begin_work(rt, desk);
    assert!(rt; desk.core.release_all() == 1);
    expect_claim(rt, &mut desk.core, 1, Ok(Given::Task));
    expect_stale(rt, desk);
    expect_release(rt, &mut desk.core, Err(Refused::Stale));
}

/// Does so many parts of the hand's work.
fn do_parts<P: Problem>(rt: &impl Abort, desk: &mut Desk<P>, count: usize) {
    for _ in 0..count {
        given(rt, desk.hand.part(&mut desk.core));
    }
}

/// Asserts that no part follows the last of four, and that only then the claim ends.
fn expect_four_parts<P: Problem>(rt: &(impl Abort + AllocGlobal), desk: &mut Desk<P>) {
    begin_work(rt, desk);
    expect_part(rt, desk, Ok(Parted::Lowered));
    expect_finish(rt, desk, Err(Refused::Stale));
    do_parts(rt, desk, 3);
    expect_part(rt, desk, Ok(Parted::NoPart));
    expect_finish(rt, desk, Ok(()));
}

/// Asserts what work of a claim still does after it: each part begins with the program loaded anew.
fn expect_work_of_claims<P: Problem>(rt: &(impl Abort + AllocGlobal), desk: &mut Desk<P>) {
    expect_stale_after_load(rt, desk);
    expect_work_that_goes_on(rt, desk);
    expect_stale_after_release(rt, desk);
    expect_stale_parts(rt, desk);
    expect_all_released(rt, desk);
    expect_four_parts(rt, desk);
}

#[test]
fn work_and_its_claim(rt: HostRuntime) {
    let mut desk: Desk<CopyConst> = Desk {
        core: Core::new(rt.alloc()),
        hand: Hand::new(0),
    };
    expect_work_of_claims(&rt, &mut desk);
}
