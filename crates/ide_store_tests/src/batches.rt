//! Batches: no more keys change between two records than a batch may have.
//!
//! The program is as wide as a text may be, so that a few tasks change so many keys: the tests are also
//! run with checks and unproved, where a task costs a thousand times as much.
use crate::half::{add_locals, given};
use ide_engines::{Given, Hand, load, root, seal};
use ide_instances::CopyConst;
use ide_journal::Version;
use ide_problem::Problem;
use ide_steps::Parted;
use ide_store::TableHalf;
use ide_wire::Refused;
use std::alloc::{AllocError, AllocGlobal, Global};
use std::process::Abort;

/// How many procedures have locals.
const WIDE: usize = 16;

/// How many locals each of them has. With `@zero` and `@result` these are 4,096 facts, which begin at its start.
const LOCALS: usize = 4094;

/// Adds so many procedures with locals and no statement.
fn add_procedures(text: &mut String, count: usize) -> Result<(), AllocError> {
    for number in 0..count {
        writeln!(text, "proc p{number}")?;
        add_locals(text, LOCALS)?;
        text.push_str("end\n")?;
    }
    Ok(())
}

/// Adds so many procedures with locals, and an empty `main` behind them.
fn add_wide(text: &mut String, count: usize) -> Result<(), AllocError> {
    add_procedures(text, count)?;
    text.push_str("proc main\nend\n")?;
    Ok(())
}

/// The name of the procedure of that number.
fn name_of(alloc: Global, number: usize) -> Result<String, Refused> {
    let name = format!(in alloc; "p{number}")?;
    Ok(name)
}

/// Makes so many procedures roots, the last first.
fn root_all<P: Problem>(rt: &(impl Abort + AllocGlobal), table: &mut TableHalf<P>, count: usize) {
    for number in (0..count).rev() {
        let name = given(rt, name_of(rt.alloc(), number));
        given(rt, root(table, name.as_str()));
    }
}

/// Loads the program, and makes each procedure a root.
fn begin_wide<P: Problem>(rt: &(impl Abort + AllocGlobal), table: &mut TableHalf<P>) {
    let mut text = String::new(rt.alloc());
    assert!(rt; add_wide(&mut text, WIDE).is_ok());
    assert!(rt; load(rt.alloc(), table, text.as_str()) == Ok(0));
    assert!(rt; root(table, "main") == Ok(1));
    root_all(rt, table, WIDE);
    assert!(rt; seal(table) == Ok(None));
}

/// The hand of that number, with a claim.
fn claimed<P: Problem>(
    rt: &(impl Abort + AllocGlobal),
    table: &mut TableHalf<P>,
    number: usize,
) -> Hand<P> {
    let mut hand = Hand::new(number);
    assert!(rt;
        hand.claim(rt.alloc(), table) == Ok(Given::Task),
        "hand {number}"
    );
    hand
}

/// Adds a hand to those that are there.
fn add<P: Problem>(hands: &mut Vec<Hand<P>>, hand: Hand<P>) -> Result<(), Refused> {
    hands.push(hand)?;
    Ok(())
}

/// So many hands, each with a claim.
fn claim_all<P: Problem>(
    rt: &(impl Abort + AllocGlobal),
    table: &mut TableHalf<P>,
    count: usize,
) -> Vec<Hand<P>> {
    let mut hands = Vec::new(rt.alloc());
    for number in 0..count {
        given(rt, add(&mut hands, claimed(rt, table, number)));
    }
    hands
}

/// Asserts that each hand does 4,096 parts.
fn expect_parts<P: Problem>(rt: &impl Abort, table: &mut TableHalf<P>, hands: &mut [Hand<P>]) {
    for hand in hands {
        assert!(rt; hand.parts(table, 5000) == Ok(4096));
    }
}

/// Asserts what the end of each hand's claim gives.
fn expect_ends<P: Problem>(
    rt: &impl Abort,
    table: &mut TableHalf<P>,
    hands: &mut [Hand<P>],
    want: Result<(), Refused>,
) {
    for hand in hands {
        assert!(rt; hand.finish(table) == want);
    }
}

/// Asserts that a part and ends of claims are refused over as many changed keys as a batch may have, and that
/// this changes nothing.
fn expect_full<P: Problem>(
    rt: &impl Abort,
    table: &mut TableHalf<P>,
    hands: &mut [Hand<P>],
    last: &mut Hand<P>,
) {
    expect_parts(rt, table, hands);
    assert!(rt; table.core().changed_count() == 65536);
    assert!(rt; last.part(table) == Err(Refused::Limit));
    assert!(rt; last.finish(table) == Err(Refused::Stale));
    expect_ends(rt, table, hands, Err(Refused::Limit));
    assert!(rt; last.part(table) == Err(Refused::Limit));
    assert!(rt; table.core().changed_count() == 65536);
    assert!(rt; table.core().key_count() == 65536 + 17);
}

/// Asserts that both are done once what changed is sealed, as one record.
fn expect_room<P: Problem>(
    rt: &impl Abort,
    table: &mut TableHalf<P>,
    hands: &mut [Hand<P>],
    last: &mut Hand<P>,
) {
    assert!(rt; seal(table) == Ok(Some(18)));
    assert!(rt; last.part(table) == Ok(Parted::Lowered));
    expect_ends(rt, table, hands, Ok(()));
    assert!(rt; table.core().changed_count() == 17);
    assert!(rt; seal(table) == Ok(Some(19)));
}

/// Asserts it of a half with no program.
fn expect_full_batch<P: Problem>(rt: &(impl Abort + AllocGlobal), table: &mut TableHalf<P>) {
    begin_wide(rt, table);
    let mut hands = claim_all(rt, table, WIDE);
    let mut last = claimed(rt, table, WIDE);
    expect_full(rt, table, hands.as_mut_slice(), &mut last);
    expect_room(rt, table, hands.as_mut_slice(), &mut last);
}

// The step that would change key 65,537 is refused until what changed is sealed, be it a part or an end.
#[test]
fn a_full_batch_is_sealed_before_one_key_more(rt: HostRuntime) {
    let mut table: TableHalf<CopyConst> = TableHalf::new(rt.alloc(), Version::Two);
    expect_full_batch(&rt, &mut table);
}
