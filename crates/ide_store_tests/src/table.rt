//! The calls of the half that works: the numbers of their records, and which calls make none.
use crate::half::{expect_sealed, given};
use ide_engines::{Given, Hand, begin, load, root, seal};
use ide_instances::{CopyConst, ShiftConst, Uninit};
use ide_journal::Version;
use ide_problem::Problem;
use ide_steps::Parted;
use ide_store::TableHalf;
use ide_wire::{Fault, Refused};
use ide_worked::{EMPTY, RECURSION, TWO_CALLS};
use std::alloc::AllocGlobal;
use std::process::Abort;

/// Asserts the numbers of the records of a load, of a root, and of one more root once all tasks are done.
fn expect_tickets<P: Problem>(rt: &(impl Abort + AllocGlobal), table: &mut TableHalf<P>) {
    assert!(rt; load(rt.alloc(), table, RECURSION) == Ok(0));
    assert!(rt; root(table, "main") == Ok(1));
    given(rt, Hand::new(0).drain(rt.alloc(), table));
    assert!(rt; table.core().is_quiet());
    assert!(rt; root(table, "rec") == Ok(3));
    assert!(rt; seal(table) == Ok(None));
    expect_sealed(rt, table, 4);
    assert!(rt; table.core().roots() == [1, 0].as_slice());
}

// A root seals what changed before it: two roots and a load make four records, since work stands between.
#[test]
fn a_root_seals_what_changed_first(rt: HostRuntime) {
    let mut table: TableHalf<ShiftConst> = TableHalf::new(rt.alloc(), Version::Two);
    expect_tickets(&rt, &mut table);
}

/// Asserts that a store with no program has no roots, and that a text with a fault is not loaded.
fn expect_no_program<P: Problem>(rt: &(impl Abort + AllocGlobal), table: &mut TableHalf<P>) {
    let fault = Refused::Text {
        line: 2,
        fault: Fault::OutOfPlace,
    };
    assert!(rt; seal(table) == Ok(None));
    assert!(rt; root(table, "main") == Err(Refused::NoProgram));
    assert!(rt; load(rt.alloc(), table, "proc main\n") == Err(fault));
    assert!(rt; seal(table) == Ok(None));
    expect_sealed(rt, table, 0);
}

/// Asserts what roots are refused over the program with two calls.
fn expect_no_roots<P: Problem>(rt: &impl Abort, table: &mut TableHalf<P>) {
    assert!(rt; root(table, "none") == Err(Refused::NoProcedure));
    assert!(rt; root(table, "id") == Err(Refused::HasParameters));
    assert!(rt; root(table, "main") == Err(Refused::Already));
}

/// Asserts that nothing changed, and that a claim and its release change nothing.
fn expect_nothing_changed<P: Problem>(rt: &(impl Abort + AllocGlobal), table: &mut TableHalf<P>) {
    let mut hand = Hand::new(63);
    assert!(rt; seal(table) == Ok(None));
    assert!(rt; hand.claim(rt.alloc(), table) == Ok(Given::Task));
    assert!(rt; seal(table) == Ok(None));
    assert!(rt; hand.release(table) == Ok(()));
    assert!(rt; seal(table) == Ok(None));
}

/// Asserts that what is refused seals nothing, where nothing changed and where something did: each record has
/// the next number.
fn expect_no_records<P: Problem>(rt: &(impl Abort + AllocGlobal), table: &mut TableHalf<P>) {
    expect_no_program(rt, table);
    given(rt, begin(rt.alloc(), table, TWO_CALLS));
    expect_no_roots(rt, table);
    expect_nothing_changed(rt, table);
    given(rt, Hand::new(0).drain(rt.alloc(), table));
    expect_no_roots(rt, table);
    assert!(rt; seal(table) == Ok(Some(2)));
    assert!(rt; seal(table) == Ok(None));
    expect_sealed(rt, table, 3);
}

// What changes nothing makes no record, and neither does what is refused.
#[test]
fn refused_calls_make_no_record(rt: HostRuntime) {
    let mut table: TableHalf<CopyConst> = TableHalf::new(rt.alloc(), Version::Two);
    expect_no_records(&rt, &mut table);
}

/// Asserts that a load drops what was not sealed, with its claims, and makes one record.
fn expect_loads_again<P: Problem>(rt: &(impl Abort + AllocGlobal), table: &mut TableHalf<P>) {
    given(rt, begin(rt.alloc(), table, TWO_CALLS));
    let mut hand = Hand::new(0);
    assert!(rt; hand.claim(rt.alloc(), table) == Ok(Given::Task));
    assert!(rt; hand.part(table) == Ok(Parted::Lowered));
    assert!(rt; load(rt.alloc(), table, EMPTY) == Ok(2));
    assert!(rt; hand.part(table) == Err(Refused::Stale));
    assert!(rt; seal(table) == Ok(None));
    assert!(rt; root(table, "main") == Ok(3));
    expect_sealed(rt, table, 4);
    assert!(rt; Hand::new(0).drain(rt.alloc(), table) == Ok(3));
}

// The program that was loaded last is the store's.
#[test]
fn a_load_begins_anew(rt: HostRuntime) {
    let mut table: TableHalf<Uninit> = TableHalf::new(rt.alloc(), Version::Two);
    expect_loads_again(&rt, &mut table);
}
