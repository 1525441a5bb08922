//! How refusals and faults are printed: the texts that users see, which never change.
use ide_wire::{Fault, Refused};
use std::process::Abort;

/// Asserts that a refusal is printed so.
fn expect_shown(rt: &(impl Abort + AllocGlobal), refused: Refused, text: &str) {
    match format!(in rt.alloc(); "{refused}") {
        Ok(shown) => assert!(rt; shown.as_str() == text, "{text}"),
        Err(_) => panic!(rt; "no memory"),
    }
}

#[test]
fn refusals_are_printed_so(rt: HostRuntime) {
    expect_shown(&rt, Refused::NoMemory, "E1 no memory");
    expect_shown(&rt, Refused::Disk, "E2 disk");
    expect_shown(&rt, Refused::Failed, "E3 failed");
    expect_shown(&rt, Refused::NotAStore, "E4 not a store");
    expect_shown(&rt, Refused::WrongInstance, "E5 wrong instance");
    expect_shown(&rt, Refused::Damaged(7), "E6 damaged record 7");
    expect_shown(&rt, Refused::NoProgram, "E8 no program");
    expect_shown(&rt, Refused::NoProcedure, "E9 no procedure");
    expect_shown(&rt, Refused::HasParameters, "E10 has parameters");
    expect_shown(&rt, Refused::Already, "E11 already");
    expect_shown(&rt, Refused::Unfinished, "E12 unfinished");
    expect_shown(&rt, Refused::Stale, "E13 stale");
    expect_shown(&rt, Refused::Busy, "E14 busy");
    expect_shown(&rt, Refused::Limit, "E15 limit");
    expect_shown(&rt, Refused::OutOfRange, "E16 out of range");
}

/// Asserts that a fault of line 3 is printed with that number.
fn expect_fault_shown(rt: &(impl Abort + AllocGlobal), fault: Fault, number: u32) {
    let text = match format!(in rt.alloc(); "E7 line 3 fault F{number}") {
        Ok(text) => text,
        Err(_) => panic!(rt; "no memory"),
    };
    expect_shown(rt, Refused::Text { line: 3, fault }, text.as_str());
}

#[test]
fn faults_are_printed_so(rt: HostRuntime) {
    expect_fault_shown(&rt, Fault::TextTooLong, 1);
    expect_fault_shown(&rt, Fault::NoSuchLine, 2);
    expect_fault_shown(&rt, Fault::OutOfPlace, 3);
    expect_fault_shown(&rt, Fault::TooMany, 4);
    expect_fault_shown(&rt, Fault::DeclaredTwice, 5);
    expect_fault_shown(&rt, Fault::NoSuchVariable, 6);
    expect_fault_shown(&rt, Fault::NoSuchLabel, 7);
    expect_fault_shown(&rt, Fault::NoSuchProcedure, 8);
    expect_fault_shown(&rt, Fault::WrongArguments, 9);
    expect_fault_shown(&rt, Fault::WrongCallees, 10);
}
