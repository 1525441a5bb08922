//! What the tests of the half that works share. A test ends where a call is refused that is not to be.
use ide_problem::Problem;
use ide_store::TableHalf;
use ide_wire::Refused;
use std::alloc::{AllocError, AllocGlobal};
use std::collections::VecDeque;
use std::process::Abort;

/// What a call gave that is not to be refused.
pub(crate) fn given<T>(rt: &impl Abort, found: Result<T, Refused>) -> T {
    found.expect(rt, "this is not to be refused")
}

/// Adds the declarations of so many locals.
pub(crate) fn add_locals(text: &mut String, count: usize) -> Result<(), AllocError> {
    for number in 0..count {
        writeln!(text, "var v{number}")?;
    }
    Ok(())
}

/// Asserts that so many records were sealed, and that as many are handed over to a writer.
pub(crate) fn expect_sealed<P: Problem>(
    rt: &(impl Abort + AllocGlobal),
    table: &mut TableHalf<P>,
    records: usize,
) {
    let mut queue = VecDeque::new(rt.alloc());
    table.hand_over(&mut queue);
    assert!(rt; queue.len() == records);
    assert!(rt; table.sealed() == records as u64);
}
