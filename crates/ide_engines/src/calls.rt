//! What tests ask of the half of a store that works.
use crate::hands::Hand;
use ide_problem::Problem;
use ide_store::TableHalf;
use ide_text::{Program, parse};
use ide_wire::{Key, Refused};
use ide_worked::EMPTY;
use std::alloc::Global;

/// The program of a text.
fn program_of(alloc: Global, text: &str) -> Result<Program, Refused> {
    let program = parse(alloc, text.as_bytes())?;
    Ok(program)
}

/// Loads a text, and answers the number of its record.
pub fn load<P: Problem>(
    alloc: Global,
    table: &mut TableHalf<P>,
    text: &str,
) -> Result<u64, Refused> {
    let ticket = table.load(program_of(alloc, text)?)?;
    Ok(ticket.number)
}

/// Makes the procedure of that name a root, and answers the number of its record.
pub fn root<P: Problem>(table: &mut TableHalf<P>, name: &str) -> Result<u64, Refused> {
    let ticket = table.root(name.as_bytes())?;
    Ok(ticket.number)
}

/// Loads a text, with `main` as its root.
pub fn begin<P: Problem>(
    alloc: Global,
    table: &mut TableHalf<P>,
    text: &str,
) -> Result<(), Refused> {
    load(alloc, table, text)?;
    root(table, "main")?;
    Ok(())
}

/// Seals what changed, and answers the number of its record, if anything did.
pub fn seal<P: Problem>(table: &mut TableHalf<P>) -> Result<Option<u64>, Refused> {
    match table.seal()? {
        Some(ticket) => Ok(Some(ticket.number)),
        None => Ok(None),
    }
}

/// Seals the run of an empty main: its load, its root and what its tasks changed. Answers whether there
/// were three tasks, and what they changed is record 2.
pub fn seal_empty_main<P: Problem>(
    alloc: Global,
    table: &mut TableHalf<P>,
) -> Result<bool, Refused> {
    begin(alloc, table, EMPTY)?;
    let tasks = Hand::new(0).drain(alloc, table)?;
    let sealed = seal(table)?;
    Ok(tasks == 3 && sealed == Some(2))
}

/// The present keys, each with its function and whether it is pending.
pub fn items_of<P: Problem>(table: &TableHalf<P>) -> Result<Vec<(Key, P::F, bool)>, Refused> {
    let items = table.core().items()?;
    Ok(items)
}
