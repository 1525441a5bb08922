//! Tests of the solver's answers: from a text to its values, and against the definition by paths.
//!
//! They stand apart from `ide_solver` and `ide_plain`, since a crate that has tests is proved twice.
//! Calls with many clauses stand in small helpers that have none, and that borrow what they work on.
#![tactic(auto)]

#[cfg(test)]
mod tests;
