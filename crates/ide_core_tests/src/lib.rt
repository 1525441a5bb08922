//! Tests of what an image has at each key, of the core: its tables, its claims, and hands that work in turns; and
//! of records: how worked programs' batches are spelled, and what records do to a core.
//!
//! A proof of a test costs time for each clause of each call and for each way out of a function, and a crate with
//! tests is proved twice: so the tests of these crates stand here, above them all, and each file has the tests of
//! one subject. Calls with many clauses stand in small helpers that have none, that take any problem and that
//! borrow what they work on. No helper hands a refusal on that is not what a test asks for: it ends the test.
#![tactic(auto)]

#[cfg(test)]
mod tests;
