//! Tests of a list of records on two disks.
//!
//! They stand apart from `ide_slot_journal`, since a crate that has tests is proved twice.
#![tactic(auto)]

#[cfg(test)]
mod tests;
