//! Tests of slots.
//!
//! They stand apart from `ide_slots`, since a crate that has tests is proved twice.
#![tactic(auto)]

#[cfg(test)]
mod tests;
