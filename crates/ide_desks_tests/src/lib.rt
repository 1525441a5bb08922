//! Tests of desks: runs in which the half that works and the half that writes go on apart.
//!
//! They stand apart from `ide_desks`, since a crate that has tests is proved twice.
#![tactic(auto)]

#[cfg(test)]
mod tests;
