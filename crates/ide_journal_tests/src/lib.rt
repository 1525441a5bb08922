//! Tests of disks and of journals on them.
//!
//! They stand apart from `ide_disk` and `ide_journal`, since a crate that has tests is proved twice.
#![tactic(auto)]

#[cfg(test)]
mod tests;
