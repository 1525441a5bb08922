//! Tests of disks over files: over files of the system, and over a file in memory whose honesty is proved.
//!
//! They stand apart from `ide_file`, since a crate that has tests is proved twice.
#![tactic(auto)]

#[cfg(test)]
mod tests;
