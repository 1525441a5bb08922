//! Tests of boards: the worked row, a client that orders records, and a writer and a client on threads.
//!
//! They stand apart from `ide_board`, since a crate that has tests is proved twice.
#![tactic(auto)]

#[cfg(test)]
mod tests;
