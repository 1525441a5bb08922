//! Tests of program texts, of the graphs of programs, and of the analyses' values and functions.
//!
//! They stand apart from `ide_text`, `ide_graph` and `ide_instances`, since a crate that has tests is
//! proved twice.
#![tactic(auto)]

#[cfg(test)]
mod tests;
