//! Tests of hands and gates: a service that hands work on alone, as one or on threads, and what a gate stops.
//!
//! They stand apart from `ide_service`, since a crate that has tests is proved twice.
#![tactic(auto)]

#[cfg(test)]
mod tests;
