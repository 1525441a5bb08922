//! Tests of the half of a store that works, by itself: with no engine and no disk.
//!
//! They stand apart from `ide_store`, since a crate that has tests is proved twice.
#![tactic(auto)]

#[cfg(test)]
mod batches;
#[cfg(test)]
mod draining;
#[cfg(test)]
mod half;
#[cfg(test)]
mod table;
