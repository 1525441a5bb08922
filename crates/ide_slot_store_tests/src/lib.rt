//! Tests of a store that works and writes on two disks.
//!
//! They stand apart from `ide_slot_store`, since a crate that has tests is proved twice.
#![tactic(auto)]

#[cfg(test)]
mod adopting;
#[cfg(test)]
mod checkpoints;
#[cfg(test)]
mod engine;
#[cfg(test)]
mod failures;
#[cfg(test)]
mod harms;
#[cfg(test)]
mod kept;
#[cfg(test)]
mod openings;
#[cfg(test)]
mod parts;
#[cfg(test)]
mod stops;
#[cfg(test)]
mod turns;
#[cfg(test)]
mod versions;
