//! Tests of services: clients who order commands, and a committer.
//!
//! They stand apart from `ide_service`, since a crate that has tests is proved twice.
#![tactic(auto)]

#[cfg(test)]
mod clients;
#[cfg(test)]
mod committers;
#[cfg(test)]
mod services;
