//! The names that every crate of the solver shares: nodes, facts, keys of the tables, and the
//! refusals that calls answer.
//!
//! A [`Key`] names an entry of the solver's tables. Keys are ordered as records and dumps list
//! them: every `Jump` before every `Summary`, then by node, then by the first fact, then by the
//! second.
#![tactic(auto)]

mod key;
mod listing;
mod refused;
mod wire;

pub use key::{Fact, Key, Node};
pub use listing::Listing;
pub use refused::{Fault, Refused};
pub use wire::Wire;
