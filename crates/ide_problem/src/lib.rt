//! What an analysis gives the solver: a lattice, its edge functions, and the flow over each edge.
//!
//! A [`Problem`] states, for an edge of the supergraph and a fact at its source, which facts at
//! its end depend on that fact and by which functions. That is the pointwise representation of
//! Sagiv, Reps and Horwitz (Theoretical Computer Science 167, 1996). What all instances share,
//! the flow over calls and returns and the shape of an assignment, stands here too.
#![tactic(auto)]

mod problem;
mod shared;
mod target_list;

pub use problem::Problem;
pub use shared::{add_targets, unchanged_over};
pub use target_list::TargetList;
