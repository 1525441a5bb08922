//! A run in a store that several hands and clients share ([`Service`]): how hands work on it, what it
//! answers, and what is so of every run that a store keeps ([`every_run`]). The solver of a text in
//! memory, [`solve`], stands in a crate of its own and is given out again.
#![tactic(auto)]

mod answers;
mod apart;
mod committing;
mod desk;
mod draining;
mod half;
mod hands;
mod patience;
mod progress;
mod runs;
mod service;
mod sharing;
mod storing;
mod together;

pub use answers::{values_of_service, values_of_table};
pub use apart::Span;
pub use hands::{Ended, Gate, Hands, Open, Point, hand_loop};
pub use ide_solver::{solve, solve_shared, values_of, values_shared};
pub use progress::Progress;
pub use runs::{every_run, every_run_on_two_disks, values_of_runs_are_best};
pub use service::Service;
pub use storing::store_all;
pub use together::{Crew, Team, work_together};
