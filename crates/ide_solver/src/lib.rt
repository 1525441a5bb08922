//! The solver: from the bytes of a text to the bytes of its answers.
//!
//! ```text
//! let mut out = Vec::new(alloc);
//! solve::<CopyConst>(alloc, b"proc main\nvar x\nx = 5\nend\n", &[b"main"], &mut out)?;
//! ```
#![tactic(auto)]

mod shown;
mod solver;

pub use shown::Shown;
pub use solver::{solve, solve_onto, solve_shared, values_of, values_shared};
