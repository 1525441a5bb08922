//! Values: from a quiet image to the value of each fact at each node.
//!
//! The second phase of the algorithm of Sagiv, Reps and Horwitz (Theoretical Computer Science
//! 167, 1996). Start values go through jump functions at call nodes and call flows to callees'
//! starts until nothing changes; then each jump function, applied to its start value, lowers the
//! value where it ends. This fill may be shared by several threads, and the values are the same.
#![tactic(auto)]

mod call_pages;
mod chunks;
mod columns;
mod dump;
mod enter;
mod fill;
mod laws;
mod line_text;
mod passes;
mod rows;
mod share;
mod shared_fill;
mod starts;
mod stretches;
mod values;

pub use laws::{dumps_of_best_are_best, following_values_are_best};
pub use shared_fill::FillGate;
pub use values::{ValuePhase, Values, check_workers};
