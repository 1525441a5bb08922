//! Values of facts by their definition alone: walks along the valid paths of a supergraph, one edge
//! at a time, each with the environment that its edges make, and the meet of what arrives.
//!
//! It is slow, and knows no jump function, no summary and no table: it is there so that tests can
//! hold the answers of the solver against it. [`value_after`] and [`environment_after`] are proved
//! to give the effect of an edge that the definitions of `ide_theory` speak of.
#![tactic(auto)]

mod agreement;
mod effect;
mod walk;
mod walks;

pub use agreement::agrees;
pub use effect::{environment_after, value_after};
pub use walks::values_of_paths;
