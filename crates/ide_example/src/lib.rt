//! An analysis of one's own: which variables may hold what came from an input.
//!
//! An input is `x = ?`. [`Inputs`] gives the solver what every analysis has to give: a lattice of
//! values ([`Origin`]), the functions over it that edges carry ([`Carry`]), and the flow of facts
//! over each edge, each with its laws. [`may_be_input`] asks for one value. docs/GUIDE.md walks
//! through these files.
#![tactic(auto)]

mod asked;
mod carry;
mod inputs;
mod origin;

pub use asked::{Place, may_be_input};
pub use carry::Carry;
pub use inputs::Inputs;
pub use origin::Origin;
