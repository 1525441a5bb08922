//! Value lattices and edge functions, the two algebras of an interprocedural distributive
//! environment problem (Sagiv, Reps and Horwitz, Theoretical Computer Science 167, 1996).
//!
//! An analysis gives a [`Lattice`] of values and an [`EdgeFn`], the coded functions over it that
//! edges carry. Both are small values, copied and compared freely.
#![tactic(auto)]

mod edge_fn;
mod lattice;
mod meets;

pub use edge_fn::EdgeFn;
pub use lattice::Lattice;
pub use meets::value_of_meet;
