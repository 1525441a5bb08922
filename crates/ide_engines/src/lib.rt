//! What tests of stores ask of the half of a store that works, and the hands that work with it.
//!
//! They stand in a library, so that they are proved once and not with each crate of tests. A library
//! does not abort: what a test is to see is answered, and the test asserts it.
#![tactic(auto)]

mod calls;
mod hands;

pub use calls::{begin, items_of, load, root, seal, seal_empty_main};
pub use hands::{Given, Hand};
