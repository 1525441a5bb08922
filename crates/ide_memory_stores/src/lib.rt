//! Stores on two disks in memory, opened with a board for hands and clients, as tests of services ask for them.
//!
//! They stand in a library, so that they are proved once and not with each crate of tests. A library
//! does not abort: a call that is refused says so, and the test asserts that it is not.
#![tactic(auto)]

mod stores;

pub use stores::{
    Client, OpenedStore, Store, begun, open, opened, opened_failing, opened_for_client,
    opened_for_two, opened_new, with_board,
};
