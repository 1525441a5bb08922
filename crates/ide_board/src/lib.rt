//! The board: what stands between the lock of those who seal records and the lock of the one who
//! stores them.
//!
//! A [`Board`] has two words, how many records are sealed and how many are stored, and a flag to
//! stop. Who may change a word has a seat: one [`TableSeat`], which seals, one [`WriterSeat`], which
//! publishes, and a [`ClientSeat`] for each client, which asks how many records are stored and takes
//! no lock for it. A seat takes next to no memory when the program runs; contracts see in it the
//! records that it knows, and the calls of the board compare what the seats know.
#![tactic(auto)]

mod board;
mod naming;
mod plays;
mod seats;
mod view;

pub use board::Board;
pub use naming::Naming;
pub use plays::{Base, Shows};
pub use seats::{ClientSeat, TableSeat, WriterSeat};
