//! Desks: what lies under the two locks of a service that several workers and clients share.
//!
//! A [`TableDesk`] has the half of a store that works, and a [`WriterDesk`] the half that writes, each beside
//! its seat of one board (`ide_board`). So those who work need not wait for a disk, and what a client learns
//! from the board is what the disks keep: each desk says of its own half what holds whatever the other does
//! meanwhile (`specs/Keeping`), and where records are handed over, or a checkpoint is planned, both are lent
//! and are at work on one run again.
#![tactic(auto)]

mod accord;
mod checkpointing;
mod handing;
mod laws;
mod opened;
mod rejoined;
mod switch;
mod table;
mod writer;

pub use accord::Accord;
pub use laws::{halves_meet, runs_are_live};
pub use opened::Opened;
pub use table::{SealedRecord, TableDesk};
pub use writer::{Stepped, WriterDesk};
