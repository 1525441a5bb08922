//! The store: what is left of a run that is stopped, or crashes, at any moment.
//!
//! The definitions say what a store of records is to those above it (`specs/Store`), what may happen to
//! a machine whose steps it keeps, and what an opening gives back (`specs/World`). A journal on one disk
//! is such a store (`specs/OneDisk`), and the images of an analysis with the bodies of their records are
//! such a machine (`specs/Machine`). With the hands that claim keys, do parts and seal what changed
//! (`specs/Hands`) its answers are best (`specs/Answers`). The model of crashes is that of the disk: a
//! crash may come between any two calls and within each, an opening's among them. The calls of the
//! journal are the events of such a store (`specs/Writing`). Two slots on two disks are one as well
//! (`specs/TwoDisks`), and each law of a store holds wherever it stands (`specs/Places`). The calls of the
//! half of an engine that works ([`TableHalf`], `specs/TableCalls`, `specs/Draining`) are what hands do;
//! the half that writes, and the engine that has both, stand in `ide_slot_store`.
#![tactic(auto)]

mod draining;
mod handing;
mod kept;
mod laws;
mod opening;
mod outbox;
mod sealing;
mod table;

pub use kept::Kept;
pub use laws::{
    acts_leave_disks, calls_are_acts, every_run_answers, every_run_answers_on_two_disks,
    every_run_recovers, every_run_recovers_on_two_disks, frozen_images_answer, halves_begin,
    journals_write_stores, two_disks_are_a_store,
};
pub use outbox::{MOST_RECORDS, Ticket};
pub use table::TableHalf;
