//! A store on two disks: the writer that keeps it.
//!
//! The world of a store on two disks (`ide_store`'s `specs/TwoDisks`) says what may happen to two slots
//! and their writer, and what an opening gives back. Each call of a journal on two disks is an event of
//! that world, after which the journal stands behind the records again (`specs/Writing`). The half of a
//! store that writes, [`SlotWriterHalf`], takes sealed records to the current disk and checkpoints to
//! the other, and each of its steps is such an event (`specs/Half`). A [`SlotEngine`] has that half and
//! the one that works, and each call of it is some acts of such a world (`specs/Engine`).
#![tactic(auto)]

mod adopting;
mod batches;
mod checkpointing;
mod commands;
mod engine;
mod laws;
mod parts;
mod planning;
mod storing;
mod working;
mod writer;

pub use engine::SlotEngine;
pub use laws::{
    slot_checkpoints_begin, slot_engines_stay_on_runs, slot_halves_open, slot_journals_write_stores,
};
pub use parts::{image_parts, image_parts_make_checkpoints};
pub use writer::SlotWriterHalf;
