//! The solver: one [`Core`] with its tables and its worklist, and the steps that workers take.
//!
//! A hand claims a pending key and gets its task, computes the task's parts, gives each to the
//! tables and finishes; or it releases the claim. Each call is one step: it either answers a
//! refusal and leaves everything as it was, or does what it says at once. [`Core::drain`] takes
//! all the steps that are left with one hand. [`Core::items`] lists the image; [`Core::set`], which
//! makes an image again from such a list, is the one call that is no step.
#![tactic(auto)]

mod claim;
mod closed;
mod drain;
mod finish;
mod items;
mod laws;
mod loaded;
mod machine;
mod part;
mod program_text;
mod root;
mod sources;
mod walk;

pub use claim::Claimed;
pub use closed::Closed;
pub use drain::{NextKey, is_lowered_too};
pub use laws::{calls_are_steps, cores_are_whole, images_have_room, tasks_owe_their_parts};
pub use loaded::Loaded;
pub use machine::{Core, HANDS};
pub use part::Parted;
pub use program_text::ProgramText;
