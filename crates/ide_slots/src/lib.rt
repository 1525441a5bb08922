//! Two slots, each a file of records on a disk of its own, one of which is current.
//!
//! A slot may begin with a checkpoint: the commands of the records before it, and the image that they
//! led to, in parts; then come the records behind it. The next checkpoint goes into the other slot,
//! while the current one stays as it is, and at the end the other is current. So no slot keeps the
//! batches before its checkpoint.
//!
//! The definitions say what a slot holds and when it is open (`specs/Slot`), which of two an opening
//! takes (`specs/Sides`), what the calls of a checkpoint are and what is known between them
//! (`specs/Filling`), where the writer stands (`specs/Two`), and what its calls do, good, failed or cut
//! off by a crash (`specs/TwoCalls`); and the functions of [`laws`] do nothing but carry the laws of
//! them as their contracts. The code spells and reads first pages, tells which of two slots is
//! current, and reads a slot from its bytes. It knows of no images, and takes the bodies of records as
//! they are.
#![tactic(auto)]

mod current;
mod head;
pub mod laws;
mod reading;
mod record;
mod side;

pub use current::{Current, choose_slot, find_current};
pub use head::{SlotHead, read_head, spell_head};
pub use reading::{LoadedSlot, read_slot};
pub use record::NumberedRecord;
pub use side::Side;
