//! What an image has at each key: its function, whether it is pending, the claim of a hand on it, and
//! the entry that it had when changes were last asked for.
//!
//! A [`KeyedImage`] holds a function for each present key; an absent key stands for the function that
//! always gives top. Entries only fall: [`KeyedImage::lower`] meets one entry with a function, whose key
//! is pending then. A hand, numbered 0 to 63, claims a pending key with a task for it; the key stays
//! pending until the claim is finished. A key that is lowered while it is claimed marks the claim, and
//! is then still pending when the claim is finished. Once nothing is pending, [`Tables`] are what is
//! left to be read.
#![tactic(auto)]

mod bits;
mod change;
mod change_log;
mod changed_items;
mod changes;
mod claim;
mod claims;
mod entry;
mod functions;
mod grid;
mod indexed;
mod keyed_image;
mod mark;
mod marks;
mod noted_marks;
mod noted_slots;
mod ordered;
mod parts;
mod queue;
mod tables;

pub use change::Change;
pub use changed_items::ChangedItems;
pub use changes::Changes;
pub use claim::Claim;
pub use entry::Entry;
pub use keyed_image::KeyedImage;
pub use tables::Tables;
