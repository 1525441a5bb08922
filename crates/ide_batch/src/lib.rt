//! What a store's records mean: how each is spelled as a record of the journal, and the image that
//! a list of them gives back.
#![tactic(auto)]

mod body;
mod coded;
mod entry;
mod groups;
mod items;
mod laws;
mod list;
mod members;
mod place;
mod raw;
mod record;
mod replay;
mod spelled;
mod writer;

pub use items::MOST;
pub use laws::{batches_lead, bodies_are_apart, groups_spell_lists, new_cores_are_empty};
pub use raw::{batch_to_raw, changed_to_raw, to_raw};
pub use record::Record;
pub use replay::{apply, apply_all};
pub use spelled::Spelled;
