//! A list of records on two disks, of which one is current.
//!
//! A record goes onto the current disk by four disk calls. A checkpoint of the records goes onto the other
//! disk, which is current from its last disk call on. Any crash leaves the list whole, or with the record
//! under way.
#![tactic(auto)]

mod adopting;
mod calls;
mod filler;
mod journal;
mod opening;
mod planning;
mod stage;
mod tag;

pub use adopting::put_closed;
pub use journal::SlotJournal;
pub use tag::current_tag;
