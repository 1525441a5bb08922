//! A list of records on a disk, which any crash leaves whole, or with the record under way.
#![tactic(auto)]

mod disk_calls;
mod journal;
pub mod laws;
mod opening;
mod reading;
mod record;
mod spelling;
mod stage;
mod version;

pub use disk_calls::{cut_behind, read_all, rewrite};
pub use journal::Journal;
pub use opening::tag;
pub use reading::{are_zeros, framed_length, number_of, read_version};
pub use record::RawRecord;
pub use spelling::{padding, spell_header, spell_record};
pub use stage::Phase;
pub use version::Version;
