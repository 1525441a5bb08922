//! What the commands of the program do, over any disk, and what they print.
//!
//! [`check`] counts what a text's program has. [`create`] and [`open`] make and open a store of one of the
//! program's analyses on two disks, and [`adopt`] goes on with one that stands on one disk. [`call`] makes the
//! calls of a command on an open store by one hand, [`end_work`] ends the work of several, and [`write_dump`]
//! writes a dump that no memory has whole.
#![tactic(auto)]

mod calls;
mod counts;
mod lines;
mod status;
mod stores;

pub use calls::{end_work, write_dump};
pub use counts::check;
pub use stores::{Store, adopt, call, create, open};
