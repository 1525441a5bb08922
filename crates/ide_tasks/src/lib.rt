//! Tasks of the solver and the parts that each owes.
//!
//! A [`Task`] is a claimed key with all that its parts depend on: the key's function, the site of
//! its node and its partners. [`Work`] is a task with its parts computed, each a key and the
//! function that its entry is to be met with. The rules are those of the tabulation algorithm
//! for interprocedural distributive environment problems (Sagiv, Reps and Horwitz, Theoretical
//! Computer Science 167, 1996). Computing parts takes no lock: a task stands for itself.
//!
//! [`Sources`] is the inverse of the call flow of a program: at an exit it gives the facts at each
//! caller that reach a fact at the procedure's start.
#![tactic(auto)]

mod part_list;
mod partners;
mod parts;
mod source_list;
mod sources;
mod task;
mod work;

pub use part_list::{PartList, passes_behind};
pub use partners::{PartnerLists, Partners, Reaching};
pub use source_list::LentSources;
pub use sources::{Source, Sources};
pub use task::Task;
pub use work::Work;
