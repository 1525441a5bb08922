//! Numbers at keys, in pages.
//!
//! A [`Pages`] holds a number for each key; an absent key has 0. A page has the cells of 64 keys: of jumps between one
//! pair of facts, at nodes that stand side by side, or of summaries over one call from one fact, to facts that stand side by
//! side. So the numbers of a pair at the nodes of a procedure lie together, and those of a call, and one look-up leads to
//! all 64. The pages of one row stand side by side: from a node and a fact it leads to all keys between them and another
//! fact. A cell keeps its place, by which it is read and written with no look-up, and has one byte until one has to have
//! more.
#![tactic(auto)]

mod cell_numbers;
mod cells;
mod keys;
mod pages;
mod row;
mod rows;

pub use keys::offset_of;
pub use pages::Pages;
