//! The words of the command line: which commands the program has, and which of them a line gives.
//!
//! `clap` reads a line by the commands that `commands` declares, and [`read_words`] answers the
//! command that it finds, with its words. What a line means is said in `specs/Commands` and
//! `specs/Line`; what a command does is the program's.
#![tactic(auto)]

mod commands;
mod words;

pub use words::{Instance, NAMES, StoreCommand, Words, read_words};
